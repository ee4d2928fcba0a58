// Texts put into a lent buffer. Each function writes its text from a place on, as far as the buffer goes, and answers the
// place after it; so a write into an empty buffer is a dry run. Rests on network for how a list of names is written.
#![tactic(auto)]

ghost use Rattle.std.specs.Prelude.{[], ◌∷◌, map, true, ◌+◌, ◌*◌, ◌≤◌, length};
ghost use Rattle.limits.specs.Limits.{max_name};
ghost use Rattle.names.specs.Pack.{name_of};
ghost use Rattle.rows.specs.Digits.{digit};
ghost use Rattle.network.specs.Printer.{led, led_all};
ghost use Rattle.emit.specs.Written.{reach, item_room, Written};

pub fn put_byte(buf: &mut [u8], at: usize, b: u8) -> usize
    requires { at + 1 ≤ reach }
    ensures { Written 1 buf.old buf.new at result (b ∷ []) }
{
    if at < buf.len() {
        buf[at] = b;
    }
    at + 1
}

pub fn put_text(buf: &mut [u8], at: usize, s: &[u8]) -> usize
    requires { at + length s.now ≤ reach }
    ensures { Written (length s.now) buf.old buf.new at result s.now }
{
    let mut p = at;
    for b in s {
        p = put_byte(buf, p, *b);
    }
    p
}

// The digit of a truth value.
pub fn put_digit(buf: &mut [u8], at: usize, b: bool) -> usize
    requires { at + 1 ≤ reach }
    ensures { Written 1 buf.old buf.new at result (digit b ∷ []) }
{
    put_byte(buf, at, b'0' + u8::from(b))
}

// The name v.
pub fn put_name(buf: &mut [u8], at: usize, v: u64) -> usize
    requires { at + max_name ≤ reach }
    ensures { Written max_name buf.old buf.new at result (name_of v) }
{
    let mut p = at;
    let mut rest = v;
    // A `while`: it takes the bytes off the number one by one, and counts nothing.
    while rest != 0 {
        p = put_byte(buf, p, (rest % names::BASE) as u8);
        rest /= names::BASE;
    }
    p
}

// The name v as an item of a list: a space stands before it unless it is the first.
fn put_led(buf: &mut [u8], at: usize, first: bool, v: u64) -> usize
    requires { at + item_room ≤ reach }
    ensures { Written item_room buf.old buf.new at result (led first (name_of v)) }
{
    if first {
        return put_name(buf, at, v);
    }
    let p = put_byte(buf, at, b' ');
    put_name(buf, p, v)
}

// The names ns as the items of a list.
pub fn put_names(buf: &mut [u8], at: usize, ns: &[u64]) -> usize
    requires { at + item_room * length ns.now ≤ reach }
    ensures { Written (item_room * length ns.now) buf.old buf.new at result (led_all true (map name_of ns.now)) }
{
    let mut p = at;
    for (i, v) in ns.iter().enumerate() {
        p = put_led(buf, p, i == 0, *v);
    }
    p
}
