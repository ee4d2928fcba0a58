// The names that the lines of a network sheet list, and its lines, each read beside a design: a lut line, a node line and the
// count line. Digits are not copied: a line's answer is the place where they stand. Rests on cursor for the items of a line.
#![tactic(auto)]

ghost use Rattle.std.specs.Prelude.{◌≡◌, true, [], ◌∷◌, ◌++◌, map, ℕ, ◌+◌, ◌≤◌, ◌<◌, ◌^◌, length, get_or, take, drop};
ghost use Rattle.limits.specs.Limits.{max_inputs, max_bound, max_cells};
ghost use Rattle.text.specs.Bytes.{eat, same, whole};
ghost use Rattle.names.specs.Pack.{name_of};
ghost use Rattle.cursor.specs.Item.{MovedIs};
ghost use Rattle.sheet.specs.Lines.{closed};
ghost use Rattle.classes.specs.Columns.{free};
ghost use Rattle.network.specs.Shown.{max_names, item, shown};
ghost use Rattle.network.specs.Printer.{led, lut_name, print_count};
ghost use Rattle.network.specs.Given.{read_given, read_item, read_givens};
ghost use Rattle.network.specs.Reader.{read_digits, read_inputs, read_lut_head, read_reads, read_lut, read_node_head, read_node};
ghost use Rattle.network.specs.LineAnswer.{eat_digit, eat_digits, TableIs, ReadsAre, NodeIs};

use cursor::Cursor;

// A node line: a mask of the shared tables that it reads, and where its digits stand.
#[derive(Clone, Copy)]
pub struct NodeLine {
    pub mask: u8,
    pub at: usize,
}

// The shared tables of a node's list: a mask, how many they are, and the place after them.
#[derive(Drop)]
struct Reads {
    mask: u8,
    count: usize,
    next: Cursor,
}

// The most names of a list: a node lists the shared tables that it reads, then the free inputs.
pub const MAX_NAMES: usize = limits::MAX_CELLS + limits::MAX_INPUTS;

// Names in a row: how many, and the numbers that hold them.
#[derive(Clone, Copy)]
pub struct Names {
    pub count: usize,
    pub list: [u64; MAX_NAMES],
}

// The names ns, and the name v after them.
pub fn pushed(mut ns: Names, v: u64) -> Names
    requires { ns.count < max_names }
    ensures { (shown result ≡ shown ns ++ (name_of v ∷ [])) × (result.count ≡ ns.count + 1) }
{
    ns.list[ns.count] = v;
    ns.count += 1;
    ns
}

pub fn no_names() -> Names
    ensures { (shown result ≡ []) × (result.count ≡ 0) }
{
    Names {
        count: 0,
        list: [0; MAX_NAMES],
    }
}

// The name at a place among the inputs.
fn input_name(names: [u64; limits::MAX_INPUTS], p: usize) -> u64
    ensures { result ≡ get_or names p 0 }
{
    names.get(p).copied().unwrap_or(0)
}

// The names at the first n places of a list.
pub fn bound_names(
    names: [u64; limits::MAX_INPUTS],
    places: [usize; limits::MAX_BOUND],
    n: usize,
) -> Names
    requires { n ≤ max_bound }
    ensures { (shown result ≡ map (λ (p : ℕ). name_of (item names p)) (take n places)) × (result.count ≡ n) }
{
    let mut r = no_names();
    for i in 0..n {
        r = pushed(r, input_name(names, places[i]));
    }
    r
}

// The first n names without those of bs.
pub fn free_names(names: [u64; limits::MAX_INPUTS], n: usize, bs: Names) -> Names
    requires { (n ≤ max_inputs) × (bs.count ≤ max_names) }
    ensures { (shown result ≡ free (map name_of (take n names)) (shown bs)) × (result.count ≤ n) }
{
    let mut r = no_names();
    for i in 0..n {
        if names::find(&bs.list[..bs.count], names[i]).is_none() {
            r = pushed(r, names[i]);
        }
    }
    r
}

// A name that is the same as v.
fn name_at(s: &[u8], c: Cursor, v: u64) -> Option<Cursor>
    requires { c.at ≤ length s.now }
    ensures { MovedIs s.now result (read_given (name_of v) (drop c.at s.now)) }
{
    let (w, next) = c.name(s)?;
    if names::same_name(v, w) {
        Some(next)
    } else {
        None
    }
}

// The name v as an item of a list: a space stands before it unless it is the first.
fn led_name(s: &[u8], c: Cursor, first: bool, v: u64) -> Option<Cursor>
    requires { c.at ≤ length s.now }
    ensures { MovedIs s.now result (read_item first (name_of v) (drop c.at s.now)) }
{
    if first {
        return name_at(s, c, v);
    }
    let next = c.text(s, b" ")?;
    name_at(s, next, v)
}

// The names ns as items of a list.
fn names_at(s: &[u8], c: Cursor, first: bool, ns: &[u64]) -> Option<Cursor>
    requires { c.at ≤ length s.now }
    ensures { MovedIs s.now result (read_givens first (map name_of ns.now) (drop c.at s.now)) }
{
    let mut next = c;
    let mut leads = first;
    for v in ns {
        next = led_name(s, next, leads, *v)?;
        leads = false;
    }
    Some(next)
}

// The names ns as the last items of a list, its closing bracket and a space.
fn inputs_at(s: &[u8], c: Cursor, first: bool, ns: &[u64]) -> Option<Cursor>
    requires { c.at ≤ length s.now }
    ensures { MovedIs s.now result (read_inputs first (map name_of ns.now) (drop c.at s.now)) }
{
    let next = names_at(s, c, first, ns)?;
    next.text(s, b") ")
}

// The name of shared table i as an item of a list.
fn lut_at(s: &[u8], c: Cursor, first: bool, i: usize) -> Option<Cursor>
    requires { (c.at ≤ length s.now) × (i < 10) }
    ensures { MovedIs s.now result (eat (led first (lut_name i)) (drop c.at s.now)) }
{
    let w = [b' ', b'_', b'0' + i as u8];
    if first {
        c.text(s, &w[1..])
    } else {
        c.text(s, &w)
    }
}

// A digit 0 or 1.
fn digit_at(s: &[u8], c: Cursor) -> Option<Cursor>
    ensures { MovedIs s.now result (eat_digit (drop c.at s.now)) }
{
    c.byte(s, b'0').or(c.byte(s, b'1'))
}

// n digits 0 and 1.
fn digits_at(s: &[u8], c: Cursor, n: usize) -> Option<Cursor>
    requires { c.at ≤ length s.now }
    ensures { MovedIs s.now result (eat_digits n (drop c.at s.now)) }
{
    let mut next = c;
    for _ in 0..n {
        next = digit_at(s, next)?;
    }
    Some(next)
}

// The place of n digits that the closing bracket and the line's end follow.
fn table_at(l: &[u8], c: Cursor, n: usize) -> Option<usize>
    requires { c.at ≤ length l.now }
    ensures { TableIs l.now n result (whole (closed (read_digits n (drop c.at l.now)))) }
{
    let d = digits_at(l, c, n)?;
    let e = d.byte(l, b')')?;
    if e.at_end(l) { Some(c.at) } else { None }
}

// A lut line up to its digits.
fn lut_head(l: &[u8], bs: &[u64], i: usize) -> Option<Cursor>
    requires { i < 10 }
    ensures { MovedIs l.now result (read_lut_head (map name_of bs.now) i l.now) }
{
    let a = Cursor::start().text(l, b"(lut ")?;
    let b = lut_at(l, a, true, i)?;
    let d = b.text(l, b" (")?;
    inputs_at(l, d, true, bs)
}

// The line of shared table i over the bound inputs bs.
pub fn read_lut(l: &[u8], bs: &[u64], i: usize) -> Option<usize>
    requires { (length bs.now ≤ max_inputs) × (i < 10) }
    ensures { TableIs l.now (2 ^ length bs.now) result (read_lut (map name_of bs.now) i l.now) }
{
    let c = lut_head(l, bs, i)?;
    table_at(l, c, bits::power(bs.len()))
}

// The shared tables of a node's list, of those below u: each number is looked for once, after those before it.
fn reads_at(s: &[u8], c: Cursor, u: usize) -> Reads
    requires { (c.at ≤ length s.now) × (u ≤ max_cells) }
    ensures { ReadsAre s.now u result (read_reads true u 0 (drop c.at s.now)) }
{
    let mut next = c;
    let mut mask: u8 = 0;
    let mut count: usize = 0;
    for i in 0..u {
        if let Some(after) = lut_at(s, next, count == 0, i) {
            next = after;
            mask += 1 << i;
            count += 1;
        }
    }
    Reads { mask, count, next }
}

// A node line up to its list of inputs.
fn node_head(l: &[u8], name: u64) -> Option<Cursor>
    ensures { MovedIs l.now result (read_node_head (name_of name) l.now) }
{
    let a = Cursor::start().text(l, b"(node ")?;
    let b = name_at(l, a, name)?;
    b.text(l, b" (")
}

// The node line of the output that name says, beside u shared tables and the free inputs fs.
pub fn read_node(l: &[u8], name: u64, fs: &[u64], u: usize) -> Option<NodeLine>
    requires { (length fs.now ≤ max_inputs) × (u ≤ max_cells) }
    ensures { NodeIs l.now u (length fs.now) result (read_node (name_of name) (map name_of fs.now) u l.now) }
{
    let a = node_head(l, name)?;
    let w = reads_at(l, a, u);
    let d = inputs_at(l, w.next, w.count == 0, fs)?;
    let at = table_at(l, d, bits::power(w.count + fs.len()))?;
    Some(NodeLine { mask: w.mask, at })
}

// Whether a line is the count line of u shared tables.
pub fn is_count(l: &[u8], u: usize) -> bool
    requires { u < 10 }
    ensures { result ≡ same l.now (print_count u) }
{
    let w = [
        b'(',
        b'c',
        b'o',
        b'u',
        b'n',
        b't',
        b' ',
        b'0' + u as u8,
        b')',
    ];
    text::equal(l, &w)
}
