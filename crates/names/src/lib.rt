// Names on a slice of bytes, and names as numbers: a name has at most 8 bytes, so a u64 holds it. Names are compared in
// `same_name` only, with case ignored. Rests on text.
#![tactic(auto)]

ghost use Rattle.std.specs.Prelude.{◌≡◌, ◌+◌, ◌-◌, ◌≤◌, length, take, drop};
ghost use Rattle.limits.specs.Limits.{max_name};
ghost use Rattle.names.specs.Case as letters;
ghost use Rattle.names.specs.Name.{name_byte, same_name, operator_words};
ghost use Rattle.names.specs.Name as names;
ghost use Rattle.names.specs.Pack.{pack, name_of};
ghost use Rattle.names.specs.Word.{WordEnd, operator_of, PositionIs};

// A name's bytes are the digits of its number to this base, the first byte lowest.
pub const BASE: u64 = 256;

// The place after the word at a place.
pub fn word_end(s: &[u8], at: usize) -> usize
    requires { at ≤ length s.now }
    ensures { WordEnd s.now at result }
{
    at + s[at..]
        .iter()
        .take_while(|b| b.is_ascii_alphanumeric())
        .count()
}

// The number of the bytes from a up to e.
pub fn packed(s: &[u8], a: usize, e: usize) -> u64
    requires { (a ≤ e) × (e ≤ a + max_name) × (e ≤ length s.now) }
    ensures { result ≡ pack (take (e - a) (drop a s.now)) }
{
    let mut v: u64 = 0;
    for i in (a..e).rev() {
        v = v * BASE + u64::from(s[i]);
    }
    v
}

// Whether two names are the same: byte by byte, letters in either case.
pub fn same_name(a: u64, b: u64) -> bool
    ensures { result ≡ same_name (name_of a) (name_of b) }
{
    // No more bytes than the longer name has: most names are short.
    let n = 8 - a.max(b).leading_zeros() as usize / 8;
    a.to_le_bytes()[..n].eq_ignore_ascii_case(&b.to_le_bytes()[..n])
}

// The operators, each a word in small letters.
#[derive(Clone, Copy, PartialEq, Eq)]
pub enum Operator {
    Not,
    And,
    Or,
    Xor,
}

// The operator that a word is.
pub fn as_operator(w: u64) -> Option<Operator>
    ensures { operator_of result ≡ names.operator (name_of w) }
{
    match w {
        0x74_6f_6e => Some(Operator::Not),
        0x64_6e_61 => Some(Operator::And),
        0x72_6f => Some(Operator::Or),
        0x72_6f_78 => Some(Operator::Xor),
        _ => None,
    }
}

// Where a name stands first among some.
pub fn find(among: &[u64], n: u64) -> Option<usize>
    ensures { PositionIs among.now n result }
{
    among.iter().position(|&m| same_name(m, n))
}

// Whether a word is an operator word, in any case.
pub fn is_operator_word(w: u64) -> bool
    ensures { result ≡ names.among (name_of w) operator_words }
{
    // Most names are a single letter, which need not be compared.
    if w < BASE {
        return false;
    }
    let words: [u64; 4] = [0x74_6f_6e, 0x64_6e_61, 0x72_6f, 0x72_6f_78];
    find(&words, w).is_some()
}
