// A place in a text: each method reads the item at the place, and answers with it and with the cursor that stands after it.
// Rests on text and names.
#![tactic(auto)]

ghost use Rattle.std.specs.Prelude.{◌≡◌, true, [], ◌∷◌, ◌+◌, ◌-◌, ◌≤◌, ◌<◌, leb, length, take, drop, set};
ghost use Rattle.limits.specs.Limits.{max_inputs, max_pla_digits};
ghost use Rattle.text.specs.Bytes.{eat};
ghost use Rattle.text.specs.Number.{numeral, value_from, is_number_of, read_number_of};
ghost use Rattle.names.specs.Name.{word, operator, read_name};
ghost use Rattle.names.specs.Word.{WordEnd, operator_of};
ghost use Rattle.names.specs.Names.{read_names};
ghost use Rattle.cursor.specs.Opening.{read_opening};
ghost use Rattle.cursor.specs.NumeralsEnd.{Numerals, NumeralsEnd};
ghost use Rattle.cursor.specs.First.{first_of, first_at};
ghost use Rattle.cursor.specs.NextName.{NextIs};
ghost use Rattle.cursor.specs.Item.{MovedIs, NumberIs, NameIs, OpeningIs, NamesAre};

use names::Operator;

#[derive(Clone, Copy)]
pub struct Cursor {
    pub at: usize,
}

// The operators of two or more operands.
#[derive(Clone, Copy, PartialEq, Eq)]
pub enum Gate {
    And,
    Or,
    Xor,
}

// What opens a formula, and the place after it.
#[derive(Clone, Copy)]
pub enum Opening {
    Name(u64, Cursor),
    Digit(bool, Cursor),
    Not(Cursor),
    Gate(Gate, Cursor),
}

// The names of a list up to its closing bracket: how many they are, and the first ten.
#[derive(Clone, Copy)]
pub struct NameList {
    pub next: Cursor,
    pub count: usize,
    pub names: [u64; limits::MAX_INPUTS],
}

// The place after the digits at a place.
fn numerals_end(s: &[u8], at: usize) -> usize
    requires { at ≤ length s.now }
    ensures { NumeralsEnd s.now at result }
{
    at + s[at..].iter().take_while(|b| b.is_ascii_digit()).count()
}

// Whether the digits from a up to e are a number of at most so many digits: a 0 stands only alone.
fn is_number(s: &[u8], a: usize, e: usize, digits: usize) -> bool
    requires { (a ≤ e) × (e ≤ length s.now) }
    ensures { result ≡ is_number_of digits (take (e - a) (drop a s.now)) }
{
    match e - a {
        0 => false,
        n => n <= digits && (n == 1 || s[a] != b'0'),
    }
}

// The value of the digits from a up to e.
fn value(s: &[u8], a: usize, e: usize) -> usize
    requires { (Numerals s.now a e) × (e ≤ a + max_pla_digits) }
    ensures { result ≡ value_from 0 (take (e - a) (drop a s.now)) }
{
    let mut n: usize = 0;
    for &b in &s[a..e] {
        n = n * 10 + usize::from(b - b'0');
    }
    n
}

// The kinds of items, by the byte that opens them.
#[derive(Clone, Copy)]
enum First {
    Letter,
    Digit,
    Bracket,
    Other,
}

fn first_of(b: u8) -> First
    ensures { result ≡ first_of b }
{
    match b {
        b'a'..=b'z' | b'A'..=b'Z' => First::Letter,
        b'0'..=b'9' => First::Digit,
        b'(' => First::Bracket,
        _ => First::Other,
    }
}

// The operator that the word from a up to e is.
fn operator_word(s: &[u8], a: usize, e: usize) -> Option<Operator>
    requires { WordEnd s.now a e }
    ensures { operator_of result ≡ operator (word (drop a s.now)) }
{
    if limits::MAX_NAME < e - a {
        return None;
    }
    names::as_operator(names::packed(s, a, e))
}

// What stands next in a list of names: a name after a space, or the closing bracket.
#[derive(Clone, Copy)]
enum NextName {
    Name(u64, Cursor),
    End(Cursor),
}

// Keeps v in the place that count says, where it is one of the ten.
pub fn keep(names: &mut [u64; limits::MAX_INPUTS], count: usize, v: u64)
    requires { length names.old ≡ max_inputs }
    ensures { names.new ≡ set names.old count v }
{
    if count < limits::MAX_INPUTS {
        names[count] = v;
    }
}

impl Cursor {
    // Before the first byte.
    pub fn start() -> Cursor
        ensures { result.at ≡ 0 }
    {
        Cursor { at: 0 }
    }

    // Whether the text ends here.
    pub fn at_end(self, s: &[u8]) -> bool
        ensures { result ≡ leb (length s.now) self.at }
    {
        s.len() <= self.at
    }

    // The byte b.
    pub fn byte(self, s: &[u8], b: u8) -> Option<Cursor>
        ensures { MovedIs s.now result (eat (b ∷ []) (drop self.at s.now)) }
    {
        if self.at < s.len() && s[self.at] == b {
            Some(Cursor { at: self.at + 1 })
        } else {
            None
        }
    }

    // The bytes of w.
    pub fn text(self, s: &[u8], w: &[u8]) -> Option<Cursor>
        requires { self.at ≤ length s.now }
        ensures { MovedIs s.now result (eat w.now (drop self.at s.now)) }
    {
        if s[self.at..].starts_with(w) {
            Some(Cursor {
                at: self.at + w.len(),
            })
        } else {
            None
        }
    }

    // The number of at most so many digits.
    pub fn number(self, s: &[u8], digits: usize) -> Option<(usize, Cursor)>
        requires { (self.at ≤ length s.now) × (digits ≤ max_pla_digits) }
        ensures { NumberIs s.now result (read_number_of digits (drop self.at s.now)) }
    {
        let e = numerals_end(s, self.at);
        if is_number(s, self.at, e, digits) {
            Some((value(s, self.at, e), Cursor { at: e }))
        } else {
            None
        }
    }

    // The kind of the item, by its first byte; none at the text's end.
    fn kind(self, s: &[u8]) -> First
        requires { self.at ≤ length s.now }
        ensures { result ≡ first_at (drop self.at s.now) }
    {
        if self.at < s.len() {
            first_of(s[self.at])
        } else {
            First::Other
        }
    }

    // The name that a word with a letter first is.
    fn named(self, s: &[u8]) -> Option<(u64, Cursor)>
        requires { (self.at ≤ length s.now) × (first_at (drop self.at s.now) ≡ First.Letter) }
        ensures { NameIs s.now result (read_name (drop self.at s.now)) }
    {
        let e = names::word_end(s, self.at);
        if limits::MAX_NAME < e - self.at {
            return None;
        }
        let v = names::packed(s, self.at, e);
        if names::is_operator_word(v) {
            return None;
        }
        Some((v, Cursor { at: e }))
    }

    // A name: a word of at most 8 bytes with a letter first, and no operator word in any case.
    pub fn name(self, s: &[u8]) -> Option<(u64, Cursor)>
        requires { self.at ≤ length s.now }
        ensures { NameIs s.now result (read_name (drop self.at s.now)) }
    {
        match self.kind(s) {
            First::Letter => self.named(s),
            _ => None,
        }
    }

    // A name that opens a formula.
    fn opens_name(self, s: &[u8]) -> Option<Opening>
        requires { (self.at ≤ length s.now) × (first_at (drop self.at s.now) ≡ First.Letter) }
        ensures { OpeningIs s.now result (read_opening (drop self.at s.now)) }
    {
        let (v, next) = self.named(s)?;
        Some(Opening::Name(v, next))
    }

    // A digit that opens a formula: 0 or 1.
    fn opens_digit(self, s: &[u8]) -> Option<Opening>
        requires { first_at (drop self.at s.now) ≡ First.Digit }
        ensures { OpeningIs s.now result (read_opening (drop self.at s.now)) }
    {
        if let Some(next) = self.byte(s, b'0') {
            return Some(Opening::Digit(false, next));
        }
        let next = self.byte(s, b'1')?;
        Some(Opening::Digit(true, next))
    }

    // A bracket that opens a formula: an operator word and a space stand after it.
    fn opens_bracket(self, s: &[u8]) -> Option<Opening>
        requires { first_at (drop self.at s.now) ≡ First.Bracket }
        ensures { OpeningIs s.now result (read_opening (drop self.at s.now)) }
    {
        let word = self.byte(s, b'(')?;
        let e = names::word_end(s, word.at);
        let operator = operator_word(s, word.at, e)?;
        let next = Cursor { at: e }.byte(s, b' ')?;
        Some(match operator {
            Operator::Not => Opening::Not(next),
            Operator::And => Opening::Gate(Gate::And, next),
            Operator::Or => Opening::Gate(Gate::Or, next),
            Operator::Xor => Opening::Gate(Gate::Xor, next),
        })
    }

    // What opens a formula, by its first byte.
    pub fn opening(self, s: &[u8]) -> Option<Opening>
        requires { self.at ≤ length s.now }
        ensures { OpeningIs s.now result (read_opening (drop self.at s.now)) }
    {
        match self.kind(s) {
            First::Letter => self.opens_name(s),
            First::Digit => self.opens_digit(s),
            First::Bracket => self.opens_bracket(s),
            First::Other => None,
        }
    }

    // A name after a space, or the closing bracket.
    fn next_name(self, s: &[u8]) -> Option<NextName>
        ensures { NextIs s.now self.at result }
    {
        if let Some(next) = self.byte(s, b')') {
            return Some(NextName::End(next));
        }
        let first = self.byte(s, b' ')?;
        let (v, next) = first.name(s)?;
        Some(NextName::Name(v, next))
    }

    // The names, each after a space, up to the closing bracket: all are counted, and the first ten are kept.
    pub fn names(self, s: &[u8]) -> Option<NameList>
        requires { self.at ≤ length s.now }
        ensures { NamesAre s.now result (read_names (drop self.at s.now)) }
    {
        let mut c = self;
        let mut count: usize = 0;
        let mut names = [0u64; limits::MAX_INPUTS];
        // The text says how many turns there are: it ends at the bracket, or where no name follows.
        loop {
            match c.next_name(s)? {
                NextName::Name(v, next) => {
                    keep(&mut names, count, v);
                    count += 1;
                    c = next;
                }
                NextName::End(next) => {
                    return Some(NameList { next, count, names });
                }
            }
        }
    }
}
