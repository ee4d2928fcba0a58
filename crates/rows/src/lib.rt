// Truth tables of up to ten inputs: all 1,024 rows in sixteen words, row r as digit r % 64 of word r / 64. Each function says
// what its table holds on every row. Beside them the step from a row to the next over some of its digits.
#![tactic(auto)]

ghost use Rattle.std.specs.Prelude.{◌≡◌, not, ℕ, ◌<◌, ◌≤◌, length};
ghost use Rattle.std.proofs.lemmas.List.Edits.{sets};
ghost use Rattle.limits.specs.Limits.{max_rows, table_words};
ghost use Rattle.bits.specs.Digit.{on};
ghost use Rattle.bits.specs.Logic.{andb, orb, xorb};
ghost use Rattle.rows.specs.Words.{row_on, Rowwise, WordOf};
ghost use Rattle.rows.specs.Digits.{digit, digits_upto};
ghost use Rattle.rows.specs.Step.{stepped};

use std::array;

// The lowest digits of a row's number say which digit of a word it is.
const WORD_DIGITS: usize = 6;

// Entry p has the digits k of a word whose number has digit p.
const MASKS: [u64; WORD_DIGITS] = [
    0xAAAA_AAAA_AAAA_AAAA,
    0xCCCC_CCCC_CCCC_CCCC,
    0xF0F0_F0F0_F0F0_F0F0,
    0xFF00_FF00_FF00_FF00,
    0xFFFF_0000_FFFF_0000,
    0xFFFF_FFFF_0000_0000,
];

// The same value on every row.
pub fn constant(b: bool) -> [u64; limits::TABLE_WORDS]
    ensures { Rowwise (λ (r : ℕ). b) result }
{
    [if b { u64::MAX } else { 0 }; limits::TABLE_WORDS]
}

// Word w of the table of digit p. A word's own digits are the same in every word; the others are the word's number.
fn input_word(p: usize, w: usize) -> u64
    requires { w < table_words }
    ensures { WordOf (λ (r : ℕ). on r p) w result }
{
    if p < WORD_DIGITS {
        return MASKS[p];
    }
    if limits::MAX_INPUTS <= p {
        return 0;
    }
    if bits::has(w as u64, (p - WORD_DIGITS) as u32) {
        return u64::MAX;
    }
    0
}

// On each row digit p of the row's number.
pub fn input(p: usize) -> [u64; limits::TABLE_WORDS]
    ensures { Rowwise (λ (r : ℕ). on r p) result }
{
    array::from_fn(|w| input_word(p, w))
}

// Where both hold.
pub fn both(
    a: [u64; limits::TABLE_WORDS],
    b: [u64; limits::TABLE_WORDS],
) -> [u64; limits::TABLE_WORDS]
    ensures { Rowwise (λ (r : ℕ). andb (row_on a r) (row_on b r)) result }
{
    array::from_fn(|w| a[w] & b[w])
}

// Where at least one of the two holds.
pub fn either(
    a: [u64; limits::TABLE_WORDS],
    b: [u64; limits::TABLE_WORDS],
) -> [u64; limits::TABLE_WORDS]
    ensures { Rowwise (λ (r : ℕ). orb (row_on a r) (row_on b r)) result }
{
    array::from_fn(|w| a[w] | b[w])
}

// Where just one of the two holds.
pub fn differ(
    a: [u64; limits::TABLE_WORDS],
    b: [u64; limits::TABLE_WORDS],
) -> [u64; limits::TABLE_WORDS]
    ensures { Rowwise (λ (r : ℕ). xorb (row_on a r) (row_on b r)) result }
{
    array::from_fn(|w| a[w] ^ b[w])
}

// Where it does not hold.
pub fn complement(a: [u64; limits::TABLE_WORDS]) -> [u64; limits::TABLE_WORDS]
    ensures { Rowwise (λ (r : ℕ). not (row_on a r)) result }
{
    differ(constant(true), a)
}

// The value on row r.
pub fn row(a: &[u64; limits::TABLE_WORDS], r: usize) -> bool
    requires { r < max_rows }
    ensures { result ≡ row_on a.now r }
{
    bits::has(a[r / limits::WORD_ROWS], (r % limits::WORD_ROWS) as u32)
}

// The byte of a value.
fn digit_of(b: bool) -> u8
    ensures { result ≡ digit b }
{
    if b { b'1' } else { b'0' }
}

// Writes the digits of rows 0 to n - 1 at the buffer's start, and leaves its later bytes.
pub fn put_digits(buf: &mut [u8], a: [u64; limits::TABLE_WORDS], n: usize)
    requires { (n ≤ max_rows) × (n ≤ length buf.old) }
    ensures { buf.new ≡ sets buf.old 0 (digits_upto (row_on a) n) }
{
    for (r, b) in buf[..n].iter_mut().enumerate() {
        *b = digit_of(row(&a, r));
    }
}

// The row with the digits of `bound` as in r, and the digits of `free` counted one further.
pub fn step(r: usize, bound: usize, free: usize) -> usize
    requires { (r < max_rows) × (bound < max_rows) }
    ensures { result ≡ stepped bound free r }
{
    ((r | bound) + 1) & free | r & bound
}
