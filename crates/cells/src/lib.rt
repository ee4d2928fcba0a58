// Cells without text: problems, cores, what it means to serve, what may be changed in a core that serves, and the laws
// that the search rests on, in specs/. The code is sets of numbers below 64, kept as the digits of one number, and the sizes of
// sets of cells.
#![tactic(auto)]

ghost use Rattle.std.specs.Prelude.{◌≡◌, true, ◌<◌, ◌≤◌, ◌^◌};
ghost use Rattle.limits.specs.Limits.{max_cells, max_codes};
ghost use Rattle.bits.specs.Digit.{on};
ghost use Rattle.bits.specs.Count.{count};
ghost use Rattle.cells.specs.Sets.{With, Without, set_room};

// The most cells and codes, as bytes: sets of cells, codes and labels are kept in bytes.
pub const MAX_CELLS: u8 = limits::MAX_CELLS as u8;

pub const MAX_CODES: u8 = limits::MAX_CODES as u8;

// Every cell, as a set.
pub const ALL_CELLS: u8 = MAX_CODES - 1;

// Every code, as a set.
pub const ALL_CODES: u64 = u64::MAX;

// Whether c is in the set s.
pub fn in_set(s: u64, c: u8) -> bool
    requires { c < set_room }
    ensures { result ≡ on s c }
{
    (s >> c) & 1 == 1
}

// The set with the one element k.
pub fn single(k: u8) -> u64
    requires { k < set_room }
    ensures { result ≡ 2 ^ k }
{
    1 << k
}

// The set s with k.
pub fn with(s: u64, k: u8) -> u64
    requires { k < set_room }
    ensures { With s k result }
{
    s | single(k)
}

// The set s without k.
pub fn without(s: u64, k: u8) -> u64
    requires { k < set_room }
    ensures { Without s k result }
{
    s & !single(k)
}

// The lowest element of s.
pub fn lowest(s: u64) -> u8
    requires { s ≡ 0 → ⊥ }
    ensures { (result < set_room) × (on s result ≡ true) }
{
    s.trailing_zeros() as u8
}

// How many cells a set of cells has.
pub fn size(x: u8) -> u8
    ensures { (result ≡ count (on x) max_cells) × (result ≤ max_cells) }
{
    (x & ALL_CELLS).count_ones() as u8
}

// How many codes there are over k cells: 2 to the power k, as a byte. A cast of bits::power would need this contract at each
// of its callers.
pub fn power(k: u8) -> u8
    requires { k ≤ max_cells }
    ensures { (result ≡ 2 ^ k) × (0 < result) × (result ≤ max_codes) }
{
    1 << k
}
