// Every limit (clause 2.1) and what follows from them, named once, and the number of a vertex, which the classes and the
// search share. The definitions name the same limits in specs/; the proofs of the crates above hold the two
// together. Rests on nothing.
#![tactic(auto)]

// The design sheet: names of the `in` line, names of the `bound` line, N, `out` lines, brackets.
pub const MAX_INPUTS: usize = 10;

pub const MAX_BOUND: usize = 5;

pub const MAX_LIMIT: usize = 6;

pub const MAX_OUTPUTS: usize = 4;

pub const MAX_DEPTH: usize = 32;

// Characters of a name, digits of a number.
pub const MAX_NAME: usize = 8;

pub const MAX_DIGITS: usize = 3;

// Question 1: bytes of a design sheet.
pub const MAX_SHEET: usize = 4096;

// The network sheet: lut lines; question 7: global classes; question 10: bytes of a network sheet.
pub const MAX_CELLS: usize = 6;

pub const MAX_CLASSES: usize = 16;

pub const MAX_NETWORK: usize = 8192;

// The most bytes of a network's text in BLIF.
pub const MAX_BLIF: usize = 55_735;

// The line of the first lut.
pub const FIRST_LUT: usize = 2;

// A PLA text: its bytes, and digits of its numbers.
pub const MAX_PLA: usize = 32_768;

pub const MAX_PLA_DIGITS: usize = 5;

// The most rows of a design, vertices and free rows (one input at least is bound), and codes of shared tables.
pub const MAX_ROWS: usize = 1 << MAX_INPUTS;

pub const MAX_VERTICES: usize = 1 << MAX_BOUND;

pub const MAX_FREE_ROWS: usize = MAX_ROWS / 2;

pub const MAX_CODES: usize = 1 << MAX_CELLS;

// A table has a digit for each row, a word's worth to a word.
pub const WORD_ROWS: usize = 64;

pub const TABLE_WORDS: usize = MAX_ROWS / WORD_ROWS;

// The search has room for more outputs than a sheet has yet: class labels are kept for each of them at each vertex, and
// blocks for each of them and each code.
pub const SEARCH_OUTPUTS: usize = 8;

pub const LABELS: usize = SEARCH_OUTPUTS * MAX_VERTICES;

pub const BLOCKS: usize = SEARCH_OUTPUTS * MAX_CODES;

// The number of a vertex, below MAX_VERTICES: the columns of a design and the search for cells count the same vertices.
#[derive(Clone, Copy)]
pub struct Vertex(pub usize);
