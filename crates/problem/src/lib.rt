// The vocabulary of the search, which knows no text: what it is asked, in arrays of numbers, and what it tells. It rests on cells
// for what serving is. Glossary:
//   vertex      a setting of the bound inputs, as a number; from numbering up to readers a vertex may stand for a joint class
//   class       the vertices that an output need not tell apart; its label is a number, and cl holds the labels output by output
//   part        the vertices at which the given tables that an output reads agree; two classes are told apart inside a part
//   code        a vertex's digits in all cells, one digit a cell
//   row         the set of cells that an output reads, as digits; its shared cells are ms, its private ones, read by it alone, ps
//   block       the codes that agree in an output's shared cells, as a set of codes
//   caps, spots 2 to the number of an output's private cells, and of all cells that it reads
//   base        for each class of each output so many blocks at least that it needs
//   known       vertices kn at which cell 0 has its digit already, and these digits, val
//   told        what a search answers: codes that tell the classes of every part apart, or no solution goes on from what it had
#![tactic(auto)]

ghost use Rattle.std.specs.Prelude.{◌≡◌, ◌<◌, ◌≤◌, length};
ghost use Rattle.limits.specs.Limits.{search_outputs, max_vertices, label_count};
ghost use Rattle.problem.specs.Problem.{label_at, part_at, part_of, Labels};

use limits::{LABELS, MAX_VERTICES, SEARCH_OUTPUTS};

// What stands for the code of a vertex that has none yet: the search reads and copies these arrays at every step, so a code is a byte.
pub const NO_CODE: u8 = cells::MAX_CODES;

// The labels of the outputs at the vertices, and after them the parts of the classes.
pub const LABELS_AND_PARTS: usize = 2 * LABELS;

// The class of vertex x for output o.
pub fn label(cl: &[u8], o: usize, x: usize) -> u8
    requires { (label_count ≤ length cl.now) × (o < search_outputs) × (x < max_vertices) }
    ensures { result ≡ label_at cl.now o x }
{
    cl[o * MAX_VERTICES + x]
}

// The part of class l of output o.
pub fn class_part(cl: &[u8], o: usize, l: usize) -> u8
    requires { Labels cl.now × (o < search_outputs) × (l < max_vertices) }
    ensures { (result ≡ part_at cl.now o l) × (result < max_vertices) }
{
    cl[LABELS + (o * MAX_VERTICES + l)]
}

// The part of vertex x for output o: that of its class.
pub fn part(cl: &[u8], o: usize, x: usize) -> u8
    requires { Labels cl.now × (o < search_outputs) × (x < max_vertices) }
    ensures { (result ≡ part_of cl.now o x) × (result < max_vertices) }
{
    class_part(cl, o, label(cl, o, x) as usize)
}

// What a search that may be given up comes to: what it found, that there is nothing to find, or that neither is known.
#[derive(Clone, Copy, Debug, PartialEq, Eq, Drop)]
pub enum Answer<T> {
    Found(T),
    Nothing,
    Unsure,
}

// What a search for codes is asked for: for each output its shared and its private cells, and 2 to the number of the private
// ones and of all that it reads; the numbers of vertices and outputs; and the vertices where cell 0 has known digits, and
// these digits.
#[derive(Clone, Copy)]
pub struct Problem {
    pub ms: [u8; SEARCH_OUTPUTS],
    pub ps: [u8; SEARCH_OUTPUTS],
    pub caps: [u8; SEARCH_OUTPUTS],
    pub spots: [u8; SEARCH_OUTPUTS],
    pub vertices: usize,
    pub outputs: usize,
    pub kn: u32,
    pub val: u32,
}
