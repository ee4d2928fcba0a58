// The comparison of a design with a network that passed questions 10 and 11: the network's digits are set in row order beside the
// design's tables and compared row by row. Rests on netsheet for where the digits stand, and on classes for the rows of a vertex.
#![tactic(auto)]

ghost use Rattle.std.specs.Prelude.{◌≡◌, ℕ, ◌+◌, ◌≤◌, ◌<◌, length, get_or};
ghost use Rattle.bits.specs.Logic.{xorb};
ghost use Rattle.limits.specs.Limits.{max_cells, max_vertices, max_rows};
ghost use Rattle.bits.specs.Logic as logic;
ghost use Rattle.rows.specs.Words.{row_on};
ghost use Rattle.sheet.specs.Examine.{Design};
ghost use Rattle.network.specs.Network.{Network};
ghost use Rattle.network.specs.Check.{compared};
ghost use Rattle.comparing.specs.Answer.{comparison_of};
ghost use Rattle.comparing.specs.Code.{one_at, code_at};
ghost use Rattle.comparing.specs.Filling.{Room, Put, Ready, Filled};
ghost use Rattle.comparing.specs.Drawing.{places_of, Drawing, SomeDrawing};

use classes::Shape;
use limits::Vertex;
use netsheet::NetworkSheet;
use sheet::Sheet;

// How a network compares with a design: the lowest output with a wrong value, and the lowest row that shows it.
#[derive(Clone, Copy, Debug, PartialEq, Eq)]
pub enum Comparison {
    Same,
    Differs { output: usize, row: usize },
}

// The code of vertex x in the shared tables of a mask: their digits there, the lowest table first.
fn code(t: &[u8], lutat: [usize; limits::MAX_CELLS], mask: u8, luts: usize, x: Vertex) -> usize
    requires { (luts ≤ max_cells) × ((i : ℕ) → i < luts → get_or lutat i 0 + x.0 < length t.now) }
    ensures { result ≡ code_at t.now lutat mask x.0 luts }
{
    let mut c: usize = 0;
    for i in 0..luts {
        if bits::has(mask as u64, i as u32) {
            c = 2 * c + usize::from(t[lutat[i] + x.0] == b'1');
        }
    }
    c
}

// Sets the digits that stand in t from a place on at the rows of one vertex, one for each free row.
fn put_vertex(digits: &mut [u8], t: &[u8], at: usize, shape: Shape, x: Vertex)
    requires { (length digits.old ≡ max_rows) × (x.0 < max_vertices)
        × Room t.now at (get_or shape.vertex x.0 0) shape.free shape.frees }
    ensures { Put t.now at (get_or shape.vertex x.0 0) shape.free shape.frees
        digits.old digits.new }
{
    let row = shape.vertex[x.0];
    for y in 0..shape.frees {
        digits[row + shape.free[y]] = t[at + y];
    }
}

// The digits of an output of the network, in row order: the output reads the shared tables of the mask, and its own table
// stands in t from a place on.
fn in_rows(
    t: &[u8],
    lutat: [usize; limits::MAX_CELLS],
    mask: u8,
    luts: usize,
    at: usize,
    shape: Shape,
) -> [u8; limits::MAX_ROWS]
    requires { Ready t.now lutat mask luts at shape }
    ensures { Filled t.now lutat mask luts at shape shape.vertices result }
{
    let mut digits = [b'0'; limits::MAX_ROWS];
    for x in 0..shape.vertices {
        let c = code(t, lutat, mask, luts, Vertex(x));
        put_vertex(&mut digits, t, at + c * shape.frees, shape, Vertex(x));
    }
    digits
}

// Whether a table and digits in row order differ on row r.
fn differs(words: &[u64; limits::TABLE_WORDS], digits: &[u8; limits::MAX_ROWS], r: usize) -> bool
    requires { r < max_rows }
    ensures { result ≡ xorb (row_on words.now r) (one_at digits.now r) }
{
    rows::row(words, r) != (digits[r] == b'1')
}

// The comparison, output by output and row by row, to the first difference.
pub fn compare(t: &[u8], k: Sheet, n: NetworkSheet, shape: Shape) -> Comparison
    requires { SomeDrawing t.now k (places_of n) shape }
    ensures { (d : Design) (w : Network) → Drawing d w t.now k (places_of n) shape → comparison_of result ≡ compared d w }
{
    let rows = bits::power(k.inputs);
    for o in 0..k.outputs {
        let digits = in_rows(t, n.lutat, n.reads[o], n.luts, n.nodeat[o], shape);
        for r in 0..rows {
            if differs(&k.tables[o].words, &digits, r) {
                return Comparison::Differs { output: o, row: r };
            }
        }
    }
    Comparison::Same
}
