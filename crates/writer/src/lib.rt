// The network sheet put down line after line through a writer, which holds the lent buffer and the place of the next byte.
// Each of its methods takes it by value, has one kind of line put down by a function on the slice and the place, and gives
// back a writer whose place is after the text. Rests on netlines for the lines and on netnames for the names.
#![tactic(auto)]

ghost use Rattle.std.specs.Prelude.{◌≡◌, ◌+◌, ◌≤◌, ◌<◌, length};
ghost use Rattle.std.proofs.lemmas.List.Edits.{sets};
ghost use Rattle.limits.specs.Limits.{max_inputs, max_bound, max_outputs, max_cells};
ghost use Rattle.sheet.specs.Examine.{Design};
ghost use Rattle.sheet.specs.Known.{Holds};
ghost use Rattle.classes.specs.Proper.{Proper};
ghost use Rattle.classes.specs.Answer.{ShapeIs};
ghost use Rattle.network.specs.Printer.{print_network};
ghost use Rattle.serving.specs.Build.{built};
ghost use Rattle.emit.specs.Written.{reach, Written};
ghost use Rattle.network.specs.Shown.{item};
ghost use Rattle.netnames.specs.Listed.{one_digit};
ghost use Rattle.netlines.specs.Room.{head_room, luts_room, nodes_room, end_room, sheet_room};
ghost use Rattle.netlines.specs.Lines.{head_line, last_lines, Fitting};
ghost use Rattle.writer.specs.Plans.{Fit, lut_lines, node_lines, all_lines};
ghost use Rattle.writer.specs.Appended.{Appended};

use classes::Shape;
use network::Names;
use sheet::Sheet;

// The edition of network sheets.
const EDITION: usize = 1;

// What a network sheet is written from: the design, the names of its bound and of its free inputs, the number of shared
// tables, for each output a mask of the tables that it reads, and for each vertex a code of the tables' values.
#[derive(Clone, Copy)]
struct Plan {
    sheet: Sheet,
    shape: Shape,
    bound: Names,
    free: Names,
    tables: usize,
    rows: [u8; limits::SEARCH_OUTPUTS],
    codes: [u8; limits::MAX_VERTICES],
}

// The lent buffer, and the place of the next byte.
#[derive(Drop)]
struct Writer<'a> {
    out: &'a mut [u8],
    at: usize,
}

// The lines of a plan's shared tables.
fn put_lut_lines(buf: &mut [u8], at: usize, p: Plan) -> usize
    requires { (at + luts_room ≤ reach) × Fit p }
    ensures { Written luts_room buf.old buf.new at result (lut_lines p) }
{
    netlines::put_luts(buf, at, p.bound, p.tables, p.codes, p.shape.vertices)
}

// The lines of a plan's outputs.
fn put_node_lines(buf: &mut [u8], at: usize, p: Plan) -> usize
    requires { (at + nodes_room ≤ reach) × Fit p }
    ensures { Written nodes_room buf.old buf.new at result (node_lines p) }
{
    netlines::put_nodes(
        buf,
        at,
        p.sheet,
        p.free,
        p.tables,
        p.rows,
        p.codes,
        &p.shape.vertex[..p.shape.vertices],
        &p.shape.free[..p.shape.frees],
    )
}

// Each method reads the place into a local first: the prover reads no field beside one that is lent.
impl<'a> Writer<'a> {
    // The first line.
    fn head(self, edition: usize) -> Writer<'a>
        requires { (self.at + head_room ≤ reach) × (edition < one_digit) }
        ensures { Appended head_room self.entry result (head_line edition) }
    {
        let at = self.at;
        let next = netlines::put_head(&mut *self.out, at, edition);
        Writer {
            out: self.out,
            at: next,
        }
    }

    // The lut lines.
    fn luts(self, p: Plan) -> Writer<'a>
        requires { (self.at + luts_room ≤ reach) × Fit p }
        ensures { Appended luts_room self.entry result (lut_lines p) }
    {
        let at = self.at;
        let next = put_lut_lines(&mut *self.out, at, p);
        Writer {
            out: self.out,
            at: next,
        }
    }

    // The node lines.
    fn nodes(self, p: Plan) -> Writer<'a>
        requires { (self.at + nodes_room ≤ reach) × Fit p }
        ensures { Appended nodes_room self.entry result (node_lines p) }
    {
        let at = self.at;
        let next = put_node_lines(&mut *self.out, at, p);
        Writer {
            out: self.out,
            at: next,
        }
    }

    // The count line and the last line.
    fn last(self, u: usize) -> Writer<'a>
        requires { (self.at + end_room ≤ reach) × (u < one_digit) }
        ensures { Appended end_room self.entry result (last_lines u) }
    {
        let at = self.at;
        let next = netlines::put_end(&mut *self.out, at, u);
        Writer {
            out: self.out,
            at: next,
        }
    }
}

// The writer of all lines of a plan, from the buffer's start.
fn written<'a>(buf: &'a mut [u8], p: Plan) -> Writer<'a>
    requires { Fit p }
    ensures same_borrow { result.out.ghost_name ≡ buf.entry.ghost_name }
    ensures written { Written sheet_room buf.old result.out.now 0 result.at (all_lines p) }
{
    let start = Writer { out: buf, at: 0 };
    start.head(EDITION).luts(p).nodes(p).last(p.tables)
}

// All lines of a plan, from the buffer's start. Its parameters hold no writer, so whoever calls it needs none.
fn put_sheet(buf: &mut [u8], p: Plan) -> usize
    requires { Fit p }
    ensures { Written sheet_room buf.old buf.new 0 result (all_lines p) }
{
    written(buf, p).at
}

// The network sheet of u tables: output o reads the tables whose digits are 1 in rows[o], and table i at vertex x is digit i
// of codes[x].
pub fn put_network(
    buf: &mut [u8],
    k: Sheet,
    sh: Shape,
    u: usize,
    rows: [u8; limits::SEARCH_OUTPUTS],
    codes: [u8; limits::MAX_VERTICES],
) -> usize
    requires { (k.inputs ≤ max_inputs) × (k.bounds ≤ max_bound) × (k.outputs ≤ max_outputs) × (u ≤ max_cells) × Fitting sh }
    ensures { (d : Design) → Holds d k → Proper d → ShapeIs d sh
        → (result ≡ length (print_network d (built d u (item rows) (item codes))))
        × (buf.new ≡ sets buf.old 0 (print_network d (built d u (item rows) (item codes)))) }
{
    let bound = network::bound_names(k.names, k.bound, k.bounds);
    let free = network::free_names(k.names, k.inputs, bound);
    put_sheet(
        buf,
        Plan {
            sheet: k,
            shape: sh,
            bound,
            free,
            tables: u,
            rows,
            codes,
        },
    )
}
