// The lines of a network sheet put into a lent buffer from a place on: from what is known of a design, the shared tables as
// codes of the vertices, and for each output a mask of the tables that it reads. Each function takes the slice and the place
// as a number; the writer's methods stand over those that are public. Rests on emit for texts and on netnames for names.
#![tactic(auto)]

ghost use Rattle.std.specs.Prelude.{◌++◌, ◌∷◌, [], ℕ, ◌+◌, ◌*◌, ◌≤◌, ◌<◌, length, true, false};
ghost use Rattle.limits.specs.Limits.{max_inputs, max_outputs, max_cells, max_vertices, max_codes};
ghost use Rattle.bits.specs.Digit.{on};
ghost use Rattle.rows.specs.Words.{row_on};
ghost use Rattle.text.specs.Bytes.{bytes, newline};
ghost use Rattle.names.specs.Pack.{name_of};
ghost use Rattle.sheet.specs.Known.{table_at};
ghost use Rattle.bits.specs.Values.{values_upto};
ghost use Rattle.network.specs.Printer.{led_all, print_digits, lut_head, print_lut, node_head, print_node};
ghost use Rattle.network.specs.Numbers.{numbers_of};
ghost use Rattle.emit.specs.Written.{reach, Written};
ghost use Rattle.network.specs.Shown.{max_names, shown, item};
ghost use Rattle.netnames.specs.Listed.{one_digit};
ghost use Rattle.netlines.specs.Lines.{head_line, lines_upto, last_lines, cell_on, cell_by, node_by, Laid, Bounded};
ghost use Rattle.netlines.specs.Running.{VertexRow, row_at};
ghost use Rattle.netlines.specs.Room.{head_room, list_room, lut_head_room, lut_room, luts_room, node_head_room, node_room, nodes_room, end_room};

use limits::Vertex;
use network::Names;
use sheet::Sheet;

// The first line, of an edition.
pub fn put_head(buf: &mut [u8], at: usize, edition: usize) -> usize
    requires { (at + head_room ≤ reach) × (edition < one_digit) }
    ensures { Written head_room buf.old buf.new at result (head_line edition) }
{
    let p = emit::put_text(buf, at, b"(network ");
    let q = emit::put_byte(buf, p, b'0' + edition as u8);
    emit::put_text(buf, q, b")\n")
}

// The names ns as the items of a list, its closing bracket and a space.
fn put_list(buf: &mut [u8], at: usize, ns: Names) -> usize
    requires { (at + list_room ≤ reach) × (ns.count ≤ max_names) }
    ensures { Written list_room buf.old buf.new at result (led_all true (shown ns) ++ bytes ") ") }
{
    let p = emit::put_names(buf, at, &ns.list[..ns.count]);
    emit::put_text(buf, p, b") ")
}

// A lut line up to its digits.
fn put_lut_head(buf: &mut [u8], at: usize, bs: Names, i: usize) -> usize
    requires { (at + lut_head_room ≤ reach) × (bs.count ≤ max_names) × (i < one_digit) }
    ensures { Written lut_head_room buf.old buf.new at result (lut_head (shown bs) i) }
{
    let p = emit::put_text(buf, at, b"(lut ");
    let q = emit::put_name(buf, p, netnames::lut_name(i));
    let r = emit::put_text(buf, q, b" (");
    put_list(buf, r, bs)
}

// The digits of shared table i: digit i of the code of each of the n vertices.
fn put_table(
    buf: &mut [u8],
    at: usize,
    codes: [u8; limits::MAX_VERTICES],
    i: usize,
    n: usize,
) -> usize
    requires { (at + n ≤ reach) × (n ≤ max_vertices) × (i < one_digit) }
    ensures { Written n buf.old buf.new at result (print_digits (values_upto (λ (x : ℕ). on (item codes x) i) n)) }
{
    let mut p = at;
    for x in 0..n {
        p = emit::put_digit(buf, p, bits::has(u64::from(codes[x]), i as u32));
    }
    p
}

// The line of shared table i.
fn put_lut(
    buf: &mut [u8],
    at: usize,
    bs: Names,
    i: usize,
    codes: [u8; limits::MAX_VERTICES],
    n: usize,
) -> usize
    requires { (at + lut_room ≤ reach) × (bs.count ≤ max_names) × (n ≤ max_vertices) × (i < one_digit) }
    ensures { Written lut_room buf.old buf.new at result (print_lut (shown bs) i (values_upto (λ (x : ℕ). on (item codes x) i) n) ++ (newline ∷ [])) }
{
    let p = put_lut_head(buf, at, bs, i);
    let q = put_table(buf, p, codes, i, n);
    emit::put_text(buf, q, b")\n")
}

// The lines of the u shared tables.
pub fn put_luts(
    buf: &mut [u8],
    at: usize,
    bs: Names,
    u: usize,
    codes: [u8; limits::MAX_VERTICES],
    n: usize,
) -> usize
    requires { (at + luts_room ≤ reach) × (bs.count ≤ max_names) × (n ≤ max_vertices) × (u ≤ max_cells) }
    ensures { Written luts_room buf.old buf.new at result (lines_upto (λ (i : ℕ). print_lut (shown bs) i (values_upto (λ (x : ℕ). on (item codes x) i) n)) u) }
{
    let mut p = at;
    for i in 0..u {
        p = put_lut(buf, p, bs, i, codes, n);
    }
    p
}

// A node line up to its list of inputs.
fn put_node_head(buf: &mut [u8], at: usize, name: u64) -> usize
    requires { at + node_head_room ≤ reach }
    ensures { Written node_head_room buf.old buf.new at result (node_head (name_of name)) }
{
    let p = emit::put_text(buf, at, b"(node ");
    let q = emit::put_name(buf, p, name);
    emit::put_text(buf, q, b" (")
}

// The digit 0, n times.
fn put_zeros(buf: &mut [u8], at: usize, n: usize) -> usize
    requires { at + n ≤ reach }
    ensures { Written n buf.old buf.new at result (print_digits (values_upto (λ (z : ℕ). false) n)) }
{
    let mut p = at;
    for _ in 0..n {
        p = emit::put_digit(buf, p, false);
    }
    p
}

// The values of the table t at a vertex, free row by free row for n of them: a running row number starts at the vertex's row
// and is stepped on over the free digits.
fn put_column(
    buf: &mut [u8],
    at: usize,
    t: &[u64; limits::TABLE_WORDS],
    start: usize,
    bound: usize,
    free: usize,
    n: usize,
) -> usize
    requires { (at + n ≤ reach) × VertexRow start bound free }
    ensures { (v : VertexRow start bound free) → Written n buf.old buf.new at result (print_digits (values_upto (λ (z : ℕ). row_on t.now (row_at v z)) n)) }
{
    let mut p = at;
    let mut row = start;
    for _ in 0..n {
        p = emit::put_digit(buf, p, rows::row(t, row));
        row = rows::step(row, bound, free);
    }
    p
}

// The entries of a code that vertex x produces. Where no vertex does, the code has no running row number, and its entries are
// zeros. The row of the last vertex has every bound digit, and that of the last free row every free digit.
fn put_code<'a>(
    buf: &mut [u8],
    at: usize,
    t: &'a [u64; limits::TABLE_WORDS],
    vertex: &'a [usize],
    free: &'a [usize],
    x: Option<Vertex>,
) -> usize
    requires { (at + length free.now ≤ reach) × Laid (length vertex.now) (length free.now) vertex.now free.now }
    ensures { Written (length free.now) buf.old buf.new at result
        (print_digits (values_upto (cell_on t.now vertex.now free.now x) (length free.now))) }
{
    let v = vertex.len();
    let n = free.len();
    match x {
        Some(x) if x.0 < v => put_column(buf, at, t, vertex[x.0], vertex[v - 1], free[n - 1], n),
        _ => put_zeros(buf, at, n),
    }
}

// A composition table, code by code.
fn put_entries<'a>(
    buf: &mut [u8],
    at: usize,
    t: &'a [u64; limits::TABLE_WORDS],
    vertex: &'a [usize],
    free: &'a [usize],
    firsts: [Option<Vertex>; limits::MAX_CODES],
    count: usize,
) -> usize
    requires { (at + count * length free.now ≤ reach) × (count ≤ max_codes) × Laid (length vertex.now) (length free.now) vertex.now free.now }
    ensures { Written (count * length free.now) buf.old buf.new at result
        (print_digits (values_upto (cell_by t.now vertex.now free.now firsts) (count * length free.now))) }
{
    let mut p = at;
    for c in 0..count {
        p = put_code(buf, p, t, vertex, free, firsts[c]);
    }
    p
}

// The line of an output that reads the tables of the mask.
fn put_node<'a>(
    buf: &mut [u8],
    at: usize,
    name: u64,
    fs: Names,
    u: usize,
    mask: u8,
    codes: [u8; limits::MAX_VERTICES],
    t: &'a [u64; limits::TABLE_WORDS],
    vertex: &'a [usize],
    free: &'a [usize],
) -> usize
    requires { (at + node_room ≤ reach) × (fs.count ≤ max_inputs) × (u ≤ max_cells) × Bounded vertex.now free.now }
    ensures { Written node_room buf.old buf.new at result
        (print_node (name_of name) (shown fs) (node_by t.now vertex.now free.now (item codes) (numbers_of u mask)) ++ (newline ∷ [])) }
{
    let reads = netnames::read_names(u, mask);
    let count = bits::power(reads.count);
    let firsts = netnames::firsts(u, mask, codes, vertex.len());
    let p = put_node_head(buf, at, name);
    let q = put_list(buf, p, netnames::joined(reads, fs));
    let r = put_entries(buf, q, t, vertex, free, firsts, count);
    emit::put_text(buf, r, b")\n")
}

// The lines of all outputs.
pub fn put_nodes<'a>(
    buf: &mut [u8],
    at: usize,
    k: Sheet,
    fs: Names,
    u: usize,
    rows: [u8; limits::SEARCH_OUTPUTS],
    codes: [u8; limits::MAX_VERTICES],
    vertex: &'a [usize],
    free: &'a [usize],
) -> usize
    requires { (at + nodes_room ≤ reach) × (k.outputs ≤ max_outputs) × (fs.count ≤ max_inputs) × (u ≤ max_cells) × Bounded vertex.now free.now }
    ensures { Written nodes_room buf.old buf.new at result
        (lines_upto (λ (o : ℕ). print_node (name_of (item k.outs o)) (shown fs)
        (node_by (table_at k.tables o) vertex.now free.now (item codes) (numbers_of u (item rows o)))) k.outputs) }
{
    let mut p = at;
    for o in 0..k.outputs {
        let table = k.tables[o];
        p = put_node(
            buf,
            p,
            k.outs[o],
            fs,
            u,
            rows[o],
            codes,
            &table.words,
            vertex,
            free,
        );
    }
    p
}

// The count line and the last line.
pub fn put_end(buf: &mut [u8], at: usize, u: usize) -> usize
    requires { (at + end_room ≤ reach) × (u < one_digit) }
    ensures { Written end_room buf.old buf.new at result (last_lines u) }
{
    let p = emit::put_text(buf, at, b"(count ");
    let q = emit::put_byte(buf, p, b'0' + u as u8);
    emit::put_text(buf, q, b")\n(end)\n")
}
