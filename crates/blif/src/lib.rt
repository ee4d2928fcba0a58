// Export: a design sheet and a network sheet in, the network as a text in BLIF out, or a refusal. The digits of tables are
// read where they stand in the network sheet. Rests on checker for the examination of the two sheets, on netnames for lists of
// names and on emit for texts.
#![tactic(auto)]

ghost use Rattle.std.specs.Prelude.{◌≡◌, [], ◌∷◌, ◌++◌, map, ◌+◌, ◌*◌, ◌^◌, ◌≤◌, ◌<◌, length, take};
ghost use Rattle.limits.specs.Limits.{max_inputs, max_outputs, max_bound, max_cells};
ghost use Rattle.bits.specs.Logic.{pick};
ghost use Rattle.rows.specs.Row.{values_of};
ghost use Rattle.text.specs.Bytes.{space, newline};
ghost use Rattle.names.specs.Names.{print_names};
ghost use Rattle.names.specs.Pack.{name_of};
ghost use Rattle.sheet.specs.Examine as sheets;
ghost use Rattle.sheet.specs.Examine.{Design};
ghost use Rattle.design.specs.Answer.{ExaminedIs, Right, Examination};
ghost use Rattle.network.specs.Network.{Network};
ghost use Rattle.network.specs.Numbers.{numbers_of};
ghost use Rattle.network.specs.Printer.{print_digits};
ghost use Rattle.comparing.specs.Code.{is_one};
ghost use Rattle.emit.specs.Upto.{texts_upto};
ghost use Rattle.emit.specs.Written.{reach, item_room, Written};
ghost use Rattle.network.specs.Shown.{shown};
ghost use Rattle.netnames.specs.Listed.{one_digit};
ghost use Rattle.blif.specs.Printer.{cell_name, row_line, print_blif};
ghost use Rattle.blif.specs.Export as spec;
ghost use Rattle.blif.specs.Answer.{export_answer};
ghost use Rattle.blif.specs.Room.{head_room, cells_room, row_room, rows_room, block_room, luts_room, nodes_room, text_room};
ghost use Rattle.blif.specs.Texts.{cell_text, digits_at, rows_text, block_text, lut_text, node_text, head_text};
ghost use Rattle.blif.specs.Ready.{LutsReady, NodeReady, NodesReady, SomePassed, Passed};

use netsheet::NetworkSheet;
use network::Names;
use refusal::{Question, Refusal};
use sheet::Sheet;

// The bytes of a cell's name: `C` twice, an underscore, and that of cell 0's number.
const CAPITAL_C: u64 = b'C' as u64;

const UNDERSCORE: u64 = b'_' as u64;

const ZERO: u64 = b'0' as u64;

// The number that holds the name of cell i.
fn cell_name(i: usize) -> u64
    requires { i < one_digit }
    ensures { name_of result ≡ cell_name i }
{
    let numbered = (i as u64 + ZERO) * names::BASE + UNDERSCORE;
    (numbered * names::BASE + CAPITAL_C) * names::BASE + CAPITAL_C
}

// The name v after a space.
fn put_item(buf: &mut [u8], at: usize, v: u64) -> usize
    requires { at + item_room ≤ reach }
    ensures { Written item_room buf.old buf.new at result (space ∷ name_of v) }
{
    let p = emit::put_byte(buf, at, b' ');
    emit::put_name(buf, p, v)
}

// The names ns, each after a space.
fn put_items(buf: &mut [u8], at: usize, ns: &[u64]) -> usize
    requires { at + item_room * length ns.now ≤ reach }
    ensures { Written (item_room * length ns.now) buf.old buf.new at result
        (print_names (map name_of ns.now)) }
{
    let mut p = at;
    for v in ns {
        p = put_item(buf, p, *v);
    }
    p
}

// The names of a list, each after a space.
fn put_listed(buf: &mut [u8], at: usize, ns: Names) -> usize
    requires { (at + item_room * max_inputs ≤ reach) × (ns.count ≤ max_inputs) }
    ensures { Written (item_room * max_inputs) buf.old buf.new at result (print_names (shown ns)) }
{
    put_items(buf, at, &ns.list[..ns.count])
}

// Cell i after a space, where it is in the mask.
fn put_cell(buf: &mut [u8], at: usize, mask: u8, i: usize) -> usize
    requires { (at + item_room ≤ reach) × (i < one_digit) }
    ensures { Written item_room buf.old buf.new at result (cell_text mask i) }
{
    if bits::has(mask as u64, i as u32) {
        put_item(buf, at, cell_name(i))
    } else {
        at
    }
}

// The names of the cells below u that are in the mask, each after a space.
fn put_cells(buf: &mut [u8], at: usize, u: usize, mask: u8) -> usize
    requires { (at + cells_room ≤ reach) × (u ≤ max_cells) }
    ensures { Written cells_room buf.old buf.new at result (print_names (map cell_name (numbers_of u mask))) }
{
    let mut p = at;
    for i in 0..u {
        p = put_cell(buf, p, mask, i);
    }
    p
}

// The values of n inputs on row r, as digits.
fn put_inputs(buf: &mut [u8], at: usize, n: usize, r: usize) -> usize
    requires { (at + max_inputs ≤ reach) × (n ≤ max_inputs) }
    ensures { Written max_inputs buf.old buf.new at result (print_digits (values_of n r)) }
{
    let mut p = at;
    for i in (0..n).rev() {
        p = emit::put_digit(buf, p, bits::has(r as u64, i as u32));
    }
    p
}

// The line of row r of n inputs, where the row's digit is 1.
fn put_row(buf: &mut [u8], at: usize, n: usize, r: usize, digit: u8) -> usize
    requires { (at + row_room ≤ reach) × (n ≤ max_inputs) }
    ensures { Written row_room buf.old buf.new at result
        (pick (is_one digit) (row_line (values_of n r) ++ (newline ∷ [])) []) }
{
    if digit != b'1' {
        return at;
    }
    let p = put_inputs(buf, at, n, r);
    if n == 0 {
        return emit::put_text(buf, p, b"1\n");
    }
    emit::put_text(buf, p, b" 1\n")
}

// The lines of the rows of value 1 of a table of n inputs, whose digits stand in t from a place on.
fn put_rows(buf: &mut [u8], at: usize, t: &[u8], place: usize, n: usize) -> usize
    requires { (at + rows_room ≤ reach) × (n ≤ max_inputs) × (place + 2 ^ n ≤ length t.now) }
    ensures { Written rows_room buf.old buf.new at result (rows_text n (digits_at t.now place)) }
{
    let rows = bits::power(n);
    let mut p = at;
    for r in 0..rows {
        p = put_row(buf, p, n, r, t[place + r]);
    }
    p
}

// The block of shared table i.
fn put_lut(buf: &mut [u8], at: usize, t: &[u8], bs: Names, i: usize, place: usize) -> usize
    requires { (at + block_room ≤ reach) × (bs.count ≤ max_bound) × (i < one_digit) × (place + 2 ^ bs.count ≤ length t.now) }
    ensures { Written block_room buf.old buf.new at result
        (block_text (shown bs) (cell_name i) (digits_at t.now place)) }
{
    let p = emit::put_text(buf, at, b".names");
    let q = put_listed(buf, p, bs);
    let r = put_item(buf, q, cell_name(i));
    let s = emit::put_byte(buf, r, b'\n');
    put_rows(buf, s, t, place, bs.count)
}

// The blocks of the shared tables.
fn put_luts(buf: &mut [u8], at: usize, t: &[u8], bs: Names, n: NetworkSheet) -> usize
    requires { (at + luts_room ≤ reach) × (bs.count ≤ max_bound) × LutsReady t.now bs.count n.luts n.lutat }
    ensures { Written luts_room buf.old buf.new at result
        (texts_upto (lut_text t.now (shown bs) n.lutat) n.luts) }
{
    let mut p = at;
    for i in 0..n.luts {
        p = put_lut(buf, p, t, bs, i, n.lutat[i]);
    }
    p
}

// The block of an output that reads the cells of the mask.
fn put_node(
    buf: &mut [u8],
    at: usize,
    t: &[u8],
    fs: Names,
    luts: usize,
    mask: u8,
    name: u64,
    place: usize,
) -> usize
    requires { (at + block_room ≤ reach) × (luts ≤ max_cells) × (fs.count ≤ max_inputs)
        × NodeReady t.now (length (shown fs)) luts mask place }
    ensures { Written block_room buf.old buf.new at result
        (block_text (map cell_name (numbers_of luts mask) ++ shown fs) (name_of name) (digits_at t.now place)) }
{
    let n = checker::count(mask, luts) + fs.count;
    let p = emit::put_text(buf, at, b".names");
    let q = put_cells(buf, p, luts, mask);
    let r = put_listed(buf, q, fs);
    let s = put_item(buf, r, name);
    let v = emit::put_byte(buf, s, b'\n');
    put_rows(buf, v, t, place, n)
}

// The blocks of all outputs.
fn put_nodes(buf: &mut [u8], at: usize, t: &[u8], fs: Names, k: Sheet, n: NetworkSheet) -> usize
    requires { (at + nodes_room ≤ reach) × (k.outputs ≤ max_outputs) × (fs.count ≤ max_inputs)
        × NodesReady t.now (length (shown fs)) n.luts n.reads n.nodeat k.outputs }
    ensures { Written nodes_room buf.old buf.new at result
        (texts_upto (node_text t.now (shown fs) k.outs n.luts n.reads n.nodeat) k.outputs) }
{
    let mut p = at;
    for o in 0..k.outputs {
        p = put_node(buf, p, t, fs, n.luts, n.reads[o], k.outs[o], n.nodeat[o]);
    }
    p
}

// The lines before the blocks.
fn put_head(buf: &mut [u8], at: usize, k: Sheet) -> usize
    requires { (at + head_room ≤ reach) × (k.inputs ≤ max_inputs) × (k.outputs ≤ max_outputs) }
    ensures { Written head_room buf.old buf.new at result
        (head_text (map name_of (take k.inputs k.names)) (map name_of (take k.outputs k.outs))) }
{
    let p = emit::put_text(buf, at, b".model panel\n.inputs");
    let q = put_items(buf, p, &k.names[..k.inputs]);
    let r = emit::put_text(buf, q, b"\n.outputs");
    let s = put_items(buf, r, &k.outs[..k.outputs]);
    emit::put_byte(buf, s, b'\n')
}

// The whole text, from the buffer's start; the tables stand in the network sheet t.
fn put_blif(buf: &mut [u8], t: &[u8], k: Sheet, n: NetworkSheet) -> usize
    requires { SomePassed t.now k n }
    ensures { (d : Design) (w : Network) → Passed t.now k n d w
        → Written text_room buf.old buf.new 0 result (print_blif d w) }
{
    let bs = network::bound_names(k.names, k.bound, k.bounds);
    let fs = network::free_names(k.names, k.inputs, bs);
    let p = put_head(buf, 0, k);
    let q = put_luts(buf, p, t, bs, n);
    let r = put_nodes(buf, q, t, fs, k, n);
    emit::put_text(buf, r, b".end\n")
}

// Export, after what the examination of a design answered: how many bytes were written. A first pass into no buffer gives the
// length.
pub fn export_of(
    e: Result<Sheet, Refusal>,
    network: &[u8],
    buffer: &mut [u8],
) -> Result<usize, Refusal>
    requires { Examination e }
    ensures { (x : sheets.Examined) → ExaminedIs x e → Right x
        → record { answer = export_answer result; buffer = buffer.new } ≡ spec.export_of x network.now buffer.old }
{
    let b = checker::examine_pair(e, network)?;
    let length = put_blif(&mut [], network, b.sheet, b.network);
    if buffer.len() < length {
        return Err(Refusal {
            question: Question::BufferLength,
            line: 0,
        });
    }
    Ok(put_blif(buffer, network, b.sheet, b.network))
}

// Export on a design sheet, a network sheet and a buffer.
pub fn export(sheet: &[u8], network: &[u8], buffer: &mut [u8]) -> Result<usize, Refusal>
    ensures { record { answer = export_answer result; buffer = buffer.new }
        ≡ spec.export sheet.now network.now buffer.old }
{
    export_of(design::examine(sheet), network, buffer)
}
