// The network sheet as a whole, read beside a design: question 10, line by line. Tables stay in the sheet's bytes, and
// the answer holds their places. Rests on network for what a line says.
#![tactic(auto)]

ghost use Rattle.std.specs.Prelude.{◌≡◌, Some, List, map, ℕ, ◌+◌, ◌≤◌, ◌<◌, ◌^◌, length, take};
ghost use Rattle.limits.specs.Limits.{max_outputs, max_cells, max_network};
ghost use Rattle.names.specs.Pack.{name_of};
ghost use Rattle.sheet.specs.Examine.{Design};
ghost use Rattle.sheet.specs.Known.{Holds};
ghost use Rattle.classes.specs.Proper.{Proper};
ghost use Rattle.network.specs.Network.{Network};
ghost use Rattle.network.specs.LineAnswer.{TableIs};
ghost use Rattle.network.specs.Examine as spec;
ghost use Rattle.netsheet.specs.Answer.{NetworkIs};
ghost use Rattle.netsheet.specs.Named.{Ranged, Counts, NamedFor, NamedIs};
ghost use Rattle.netsheet.specs.Reading.{place_of, fresh, moved, lut_added, after_node, node_added, Safe, AnySafe, PartOf, HeldBy, Known, StepIs, maybe_lut};

use sheet::Sheet;

// What a network sheet says: how many shared tables there are, where the digits of each stand, the shared tables that each
// output reads, as a mask, and where the digits of its own table stand.
#[derive(Clone, Copy)]
pub struct NetworkSheet {
    pub luts: usize,
    pub lutat: [usize; limits::MAX_CELLS],
    pub reads: [u8; limits::MAX_OUTPUTS],
    pub nodeat: [usize; limits::MAX_OUTPUTS],
}

// Which line is wanted: a node line has the number of its output.
#[derive(Clone, Copy)]
enum Place {
    Network,
    Luts,
    Node(usize),
    Count,
    End,
    Over,
}

// The place of the next line, and what the lines before it say.
#[derive(Clone, Copy)]
struct Reading {
    place: Place,
    sheet: NetworkSheet,
}

// The names of a design that the lines of a network sheet repeat: bound inputs, free inputs and outputs.
#[derive(Clone, Copy)]
struct Named {
    bounds: usize,
    bound: [u64; network::MAX_NAMES],
    frees: usize,
    free: [u64; network::MAX_NAMES],
    outputs: usize,
    outs: [u64; limits::MAX_OUTPUTS],
}

// The names that the lines repeat.
fn names_of(k: Sheet) -> Named
    requires { Ranged k }
    ensures { NamedFor k result }
{
    let bs = network::bound_names(k.names, k.bound, k.bounds);
    let fs = network::free_names(k.names, k.inputs, bs);
    // The prover follows an array from field to field by way of a local.
    let bound = bs.list;
    let free = fs.list;
    let outs = k.outs;
    Named {
        bounds: bs.count,
        bound,
        frees: fs.count,
        free,
        outputs: k.outputs,
        outs,
    }
}

// Before the first line.
fn blank() -> Reading
    ensures { result ≡ fresh }
{
    Reading {
        place: Place::Network,
        sheet: NetworkSheet {
            luts: 0,
            lutat: [0; limits::MAX_CELLS],
            reads: [0; limits::MAX_OUTPUTS],
            nodeat: [0; limits::MAX_OUTPUTS],
        },
    }
}

// The place p next, where the line is as it must be.
fn onward(s: Reading, good: bool, p: Place) -> Option<Reading>
    ensures { result ≡ moved s good p }
{
    if good {
        Some(Reading { place: p, ..s })
    } else {
        None
    }
}

// One shared table more, whose digits stand at p.
fn with_lut(s: Reading, p: usize) -> Reading
    requires { s.sheet.luts < max_cells }
    ensures { result ≡ lut_added s p }
{
    let mut sheet = s.sheet;
    sheet.lutat[sheet.luts] = p;
    sheet.luts += 1;
    Reading {
        place: Place::Luts,
        sheet,
    }
}

// The line after the node of output o.
fn after_node(o: usize, outputs: usize) -> Place
    requires { o < max_outputs }
    ensures { result ≡ after_node o outputs }
{
    if o + 1 < outputs {
        Place::Node(o + 1)
    } else {
        Place::Count
    }
}

// The node of output o, which reads the shared tables of the mask, and whose digits stand at p.
fn with_node(s: Reading, o: usize, mask: u8, p: usize, outputs: usize) -> Reading
    requires { o < max_outputs }
    ensures { result ≡ node_added s o mask p outputs }
{
    let mut sheet = s.sheet;
    sheet.reads[o] = mask;
    sheet.nodeat[o] = p;
    Reading {
        place: after_node(o, outputs),
        sheet,
    }
}

// The node line of output o, which stands from at on.
fn ask_node(l: &[u8], at: usize, k: Named, s: Reading, o: usize) -> Option<Reading>
    requires { Counts k × (s.sheet.luts ≤ max_cells) × (o < max_outputs) × (at + length l.now ≤ max_network) }
    ensures { (AnySafe result) × ((t : List ℕ) (d : Design) (w : Network)
        → PartOf t at l.now → NamedIs d k → HeldBy d t w s → length w.nodes ≡ o → o < length d.outputs → StepIs d t (spec.ask_node d w o l.now) result) }
{
    let r = network::read_node(l, k.outs[o], &k.free[..k.frees], s.sheet.luts)?;
    Some(with_node(s, o, r.mask, at + r.at, k.outputs))
}

// A lut line, where there may be one more.
fn lut_line(l: &[u8], k: Named, u: usize) -> Option<usize>
    requires { Counts k }
    ensures { TableIs l.now (2 ^ k.bounds) result (maybe_lut (map name_of (take k.bounds k.bound)) u l.now) }
{
    if limits::MAX_CELLS <= u {
        return None;
    }
    network::read_lut(l, &k.bound[..k.bounds], u)
}

// A lut line or the first node, which stands from at on.
fn ask_lut(l: &[u8], at: usize, k: Named, s: Reading) -> Option<Reading>
    requires { Counts k × (s.sheet.luts ≤ max_cells) × (at + length l.now ≤ max_network) }
    ensures { (AnySafe result) × ((t : List ℕ) (d : Design) (w : Network)
        → PartOf t at l.now → NamedIs d k → HeldBy d t w s → length w.nodes ≡ 0 → 0 < length d.outputs → StepIs d t (spec.ask_lut d w l.now) result) }
{
    match lut_line(l, k, s.sheet.luts) {
        Some(p) => Some(with_lut(s, at + p)),
        None => ask_node(l, at, k, s, 0),
    }
}

// One line by the place that it stands at; it stands from at on.
fn ask_line(l: &[u8], at: usize, k: Named, s: Reading) -> Option<Reading>
    requires { Counts k × Safe s × (at + length l.now ≤ max_network) }
    ensures { (AnySafe result) × ((t : List ℕ) (d : Design) (w : Network)
        → PartOf t at l.now → NamedIs d k → Known d t w s → 0 < length d.outputs → StepIs d t (spec.ask_line d (place_of s.place) w l.now) result) }
{
    match s.place {
        Place::Network => onward(s, text::equal(l, b"(network 1)"), Place::Luts),
        Place::Luts => ask_lut(l, at, k, s),
        Place::Node(o) => ask_node(l, at, k, s, o),
        Place::Count => onward(s, network::is_count(l, s.sheet.luts), Place::End),
        Place::End => onward(s, text::equal(l, b"(end)"), Place::Over),
        Place::Over => None,
    }
}

// The answer after the last line, where n is the number of the line after it.
fn ended(s: Reading, n: usize) -> Result<NetworkSheet, usize>
    ensures { (t : List ℕ) (d : Design) (w : Network) → Known d t w s → NetworkIs d t (spec.at_end (place_of s.place) w n) result }
{
    match s.place {
        Place::Over => Ok(s.sheet),
        _ => Err(n),
    }
}

// Question 10: the network sheet, or the number of its first bad line, 0 where the sheet has no byte or too many.
pub fn read_network(t: &[u8], k: Sheet) -> Result<NetworkSheet, usize>
    requires { Ranged k }
    ensures { (d : Design) → Holds d k → Proper d → 1 ≤ length d.outputs → NetworkIs d t.now (spec.read_network d t.now) result }
{
    if t.len() < 1 || limits::MAX_NETWORK < t.len() {
        return Err(0);
    }
    let names = names_of(k);
    let mut s = blank();
    let mut at = 0;
    let mut n = 1;
    // A `while`: it goes from line to line, and a line says where the next begins.
    while at < t.len() {
        let e = text::line_end(t, at);
        if e == t.len() {
            return Err(n);
        }
        let Some(next) = ask_line(&t[at..e], at, names, s) else {
            return Err(n);
        };
        s = next;
        at = e + 1;
        n += 1;
    }
    ended(s, n)
}
