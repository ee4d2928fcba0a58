// Codes for given reading sets: the cells are split into shared and private ones, cells with the same readers are put into
// groups, and the search for codes is started with code 0 at vertex 0. Digits of cell 0 may be known. The answer is right: codes
// that tell the classes apart and have the known digits, or there are none with code 0 at vertex 0.
#![tactic(auto)]

ghost use Rattle.std.specs.Prelude.{◌≡◌, true, false, ℕ, ◌<◌, ◌≤◌};
ghost use Rattle.limits.specs.Limits.{search_outputs, max_vertices, max_codes, max_cells};
ghost use Rattle.bits.specs.Digit.{on};
ghost use Rattle.problem.specs.Problem.{Labels, item};
ghost use Rattle.problem.specs.Answer.{is_found, is_unsure, found_codes};
ghost use Rattle.coding.specs.Exchange.{Uniform};
ghost use Rattle.coding.specs.Limit.{Sure};
ghost use Rattle.std.specs.Int.Bits.{bit_and};
ghost use Rattle.readers.specs.Masks.{Short, Common, Planned, Start, Decided};
ghost use Rattle.readers.specs.Groups.{Grouping};
ghost use Rattle.readers.specs.Known.{Public, Zero, Asked, Groupable, Fitted, Digit, Wrote};

use coding::{GROUPS, Search};
use limits::{MAX_VERTICES, SEARCH_OUTPUTS};
use problem::Answer;
use std::array;

// The cells that two of the first j outputs read.
fn shared(rows: [u8; SEARCH_OUTPUTS], j: usize) -> u8
    requires { (j ≤ search_outputs) × Short rows j }
    ensures { Common rows j result }
{
    let mut once: u8 = 0;
    let mut many: u8 = 0;
    for o in 0..j {
        many |= once & rows[o];
        once |= rows[o];
    }
    many & cells::ALL_CELLS
}

// Cell 0 as a set.
const CELL_0: u8 = 1;

// The shared cells: those that two of the first j outputs read, and cell 0 where digits of it are known.
fn searched(rows: [u8; SEARCH_OUTPUTS], j: usize, kn: u32) -> u8
    requires { (j ≤ search_outputs) × Short rows j }
    ensures { Common rows j result × Public kn result }
{
    let sh = shared(rows, j);
    if kn == 0 { sh } else { sh | CELL_0 }
}

// The cells of sh that may be in a group: cell 0 may not where digits of it are known.
fn groupable(sh: u8, kn: u32) -> u8
    requires { sh < max_codes }
    ensures { Groupable sh kn result }
{
    if kn == 0 { sh } else { sh & !CELL_0 }
}

// The vertices of kn where some of the first j outputs reads cell 0, else none: digits that no output reads need no search.
fn asked(rows: [u8; SEARCH_OUTPUTS], j: usize, kn: u32) -> u32
    requires { j ≤ search_outputs }
    ensures { Asked rows j kn result }
{
    if rows[..j].iter().any(|r| cells::in_set(*r as u64, 0)) {
        kn
    } else {
        0
    }
}

// Whether vertex 0 is one of the v vertices and its digit of cell 0 is known to be 1.
fn contrary(v: usize, kn: u32, val: u32) -> bool
    ensures { (result ≡ true → (0 < v) × (on kn 0 ≡ true) × (on val 0 ≡ true)) × (result ≡ false → Zero kn val v) }
{
    v != 0 && cells::in_set(kn as u64, 0) && cells::in_set(val as u64, 0)
}

// The code c with the digit d of cell 0 where that is known.
fn with_digit(c: u8, known: bool, d: bool) -> u8
    ensures { Digit c known d result }
{
    if !known {
        c
    } else if d {
        c | CELL_0
    } else {
        c & !CELL_0
    }
}

// The codes of the first v vertices with the known digits of cell 0.
fn written(kn: u32, val: u32, v: usize, codes: [u8; MAX_VERTICES]) -> [u8; MAX_VERTICES]
    requires { v ≤ max_vertices }
    ensures { Wrote kn val codes v result }
{
    let mut r = codes;
    for x in 0..v {
        let known = cells::in_set(kn as u64, x as u8);
        let d = cells::in_set(val as u64, x as u8);
        r[x] = with_digit(r[x], known, d);
    }
    r
}

// The problem with these reading sets: the cells of sh are shared, and the others that an output reads are its own.
fn plan(
    v: usize,
    j: usize,
    rows: [u8; SEARCH_OUTPUTS],
    kn: u32,
    val: u32,
    sh: u8,
) -> problem::Problem
    requires { j ≤ search_outputs }
    ensures { Planned rows sh j result.ms result.ps result.caps result.spots × (result.vertices ≡ v) × (result.outputs ≡ j) × (result.kn ≡ kn) × (result.val ≡ val) }
{
    let mut ms = [0u8; SEARCH_OUTPUTS];
    let mut ps = [0u8; SEARCH_OUTPUTS];
    let mut caps = [0u8; SEARCH_OUTPUTS];
    let mut spots = [0u8; SEARCH_OUTPUTS];
    for o in 0..j {
        let r = rows[o];
        ms[o] = r & sh;
        ps[o] = r & !sh;
        caps[o] = cells::power(cells::size(r & !sh));
        spots[o] = cells::power(cells::size(r));
    }
    problem::Problem {
        ms,
        ps,
        caps,
        spots,
        vertices: v,
        outputs: j,
        kn,
        val,
    }
}

// Which of the first j outputs read cell i, as a set.
fn read_by(rows: [u8; SEARCH_OUTPUTS], j: usize, i: u8) -> u8
    requires { (j ≤ search_outputs) × (i < max_cells) }
{
    let mut r: u8 = 0;
    for o in 0..j {
        r |= u8::from(cells::in_set(rows[o] as u64, i)) << o;
    }
    r
}

// The cells with the same readers as cell i.
fn twins(rows: [u8; SEARCH_OUTPUTS], j: usize, i: u8) -> u8
    requires { (j ≤ search_outputs) × (i < max_cells) }
{
    let own = read_by(rows, j, i);
    let mut r: u8 = 0;
    for k in 0..cells::MAX_CELLS {
        r |= u8::from(read_by(rows, j, k) == own) << k;
    }
    r
}

// Whether each of the first j outputs reads all cells of g or none.
fn uniform(rows: [u8; SEARCH_OUTPUTS], j: usize, g: u8) -> bool
    requires { j ≤ search_outputs }
    ensures { result ≡ true → (o : ℕ) → o < j → Uniform (item rows o) g }
{
    rows[..j].iter().all(|r| *r & g == g || *r & g == 0)
}

// Whether g is a group of two cells or more of which none is in done.
fn useful(rows: [u8; SEARCH_OUTPUTS], j: usize, g: u8, done: u8) -> bool
    requires { j ≤ search_outputs }
    ensures { result ≡ true → (bit_and g done ≡ 0) × ((o : ℕ) → o < j → Uniform (item rows o) g) }
{
    g & done == 0 && cells::size(g) >= 2 && uniform(rows, j, g)
}

// The groups of two or more cells of sh with the same readers; the others are empty.
fn groups(rows: [u8; SEARCH_OUTPUTS], j: usize, sh: u8) -> [u8; SEARCH_OUTPUTS]
    requires { (j ≤ search_outputs) × (sh < max_codes) }
    ensures { (done : ℕ) × Grouping rows result sh j done }
{
    let mut gs = [0u8; SEARCH_OUTPUTS];
    let mut done: u8 = 0;
    let mut n: usize = 0;
    for i in 0..cells::MAX_CELLS {
        let g = twins(rows, j, i) & sh;
        if n < GROUPS && useful(rows, j, g, done) {
            gs[n] = g;
            done |= g;
            n += 1;
        }
    }
    gs
}

// For each vertex the codes with the known digit of cell 0.
fn fitting_sets(kn: u32, val: u32) -> [u64; MAX_VERTICES]
    ensures { Fitted kn val max_vertices result }
{
    if kn == 0 {
        [cells::ALL_CODES; MAX_VERTICES]
    } else {
        array::from_fn(|x| coding::fitting(kn, val, x))
    }
}

// Where the search starts: vertex 0 has code 0, and any code with the known digit may be taken.
#[derive(Drop)]
struct State {
    codes: [u8; MAX_VERTICES],
    dom: [u64; MAX_VERTICES],
}

fn begin(kn: u32, val: u32) -> State
    ensures { Start kn val result.codes result.dom }
{
    let mut codes = [problem::NO_CODE; MAX_VERTICES];
    codes[0] = 0;
    State {
        codes,
        dom: fitting_sets(kn, val),
    }
}

// Whether each of the first j outputs has as many blocks as its classes cannot do without. Where one has not, there are no
// codes; where all have, that is still open.
pub fn possible(cl: &[u8], v: usize, j: usize, rows: [u8; SEARCH_OUTPUTS]) -> bool
    requires { Labels cl.now × (v ≤ max_vertices) × (j ≤ search_outputs) × Short rows j }
    ensures { result ≡ false → (kn val : ℕ) → Decided cl.now v j rows kn val false rows }
{
    let sh = shared(rows, j);
    let p = plan(v, j, rows, 0, 0, sh);
    let base = lowerbounds::bases(cl, v, j, rows);
    for o in 0..j {
        let t = holding::total(cl, &base, o, &[0u8; MAX_VERTICES]);
        if (p.spots[o] as usize) < t {
            return false;
        }
    }
    true
}

// The codes asked for, where code 0 has the known digit of vertex 0. Cell 0 is shared where digits of it are known.
fn search(
    cl: &[u8],
    v: usize,
    j: usize,
    rows: [u8; SEARCH_OUTPUTS],
    kn: u32,
    val: u32,
    limit: u64,
) -> Search
    requires { Labels cl.now × (v ≤ max_vertices) × (j ≤ search_outputs) × Short rows j × Zero kn val v }
    ensures { Sure limit (is_unsure result.answer) (Decided cl.now v j rows kn val (is_found result.answer) (found_codes result.answer)) }
{
    let sh = searched(rows, j, kn);
    let p = plan(v, j, rows, kn, val, sh);
    let bs = holding::blocks(p.ms, p.outputs);
    let base = lowerbounds::bases(cl, p.vertices, p.outputs, rows);
    let b = begin(p.kn, p.val);
    let mut d = b.dom;
    if !coding::settle_all(cl, &base, &bs, p, &b.codes, &mut d, 0, 0) {
        return Search {
            answer: Answer::Nothing,
            nodes: 0,
        };
    }
    if sh == 0 {
        if let Some(found) = numbering::finish(cl, p, [0u8; MAX_VERTICES]) {
            return Search {
                answer: Answer::Found(found),
                nodes: 0,
            };
        }
    }
    let rest = groupable(sh, p.kn);
    let gb = holding::blocks(groups(p.ms, p.outputs, rest), GROUPS);
    let all = holding::block(!sh, 0);
    let s = coding::State {
        codes: b.codes,
        dom: d,
        used: coding::mark(&gb, [0u64; GROUPS], 0),
        met: coding::meet(cl, p.outputs, [0u64; SEARCH_OUTPUTS], 0),
    };
    coding::find(cl, &base, &bs, &gb, all, p, s, limit, 0)
}

// Codes for v vertices that tell the classes of each part of the first j outputs apart, each reading its row of cells, and that
// have the known digits of cell 0: it is known at the vertices of kn, and val has its digits there.
pub fn codes_for(
    cl: &[u8],
    v: usize,
    j: usize,
    rows: [u8; SEARCH_OUTPUTS],
    kn: u32,
    val: u32,
    limit: u64,
) -> Search
    requires { Labels cl.now × (v ≤ max_vertices) × (j ≤ search_outputs) × Short rows j }
    ensures { Sure limit (is_unsure result.answer) (Decided cl.now v j rows kn val (is_found result.answer) (found_codes result.answer)) }
{
    let k = asked(rows, j, kn);
    if contrary(v, k, val) {
        return Search {
            answer: Answer::Nothing,
            nodes: 0,
        };
    }
    let s = search(cl, v, j, rows, k, val, limit);
    if k == kn {
        return s;
    }
    match s.answer {
        Answer::Found(codes) => Search {
            answer: Answer::Found(written(kn, val, v, codes)),
            nodes: s.nodes,
        },
        Answer::Nothing | Answer::Unsure => s,
    }
}
