// Codes over the shared cells for fixed reading sets: a depth-first search that takes the vertex with the fewest codes left,
// gives it a value of each group of cells that is in use or one new one, and narrows the sets of the others. Its contract
// says that the answer is right: codes that tell the classes apart, or no solution goes on from what was given. The order of
// vertices and codes is free.
#![tactic(auto)]

ghost use Rattle.std.specs.Prelude.{◌≡◌, ℕ, ◌+◌, ◌*◌, ◌<◌, ◌≤◌, true, false, List, length};
ghost use Rattle.std.specs.Option.{is_some};
ghost use Rattle.limits.specs.Limits.{search_outputs, max_vertices, label_count, block_count, max_codes};
ghost use Rattle.problem.specs.Problem.{Labels, Blocks, Plan, Kept, Hopeless, Knows, Told, item};
ghost use Rattle.problem.specs.Answer.{is_found, is_unsure, found_codes};
ghost use Rattle.holding.specs.Search.{Seeking, Empty};
ghost use Rattle.coding.specs.Values.{group_count, Groups, Marks, Over, Fresh, Canon, Marked, Valued};
ghost use Rattle.coding.specs.Known.{Fitting};
ghost use Rattle.coding.specs.Tried.{Covers};
ghost use Rattle.coding.specs.Limit.{no_limit, Sure};

use limits::{MAX_CELLS, MAX_CODES, MAX_VERTICES, SEARCH_OUTPUTS};
use problem::Answer;

// Groups of cells with the same readers that are looked at: more groups of two or more cells there are not.
pub const GROUPS: usize = MAX_CELLS / 2;

// The limit of a search that is not given up. It is a number and no None: Sure and the laws of the crates above say of each limit, as
// a number, what a search with it says.
pub const NO_LIMIT: u64 = 0xffff_ffff_ffff_ffff;

// The codes with the digit of cell 0 on, and those with it off.
const ODD_CODES: u64 = EVEN_CODES * 2;

const EVEN_CODES: u64 = cells::ALL_CODES / 3;

// Whether some vertex has no code left.
fn empty(dom: &[u64], v: usize) -> bool
    requires { (v ≤ max_vertices) × (length dom.now ≡ max_vertices) }
    ensures { result ≡ true → Empty dom.now v }
{
    dom[..v].iter().any(|d| *d == 0)
}

// The sets lose full blocks, output by output, after vertex x took code c.
fn bar_all(
    cl: &[u8],
    bs: &[u64],
    p: problem::Problem,
    codes: &[u8],
    dom: &mut [u64],
    c: u8,
    x: usize,
)
    requires { Labels cl.now × (length bs.now ≡ block_count) × (p.vertices ≤ max_vertices) × (p.outputs ≤ search_outputs) × (c < max_codes) × (x < max_vertices)
        × (length codes.now ≡ max_vertices) × (length dom.old ≡ max_vertices) }
    ensures { ((base ms spots : List ℕ) → Blocks ms bs.now p.outputs
        → Kept cl.now base ms p.caps spots p.vertices p.outputs codes.now dom.old dom.new)
        × (length dom.new ≡ max_vertices) }
{
    for o in 0..p.outputs {
        let b = bs[o * MAX_CODES + c as usize];
        let k = holding::crowd(cl, p.vertices, o, x, p.caps[o], codes, b);
        if p.caps[o] <= k.count {
            holding::shut(cl, p.vertices, o, k.seen, codes, dom, b);
        }
    }
}

// The sets are narrowed by each output after vertex x took code c: full blocks first, since what a class can still take says
// what it needs. False where no solution keeps to them; where that is seen the other outputs are left out.
pub fn settle_all(
    cl: &[u8],
    base: &[u8],
    bs: &[u64],
    p: problem::Problem,
    codes: &[u8],
    dom: &mut [u64],
    c: u8,
    x: usize,
) -> bool
    requires { Labels cl.now × (length base.now ≡ label_count) × Blocks p.ms bs.now p.outputs × (p.vertices ≤ max_vertices) × (p.outputs ≤ search_outputs)
        × (c < max_codes) × (x < max_vertices) × (length codes.now ≡ max_vertices) × (length dom.old ≡ max_vertices) }
    ensures { Kept cl.now base.now p.ms p.caps p.spots p.vertices p.outputs codes.now dom.old dom.new
        × (length dom.new ≡ max_vertices)
        × (result ≡ false → (kn val : ℕ) → Hopeless cl.now base.now p.ms p.caps p.spots p.vertices p.outputs kn val codes.now dom.old) }
{
    bar_all(cl, bs, p, codes, dom, c, x);
    for o in 0..p.outputs {
        if empty(dom, p.vertices) || !holding::settle(cl, base, bs, p, o, codes, dom) {
            return false;
        }
    }
    !empty(dom, p.vertices)
}

// The classes that vertices with codes have, output by output, once x has one.
pub fn meet(cl: &[u8], j: usize, met: [u64; SEARCH_OUTPUTS], x: usize) -> [u64; SEARCH_OUTPUTS]
    requires { Labels cl.now × (j ≤ search_outputs) × (x < max_vertices) }
{
    let mut r = met;
    for o in 0..j {
        r[o] = cells::with(r[o], problem::label(cl, o, x));
    }
    r
}

// How many of the first j outputs have a class at x that met has not.
fn unmet(cl: &[u8], j: usize, met: &[u64], x: usize) -> u32
    requires { Labels cl.now × (j ≤ search_outputs) × (x < max_vertices) × (length met.now ≡ search_outputs) }
    ensures { result ≤ search_outputs }
{
    let mut n: u32 = 0;
    for o in 0..j {
        if !cells::in_set(met[o], problem::label(cl, o, x)) {
            n += 1;
        }
    }
    n
}

// The rank of a vertex with so many codes left and so many outputs whose class at it no vertex with a code has: few codes rank
// first. Of equally few, few such outputs rank first where no digits of cell 0 are known, since such a vertex starts the fewest
// blocks; where digits are known many do, which was measured to be quicker there.
fn rank(left: u32, classes: u32, known: bool) -> u64
    requires { classes ≤ search_outputs }
{
    let second = if known {
        SEARCH_OUTPUTS as u32 - classes
    } else {
        classes
    };
    left as u64 * (2 * SEARCH_OUTPUTS as u64) + second as u64
}

// Whether rank n is to be preferred to that of the best so far.
fn better(best: Option<(usize, u64)>, n: u64) -> bool
    ensures { result ≡ false → is_some best ≡ true }
{
    best.is_none_or(|(_, least)| n < least)
}

// A vertex without a code that has the fewest codes left in can, or none where all have a code. Among those with equally
// few, the classes that met has not and whether digits of cell 0 are known decide.
fn pick(
    cl: &[u8],
    j: usize,
    met: &[u64],
    dom: &[u64],
    codes: &[u8],
    v: usize,
    can: u64,
    known: bool,
) -> Option<usize>
    requires { Labels cl.now × (j ≤ search_outputs) × (v ≤ max_vertices) × (length dom.now ≡ max_vertices) × (length codes.now ≡ max_vertices)
        × (length met.now ≡ search_outputs) }
    ensures { Seeking codes.now v result }
{
    let mut best: Option<(usize, u64)> = None;
    for y in 0..v {
        if codes[y] >= problem::NO_CODE {
            let n = rank((dom[y] & can).count_ones(), unmet(cl, j, met, y), known);
            if better(best, n) {
                best = Some((y, n));
            }
        }
    }
    best.map(|(y, _)| y)
}

// The codes with one value of group k that a does not have, for the groups whose blocks gb has.
fn fresh(gb: &[u64], k: usize, a: u64) -> u64
    requires { (length gb.now ≡ block_count) × (k < group_count) }
    ensures { (gs : List ℕ) → Blocks gs gb.now group_count → Fresh (item gs k) a result }
{
    let rest = !a;
    if rest == 0 {
        return 0;
    }
    gb[k * MAX_CODES + cells::lowest(rest) as usize]
}

// The codes of all that the next vertex may be asked to take: of each group a value in use, or one new one.
fn allowed(gb: &[u64], all: u64, used: [u64; GROUPS]) -> u64
    requires { length gb.now ≡ block_count }
    ensures { (gs : List ℕ) (sh : ℕ) → Over sh all → Blocks gs gb.now group_count → Groups gs sh → Marks gs used → Canon gs used sh group_count result }
{
    let mut can = all;
    for k in 0..GROUPS {
        can &= used[k] | fresh(gb, k, used[k]);
    }
    can
}

// The values in use once some vertex has code c.
pub fn mark(gb: &[u64], used: [u64; GROUPS], c: u8) -> [u64; GROUPS]
    requires { (length gb.now ≡ block_count) × (c < max_codes) }
    ensures { (gs : List ℕ) → Blocks gs gb.now group_count → Marked gs used c group_count result }
{
    let mut r = used;
    for k in 0..GROUPS {
        r[k] |= gb[k * MAX_CODES + c as usize];
    }
    r
}

// The codes with the known digit of cell 0 at vertex x, or all where none is known there: it is known at the vertices of kn,
// and val has its digits.
pub fn fitting(kn: u32, val: u32, x: usize) -> u64
    requires { x < max_vertices }
    ensures { Fitting kn val x result }
{
    if !cells::in_set(kn as u64, x as u8) {
        cells::ALL_CODES
    } else if cells::in_set(val as u64, x as u8) {
        ODD_CODES
    } else {
        EVEN_CODES
    }
}

// Whether a search is given up after so many nodes.
fn spent(limit: u64, nodes: u64) -> bool
    ensures { limit ≡ no_limit → result ≡ false }
{
    limit != NO_LIMIT && limit <= nodes
}

// What a search came to, with the codes of the vertices where it found some, and how often a vertex was given a code.
#[derive(Clone, Copy)]
pub struct Search {
    pub answer: Answer<[u8; MAX_VERTICES]>,
    pub nodes: u64,
}

// Where a search stands: the codes given, for each vertex the codes left, for each group of cells its values in use, and for each
// output the classes of the vertices with codes.
#[derive(Drop)]
pub struct State {
    pub codes: [u8; MAX_VERTICES],
    pub dom: [u64; MAX_VERTICES],
    pub used: [u64; GROUPS],
    pub met: [u64; SEARCH_OUTPUTS],
}

// Codes for all vertices of p that go on from those given. The sets of s have room for every solution that does; all has the codes
// over the cells that two outputs read, and gb the blocks of some groups of these. The classes met are for the order in which
// the other vertices are given theirs. The nodes so far count towards the limit.
pub fn find(
    cl: &[u8],
    base: &[u8],
    bs: &[u64],
    gb: &[u64],
    all: u64,
    p: problem::Problem,
    s: State,
    limit: u64,
    nodes: u64,
) -> Search
    requires { Labels cl.now × (length base.now ≡ label_count) × Blocks p.ms bs.now p.outputs × (p.vertices ≤ max_vertices) × (p.outputs ≤ search_outputs)
        × Plan p.ms p.ps p.caps p.outputs × Valued p.ms gb.now all p.outputs p.kn s.codes p.vertices s.used
        × Covers cl.now base.now p.ms p.caps p.spots p.vertices p.outputs p.kn p.val s.codes s.dom
        × Knows p.kn p.val p.ps s.codes p.vertices p.outputs }
    ensures { Sure limit (is_unsure result.answer)
        (Told cl.now base.now p.ms p.ps p.caps p.spots p.vertices p.outputs p.kn p.val s.codes s.dom (is_found result.answer) (found_codes result.answer)) }
{
    let can = allowed(gb, all, s.used);
    let known = p.kn != 0;
    let Some(x) = pick(
        cl, p.outputs, &s.met, &s.dom, &s.codes, p.vertices, can, known,
    ) else {
        let answer = match numbering::finish(cl, p, s.codes) {
            Some(codes) => Answer::Found(codes),
            None => Answer::Nothing,
        };
        return Search { answer, nodes };
    };
    let mut total = nodes;
    let fit = fitting(p.kn, p.val, x);
    let mut left = s.dom[x] & can & fit;
    // The codes of a set are taken off one by one.
    while left != 0 {
        if spent(limit, total) {
            return Search {
                answer: Answer::Unsure,
                nodes: total,
            };
        }
        let c = cells::lowest(left);
        left = cells::without(left, c);
        total = total.wrapping_add(1);
        let mut next = s.codes;
        next[x] = c;
        let mut d = s.dom;
        if settle_all(cl, base, bs, p, &next, &mut d, c, x) {
            let after = State {
                codes: next,
                dom: d,
                used: mark(gb, s.used, c),
                met: meet(cl, p.outputs, s.met, x),
            };
            let r = find(cl, base, bs, gb, all, p, after, limit, total);
            match r.answer {
                Answer::Nothing => total = r.nodes,
                Answer::Found(_) | Answer::Unsure => return r,
            }
        }
    }
    Search {
        answer: Answer::Nothing,
        nodes: total,
    }
}
