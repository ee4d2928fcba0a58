// Rows, output after output: for each the open cells and the given tables that it reads. `choose` leaves what a count, the
// cache or a subproblem about two outputs rules out, and at a complete choice `finish` asks about ever larger sets of outputs,
// at last about all. Each output reads as many tables as it may, and of neighbouring open cells that the outputs so far read
// alike the next one reads the first (specs/ChoiceLaws). The order of the outputs is free. It rests on cache.
#![tactic(auto)]

ghost use Rattle.std.specs.Prelude.{◌≡◌, ◌+◌, ◌*◌, ◌/◌, ◌%◌, ◌^◌, ◌<◌, ◌≤◌, min, true, false, length, bit_or};
ghost use Rattle.std.specs.Option.{is_some};
ghost use Rattle.limits.specs.Limits.{search_outputs, max_vertices, max_cells};
ghost use Rattle.bits.specs.Digit.{on};
ghost use Rattle.problem.specs.Problem.{item};
ghost use Rattle.problem.specs.Answer.{is_found, is_unsure};
ghost use Rattle.relation.specs.Relation.{Classes};
ghost use Rattle.coding.specs.Limit.{Sure};
ghost use Rattle.subproblems.specs.Subproblem.{Barred, Settled};
ghost use Rattle.cache.specs.Cache.{Honest};
ghost use Rattle.readingsets.specs.Choice.{max_given, row_digits, first_outputs, numbered, turned, Rows, ReadAlike, Chosen, Suits, still_alike, Next, Served};
ghost use Rattle.readingsets.specs.Answered.{core_rows, core_codes};

use limits::{MAX_VERTICES, SEARCH_OUTPUTS};
use problem::Answer;

// Given tables that there may be: the bound inputs, and cells but one whose tables are fixed.
pub const MAX_GIVEN: u8 = 10;

// What a choice of rows is asked for: the budgets of the outputs, the numbers of vertices and outputs, of open cells and of
// given tables, the vertices where cell 0 has known digits and these digits, the limits of nodes for a subproblem about some of
// the outputs and for one about all, and for each output the rows that a count for it alone leaves (`alone`).
#[derive(Clone, Copy)]
pub struct Problem {
    pub budgets: [u8; SEARCH_OUTPUTS],
    pub vertices: usize,
    pub outputs: usize,
    pub cells: u8,
    pub tables: u8,
    pub kn: u32,
    pub val: u32,
    pub limit: u64,
    pub last: u64,
    pub alone: [u64; SEARCH_OUTPUTS],
}

// The first m outputs as a set.
pub fn first_outputs(m: usize) -> u8
    requires { m ≤ search_outputs }
    ensures { result ≡ first_outputs m }
{
    (bits::power(m) - 1) as u8
}

// The set done with output n.
fn with(done: u8, n: usize) -> u8
    requires { n < search_outputs }
    ensures { result ≡ bit_or done (2 ^ n) }
{
    done | bits::power(n) as u8
}

// How many tables an output with this budget reads.
fn wanted(budget: u8, u: u8, g: u8) -> u32
    requires { (u ≤ max_cells) × (g ≤ max_given) }
    ensures { result ≡ min budget (u + g) }
{
    u32::from(budget.min(u + g))
}

// 2 to the power d: how many rows of d digits there are.
fn power(d: u8) -> u32
    requires { d ≤ row_digits }
    ensures { (result ≡ 2 ^ d) × (result ≤ 2 ^ row_digits) }
{
    bits::power(d as usize) as u32
}

// The row of number r: its open cells are the lowest digits of r, as many as there are, and its given tables the digits above.
fn row_of(r: u32, u: u8) -> u16
    requires { (u ≤ max_cells) × (r < 2 ^ (u + max_given)) }
    ensures { result ≡ numbered u r }
{
    let end = power(u);
    (r / end * limits::MAX_CODES as u32 + r % end) as u16
}

// The number of the row that is tried at place i of end: from the highest number down, or from the lowest up.
fn turn(i: u32, end: u32, down: bool) -> u32
    requires { i < end }
    ensures { (result ≡ turned down end i) × (result < end) }
{
    if down { end - 1 - i } else { i }
}

// Whether a row reads as many tables as wanted and is in order: of neighbouring open cells of same it reads the first ones.
fn suits(row: u16, want: u32, same: u8) -> bool
    ensures { Suits row want same result }
{
    let f = subproblems::open_of(row);
    u16::count_ones(row) == want && (f / 2) & !f & same == 0
}

// The cells of same that a row too reads like the next cell.
fn still_alike(same: u8, row: u16) -> u8
    ensures { result ≡ still_alike same row }
{
    let f = subproblems::open_of(row);
    same & !(f ^ (f / 2))
}

// Whether a count for output o alone leaves the row.
fn leaves(cl: &[u8], given: &[u16], vertices: usize, o: usize, row: u16) -> bool
    requires { Classes cl.now × (length given.now ≡ max_vertices) × (vertices ≤ max_vertices) × (o < search_outputs) }
{
    let mut rows = [0u16; SEARCH_OUTPUTS];
    rows[o] = row;
    subproblems::possible(cl, given, vertices, with(0, o), rows)
}

// A u64 has a digit for each row of number below this.
const NOTED: u32 = 64;

// The rows of number below NOTED that read as many tables as wanted and that a count for output o alone leaves, by their numbers.
fn rows_alone(
    cl: &[u8],
    given: &[u16],
    vertices: usize,
    o: usize,
    want: u32,
    cells: u8,
    tables: u8,
) -> u64
    requires { Classes cl.now × (length given.now ≡ max_vertices) × (vertices ≤ max_vertices) × (o < search_outputs) × (cells ≤ max_cells) × (tables ≤ max_given) }
{
    let mut left: u64 = 0;
    let all = power(cells + tables);
    let end = all.min(NOTED);
    for r in 0..end {
        let row = row_of(r, cells);
        if suits(row, want, 0) && leaves(cl, given, vertices, o, row) {
            left = cells::with(left, r as u8);
        }
    }
    left
}

// What a problem holds of counts for single outputs: digit r of the number for output o says that the row of number r, below
// NOTED, reads as many tables as o wants and that a count for o alone leaves it. Without given tables, where such counts are not
// made, there are no digits.
pub fn alone(
    cl: &[u8],
    given: &[u16],
    budgets: [u8; SEARCH_OUTPUTS],
    vertices: usize,
    outputs: usize,
    cells: u8,
    tables: u8,
) -> [u64; SEARCH_OUTPUTS]
    requires { Classes cl.now × (length given.now ≡ max_vertices) × (vertices ≤ max_vertices) × (outputs ≤ search_outputs) × (cells ≤ max_cells) × (tables ≤ max_given) }
{
    let mut a = [0u64; SEARCH_OUTPUTS];
    if tables == 0 {
        return a;
    }
    for o in 0..outputs {
        let want = wanted(budgets[o], cells, tables);
        a[o] = rows_alone(cl, given, vertices, o, want, cells, tables);
    }
    a
}

// The number of a row among u open cells.
fn number_of(row: u16, u: u8) -> u32
    requires { u ≤ max_cells }
{
    (subproblems::given_of(row) as u32) << u | subproblems::open_of(row) as u32
}

// Whether the problem holds that a count for output o alone leaves the row of number r.
fn is_left(p: Problem, o: usize, r: u32) -> bool
    requires { o < search_outputs }
{
    r < NOTED && cells::in_set(p.alone[o], r as u8)
}

// Whether a row counts for output o: it suits, and where there are given tables a count for o alone leaves it. Without given
// tables such a count says much the same of all rows that suit.
fn counts(cl: &[u8], given: &[u16], p: Problem, o: usize, row: u16, want: u32, same: u8) -> bool
    requires { Classes cl.now × (length given.now ≡ max_vertices) × (p.vertices ≤ max_vertices) × (o < search_outputs) × (p.cells ≤ max_cells) }
{
    if !suits(row, want, same) {
        return false;
    }
    if p.tables == 0 {
        return true;
    }
    let r = number_of(row, p.cells);
    if r < NOTED {
        is_left(p, o, r)
    } else {
        leaves(cl, given, p.vertices, o, row)
    }
}

// How many rows count for output o.
fn candidates(cl: &[u8], given: &[u16], p: Problem, o: usize, want: u32, same: u8) -> u32
    requires { Classes cl.now × (length given.now ≡ max_vertices) × (p.vertices ≤ max_vertices) × (o < search_outputs) × (p.cells ≤ max_cells) × (p.tables ≤ max_given) }
{
    let mut n: u32 = 0;
    for r in 0..power(p.cells + p.tables) {
        if counts(cl, given, p, o, row_of(r, p.cells), want, same) {
            n += 1;
        }
    }
    n
}

// Whether n is less than the least number so far.
fn is_fewer(n: u32, best: Option<(usize, u32)>) -> bool
    ensures { result ≡ false → is_some best ≡ true }
{
    match best {
        Some((_, least)) => n < least,
        None => true,
    }
}

// An output without a row for which the fewest rows count, the first of several, or none where all have rows.
fn next(cl: &[u8], given: &[u16], p: Problem, done: u8, same: u8) -> Option<usize>
    requires { Classes cl.now × (length given.now ≡ max_vertices) × (p.vertices ≤ max_vertices) × (p.outputs ≤ search_outputs) × (p.cells ≤ max_cells) × (p.tables ≤ max_given) }
    ensures { Next p.outputs done result }
{
    let mut best: Option<(usize, u32)> = None;
    for o in 0..p.outputs {
        if !cells::in_set(u64::from(done), o as u8) {
            let n = candidates(
                cl,
                given,
                p,
                o,
                wanted(p.budgets[o], p.cells, p.tables),
                same,
            );
            if is_fewer(n, best) {
                best = Some((o, n));
            }
        }
    }
    best.map(|(o, _)| o)
}

// Whether a count leaves it open that the rows of the outputs of the set done, n among them, have codes. Where there are given
// tables a count for n alone comes first, unless it is known to leave the row: it is quick and rules out most rows. Where cell 0
// has known digits no count is made for all of them: the subproblems that follow decide.
fn possible(
    cl: &[u8],
    given: &[u16],
    p: Problem,
    rows: [u16; SEARCH_OUTPUTS],
    done: u8,
    n: usize,
) -> bool
    requires { Classes cl.now × (length given.now ≡ max_vertices) × (p.vertices ≤ max_vertices) × (n < search_outputs) × (on done n ≡ true) × (p.cells ≤ max_cells) }
    ensures { result ≡ false → Barred cl.now given.now p.kn p.val p.vertices done (item rows) }
{
    if p.tables != 0
        && !is_left(p, n, number_of(rows[n], p.cells))
        && !subproblems::possible(cl, given, p.vertices, with(0, n), rows)
    {
        return false;
    }
    p.kn != 0 || subproblems::possible(cl, given, p.vertices, done, rows)
}

// Whether the subproblems about n alone and about n and one other of the set done may have codes. One about n alone is asked where
// cell 0 has known digits: else a count has shown that it has codes. Two outputs that are all are asked about at the end.
fn small_questions(
    cl: &[u8],
    given: &[u16],
    mem: &mut [u16],
    p: Problem,
    rows: [u16; SEARCH_OUTPUTS],
    done: u8,
    n: usize,
) -> cache::Reply
    requires { Classes cl.now × (length given.now ≡ max_vertices) × (p.vertices ≤ max_vertices) × (n < search_outputs)
        × Honest cl.now given.now p.kn p.val p.vertices mem.old }
    ensures { Honest cl.now given.now p.kn p.val p.vertices mem.new
        × (result.possible ≡ false → Barred cl.now given.now p.kn p.val p.vertices done (item rows)) }
{
    let last = with(0, n);
    let q = cache::Query {
        vertices: p.vertices,
        kn: p.kn,
        val: p.val,
        rows,
        limit: p.limit,
    };
    let mut nodes: u64 = 0;
    let first: u32 = if p.kn != 0 { 1 } else { 2 };
    let end: u32 = if p.outputs == 2 { 2 } else { 3 };
    for size in first..end {
        let a = cache::settle(cl, given, mem, q, size, last, done);
        nodes = std::num::wrapping_add_u64(nodes, a.nodes);
        if !a.possible {
            return cache::Reply {
                possible: false,
                nodes,
            };
        }
    }
    cache::Reply {
        possible: true,
        nodes,
    }
}

// Whether the rows of the outputs of the set done, n among them, may go on: nothing rules them out that a count, the cache or a
// subproblem about n, or n and one other of them, shows. Sets without n were looked up before.
fn alive(
    cl: &[u8],
    given: &[u16],
    mem: &mut [u16],
    p: Problem,
    rows: [u16; SEARCH_OUTPUTS],
    done: u8,
    n: usize,
) -> cache::Reply
    requires { Classes cl.now × (length given.now ≡ max_vertices) × (p.vertices ≤ max_vertices) × (n < search_outputs) × (on done n ≡ true) × (p.cells ≤ max_cells)
        × Honest cl.now given.now p.kn p.val p.vertices mem.old }
    ensures { Honest cl.now given.now p.kn p.val p.vertices mem.new
        × (result.possible ≡ false → Barred cl.now given.now p.kn p.val p.vertices done (item rows)) }
{
    if !possible(cl, given, p, rows, done, n) {
        return cache::Reply {
            possible: false,
            nodes: 0,
        };
    }
    if cache::known_bad(mem, rows, with(0, n), done, p.kn != 0) {
        return cache::Reply {
            possible: false,
            nodes: 0,
        };
    }
    small_questions(cl, given, mem, p, rows, done, n)
}

// The number of the first row that suits and whose given tables leave no conflict of output n: then codes need not serve it, and
// no other row has to be tried (specs/ServedLaws). None where there is no such row.
fn served(cl: &[u8], given: &[u16], p: Problem, n: usize, want: u32, same: u8) -> Option<u32>
    requires { Classes cl.now × (length given.now ≡ max_vertices) × (p.vertices ≤ max_vertices) × (n < search_outputs) × (p.cells ≤ max_cells) × (p.tables ≤ max_given) }
    ensures { Served cl.now given.now p.vertices p.cells p.tables n want result }
{
    if p.tables == 0 {
        return None;
    }
    for r in 0..power(p.cells + p.tables) {
        let row = row_of(r, p.cells);
        if suits(row, want, same)
            && relation::none_left(cl, given, n, subproblems::given_of(row), p.vertices)
        {
            return Some(r);
        }
    }
    None
}

// A core: the rows of the outputs and the codes of the vertices.
#[derive(Clone, Copy)]
pub struct Core {
    pub rows: [u16; SEARCH_OUTPUTS],
    pub codes: [u8; MAX_VERTICES],
}

// What a choice of rows comes to, and the nodes so far: how often the search gave a vertex a code.
#[derive(Clone, Copy)]
pub struct Choice {
    pub answer: Answer<Core>,
    pub nodes: u64,
}

// Codes for the rows of all outputs, the set all. That there are none is remembered where cell 0 has known digits: with the next
// digit the same rows are often chosen again. They are remembered as they are, since such rows come again unchanged.
fn ask_all(
    cl: &[u8],
    given: &[u16],
    mem: &mut [u16],
    p: Problem,
    rows: [u16; SEARCH_OUTPUTS],
    all: u8,
    nodes: u64,
) -> Choice
    requires { Classes cl.now × (length given.now ≡ max_vertices) × (p.vertices ≤ max_vertices) × Honest cl.now given.now p.kn p.val p.vertices mem.old }
    ensures { (is_found result.answer ≡ true → core_rows result.answer ≡ rows)
        × Sure p.last (is_unsure result.answer) (Settled cl.now given.now p.kn p.val p.vertices all (item rows) (is_found result.answer) (core_codes result.answer))
        × Honest cl.now given.now p.kn p.val p.vertices mem.new }
{
    if cache::is_bad(mem, all, rows) {
        return Choice {
            answer: Answer::Nothing,
            nodes,
        };
    }
    let c = subproblems::ask(cl, given, p.vertices, p.kn, p.val, all, rows, p.last);
    let nodes = std::num::wrapping_add_u64(nodes, c.nodes);
    match c.answer {
        Answer::Found(codes) => Choice {
            answer: Answer::Found(Core { rows, codes }),
            nodes,
        },
        Answer::Nothing => {
            if p.kn != 0 {
                cache::store(mem, all, rows, false);
            }
            Choice {
                answer: Answer::Nothing,
                nodes,
            }
        }
        Answer::Unsure => Choice {
            answer: Answer::Unsure,
            nodes,
        },
    }
}

// Codes for the rows of all outputs. Sets of some of them are asked first: what they show rules out other rows too.
fn finish(
    cl: &[u8],
    given: &[u16],
    mem: &mut [u16],
    p: Problem,
    rows: [u16; SEARCH_OUTPUTS],
    nodes: u64,
) -> Choice
    requires { Classes cl.now × (length given.now ≡ max_vertices) × (p.vertices ≤ max_vertices) × (p.outputs ≤ search_outputs)
        × Honest cl.now given.now p.kn p.val p.vertices mem.old }
    ensures { (is_found result.answer ≡ true → core_rows result.answer ≡ rows)
        × Sure p.last (is_unsure result.answer) (Settled cl.now given.now p.kn p.val p.vertices (first_outputs p.outputs) (item rows) (is_found result.answer) (core_codes result.answer))
        × Honest cl.now given.now p.kn p.val p.vertices mem.new }
{
    let all = first_outputs(p.outputs);
    let q = cache::Query {
        vertices: p.vertices,
        kn: p.kn,
        val: p.val,
        rows,
        limit: p.limit,
    };
    let s = cache::settle_smaller(cl, given, mem, q, p.outputs as u32, all);
    let asked = std::num::wrapping_add_u64(nodes, s.nodes);
    if !s.possible {
        return Choice {
            answer: Answer::Nothing,
            nodes: asked,
        };
    }
    ask_all(cl, given, mem, p, rows, all, asked)
}

// A core whose outputs of the set done have the rows given. An output that given tables serve alone gets one row only. What was
// learnt below may concern the rows given alone: then none of the rows left to try is of use. The order of the rows is free:
// where cell 0 has known digits they are tried from the highest number down.
pub fn choose(
    cl: &[u8],
    given: &[u16],
    mem: &mut [u16],
    p: Problem,
    rows: [u16; SEARCH_OUTPUTS],
    done: u8,
    same: u8,
    nodes: u64,
) -> Choice
    requires { Classes cl.now × (length given.now ≡ max_vertices) × (p.vertices ≤ max_vertices) × (p.outputs ≤ search_outputs) × (p.cells ≤ max_cells) × (p.tables ≤ max_given)
        × Rows p.budgets p.outputs p.cells p.tables done rows × ReadAlike p.kn p.cells done rows same × Honest cl.now given.now p.kn p.val p.vertices mem.old }
    ensures { Sure p.last (is_unsure result.answer) (Chosen cl.now given.now p.budgets p.kn p.val p.vertices p.outputs
        p.cells p.tables done rows (is_found result.answer) (core_rows result.answer) (core_codes result.answer)) × Honest cl.now given.now p.kn p.val p.vertices mem.new }
{
    let Some(n) = next(cl, given, p, done, same) else {
        return finish(cl, given, mem, p, rows, nodes);
    };
    let want = wanted(p.budgets[n], p.cells, p.tables);
    let done_now = with(done, n);
    if let Some(s) = served(cl, given, p, n, want, same) {
        let row = row_of(s, p.cells);
        let mut only = rows;
        only[n] = row;
        return choose(
            cl,
            given,
            mem,
            p,
            only,
            done_now,
            still_alike(same, row),
            nodes,
        );
    }
    let mut total = nodes;
    let mut unsure = false;
    let end = power(p.cells + p.tables);
    for i in 0..end {
        let row = row_of(turn(i, end, p.kn != 0), p.cells);
        if suits(row, want, same) {
            let mut tried = rows;
            tried[n] = row;
            let a = alive(cl, given, mem, p, tried, done_now, n);
            total = std::num::wrapping_add_u64(total, a.nodes);
            if a.possible {
                let k = choose(
                    cl,
                    given,
                    mem,
                    p,
                    tried,
                    done_now,
                    still_alike(same, row),
                    total,
                );
                match k.answer {
                    Answer::Found(_) => return k,
                    Answer::Nothing => {}
                    Answer::Unsure => unsure = true,
                }
                total = k.nodes;
                if cache::known_bad(mem, rows, 0, done, p.kn != 0) {
                    return Choice {
                        answer: Answer::Nothing,
                        nodes: total,
                    };
                }
            }
        }
    }
    Choice {
        answer: if unsure {
            Answer::Unsure
        } else {
            Answer::Nothing
        },
        nodes: total,
    }
}
