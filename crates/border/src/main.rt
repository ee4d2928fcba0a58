// Runs the search on problems of standard input. Standard output gets a line for each: its name, the answer, which is the
// fewest open cells or inf where the limit is too small, and the nodes: how often the search gave a vertex a code. Standard error
// gets lines with its name: for each number of cells tried its nodes and the processor time in microseconds; where cells were
// found, the rows of the outputs and the codes of the vertices; and the time in all. A problem is a line: its name, the number of
// vertices in 2 digits, the numbers of outputs and the limit in a digit each, a digit for each budget or - where none fits, the
// label of each output at each vertex, the number of given tables in 2 digits, what they are at each vertex, and the known digits
// of the first open cell or . at each vertex. Where something is known vertex 0 counts as known to be 0. A problem that differs
// from the one before in its known digits and limit alone is asked with what was remembered of subproblems that do not read the
// first open cell.
#![tactic(auto)]

ghost use Rattle.std.specs.Prelude.{◌≡◌, ℕ, ◌+◌, ◌<◌, ◌≤◌, true, ◌⊎◌, length};
ghost use Rattle.limits.specs.Limits.{search_outputs, max_vertices, label_count};
ghost use Rattle.problem.specs.Problem.{item};
ghost use Rattle.relation.specs.Relation.{Classes};
ghost use Rattle.cache.specs.Cache.{Honest};
ghost use Rattle.readingsets.specs.Choice.{max_given};
ghost use Rattle.border.specs.Line.{line_length, ZeroFirst};

use console::STDIN;
use limits::{LABELS, MAX_VERTICES, SEARCH_OUTPUTS};
use problem::Answer;
use readingsets::MAX_GIVEN;
use std::time::CpuClock;

// Where the parts of a line start, after a space each, and its length, with the line feed.
const VERTICES: usize = 4;

const OUTPUTS: usize = VERTICES + 3;

const LIMIT: usize = OUTPUTS + 2;

const BUDGETS: usize = LIMIT + 2;

const CLASSES: usize = BUDGETS + SEARCH_OUTPUTS + 1;

const TABLES: usize = CLASSES + LABELS + 1;

const GIVEN: usize = TABLES + 3;

const KNOWN: usize = GIVEN + 2 * MAX_VERTICES + 1;

const LINE: usize = KNOWN + MAX_VERTICES + 1;

// Sets of outputs.
const OUTPUT_SETS: u64 = 1 << SEARCH_OUTPUTS;

// The most lines that are read.
const LINES: usize = 10000;

// A byte of given tables has the digits of 5 tables.
const HALF: u16 = 32;

// The value of a digit; 0 of another byte.
fn digit(b: u8) -> u8
    ensures { result ≤ 9 }
{
    match b {
        b'0'..=b'9' => b - b'0',
        _ => 0,
    }
}

// The number of 5 digits that a byte stands for: @ is 0, A is 1, and so on.
fn letter(b: u8) -> u8
    ensures { result < max_vertices }
{
    b % MAX_VERTICES as u8
}

// The labels of a line.
fn labels(line: &[u8]) -> [u8; LABELS]
    requires { length line.now ≡ line_length }
    ensures { Classes result }
{
    let mut cl = [0u8; LABELS];
    for i in 0..LABELS {
        cl[i] = letter(line[i + CLASSES]);
    }
    cl
}

// The given tables of a line at each vertex: digit i is table i.
fn given(line: &[u8]) -> [u16; MAX_VERTICES]
    requires { length line.now ≡ line_length }
    ensures { length result ≡ max_vertices }
{
    let mut r = [0u16; MAX_VERTICES];
    for x in 0..MAX_VERTICES {
        let low = u16::from(letter(line[x * 2 + GIVEN]));
        let high = u16::from(letter(line[x * 2 + GIVEN + 1]));
        r[x] = high * HALF + low;
    }
    r
}

// Known digits of the first open cell: the vertices where there are some, and those where it is 1.
#[derive(Drop)]
struct Known {
    kn: u32,
    val: u32,
}

// The known digits of a line.
fn known_digits(line: &[u8]) -> Known
    requires { length line.now ≡ line_length }
    ensures { ZeroFirst result.kn result.val }
{
    let mut kn: u32 = 0;
    let mut val: u32 = 0;
    for x in 0..MAX_VERTICES {
        let b = line[x + KNOWN];
        kn |= u32::from(b != b'.') << x;
        val |= u32::from(b == b'1') << x;
    }
    if kn == 0 {
        return Known { kn: 0, val: 0 };
    }
    Known {
        kn: kn | 1,
        val: val & !1,
    }
}

// The budgets of a line.
fn budgets(line: &[u8]) -> [u8; SEARCH_OUTPUTS]
    requires { length line.now ≡ line_length }
{
    let mut r = [0u8; SEARCH_OUTPUTS];
    for i in 0..SEARCH_OUTPUTS {
        r[i] = digit(line[i + BUDGETS]);
    }
    r
}

// The outputs of a line that have a budget: a minus sign says that none fits.
fn fitting(line: &[u8]) -> u8
    requires { length line.now ≡ line_length }
{
    let mut r: u8 = 0;
    for o in 0..SEARCH_OUTPUTS {
        r |= u8::from(line[o + BUDGETS] != b'-') << o;
    }
    r
}

// The number of 2 digits at some place of a line, or the most where it is more.
fn number(line: &[u8], at: usize, most: u8) -> u8
    requires { (length line.now ≡ line_length) × (at + 1 < line_length) }
    ensures { result ≤ most }
{
    (digit(line[at]) * 10 + digit(line[at + 1])).min(most)
}

// The processor time so far in microseconds. 0 where it is not known.
fn microseconds(rt: &HostRuntime) -> u64 {
    match rt.process_cpu_time() {
        Ok(t) => u64::try_from(t.as_micros()).unwrap_or(u64::MAX),
        Err(_) => 0,
    }
}

// What is asked of the search, but for the number of cells.
fn asked(line: &[u8]) -> seeking::Problem
    requires { length line.now ≡ line_length }
    ensures { (result.vertices ≤ max_vertices) × (result.outputs ≤ search_outputs) × (result.tables ≤ max_given) × ZeroFirst result.kn result.val }
{
    let k = known_digits(line);
    let budgets = budgets(line);
    seeking::Problem {
        budgets,
        vertices: number(line, VERTICES, MAX_VERTICES as u8) as usize,
        outputs: digit(line[OUTPUTS]).min(SEARCH_OUTPUTS as u8) as usize,
        cells: 0,
        tables: number(line, TABLES, MAX_GIVEN),
        kn: k.kn,
        val: k.val,
    }
}

// Writes the name of a line.
fn put_name(to: &impl Print, line: &[u8]) -> std::io::Result<()>
    requires { length line.now ≡ line_length }
{
    to.write_all(&[line[0], line[1], line[2], b' '])
}

// Writes the nodes and the time of the search with some number of cells. Here and below, a part that standard error does not take
// keeps none of the others from it.
fn put_step(rt: &HostRuntime, line: &[u8], cells: u8, nodes: u64, time: u64)
    requires { length line.now ≡ line_length }
{
    let _ = put_name(&rt.stderr(), line);
    let _ = eprintln!(rt; "cells {cells} nodes {nodes} us {time}");
}

// Writes rows and codes: a row in hexadecimal digits, a code as a byte, 0 being 0.
fn put_core(rt: &HostRuntime, line: &[u8], rows: [u16; SEARCH_OUTPUTS], codes: [u8; MAX_VERTICES])
    requires { length line.now ≡ line_length }
{
    let _ = put_name(&rt.stderr(), line);
    let _ = eprint!(rt; "core ");
    for row in rows {
        let _ = eprint!(rt; "{row:04x} ");
    }
    let _ = rt
        .stderr()
        .write_all(&codes.map(|code| b'0' + code % limits::MAX_CODES as u8));
    let _ = eprintln!(rt; "");
}

// The fewest open cells that there may be: one where digits of it are known.
fn least_cells(kn: u32) -> u8
    ensures { (result ≤ 1) × ((kn ≡ 0) ⊎ (result ≡ 1)) }
{
    u8::from(kn != 0)
}

// The problem that the cache is about, but for its budgets: the labels of the outputs that are asked about, the given tables,
// the number of vertices, and the known digits.
#[derive(Drop)]
struct Past {
    labels: [u8; LABELS],
    tables: [u16; MAX_VERTICES],
    vertices: usize,
    kn: u32,
    val: u32,
}

// What is remembered of the problem before is kept where it holds for one with these labels, given tables and vertices, whatever
// its known digits are.
fn recall(past: Past, labels: &[u8], tables: &[u16], vertices: usize, mem: &mut [u16])
    requires { (length labels.now ≡ label_count) × (length tables.now ≡ max_vertices) × ZeroFirst past.kn past.val
        × Honest past.labels past.tables past.kn past.val past.vertices mem.old }
    ensures { (kn val : ℕ) → Honest labels.now tables.now kn val vertices mem.new }
{
    if past.vertices == vertices
        && past.labels.as_slice() == labels
        && past.tables.as_slice() == tables
    {
        cache::keep_unread(mem);
    } else {
        cache::clear(mem);
    }
}

// Every output has a budget, or none has.
fn fit(all: bool) -> u8 {
    if all { (OUTPUT_SETS - 1) as u8 } else { 0 }
}

// The fewest cells that serve, where some do, the nodes of the search and its microseconds.
#[derive(Drop)]
struct Solved {
    cells: Option<u8>,
    nodes: u64,
    time: u64,
}

// The answer to a line's problem, of which asks has what is asked about the outputs kept; by says which of these stands for each
// of the m outputs. Writes what standard error gets but for the time in all. What is remembered with few cells holds with more.
fn solve(
    rt: &HostRuntime,
    line: &[u8],
    labels: &[u8],
    tables: &[u16],
    asks: seeking::Problem,
    by: [u8; SEARCH_OUTPUTS],
    m: usize,
    fits: u8,
    mem: &mut [u16],
) -> Solved
    requires { (length line.now ≡ line_length) × Classes labels.now × (length tables.now ≡ max_vertices) × (asks.vertices ≤ max_vertices) × (asks.outputs ≤ search_outputs)
        × (asks.tables ≤ max_given) × ZeroFirst asks.kn asks.val × (m ≤ search_outputs) × ((o : ℕ) → o < m → item by o < search_outputs)
        × Honest labels.now tables.now asks.kn asks.val asks.vertices mem.old }
    ensures { Honest labels.now tables.now asks.kn asks.val asks.vertices mem.new }
{
    let most = digit(line[LIMIT]).min(cells::MAX_CELLS);
    let mut nodes: u64 = 0;
    let mut time: u64 = 0;
    for u in least_cells(asks.kn)..=most {
        let start = microseconds(rt);
        let p = seeking::Problem { cells: u, ..asks };
        let c = seeking::seek_where(labels, tables, mem, p, fits, nodes);
        let took = microseconds(rt).wrapping_sub(start);
        put_step(rt, line, u, c.nodes.wrapping_sub(nodes), took);
        nodes = c.nodes;
        time = time.wrapping_add(took);
        if let Answer::Found(core) = c.answer {
            put_core(rt, line, dominance::placed(core.rows, by, m), core.codes);
            return Solved {
                cells: Some(u),
                nodes,
                time,
            };
        }
    }
    Solved {
        cells: None,
        nodes,
        time,
    }
}

// Writes a line's name, the fewest cells and the nodes.
fn put_cells(rt: &HostRuntime, line: &[u8], cells: Option<u8>, nodes: u64) -> std::io::Result<()>
    requires { length line.now ≡ line_length }
{
    put_name(rt, line)?;
    match cells {
        Some(u) => println!(rt; "{u} {nodes}"),
        None => println!(rt; "inf {nodes}"),
    }
}

// Writes a line's name and the answer to its problem.
fn put_answer(rt: &HostRuntime, line: &[u8], a: Solved)
    requires { length line.now ≡ line_length }
{
    console::tell(rt, "border", put_cells(rt, line, a.cells, a.nodes));
    put_time(rt, line, a.time);
}

// Writes the time in all.
fn put_time(rt: &HostRuntime, line: &[u8], time: u64)
    requires { length line.now ≡ line_length }
{
    let _ = put_name(&rt.stderr(), line);
    let _ = eprintln!(rt; "{time} us");
}

// Answers the problem of a line after that of past, which the cache is about. The problem that it is about then.
fn report(rt: &HostRuntime, line: &[u8], past: Past, mem: &mut [u16]) -> Past
    requires { (length line.now ≡ line_length) × ZeroFirst past.kn past.val × Honest past.labels past.tables past.kn past.val past.vertices mem.old }
    ensures { ZeroFirst result.kn result.val × Honest result.labels result.tables result.kn result.val result.vertices mem.new }
{
    let whole = asked(line);
    let m = whole.outputs;
    let vertices = whole.vertices;
    let tables = given(line);
    let kept = dominance::kept(&labels(line), whole.budgets, vertices, m);
    let labels = kept.labels;
    let budgets = kept.budgets;
    recall(past, &labels, &tables, vertices, mem);
    let asks = seeking::Problem {
        budgets,
        outputs: kept.outputs,
        ..whole
    };
    let fits = fit(seeking::all_fit(fitting(line), m));
    let a = solve(rt, line, &labels, &tables, asks, kept.by, m, fits, mem);
    put_answer(rt, line, a);
    Past {
        labels,
        tables,
        vertices,
        kn: whole.kn,
        val: whole.val,
    }
}

fn main(rt: HostRuntime) {
    let mut line = [0u8; LINE];
    let mut mem = [0u16; cache::SIZE];
    let mut past = Past {
        labels: [0u8; LABELS],
        tables: [0u16; MAX_VERTICES],
        vertices: 0,
        kn: 0,
        val: 0,
    };
    for _ in 0..LINES {
        if io::read_full(STDIN, &mut line) < LINE {
            return;
        }
        past = report(&rt, &line, past, &mut mem);
    }
}
