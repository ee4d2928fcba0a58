// The first core: of all cores of as few cells as serve the one whose tables come first as lists of digits, and for its tables the
// first reading sets. The tables are found digit by digit from cells that serve: where a digit is 0 it is the least, and where it is 1
// the search is asked for cells with the digits before it and 0 there. It rests on fewest for the number of cells, on seeking for
// what is asked, on order for why the digits found are those of the first tables, and on picking for the reading sets.
#![tactic(auto)]

ghost use Rattle.std.specs.Prelude.{◌≡◌, ◌+◌, ◌*◌, ◌<◌, ◌≤◌, length, is_some};
ghost use Rattle.limits.specs.Limits.{search_outputs, max_vertices, max_cells};
ghost use Rattle.problem.specs.Answer.{some_codes};
ghost use Rattle.relation.specs.Relation.{Classes};
ghost use Rattle.cache.specs.Cache.{entry_count, entry_size};
ghost use Rattle.fewest.specs.Found.{core_count, core_rows, core_codes};
ghost use Rattle.witness.specs.Witness.{Witness};
ghost use Rattle.first.specs.First.{Answered};
ghost use Rattle.first.specs.Drawn.{Lowest, Upto, Stands, Remembers, Replied};

use limits::{MAX_VERTICES, SEARCH_OUTPUTS};
use problem::Answer;

// What is asked about: the outputs' budgets, the numbers of vertices, outputs and cells.
#[derive(Clone, Copy)]
struct Problem {
    budgets: [u8; SEARCH_OUTPUTS],
    vertices: usize,
    outputs: usize,
    cells: u8,
}

// The codes of such cells, where there are some, and how often the search gave a vertex a code so far.
#[derive(Drop)]
struct Reply {
    codes: Option<[u8; MAX_VERTICES]>,
    nodes: u64,
}

// Cells as codes, and how often the search gave a vertex a code so far.
#[derive(Drop)]
struct Tables {
    codes: [u8; MAX_VERTICES],
    nodes: u64,
}

// The vertices up to x.
fn vertices_upto(x: usize) -> u32
    requires { x < max_vertices }
    ensures { Upto x result }
{
    (cells::single(x as u8 + 1) - 1) as u32
}

// Whether cells serve whose tables before i are those of codes, which are given, and whose table i is as in codes at the vertices
// before x and 0 at x; and such cells.
fn ask(
    cl: &[u8],
    given: &[u16],
    mem: &mut [u16],
    p: Problem,
    codes: [u8; MAX_VERTICES],
    i: u8,
    x: usize,
    nodes: u64,
) -> Reply
    requires { Classes cl.now × (p.vertices ≤ max_vertices) × (p.outputs ≤ search_outputs) × (p.cells ≤ max_cells) × (i < p.cells) × (x < p.vertices)
        × Witness cl.now p.budgets p.vertices p.outputs p.cells codes × Stands codes i p.vertices given.now
        × Remembers cl.now given.now p.vertices mem.old }
    ensures { Replied cl.now p.budgets p.vertices p.outputs p.cells codes i x (is_some result.codes) (some_codes result.codes)
        × Remembers cl.now given.now p.vertices mem.new }
{
    cache::keep_unread(mem);
    let budgets = p.budgets;
    let q = seeking::Problem {
        budgets,
        vertices: p.vertices,
        outputs: p.outputs,
        cells: p.cells - i,
        tables: i,
        kn: vertices_upto(x),
        val: witness::digits(codes, i, x),
    };
    let k = seeking::seek(cl, given, mem, q, nodes);
    let Answer::Found(core) = k.answer else {
        return Reply {
            codes: None,
            nodes: k.nodes,
        };
    };
    let found = witness::joined(codes, core.codes, i);
    Reply {
        codes: Some(found),
        nodes: k.nodes,
    }
}

// Digit x of table i made the least, the tables and digits before it staying as they are: 0 is the least, and where there is 1 the
// search is asked for 0.
fn least_digit(
    cl: &[u8],
    given: &[u16],
    mem: &mut [u16],
    p: Problem,
    codes: [u8; MAX_VERTICES],
    i: u8,
    x: usize,
    nodes: u64,
) -> Tables
    requires { Classes cl.now × (p.vertices ≤ max_vertices) × (p.outputs ≤ search_outputs) × (p.cells ≤ max_cells) × (i < p.cells) × (x < p.vertices)
        × Lowest cl.now p.budgets p.vertices p.outputs p.cells i x codes × Stands codes i p.vertices given.now
        × Remembers cl.now given.now p.vertices mem.old }
    ensures { Lowest cl.now p.budgets p.vertices p.outputs p.cells i (x + 1) result.codes
        × Stands result.codes i p.vertices given.now × Remembers cl.now given.now p.vertices mem.new }
{
    if !cells::in_set(codes[x] as u64, i) {
        return Tables { codes, nodes };
    }
    let a = ask(cl, given, mem, p, codes, i, x, nodes);
    let Some(found) = a.codes else {
        return Tables {
            codes,
            nodes: a.nodes,
        };
    };
    let least = witness::sorted(found, i, p.cells, x + 1, p.vertices);
    Tables {
        codes: least,
        nodes: a.nodes,
    }
}

// Table i made the first, digit by digit, from the least of the tables that the cells have for it.
fn least_table(
    cl: &[u8],
    mem: &mut [u16],
    p: Problem,
    codes: [u8; MAX_VERTICES],
    i: u8,
    nodes: u64,
) -> Tables
    requires { Classes cl.now × (p.vertices ≤ max_vertices) × (p.outputs ≤ search_outputs) × (p.cells ≤ max_cells) × (i < p.cells)
        × Lowest cl.now p.budgets p.vertices p.outputs p.cells i 0 codes × (length mem.old ≡ entry_count * entry_size) }
    ensures { Lowest cl.now p.budgets p.vertices p.outputs p.cells (i + 1) 0 result.codes
        × (length mem.new ≡ entry_count * entry_size) }
{
    let mut least = witness::sorted(codes, i, p.cells, 0, p.vertices);
    let given = witness::front(least, i);
    cache::clear(mem);
    let mut total = nodes;
    for x in 0..p.vertices {
        let t = least_digit(cl, &given, mem, p, least, i, x, total);
        least = t.codes;
        total = t.nodes;
    }
    Tables {
        codes: least,
        nodes: total,
    }
}

// The tables made the first, one after the other.
fn least_tables(
    cl: &[u8],
    mem: &mut [u16],
    p: Problem,
    codes: [u8; MAX_VERTICES],
    nodes: u64,
) -> Tables
    requires { Classes cl.now × (p.vertices ≤ max_vertices) × (p.outputs ≤ search_outputs) × (p.cells ≤ max_cells)
        × Witness cl.now p.budgets p.vertices p.outputs p.cells codes × (length mem.old ≡ entry_count * entry_size) }
    ensures { Lowest cl.now p.budgets p.vertices p.outputs p.cells p.cells 0 result.codes }
{
    let mut least = codes;
    let mut total = nodes;
    for i in 0..p.cells {
        let t = least_table(cl, mem, p, least, i, total);
        least = t.codes;
        total = t.nodes;
    }
    Tables {
        codes: least,
        nodes: total,
    }
}

// The first core of the fewest cells, up to the limit, that serve m outputs with these classes of v vertices and these budgets.
pub fn first(
    cl: &[u8],
    budgets: [u8; SEARCH_OUTPUTS],
    v: usize,
    m: usize,
    limit: u8,
) -> Option<fewest::Core>
    requires { Classes cl.now × (v ≤ max_vertices) × (m ≤ search_outputs) × (limit ≤ max_cells) }
    ensures { Answered cl.now budgets v m limit (is_some result) (core_count result) (core_rows result) (core_codes result) }
{
    let mut mem = [0u16; cache::SIZE];
    let core = fewest::fewest(cl, budgets, v, m, limit, &mut mem)?;
    let kept = dominance::kept(cl, budgets, v, m);
    let asked = kept.budgets;
    let p = Problem {
        budgets: asked,
        vertices: v,
        outputs: kept.outputs,
        cells: core.count,
    };
    let t = least_tables(&kept.labels, &mut mem, p, core.codes, core.nodes);
    let codes = t.codes;
    let rows = picking::first_rows(cl, codes, budgets, v, m, core.count);
    Some(fewest::Core {
        count: core.count,
        rows,
        codes,
        nodes: t.nodes,
    })
}
