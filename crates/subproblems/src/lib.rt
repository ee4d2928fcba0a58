// Subproblems about some of the outputs: each has a row, the open cells and the given tables that it reads. A subproblem is put
// into one order of the open cells, so that subproblems that differ in that order alone are one, and it is asked on what the
// given tables leave of the conflicts. It rests on relation, joint and sorting.
#![tactic(auto)]

ghost use Rattle.std.specs.Prelude.{◌≡◌, true, false, ℕ, ◌<◌, ◌≤◌, ◌/◌, ◌^◌, length};
ghost use Rattle.limits.specs.Limits.{search_outputs, max_vertices, max_codes, max_cells};
ghost use Rattle.problem.specs.Problem.{item};
ghost use Rattle.problem.specs.Answer.{is_found, is_unsure, found_codes};
ghost use Rattle.relation.specs.Relation.{Classes};
ghost use Rattle.coding.specs.Limit.{Sure};
ghost use Rattle.sorting.specs.Order.{Order};
ghost use Rattle.subproblems.specs.Subproblem.{open_of, given_of, Barred, Settled, Same};
ghost use Rattle.subproblems.specs.Gathering.{Moved, Gathered};

use limits::{MAX_VERTICES, SEARCH_OUTPUTS};

// The given tables of a row stand after the open cells.
const FIRST_GIVEN: u16 = cells::MAX_CODES as u16;

// The open cells of a row.
pub fn open_of(row: u16) -> u8
    ensures { (result ≡ open_of row) × (result < max_codes) }
{
    (row % FIRST_GIVEN) as u8
}

// The given tables of a row.
pub fn given_of(row: u16) -> u16
    ensures { (result ≡ given_of row) × (result < 2 ^ 16 / max_codes) }
{
    row / FIRST_GIVEN
}

// The open cells of a set in the order perm.
fn moved(f: u8, perm: [u8; SEARCH_OUTPUTS]) -> u8
    requires { Order perm max_cells }
    ensures { (result < max_codes) × Moved f perm max_cells result }
{
    let mut r: u8 = 0;
    for i in 0..cells::MAX_CELLS {
        if cells::in_set(u64::from(f), perm[usize::from(i)]) {
            r |= cells::power(i);
        }
    }
    r
}

// The outputs of the set asked that read open cell i.
fn readers(rows: [u16; SEARCH_OUTPUTS], asked: u8, i: u8) -> u64
    requires { i < max_cells }
{
    let mut r: u64 = 0;
    for (o, row) in rows.iter().enumerate() {
        if cells::in_set(u64::from(*row), i) {
            r = cells::with(r, o as u8);
        }
    }
    r & u64::from(asked)
}

// The readers of each open cell, where sorting takes them. Cell 0 comes first where it is to keep its place.
fn columns(rows: [u16; SEARCH_OUTPUTS], asked: u8, known: bool) -> [u64; SEARCH_OUTPUTS] {
    let mut r = [0u64; SEARCH_OUTPUTS];
    for i in 0..cells::MAX_CELLS {
        r[usize::from(i)] = readers(rows, asked, i);
    }
    if known {
        r[0] = cells::ALL_CODES;
    }
    r
}

// The order in which the open cells stand in the subproblem about the set asked; where cell 0 is to keep its place and does not,
// they stay as they are.
#[tactic(auto, using(sorting::specs::OrderLaws::order_plain))]
fn order(rows: [u16; SEARCH_OUTPUTS], asked: u8, known: bool) -> [u8; SEARCH_OUTPUTS]
    ensures { Order result max_cells × (known ≡ true → item result 0 ≡ 0) }
{
    let perm = sorting::falling(columns(rows, asked, known), limits::MAX_CELLS);
    if known && perm[0] != 0 {
        return sorting::AS_THEY_STAND;
    }
    perm
}

// The subproblem about the outputs of the set asked: their rows in one order of the open cells, and 0 for the others.
pub fn question(rows: [u16; SEARCH_OUTPUTS], asked: u8, known: bool) -> [u16; SEARCH_OUTPUTS]
    ensures { Same asked known rows result }
{
    let perm = order(rows, asked, known);
    let mut r = [0u16; SEARCH_OUTPUTS];
    for o in 0..SEARCH_OUTPUTS {
        if cells::in_set(u64::from(asked), o as u8) {
            let f = moved(open_of(rows[o]), perm);
            r[o] = given_of(rows[o]) * FIRST_GIVEN + u16::from(f);
        }
    }
    r
}

// The outputs that are asked about, and the open cells and given tables that each of them reads.
#[derive(Clone, Copy)]
struct Outputs {
    count: usize,
    from: [u8; SEARCH_OUTPUTS],
    cells: [u8; SEARCH_OUTPUTS],
    tables: [u16; SEARCH_OUTPUTS],
}

fn gather(asked: u8, rows: [u16; SEARCH_OUTPUTS]) -> Outputs
    ensures { Gathered asked rows search_outputs result.count result.from result.cells result.tables }
{
    let mut from = [0u8; SEARCH_OUTPUTS];
    let mut cells = [0u8; SEARCH_OUTPUTS];
    let mut tables = [0u16; SEARCH_OUTPUTS];
    let mut count: usize = 0;
    for o in 0..SEARCH_OUTPUTS {
        if cells::in_set(u64::from(asked), o as u8) {
            from[count] = o as u8;
            cells[count] = open_of(rows[o]);
            tables[count] = given_of(rows[o]);
            count += 1;
        }
    }
    Outputs {
        count,
        from,
        cells,
        tables,
    }
}

// Whether a count leaves it open that codes answer the subproblem about the outputs of the set asked.
pub fn possible(cl: &[u8], given: &[u16], v: usize, asked: u8, rows: [u16; SEARCH_OUTPUTS]) -> bool
    requires { Classes cl.now × (length given.now ≡ max_vertices) × (v ≤ max_vertices) }
    ensures { result ≡ false → (kn val : ℕ) → Barred cl.now given.now kn val v asked (item rows) }
{
    let g = gather(asked, rows);
    let labels = relation::cut(cl, given, g.from, g.tables, g.count, v);
    readers::possible(&labels, v, g.count, g.cells)
}

// Codes that answer the subproblem about the outputs of the set asked, or there are none, or the search was given up.
pub fn ask(
    cl: &[u8],
    given: &[u16],
    v: usize,
    kn: u32,
    val: u32,
    asked: u8,
    rows: [u16; SEARCH_OUTPUTS],
    limit: u64,
) -> coding::Search
    requires { Classes cl.now × (length given.now ≡ max_vertices) × (v ≤ max_vertices) }
    ensures { Sure limit (is_unsure result.answer) (Settled cl.now given.now kn val v asked (item rows) (is_found result.answer) (found_codes result.answer)) }
{
    let g = gather(asked, rows);
    let labels = relation::cut(cl, given, g.from, g.tables, g.count, v);
    joint::codes_for(&labels, v, g.count, g.cells, kn, val, limit)
}
