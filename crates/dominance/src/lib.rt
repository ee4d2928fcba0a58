// Which outputs a search is asked about, and in which order. An output that has to tell apart no more than another one with the
// same budget is dominated by it and left out: it reads what the other reads. Of those kept, the outputs whose classes fill most
// of the codes that their budgets allow come first: they leave the least choice. What is found for those kept, or that there is
// nothing, holds for all (specs/KeptLaws). It rests on relation and sorting, and on the definitions of seeking.
#![tactic(auto)]

ghost use Rattle.std.specs.Prelude.{◌≡◌, ℕ, ◌<◌, ◌≤◌, length, IfSome};
ghost use Rattle.limits.specs.Limits.{search_outputs, max_vertices, label_count};
ghost use Rattle.problem.specs.Problem.{item};
ghost use Rattle.relation.specs.Relation.{Classes};
ghost use Rattle.sorting.specs.Order.{Indices};
ghost use Rattle.dominance.specs.Kept.{StandFor, Placed};
ghost use Rattle.dominance.specs.Dominance.{Dominator, Chosen, Picked, Taken};

use limits::{LABELS, MAX_VERTICES, SEARCH_OUTPUTS};

// How many classes output o has.
fn classes(cl: &[u8], v: usize, o: usize) -> u64
    requires { Classes cl.now × (v ≤ max_vertices) × (o < search_outputs) }
    ensures { result ≤ max_vertices }
{
    let mut seen: u64 = 0;
    for x in 0..v {
        seen = cells::with(seen, problem::label(cl, o, x));
    }
    u64::from(seen.count_ones())
}

// The largest budget by which outputs are told apart.
const MOST: u8 = limits::MAX_CELLS as u8 + 4;

// How much of the codes over as many cells as the budget allows so many classes fill, as a number that orders outputs.
fn fullness(classes: u64, budget: u8) -> u64
    requires { classes ≤ max_vertices }
{
    (classes << MOST) >> budget.min(MOST)
}

// The same for each output.
fn ranks(cl: &[u8], budgets: [u8; SEARCH_OUTPUTS], v: usize, m: usize) -> [u64; SEARCH_OUTPUTS]
    requires { Classes cl.now × (v ≤ max_vertices) × (m ≤ search_outputs) }
{
    let mut r = [0u64; SEARCH_OUTPUTS];
    for o in 0..m {
        r[o] = fullness(classes(cl, v, o), budgets[o]);
    }
    r
}

// The place of the first of the n outputs of from that dominates output o.
fn dominator(
    cl: &[u8],
    budgets: [u8; SEARCH_OUTPUTS],
    v: usize,
    from: [u8; SEARCH_OUTPUTS],
    n: usize,
    o: usize,
) -> Option<usize>
    requires { Classes cl.now × (v ≤ max_vertices) × Indices from × (n ≤ search_outputs) × (o < search_outputs) }
    ensures { IfSome result (Dominator cl.now budgets v from n o) }
{
    for k in 0..n {
        let q = from[k] as usize;
        if budgets[q] == budgets[o] && relation::inside(cl, o, q, v) {
            return Some(k);
        }
    }
    None
}

// The outputs kept, in their order, and for each output the place of one that dominates it, which may be itself.
#[derive(Drop)]
struct Choice {
    count: usize,
    from: [u8; SEARCH_OUTPUTS],
    by: [u8; SEARCH_OUTPUTS],
}

fn chosen(cl: &[u8], budgets: [u8; SEARCH_OUTPUTS], v: usize, m: usize) -> Choice
    requires { Classes cl.now × (v ≤ max_vertices) × (m ≤ search_outputs) }
    ensures { Chosen cl.now budgets v m result.count result.from result.by }
{
    let order = sorting::falling(ranks(cl, budgets, v, m), m);
    let mut from = [0u8; SEARCH_OUTPUTS];
    let mut by = [0u8; SEARCH_OUTPUTS];
    let mut n: usize = 0;
    for i in 0..m {
        let o = order[i] as usize;
        match dominator(cl, budgets, v, from, n, o) {
            Some(k) => by[o] = k as u8,
            None => {
                by[o] = n as u8;
                from[n] = o as u8;
                n += 1;
            }
        }
    }
    Choice { count: n, from, by }
}

// The labels of the outputs of from.
pub fn labels(cl: &[u8], from: [u8; SEARCH_OUTPUTS]) -> [u8; LABELS]
    requires { (length cl.now ≡ label_count) × Indices from }
    ensures { Taken cl.now from label_count result }
{
    let mut r = [0u8; LABELS];
    for i in 0..LABELS {
        r[i] = problem::label(cl, from[i / MAX_VERTICES] as usize, i % MAX_VERTICES);
    }
    r
}

// The budgets of the outputs of from.
pub fn picked(budgets: [u8; SEARCH_OUTPUTS], from: [u8; SEARCH_OUTPUTS]) -> [u8; SEARCH_OUTPUTS]
    requires { Indices from }
    ensures { Picked budgets from search_outputs result }
{
    let mut r = [0u8; SEARCH_OUTPUTS];
    for i in 0..SEARCH_OUTPUTS {
        r[i] = budgets[from[i] as usize];
    }
    r
}

// What the search is asked about: so many outputs with these labels and budgets; and for each output the one of them that it
// takes its row from.
#[derive(Drop)]
pub struct Asked {
    pub outputs: usize,
    pub labels: [u8; LABELS],
    pub budgets: [u8; SEARCH_OUTPUTS],
    pub by: [u8; SEARCH_OUTPUTS],
}

// The outputs kept of m outputs with these classes of v vertices and these budgets.
pub fn kept(cl: &[u8], budgets: [u8; SEARCH_OUTPUTS], v: usize, m: usize) -> Asked
    requires { Classes cl.now × (v ≤ max_vertices) × (m ≤ search_outputs) }
    ensures { StandFor cl.now budgets v m result.labels result.budgets result.outputs result.by }
{
    let c = chosen(cl, budgets, v, m);
    let by = c.by;
    let labels = labels(cl, c.from);
    let budgets = picked(budgets, c.from);
    Asked {
        outputs: c.count,
        labels,
        budgets,
        by,
    }
}

// The rows of m outputs: each takes that of the output kept for it.
pub fn placed(
    rows: [u16; SEARCH_OUTPUTS],
    by: [u8; SEARCH_OUTPUTS],
    m: usize,
) -> [u16; SEARCH_OUTPUTS]
    requires { (m ≤ search_outputs) × ((o : ℕ) → o < m → item by o < search_outputs) }
    ensures { Placed rows by m result }
{
    let mut r = [0u16; SEARCH_OUTPUTS];
    for o in 0..m {
        r[o] = rows[by[o] as usize];
    }
    r
}
