// The fewest cells that serve: 0, 1, 2, .. cells are tried, and the crate seeking finds cells for a count or shows that there are
// none, for the outputs that dominance keeps. What is found is a least core, and where nothing is found every core that serves
// has more cells than the limit: the contract of `fewest` is Theorem B.
#![tactic(auto)]

ghost use Rattle.std.specs.Prelude.{◌≡◌, ◌*◌, ◌≤◌, length, is_some};
ghost use Rattle.limits.specs.Limits.{search_outputs, max_vertices, max_cells};
ghost use Rattle.relation.specs.Relation.{Classes};
ghost use Rattle.cache.specs.Cache.{entry_count, entry_size};
ghost use Rattle.fewest.specs.Count.{Zeroed, Opened, Answered};
ghost use Rattle.fewest.specs.Found.{core_count, core_rows, core_codes};

use limits::{MAX_VERTICES, SEARCH_OUTPUTS};
use problem::Answer;

// Every table complemented where it is 1 at vertex 0.
fn zero_first(codes: [u8; MAX_VERTICES]) -> [u8; MAX_VERTICES]
    ensures { Zeroed codes max_vertices result }
{
    let mut r = [0u8; MAX_VERTICES];
    for x in 0..MAX_VERTICES {
        r[x] = codes[x] ^ codes[0];
    }
    r
}

// A core: `count` cells, for each output the cells that it reads, for each vertex the cells that are 1 there; and how often
// the search for it gave a vertex a code.
#[derive(Drop)]
pub struct Core {
    pub count: u8,
    pub rows: [u8; SEARCH_OUTPUTS],
    pub codes: [u8; MAX_VERTICES],
    pub nodes: u64,
}

// The open cells of the rows.
fn opened(rows: [u16; SEARCH_OUTPUTS]) -> [u8; SEARCH_OUTPUTS]
    ensures { Opened rows search_outputs result }
{
    let mut r = [0u8; SEARCH_OUTPUTS];
    for o in 0..SEARCH_OUTPUTS {
        r[o] = subproblems::open_of(rows[o]);
    }
    r
}

// The fewest cells, up to the limit, that serve m outputs with these classes of v vertices and these budgets. The search is
// asked about the outputs that none of the others dominates. The cache that it uses is lent, and holds nothing of what it held.
pub fn fewest(
    cl: &[u8],
    budgets: [u8; SEARCH_OUTPUTS],
    v: usize,
    m: usize,
    limit: u8,
    mem: &mut [u16],
) -> Option<Core>
    requires { Classes cl.now × (v ≤ max_vertices) × (m ≤ search_outputs) × (limit ≤ max_cells) × (length mem.old ≡ entry_count * entry_size) }
    ensures { Answered cl.now budgets v m limit (is_some result) (core_count result) (core_rows result) (core_codes result) × (length mem.new ≡ entry_count * entry_size) }
{
    let kept = dominance::kept(cl, budgets, v, m);
    let asked = kept.budgets;
    let given = [0u16; MAX_VERTICES];
    cache::clear(mem);
    let mut nodes: u64 = 0;
    for u in 0..=limit {
        let p = seeking::Problem {
            budgets: asked,
            vertices: v,
            outputs: kept.outputs,
            cells: u,
            tables: 0,
            kn: 0,
            val: 0,
        };
        let k = seeking::seek(&kept.labels, &given, mem, p, nodes);
        nodes = k.nodes;
        if let Answer::Found(core) = k.answer {
            let rows = opened(dominance::placed(core.rows, kept.by, m));
            let codes = zero_first(core.codes);
            return Some(Core {
                count: u,
                rows,
                codes,
                nodes,
            });
        }
    }
    None
}
