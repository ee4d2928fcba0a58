// The first set of outputs that no cells within a limit serve. Sets are asked about by number, then in order, each by one question
// to the search. Rests on subsets for sets, on dominance for the outputs that stand for all, on seeking for the search, and on the
// laws of fewest.
#![tactic(auto)]

ghost use Rattle.std.specs.Prelude.{◌≡◌, ◌*◌, ◌<◌, ◌≤◌, length, IfSome, unwrap_or};
ghost use Rattle.limits.specs.Limits.{search_outputs, max_vertices, max_cells};
ghost use Rattle.relation.specs.Relation.{Classes};
ghost use Rattle.cache.specs.Cache.{entry_count, entry_size};
ghost use Rattle.unserved.specs.Unserved.{Answered};
ghost use Rattle.unserved.specs.Asking.{FitBelow, Stand, Decided, Sifted};

use limits::{MAX_VERTICES, SEARCH_OUTPUTS};
use problem::Answer;

// The outputs that stand for those of the set.
fn kept_of(
    cl: &[u8],
    budgets: [u8; SEARCH_OUTPUTS],
    v: usize,
    m: usize,
    set: u8,
) -> dominance::Asked
    requires { Classes cl.now × (v ≤ max_vertices) × (m ≤ search_outputs) }
    ensures { Stand cl.now budgets v m set result.labels result.budgets result.outputs }
{
    let l = subsets::members(set, m);
    let labels = dominance::labels(cl, l.from);
    let taken = dominance::picked(budgets, l.from);
    dominance::kept(&labels, taken, v, l.count)
}

// Whether some cells within the limit serve these outputs. Cells that nobody reads do no harm, so that only as many cells as the
// limit allows are sought.
fn served(kept: dominance::Asked, v: usize, limit: u8, mem: &mut [u16]) -> bool
    requires { Classes kept.labels × (v ≤ max_vertices) × (kept.outputs ≤ search_outputs) × (limit ≤ max_cells) × (length mem.old ≡ entry_count * entry_size) }
    ensures { Decided kept.labels kept.budgets v kept.outputs limit result × (length mem.new ≡ entry_count * entry_size) }
{
    let asked = kept.budgets;
    let given = [0u16; MAX_VERTICES];
    cache::clear(mem);
    let p = seeking::Problem {
        budgets: asked,
        vertices: v,
        outputs: kept.outputs,
        cells: limit,
        tables: 0,
        kn: 0,
        val: 0,
    };
    matches!(
        seeking::seek(&kept.labels, &given, mem, p, 0).answer,
        Answer::Found(_)
    )
}

// The first of the sets of k outputs that is not served. A set in which one output dominates another is served
// as the smaller sets are, and is not asked about.
fn first_of(
    cl: &[u8],
    budgets: [u8; SEARCH_OUTPUTS],
    v: usize,
    m: usize,
    limit: u8,
    k: usize,
    mem: &mut [u16],
) -> Option<u8>
    requires { Classes cl.now × (v ≤ max_vertices) × (m ≤ search_outputs) × (limit ≤ max_cells) × (length mem.old ≡ entry_count * entry_size) × FitBelow cl.now budgets v m limit k }
    ensures { Sifted cl.now budgets v m limit k (unwrap_or result 0) × IfSome result (λ s. 0 < s) × (length mem.new ≡ entry_count * entry_size) }
{
    for r in (1..=readingsets::first_outputs(m)).rev() {
        let s = subsets::of_rank(r, m);
        if subsets::members(s, m).count == k {
            let kept = kept_of(cl, budgets, v, m, s);
            if kept.outputs >= k && !served(kept, v, limit, mem) {
                return Some(s);
            }
        }
    }
    None
}

// The first set of outputs that no cells within the limit serve, of m outputs with these classes of v vertices and these budgets:
// none where all outputs together are served.
pub fn unserved(
    cl: &[u8],
    budgets: [u8; SEARCH_OUTPUTS],
    v: usize,
    m: usize,
    limit: u8,
) -> Option<u8>
    requires { Classes cl.now × (v ≤ max_vertices) × (m ≤ search_outputs) × (limit ≤ max_cells) }
    ensures { Answered cl.now budgets v m limit (unwrap_or result 0) × IfSome result (λ s. 0 < s) }
{
    let mut mem = [0u16; cache::SIZE];
    let all = readingsets::first_outputs(m);
    if served(kept_of(cl, budgets, v, m, all), v, limit, &mut mem) {
        return None;
    }
    for k in 1..m {
        if let Some(s) = first_of(cl, budgets, v, m, limit, k, &mut mem) {
            return Some(s);
        }
    }
    Some(all)
}
