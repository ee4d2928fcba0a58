// How many blocks each class of each output cannot do without, for given reading sets (specs/Reasons has the argument).
#![tactic(auto)]

ghost use Rattle.std.specs.Prelude.{◌≡◌, ℕ, ◌*◌, ◌<◌, ◌≤◌, length};
ghost use Rattle.limits.specs.Limits.{search_outputs, max_vertices, label_count, max_cells};
ghost use Rattle.problem.specs.Problem.{Labels, item};
ghost use Rattle.lowerbounds.specs.Reasons.{FewKinds, Raised, Based};

use limits::{LABELS, MAX_VERTICES, SEARCH_OUTPUTS};

// The classes of an output and the parts of another, as pairs.
const PAIRS: usize = MAX_VERTICES * MAX_VERTICES;

// For each class of o how many classes of one part of q occur in it, for the part with the most.
fn kinds(cl: &[u8], v: usize, o: usize, q: usize) -> [u8; MAX_VERTICES]
    requires { Labels cl.now × (v ≤ max_vertices) × (o < search_outputs) × (q < search_outputs) }
    ensures { (l : ℕ) → l < max_vertices → FewKinds cl.now v o l q (item result l) }
{
    let mut seen = [0u64; MAX_VERTICES];
    let mut g = [0u8; PAIRS];
    let mut r = [0u8; MAX_VERTICES];
    for x in 0..v {
        let l = problem::label(cl, o, x) as usize;
        let k = problem::label(cl, q, x);
        if !cells::in_set(seen[l], k) {
            seen[l] = cells::with(seen[l], k);
            let p = problem::part(cl, q, x) as usize;
            let i = l * MAX_VERTICES + p;
            let n = g[i] + 1;
            g[i] = n;
            r[l] = r[l].max(n);
        }
    }
    r
}

// The blocks that the classes of o need are raised to what the kinds of q say, where q reads d cells that o does not read: d of
// them tell 2 to the power d kinds apart inside a block.
fn raise(base: &mut [u8], o: usize, kinds: [u8; MAX_VERTICES], d: u8)
    requires { (length base.old ≡ label_count) × (o < search_outputs) × (d ≤ max_cells) × ((l : ℕ) → l < max_vertices → item kinds l ≤ max_vertices) }
    ensures { Raised o d max_vertices kinds base.old base.new }
{
    let p = cells::power(d);
    for l in 0..MAX_VERTICES {
        let i = o * MAX_VERTICES + l;
        base[i] = base[i].max((kinds[l] + p - 1) >> d);
    }
}

// The blocks that the classes of o need, by each of the first j outputs. Where there are others, o itself says no more than they.
fn raise_all(base: &mut [u8], cl: &[u8], v: usize, j: usize, rows: [u8; SEARCH_OUTPUTS], o: usize)
    requires { Labels cl.now × (v ≤ max_vertices) × (j ≤ search_outputs) × (o < j) × Based cl.now rows v j (j * max_vertices) base.old }
    ensures { Based cl.now rows v j (j * max_vertices) base.new }
{
    for q in 0..j {
        if q != o || j == 1 {
            let d = cells::size(rows[q] & !rows[o]);
            raise(base, o, kinds(cl, v, o, q), d);
        }
    }
}

// How many blocks each class l of each output o needs, at o * MAX_VERTICES + l; a class that no vertex has needs none.
pub fn bases(cl: &[u8], v: usize, j: usize, rows: [u8; SEARCH_OUTPUTS]) -> [u8; LABELS]
    requires { Labels cl.now × (v ≤ max_vertices) × (j ≤ search_outputs) }
    ensures { Based cl.now rows v j (j * max_vertices) result }
{
    let mut r = [0u8; LABELS];
    for o in 0..j {
        raise_all(&mut r, cl, v, j, rows, o);
    }
    r
}
