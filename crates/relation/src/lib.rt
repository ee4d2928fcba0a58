// What given tables leave of the conflicts of the outputs, as labels and parts for the search: a part is the vertices at which
// the given tables that an output reads agree, and a label stands for a class inside a part. An output that reads no given
// table keeps its classes as labels, all in part 0.
#![tactic(auto)]

ghost use Rattle.std.specs.Prelude.{◌≡◌, true, false, ℕ, ◌*◌, ◌<◌, ◌≤◌, length};
ghost use Rattle.limits.specs.Limits.{search_outputs, max_vertices};
ghost use Rattle.problem.specs.Problem.{item, Labels};
ghost use Rattle.relation.specs.Relation.{Classes, Conflict, Left, Leaves, NoneLeft, Inside};
ghost use Rattle.relation.specs.Refining.{Valued, Paired, First, Numbers, Fine, Placed, RefinedAt, Copied};

use limits::{LABELS, MAX_VERTICES, SEARCH_OUTPUTS};
use problem::LABELS_AND_PARTS;

// The values of the given tables of g at the first v vertices.
fn values(given: &[u16], g: u16, v: usize) -> [u16; MAX_VERTICES]
    requires { (length given.now ≡ max_vertices) × (v ≤ max_vertices) }
    ensures { Valued given.now g v result }
{
    let mut r = [0u16; MAX_VERTICES];
    for x in 0..v {
        r[x] = given[x] & g;
    }
    r
}

// A number for the part and the class of output o at each of the first v vertices.
fn pairs(cl: &[u8], o: usize, parts: [u8; MAX_VERTICES], v: usize) -> [u16; MAX_VERTICES]
    requires { Classes cl.now × (o < search_outputs) × (v ≤ max_vertices) × ((x : ℕ) → x < v → item parts x < max_vertices) }
    ensures { Paired cl.now o parts v result }
{
    let mut r = [0u16; MAX_VERTICES];
    for x in 0..v {
        let p = parts[x];
        r[x] = p as u16 * MAX_VERTICES as u16 + problem::label(cl, o, x) as u16;
    }
    r
}

// The first vertex with x's key.
fn first(keys: [u16; MAX_VERTICES], x: usize) -> usize
    requires { x < max_vertices }
    ensures { First keys x result }
{
    let key = keys[x];
    keys[..x].iter().position(|k| *k == key).unwrap_or(x)
}

// Numbers for the keys of the first v vertices, in the order in which the keys occur first.
fn numbers(keys: [u16; MAX_VERTICES], v: usize) -> [u8; MAX_VERTICES]
    requires { v ≤ max_vertices }
    ensures { Numbers keys v result }
{
    let mut r = [0u8; MAX_VERTICES];
    let mut next: u8 = 0;
    for x in 0..v {
        let y = first(keys, x);
        if y < x {
            r[x] = r[y];
        } else {
            r[x] = next;
            next += 1;
        }
    }
    r
}

// Output i with these labels and parts at the first v vertices; the other outputs as they are.
fn place(
    old: [u8; LABELS_AND_PARTS],
    i: usize,
    labels: [u8; MAX_VERTICES],
    parts: [u8; MAX_VERTICES],
    v: usize,
) -> [u8; LABELS_AND_PARTS]
    requires { Labels old × (i < search_outputs) × (v ≤ max_vertices) × Fine labels parts v }
    ensures { Placed old labels parts i v result }
{
    let mut r = old;
    for x in 0..v {
        let l = labels[x];
        r[i * MAX_VERTICES + x] = l;
        r[LABELS + (i * MAX_VERTICES + l as usize)] = parts[x];
    }
    r
}

// Output i with what the given tables of g leave of the conflicts of output o.
fn refine(
    cl: &[u8],
    given: &[u16],
    o: usize,
    g: u16,
    v: usize,
    i: usize,
    old: [u8; LABELS_AND_PARTS],
) -> [u8; LABELS_AND_PARTS]
    requires { Classes cl.now × (length given.now ≡ max_vertices) × (o < search_outputs) × (v ≤ max_vertices) × (i < search_outputs) × Labels old }
    ensures { RefinedAt cl.now given.now o g v i old result }
{
    let values = values(given, g, v);
    let parts = numbers(values, v);
    let pairs = pairs(cl, o, parts, v);
    let labels = numbers(pairs, v);
    place(old, i, labels, parts, v)
}

// The classes of the first n outputs of from, all in part 0.
fn copied(cl: &[u8], from: [u8; SEARCH_OUTPUTS], n: usize) -> [u8; LABELS_AND_PARTS]
    requires { Classes cl.now × ((i : ℕ) → i < search_outputs → item from i < search_outputs) × (n ≤ search_outputs) }
    ensures { Copied cl.now from (n * max_vertices) result }
{
    let mut r = [0u8; LABELS_AND_PARTS];
    for k in 0..n * MAX_VERTICES {
        r[k] = problem::label(cl, from[k / MAX_VERTICES] as usize, k % MAX_VERTICES);
    }
    r
}

// For each i < n, what the given tables of gs[i] leave of the conflicts of output from[i] at the first v vertices. Digit t of
// given[x] is the value of given table t at vertex x.
pub fn cut(
    cl: &[u8],
    given: &[u16],
    from: [u8; SEARCH_OUTPUTS],
    gs: [u16; SEARCH_OUTPUTS],
    n: usize,
    v: usize,
) -> [u8; LABELS_AND_PARTS]
    requires { Classes cl.now × (length given.now ≡ max_vertices) × ((i : ℕ) → i < search_outputs → item from i < search_outputs) × (n ≤ search_outputs) × (v ≤ max_vertices) }
    ensures { Leaves cl.now given.now from gs n v result }
{
    let mut r = copied(cl, from, n);
    for i in 0..n {
        if gs[i] != 0 {
            // The prover takes no call's result straight into an array that is passed to it.
            let refined = refine(cl, given, from[i] as usize, gs[i], v, i, r);
            r = refined;
        }
    }
    r
}

// Whether the given tables of g tell vertex x from all vertices before it from which output o has to tell it.
fn told(cl: &[u8], given: &[u16], o: usize, g: u16, x: usize) -> bool
    requires { Classes cl.now × (length given.now ≡ max_vertices) × (o < search_outputs) × (x < max_vertices) }
    ensures { (result ≡ true → (y : ℕ) → y < x → Left cl.now given.now g o x y → ⊥)
        × (result ≡ false → ((y : ℕ) → y < x → Left cl.now given.now g o x y → ⊥) → ⊥) }
{
    let value = given[x] & g;
    let label = problem::label(cl, o, x);
    (0..x).all(|y| given[y] & g != value || problem::label(cl, o, y) == label)
}

// Whether the given tables of g leave no conflict of output o at the first v vertices.
pub fn none_left(cl: &[u8], given: &[u16], o: usize, g: u16, v: usize) -> bool
    requires { Classes cl.now × (length given.now ≡ max_vertices) × (o < search_outputs) × (v ≤ max_vertices) }
    ensures { (result ≡ true → NoneLeft cl.now given.now g o v)
        × (result ≡ false → NoneLeft cl.now given.now g o v → ⊥) }
{
    (0..v).all(|x| told(cl, given, o, g, x))
}

// Whether output q has to tell vertex x from all vertices before it from which output o has to tell it.
fn inside_at(cl: &[u8], o: usize, q: usize, x: usize) -> bool
    requires { Classes cl.now × (o < search_outputs) × (q < search_outputs) × (x < max_vertices) }
    ensures { result ≡ true → (y : ℕ) → y < x → Conflict cl.now o x y → Conflict cl.now q x y }
{
    let a = problem::label(cl, o, x);
    let b = problem::label(cl, q, x);
    (0..x).all(|y| problem::label(cl, q, y) != b || problem::label(cl, o, y) == a)
}

// Whether output o has to tell apart no vertices of the first v that output q need not tell apart.
pub fn inside(cl: &[u8], o: usize, q: usize, v: usize) -> bool
    requires { Classes cl.now × (o < search_outputs) × (q < search_outputs) × (v ≤ max_vertices) }
    ensures { result ≡ true → Inside cl.now o q v }
{
    (0..v).all(|x| inside_at(cl, o, q, x))
}
