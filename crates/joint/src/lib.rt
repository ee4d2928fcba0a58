// One vertex for each joint class of the outputs in question: the vertices are merged, the search for codes runs on the
// classes, and each vertex takes the code of its class. The contract is that of the search on all vertices. Here vertices
// and joint classes are numbers of two types; the crates below search for codes of plain numbers, whatever these stand for,
// and `codes_for` is where joint classes become such numbers and their codes come back.
#![tactic(auto)]

ghost use Rattle.std.specs.Prelude.{◌≡◌, true, ⊤, ℕ, ◌*◌, ◌<◌, ◌≤◌, MatchOption};
ghost use Rattle.limits.specs.Limits.{search_outputs, max_vertices, label_count};
ghost use Rattle.problem.specs.Problem.{Labels};
ghost use Rattle.problem.specs.Answer.{is_found, is_unsure, found_codes};
ghost use Rattle.coding.specs.Limit.{Sure};
ghost use Rattle.readers.specs.Masks.{Short, Decided};
ghost use Rattle.joint.specs.Digits.{vertex_at, known_at, Drawn};
ghost use Rattle.joint.specs.Merge.{Mergeable, Merged, Copied, Picked, Spread, joint_at};

use coding::Search;
use limits::{MAX_VERTICES, SEARCH_OUTPUTS, Vertex};
use problem::{Answer, LABELS_AND_PARTS};

// The number of a joint class of the outputs in question: vertices that have the same class for each of them, and of which the
// same is known of cell 0.
#[derive(Clone, Copy)]
struct JointClass(usize);

// What is known of cell 0 at x: its digit of val where kn has x.
fn known_at(kn: u32, val: u32, x: Vertex) -> Option<bool>
    requires { x.0 < max_vertices }
    ensures { result ≡ known_at kn val x.0 }
{
    let x = x.0 as u8;
    cells::in_set(u64::from(kn), x).then_some(cells::in_set(u64::from(val), x))
}

// Whether x and y have the same classes for the first j outputs, and the same is known of cell 0.
fn alike(cl: &[u8], j: usize, kn: u32, val: u32, x: Vertex, y: Vertex) -> bool
    requires { Labels cl.now × (j ≤ search_outputs) × (x.0 < max_vertices) × (y.0 < max_vertices) }
    ensures { result ≡ true → Mergeable cl.now j kn val x.0 y.0 }
{
    (0..j).all(|o| problem::label(cl, o, x.0) == problem::label(cl, o, y.0))
        && known_at(kn, val, x) == known_at(kn, val, y)
}

// The class of x, where it is one of the first n, each of which has a first vertex.
fn class_of(
    cl: &[u8],
    j: usize,
    kn: u32,
    val: u32,
    first: [Vertex; MAX_VERTICES],
    n: usize,
    x: Vertex,
) -> Option<JointClass>
    requires { Labels cl.now × (j ≤ search_outputs) × (x.0 < max_vertices) × (n ≤ max_vertices) × ((i : ℕ) → i < max_vertices → vertex_at first i < max_vertices) }
    ensures { MatchOption result ⊤ (λ q. (q.0 < n) × Mergeable cl.now j kn val x.0 (vertex_at first q.0)) }
{
    for i in 0..n {
        if alike(cl, j, kn, val, x, first[i]) {
            return Some(JointClass(i));
        }
    }
    None
}

// The number of joint classes, the first vertex of each class, and the class of each vertex.
#[derive(Clone, Copy)]
struct Classes {
    count: usize,
    first: [Vertex; MAX_VERTICES],
    place: [JointClass; MAX_VERTICES],
}

fn merge(cl: &[u8], v: usize, j: usize, kn: u32, val: u32) -> Classes
    requires { Labels cl.now × (v ≤ max_vertices) × (j ≤ search_outputs) }
    ensures { Merged cl.now j kn val v result.count result.first result.place }
{
    let mut first = [Vertex(0); MAX_VERTICES];
    let mut place = [JointClass(0); MAX_VERTICES];
    let mut n: usize = 0;
    for x in 0..v {
        match class_of(cl, j, kn, val, first, n, Vertex(x)) {
            Some(q) => place[x] = q,
            None => {
                place[x] = JointClass(n);
                first[n] = Vertex(x);
                n += 1;
            }
        }
    }
    Classes {
        count: n,
        first,
        place,
    }
}

// The labels and parts as they are.
fn copied(cl: &[u8]) -> [u8; LABELS_AND_PARTS]
    requires { Labels cl.now }
    ensures { Copied cl.now (2 * label_count) result }
{
    let mut r = [0u8; LABELS_AND_PARTS];
    r.copy_from_slice(cl);
    r
}

// The labels of the classes, for the first j outputs, and the parts as they are.
fn relabel(cl: &[u8], first: [Vertex; MAX_VERTICES], j: usize) -> [u8; LABELS_AND_PARTS]
    requires { Labels cl.now × (j ≤ search_outputs) × ((i : ℕ) → i < max_vertices → vertex_at first i < max_vertices) }
    ensures { Picked cl.now first (j * max_vertices) result }
{
    let mut r = copied(cl);
    for i in 0..j * MAX_VERTICES {
        r[i] = problem::label(cl, i / MAX_VERTICES, first[i % MAX_VERTICES].0);
    }
    r
}

// The digits of s at the first vertices of the first n classes.
fn drawn(s: u32, first: [Vertex; MAX_VERTICES], n: usize) -> u32
    requires { (n ≤ max_vertices) × ((i : ℕ) → i < max_vertices → vertex_at first i < max_vertices) }
    ensures { Drawn s first n result }
{
    if s == 0 {
        return 0;
    }
    let mut r: u64 = 0;
    for i in 0..n {
        if cells::in_set(u64::from(s), first[i].0 as u8) {
            r = cells::with(r, i as u8);
        }
    }
    r as u32
}

// Each vertex with the code of its class.
fn expand(
    codes: [u8; MAX_VERTICES],
    place: [JointClass; MAX_VERTICES],
    v: usize,
) -> [u8; MAX_VERTICES]
    requires { (v ≤ max_vertices) × ((x : ℕ) → x < v → joint_at place x < max_vertices) }
    ensures { Spread place codes v result }
{
    let mut r = [0u8; MAX_VERTICES];
    for x in 0..v {
        r[x] = codes[place[x].0];
    }
    r
}

// Codes for v vertices that tell the classes of each part of the first j outputs apart, each reading its row of cells, and that
// have the known digits of cell 0: it is known at the vertices of kn, and val has its digits there.
pub fn codes_for(
    cl: &[u8],
    v: usize,
    j: usize,
    rows: [u8; SEARCH_OUTPUTS],
    kn: u32,
    val: u32,
    limit: u64,
) -> Search
    requires { Labels cl.now × (v ≤ max_vertices) × (j ≤ search_outputs) × Short rows j }
    ensures { Sure limit (is_unsure result.answer) (Decided cl.now v j rows kn val (is_found result.answer) (found_codes result.answer)) }
{
    let m = merge(cl, v, j, kn, val);
    let labels = relabel(cl, m.first, j);
    let known = drawn(kn, m.first, m.count);
    let digits = drawn(val, m.first, m.count);
    let c = readers::codes_for(&labels, m.count, j, rows, known, digits, limit);
    match c.answer {
        Answer::Found(codes) => Search {
            answer: Answer::Found(expand(codes, m.place, v)),
            nodes: c.nodes,
        },
        Answer::Nothing | Answer::Unsure => c,
    }
}
