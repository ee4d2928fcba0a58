// Columns, classes and widths of a design: vertices are the rows of the bound inputs, and two of them are in one class
// when their columns are equal. Rests on sheet for what a design says, and on rows for a table's value on a row.
#![tactic(auto)]

ghost use Rattle.std.specs.Prelude.{◌≡◌, ◌≤◌, ◌<◌, ℕ, Bool, IfSome, length, get_or};
ghost use Rattle.limits.specs.Limits.{max_inputs, max_bound, max_vertices, max_free_rows};
ghost use Rattle.sheet.specs.Examine.{Design};
ghost use Rattle.sheet.specs.Known.{Holds};
ghost use Rattle.classes.specs.ClassLaws.{Equivalence};
ghost use Rattle.classes.specs.Width.{width_of};
ghost use Rattle.classes.specs.Proper.{Proper};
ghost use Rattle.classes.specs.Seen.{Placing, DigitsAre, Small, gathered, Gathered, Inside, alike_seen, same_key, Keyable, KeysBy, FirstIs, ClassesBy};
ghost use Rattle.classes.specs.Answer.{Counts, Shaped, local_at, global_at, ClassesAre};

use limits::Vertex;
use sheet::Sheet;

// The rows of a design by their parts: vertex x and free row y stand on row vertex[x] + free[y].
#[derive(Clone, Copy)]
pub struct Shape {
    pub vertices: usize,
    pub frees: usize,
    pub vertex: [usize; limits::MAX_VERTICES],
    pub free: [usize; limits::MAX_FREE_ROWS],
}

// A local class has a number in its output, a global class one in the design: two types, so that neither stands where the
// other is meant.

// The number of a local class of one output.
#[derive(Clone, Copy)]
pub struct LocalClass(pub usize);

// The number of a global class.
#[derive(Clone, Copy)]
pub struct GlobalClass(pub usize);

#[derive(Clone, Copy)]
pub struct Locals {
    pub count: usize,
    pub classes: [LocalClass; limits::MAX_VERTICES],
}

#[derive(Drop)]
pub struct Globals {
    pub count: usize,
    pub classes: [GlobalClass; limits::MAX_VERTICES],
}

// What is known of the columns of a design: local classes and width of each output, and the global classes.
#[derive(Drop)]
pub struct Classes {
    pub shape: Shape,
    pub locals: [Locals; limits::MAX_OUTPUTS],
    pub widths: [usize; limits::MAX_OUTPUTS],
    pub globals: Globals,
}

// Where input i stands first among the bound inputs; nowhere where it is free.
fn place(bound: &[usize], i: usize) -> Option<usize>
    ensures { Placing bound.now i result }
{
    bound.iter().position(|&k| k == i)
}

// The digit of each of n inputs in a number that has the vertex in its lowest digits and the free row above them: the last
// bound input has digit 0, and the last free input the first digit above the vertex.
fn digits(bound: &[usize], n: usize) -> [usize; limits::MAX_INPUTS]
    requires { (n ≤ max_inputs) × (length bound.now ≤ max_bound) }
    ensures { DigitsAre bound.now n result }
{
    let b = bound.len();
    let mut list = [0usize; limits::MAX_INPUTS];
    let mut next = b;
    for i in (0..n).rev() {
        if let Some(j) = place(bound, i) {
            list[i] = b - 1 - j;
        } else {
            list[i] = next;
            next += 1;
        }
    }
    list
}

// The row whose inputs have the values that stand at their digits in z.
fn gather(digits: &[usize], z: usize) -> usize
    requires { (length digits.now ≤ max_inputs) × Small digits.now }
    ensures { result ≡ gathered digits.now z }
{
    let mut r = 0;
    for k in digits {
        r = 2 * r + usize::from(bits::has(z as u64, *k as u32));
    }
    r
}

// Writes the rows of the numbers 0, step, 2 * step and so on.
fn fill(out: &mut [usize], digits: &[usize], step: usize)
    requires { (length out.old ≤ max_free_rows) × (step ≤ max_vertices) × (length digits.now ≤ max_inputs) × Small digits.now }
    ensures { Gathered digits.now step out.new }
{
    for (i, row) in out.iter_mut().enumerate() {
        *row = gather(digits, i * step);
    }
}

// The rows of each vertex and each free row.
fn shape_of(k: Sheet) -> Shape
    requires { Counts k }
    ensures { Shaped k result }
{
    let n = k.inputs;
    let list = digits(&k.bound[..k.bounds], n);
    let vertices = bits::power(k.bounds);
    let mut vertex = [0usize; limits::MAX_VERTICES];
    let mut free = [0usize; limits::MAX_FREE_ROWS];
    fill(&mut vertex, &list[..n], 1);
    fill(&mut free, &list[..n], vertices);
    Shape {
        vertices,
        frees: bits::power(n - k.bounds),
        vertex,
        free,
    }
}

// Whether vertices x and y have equal columns.
fn equal(
    t: &[u64; limits::TABLE_WORDS],
    vertex: &[usize],
    free: &[usize],
    x: Vertex,
    y: Vertex,
) -> bool
    requires { Inside vertex.now free.now × (x.0 < length vertex.now) × (y.0 < length vertex.now) }
    ensures { result ≡ alike_seen t.now vertex.now free.now x.0 y.0 }
{
    let a = vertex[x.0];
    let b = vertex[y.0];
    for f in 0..free.len() {
        if rows::row(t, a + free[f]) != rows::row(t, b + free[f]) {
            return false;
        }
    }
    true
}

// Vertices by their classes: how many classes there are, and the number of each vertex's, as these come.
#[derive(Clone, Copy)]
struct Numbering {
    count: usize,
    numbers: [usize; limits::MAX_VERTICES],
}

// The first vertex below x that is in x's class, where there is one.
fn first_like<F: Fn(Vertex, Vertex) -> bool>(same: &F, x: usize) -> Option<usize>
    requires { (y : ℕ) → y < x → F.pre same.now (record { 0 = y }) (record { 0 = x }) }
    ensures below { IfSome result (λ y. y < x) }
    ensures first { (r : ℕ → ℕ → Bool) → ((y : ℕ) (b : Bool) → y < x → F.post same.now (record { 0 = y }) (record { 0 = x }) b → b ≡ r y x)
        → FirstIs r x result }
{
    for y in 0..x {
        if same(Vertex(y), Vertex(x)) {
            return Some(y);
        }
    }
    None
}

// The classes of some vertices, where `same` says whether two of them, the first of which comes before, are in one class.
fn numbered<F: Fn(Vertex, Vertex) -> bool>(vertices: usize, same: F) -> Numbering
    requires few { vertices ≤ max_vertices }
    requires callable { (y x : ℕ) → y < x → x < vertices → F.pre same (record { 0 = y }) (record { 0 = x }) }
    ensures { (r : ℕ → ℕ → Bool) → Equivalence r
        → ((y x : ℕ) (b : Bool) → y < x → x < vertices → F.post same (record { 0 = y }) (record { 0 = x }) b → b ≡ r y x)
        → ClassesBy r vertices result.count (λ x. get_or result.numbers x 0) }
{
    let mut numbers = [0; limits::MAX_VERTICES];
    let mut count = 0;
    for x in 0..vertices {
        if let Some(y) = first_like(&same, x) {
            numbers[x] = numbers[y];
        } else {
            numbers[x] = count;
            count += 1;
        }
    }
    Numbering { count, numbers }
}

// The local classes of the output with the table t.
fn local_classes(t: &[u64; limits::TABLE_WORDS], vertex: &[usize], free: &[usize]) -> Locals
    requires { Inside vertex.now free.now × (length vertex.now ≤ max_vertices) }
    ensures { ClassesBy (alike_seen t.now vertex.now free.now) (length vertex.now) result.count (local_at result.classes) }
{
    let n = numbered(vertex.len(), |y, x| equal(t, vertex, free, y, x));
    Locals {
        count: n.count,
        classes: n.numbers.map(LocalClass),
    }
}

// The smallest w with 2 ^ w at least the number of classes.
fn width(count: usize) -> usize
    requires { count ≤ max_vertices }
    ensures { (result ≡ width_of count) × (result ≤ max_bound) }
{
    count.next_power_of_two().ilog2() as usize
}

// The keys of vertices, each with the local class of one output more: vertices have one key when they are in one class in
// every output so far. A local class number is below the number of vertices.
fn with_output(
    keys: [usize; limits::MAX_VERTICES],
    l: Locals,
    vertices: usize,
) -> [usize; limits::MAX_VERTICES]
    requires { (vertices ≤ max_vertices) × Keyable keys (local_at l.classes) vertices }
    ensures { KeysBy keys (local_at l.classes) vertices result }
{
    let mut list = keys;
    for x in 0..vertices {
        list[x] = list[x] * limits::MAX_VERTICES + l.classes[x].0;
    }
    list
}

// The global classes of vertices with these keys.
fn global_classes(keys: &[usize]) -> Globals
    requires { length keys.now ≤ max_vertices }
    ensures { ClassesBy (same_key keys.now) (length keys.now) result.count (global_at result.classes) }
{
    let n = numbered(keys.len(), |y, x| keys[y.0] == keys[x.0]);
    Globals {
        count: n.count,
        classes: n.numbers.map(GlobalClass),
    }
}

// The classes and widths of a design.
pub fn classes_of(k: Sheet) -> Classes
    requires { Counts k }
    ensures { (d : Design) → Holds d k → Proper d → ClassesAre d result }
{
    let shape = shape_of(k);
    let mut locals = [Locals {
        count: 0,
        classes: [LocalClass(0); limits::MAX_VERTICES],
    }; limits::MAX_OUTPUTS];
    let mut widths = [0usize; limits::MAX_OUTPUTS];
    let mut keys = [0usize; limits::MAX_VERTICES];
    for o in 0..k.outputs {
        let table = k.tables[o];
        let l = local_classes(
            &table.words,
            &shape.vertex[..shape.vertices],
            &shape.free[..shape.frees],
        );
        keys = with_output(keys, l, shape.vertices);
        widths[o] = width(l.count);
        locals[o] = l;
    }
    let globals = global_classes(&keys[..shape.vertices]);
    Classes {
        shape,
        locals,
        widths,
        globals,
    }
}
