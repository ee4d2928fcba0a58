// A cache of subproblems answered, and the sets of outputs for which it is asked. What it says was found to have no codes has
// none; that something has codes, or may have, is used to leave a search out, and nothing rests on it. It rests on subproblems.
#![tactic(auto)]

ghost use Rattle.std.specs.Prelude.{◌≡◌, ℕ, ◌+◌, ◌*◌, ◌<◌, ◌≤◌, true, false, List, length};
ghost use Rattle.limits.specs.Limits.{search_outputs, max_vertices};
ghost use Rattle.bits.specs.Digit.{on};
ghost use Rattle.problem.specs.Problem.{item};
ghost use Rattle.relation.specs.Relation.{Classes};
ghost use Rattle.subproblems.specs.Subproblem.{Barred};
ghost use Rattle.cache.specs.Cache.{entry_count, entry_size, head_at, row_at, Honest};

use limits::SEARCH_OUTPUTS;
use problem::Answer;

// The entries of a cache, the largest prime below their number, and the numbers that each entry has: its head and a row for
// each output.
const ENTRIES: usize = 2048;

const PRIME: u64 = 2039;

const ENTRY: usize = SEARCH_OUTPUTS + 1;

pub const SIZE: usize = ENTRIES * ENTRY;

// The head of an entry for the outputs of the set asked: odd where there are no codes. It is a number, since a cache is an array
// of numbers that the caller lends.
fn head(asked: u8, ok: bool) -> u16
    ensures { (ok ≡ true → result ≡ asked * 2) × (ok ≡ false → result ≡ asked * 2 + 1) }
{
    if ok {
        asked as u16 * 2
    } else {
        asked as u16 * 2 + 1
    }
}

// Two more primes, by which the rows are brought into one number; the second is the largest below 2 to the power 32.
const FACTOR: u64 = 263;

const LARGE_PRIME: u64 = 4_294_967_291;

// Where a subproblem's entry stands: by a prime, so that subproblems that differ in one output's row seldom stand in one place.
fn place(asked: u8, rows: [u16; SEARCH_OUTPUTS]) -> usize
    ensures { result < entry_count }
{
    let mut h = u64::from(asked);
    for row in rows.iter() {
        h = (h * FACTOR + u64::from(*row)) % LARGE_PRIME;
    }
    (h % PRIME) as usize
}

// Whether entry i has this head and these rows.
fn holds(mem: &[u16], i: usize, head: u16, rows: [u16; SEARCH_OUTPUTS]) -> bool
    requires { (length mem.now ≡ entry_count * entry_size) × (i < entry_count) }
    ensures { result ≡ true → (head_at mem.now i ≡ head) × ((o : ℕ) → o < search_outputs → row_at mem.now i o ≡ item rows o) }
{
    mem[i * ENTRY] == head && (0..SEARCH_OUTPUTS).all(|o| mem[i * ENTRY + (o + 1)] == rows[o])
}

// Whether the cache says that the subproblem about the outputs of the set asked with these rows has no codes. The rows are looked up
// as they are: they are found only where they were stored in the same form.
pub fn is_bad(mem: &[u16], asked: u8, rows: [u16; SEARCH_OUTPUTS]) -> bool
    requires { length mem.now ≡ entry_count * entry_size }
    ensures { (cl given : List ℕ) (kn val v : ℕ) → Honest cl given kn val v mem.now → result ≡ true → Barred cl given kn val v asked (item rows) }
{
    holds(mem, place(asked, rows), head(asked, false), rows)
}

// The subproblem about the outputs of the set asked with these rows gets an entry with its answer, in place of what stood there.
// Where ok is false the subproblem has to have no codes; that ok is true says nothing.
pub fn store(mem: &mut [u16], asked: u8, rows: [u16; SEARCH_OUTPUTS], ok: bool)
    requires { length mem.old ≡ entry_count * entry_size }
    ensures { (cl given : List ℕ) (kn val v : ℕ) → (ok ≡ false → Barred cl given kn val v asked (item rows)) → Honest cl given kn val v mem.old
        → Honest cl given kn val v mem.new }
{
    let i = place(asked, rows);
    for o in 0..SEARCH_OUTPUTS {
        mem[i * ENTRY + (o + 1)] = rows[o];
    }
    mem[i * ENTRY] = head(asked, ok);
}

// The cache without what it says has codes: such a subproblem may have been given up, and is to be asked again.
pub fn forget(mem: &mut [u16])
    requires { length mem.old ≡ entry_count * entry_size }
    ensures { (cl given : List ℕ) (kn val v : ℕ) → Honest cl given kn val v mem.old → Honest cl given kn val v mem.new }
{
    for i in 0..ENTRIES {
        if mem[i * ENTRY] % 2 == 0 {
            mem[i * ENTRY] = 0;
        }
    }
}

// Whether some row of entry i reads cell 0.
fn reads_cell_0(mem: &[u16], i: usize) -> bool
    requires { (length mem.now ≡ entry_count * entry_size) × (i < entry_count) }
    ensures { result ≡ false → (o : ℕ) → o < search_outputs → on (row_at mem.now i o) 0 ≡ false }
{
    let mut all: u16 = 0;
    for o in 0..SEARCH_OUTPUTS {
        all |= mem[i * ENTRY + (o + 1)];
    }
    all % 2 == 1
}

// The cache without what it says of subproblems that read cell 0. What it says of the others holds whatever is known of cell 0.
pub fn keep_unread(mem: &mut [u16])
    requires { length mem.old ≡ entry_count * entry_size }
    ensures { (cl given : List ℕ) (kn val kn' val' v : ℕ) → (on kn 0 ≡ true → on val 0 ≡ false) → Honest cl given kn val v mem.old
        → Honest cl given kn' val' v mem.new }
{
    for i in 0..ENTRIES {
        if reads_cell_0(mem, i) {
            mem[i * ENTRY] = 0;
        }
    }
}

// The cache without anything.
pub fn clear(mem: &mut [u16])
    requires { length mem.old ≡ entry_count * entry_size }
    ensures { (cl given : List ℕ) (kn val v : ℕ) → Honest cl given kn val v mem.new }
{
    mem.fill(0);
}

// Whether some codes may answer a subproblem, and how often the search gave a vertex a code: not at all where the answer was
// known. A struct, since the nodes count whatever the answer is.
#[derive(Clone, Copy)]
pub struct Reply {
    pub possible: bool,
    pub nodes: u64,
}

// What is asked of sets of outputs: the number of vertices, those where cell 0 has known digits and these digits, the outputs' rows,
// and the limit of nodes for each set.
#[derive(Clone, Copy)]
pub struct Query {
    pub vertices: usize,
    pub kn: u32,
    pub val: u32,
    pub rows: [u16; SEARCH_OUTPUTS],
    pub limit: u64,
}

// The reply for the outputs of the set asked, from the cache where it is known.
fn tell(cl: &[u8], given: &[u16], mem: &mut [u16], q: Query, asked: u8) -> Reply
    requires { Classes cl.now × (length given.now ≡ max_vertices) × (q.vertices ≤ max_vertices)
        × Honest cl.now given.now q.kn q.val q.vertices mem.old }
    ensures { Honest cl.now given.now q.kn q.val q.vertices mem.new
        × (result.possible ≡ false → Barred cl.now given.now q.kn q.val q.vertices asked (item q.rows)) }
{
    let asks = subproblems::question(q.rows, asked, q.kn != 0);
    if is_bad(mem, asked, asks) {
        return Reply {
            possible: false,
            nodes: 0,
        };
    }
    if holds(mem, place(asked, asks), head(asked, true), asks) {
        return Reply {
            possible: true,
            nodes: 0,
        };
    }
    let a = subproblems::ask(cl, given, q.vertices, q.kn, q.val, asked, asks, q.limit);
    // What was given up may have codes.
    let possible = !matches!(a.answer, Answer::Nothing);
    store(mem, asked, asks, possible);
    Reply {
        possible,
        nodes: a.nodes,
    }
}

// Whether a is a set of some of the outputs of among, those of with among them.
#[tactic(auto, using(crate::specs::CacheLaws::within_of))]
fn between(a: u8, with: u8, among: u8) -> bool
    ensures { result ≡ true → (o : ℕ) → on a o ≡ true → on among o ≡ true }
{
    a & !among == 0 && with & !a == 0
}

// Whether a set of outputs of among, those of with among them, is known to have no codes for the rows. A set that is part of
// among is no larger as a number.
pub fn known_bad(mem: &[u16], rows: [u16; SEARCH_OUTPUTS], with: u8, among: u8, known: bool) -> bool
    requires { length mem.now ≡ entry_count * entry_size }
    ensures { (cl given : List ℕ) (kn val v : ℕ) → (known ≡ false → kn ≡ 0) → Honest cl given kn val v mem.now → result ≡ true → Barred cl given kn val v among (item rows) }
{
    for a in 1..=among {
        if between(a, with, among) && is_bad(mem, a, subproblems::question(rows, a, known)) {
            return true;
        }
    }
    false
}

// Whether the sets of n outputs of among, those of with among them, may have codes for the rows.
pub fn settle(
    cl: &[u8],
    given: &[u16],
    mem: &mut [u16],
    q: Query,
    n: u32,
    with: u8,
    among: u8,
) -> Reply
    requires { Classes cl.now × (length given.now ≡ max_vertices) × (q.vertices ≤ max_vertices)
        × Honest cl.now given.now q.kn q.val q.vertices mem.old }
    ensures { Honest cl.now given.now q.kn q.val q.vertices mem.new
        × (result.possible ≡ false → Barred cl.now given.now q.kn q.val q.vertices among (item q.rows)) }
{
    let mut nodes: u64 = 0;
    for a in 1..=among {
        if u8::count_ones(a) == n && between(a, with, among) {
            let t = tell(cl, given, mem, q, a);
            nodes = std::num::wrapping_add_u64(nodes, t.nodes);
            if !t.possible {
                return Reply {
                    possible: false,
                    nodes,
                };
            }
        }
    }
    Reply {
        possible: true,
        nodes,
    }
}

// Whether the sets of fewer than n outputs of among may have codes for the rows; smaller sets first, since they are asked
// quickly and rule out more. One output alone is asked about only where cell 0 has known digits: else a count has shown that
// it has codes.
pub fn settle_smaller(
    cl: &[u8],
    given: &[u16],
    mem: &mut [u16],
    q: Query,
    n: u32,
    among: u8,
) -> Reply
    requires { Classes cl.now × (length given.now ≡ max_vertices) × (q.vertices ≤ max_vertices)
        × Honest cl.now given.now q.kn q.val q.vertices mem.old }
    ensures { Honest cl.now given.now q.kn q.val q.vertices mem.new
        × (result.possible ≡ false → Barred cl.now given.now q.kn q.val q.vertices among (item q.rows)) }
{
    let mut nodes: u64 = 0;
    let first = if q.kn != 0 { 1 } else { 2 };
    for i in first..n {
        let t = settle(cl, given, mem, q, i, 0, among);
        nodes = std::num::wrapping_add_u64(nodes, t.nodes);
        if !t.possible {
            return Reply {
                possible: false,
                nodes,
            };
        }
    }
    Reply {
        possible: true,
        nodes,
    }
}
