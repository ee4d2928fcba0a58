// A core of so many open cells beside given tables, or there is none. The crate readingsets is asked in rounds with growing
// limits: what takes long is left until all else is tried, and "none" is said only by a round that gave nothing up.
#![tactic(auto)]

ghost use Rattle.std.specs.Prelude.{◌≡◌, true, false, ◌<◌, ◌≤◌, length};
ghost use Rattle.limits.specs.Limits.{search_outputs, max_vertices, max_cells};
ghost use Rattle.problem.specs.Answer.{is_found};
ghost use Rattle.relation.specs.Relation.{Classes};
ghost use Rattle.coding.specs.Limit.{no_limit};
ghost use Rattle.cache.specs.Cache.{Honest};
ghost use Rattle.readingsets.specs.Choice.{max_given};
ghost use Rattle.readingsets.specs.Answered.{core_rows, core_codes};
ghost use Rattle.seeking.specs.Seeking.{Begins, Sought, AllFit, SoughtWhere, round_count, Places};

use limits::SEARCH_OUTPUTS;
use problem::Answer;
use readingsets::Choice;

// What is sought: the budgets of the outputs, the numbers of vertices and outputs, of open cells and of given tables, and the
// vertices where cell 0 has known digits and these digits.
#[derive(Clone, Copy)]
pub struct Problem {
    pub budgets: [u8; SEARCH_OUTPUTS],
    pub vertices: usize,
    pub outputs: usize,
    pub cells: u8,
    pub tables: u8,
    pub kn: u32,
    pub val: u32,
}

// The open cells that may change places with the next one before any output has a row: not cell 0 where it has known digits.
fn places(u: u8, kn: u32) -> u8
    requires { u ≤ max_cells }
    ensures { Places kn u result }
{
    if u == 0 {
        return 0;
    }
    let all = cells::power(u - 1) - 1;
    if kn != 0 { all & !1 } else { all }
}

// The nodes after which the first round gives up a question about some of the outputs, and a complete choice. In each later
// round they are 8 and 32 times as many.
const SOME_NODES: u64 = 10000;

const ALL_NODES: u64 = 6000;

// The same where cell 0 has known digits, with 8 and 16 times as many in each later round: other limits were measured to be
// quicker there.
const SOME_NODES_KNOWN: u64 = 2000;

const ALL_NODES_KNOWN: u64 = 20000;

// The rounds that may give up a complete choice; after them comes one that does not.
const ROUNDS: u64 = 7;

// The nodes after which round i gives up a question about some of the outputs.
fn some_nodes(i: u64, known: bool) -> u64
    requires { i ≤ round_count }
{
    let first = if known { SOME_NODES_KNOWN } else { SOME_NODES };
    first << (3 * i)
}

// The nodes after which round i gives up a complete choice.
fn all_nodes(i: u64, known: bool) -> u64
    ensures { round_count ≤ i → result ≡ no_limit }
{
    if i >= ROUNDS {
        return coding::NO_LIMIT;
    }
    if known {
        ALL_NODES_KNOWN << (4 * i)
    } else {
        ALL_NODES << (5 * i)
    }
}

// Cells as p says, or there are none. Where a round is unsure since it gave something up, the next one has higher limits. What
// a round learnt to have no codes stays known.
pub fn seek(cl: &[u8], given: &[u16], mem: &mut [u16], p: Problem, nodes: u64) -> Choice
    requires { Classes cl.now × (length given.now ≡ max_vertices) × (p.vertices ≤ max_vertices) × (p.outputs ≤ search_outputs) × (p.cells ≤ max_cells) × (p.tables ≤ max_given)
        × Begins p.kn p.val p.cells × Honest cl.now given.now p.kn p.val p.vertices mem.old }
    ensures { Sought cl.now given.now p.budgets p.kn p.val p.vertices p.outputs p.cells p.tables (is_found result.answer)
        (core_rows result.answer) (core_codes result.answer)
        × Honest cl.now given.now p.kn p.val p.vertices mem.new }
{
    let none = [0u16; SEARCH_OUTPUTS];
    let same = places(p.cells, p.kn);
    let alone = readingsets::alone(
        cl, given, p.budgets, p.vertices, p.outputs, p.cells, p.tables,
    );
    let known = p.kn != 0;
    // What the last round asks, which gives up no complete choice.
    let last = readingsets::Problem {
        budgets: p.budgets,
        vertices: p.vertices,
        outputs: p.outputs,
        cells: p.cells,
        tables: p.tables,
        kn: p.kn,
        val: p.val,
        limit: some_nodes(ROUNDS, known),
        last: all_nodes(ROUNDS, known),
        alone,
    };
    let mut total = nodes;
    for i in 0..ROUNDS {
        let round = readingsets::Problem {
            limit: some_nodes(i, known),
            last: all_nodes(i, known),
            ..last
        };
        let k = readingsets::choose(cl, given, mem, round, none, 0, same, total);
        if !matches!(k.answer, Answer::Unsure) {
            return k;
        }
        cache::forget(mem);
        total = k.nodes;
    }
    readingsets::choose(cl, given, mem, last, none, 0, same, total)
}

// Whether the first m outputs are all in the set fits.
pub fn all_fit(fits: u8, m: usize) -> bool
    requires { m ≤ search_outputs }
    ensures { (result ≡ true → AllFit fits m) × (result ≡ false → AllFit fits m → ⊥) }
{
    (0..m).all(|o| cells::in_set(fits as u64, o as u8))
}

// The same where the outputs that are not in the set fits have no budget: nothing serves them, and there is nothing to seek.
pub fn seek_where(
    cl: &[u8],
    given: &[u16],
    mem: &mut [u16],
    p: Problem,
    fits: u8,
    nodes: u64,
) -> Choice
    requires { Classes cl.now × (length given.now ≡ max_vertices) × (p.vertices ≤ max_vertices) × (p.outputs ≤ search_outputs) × (p.cells ≤ max_cells) × (p.tables ≤ max_given)
        × Begins p.kn p.val p.cells × Honest cl.now given.now p.kn p.val p.vertices mem.old }
    ensures { SoughtWhere fits cl.now given.now p.budgets p.kn p.val p.vertices p.outputs p.cells p.tables (is_found result.answer)
        (core_rows result.answer) (core_codes result.answer)
        × Honest cl.now given.now p.kn p.val p.vertices mem.new }
{
    if !all_fit(fits, p.outputs) {
        return Choice {
            answer: Answer::Nothing,
            nodes,
        };
    }
    seek(cl, given, mem, p, nodes)
}
