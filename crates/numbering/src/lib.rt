// Private cells written out: given codes over the shared cells, each output's classes are numbered inside its blocks and
// the numbers are spread over the digits of its private cells. It rests on the laws of specs/NumberLaws. From here up to readers
// vertices are plain numbers, whatever they stand for: the crate joint hands in joint classes.
#![tactic(auto)]

ghost use Rattle.std.specs.Prelude.{◌≡◌, true, false, ℕ, ◌+◌, ◌<◌, ◌≤◌, List};
ghost use Rattle.limits.specs.Limits.{search_outputs, max_vertices, max_codes, max_cells};
ghost use Rattle.problem.specs.Problem.{part_of, item, Labels, Plan, Knows, Told};
ghost use Rattle.problem.specs.Answer.{some_codes};
ghost use Rattle.std.specs.Option.{is_some};
ghost use Rattle.numbering.specs.Number.{Numbered, Number, Spread, Written};

use limits::MAX_VERTICES;
use problem::Problem;

// Whether a vertex y with a code in some block is in the same block b and in part p.
fn together(cl: &[u8], o: usize, y: usize, p: u8, own: u8, b: u8) -> bool
    requires { Labels cl.now × (o < search_outputs) × (y < max_vertices) }
    ensures { (result ≡ true → (part_of cl.now o y ≡ p) × (own ≡ b)) × (result ≡ false → part_of cl.now o y ≡ p → own ≡ b → ⊥) }
{
    own == b && problem::part(cl, o, y) == p
}

// A number for x's class inside its block: the one that it has, or the next after the highest.
fn number(
    cl: &[u8],
    o: usize,
    mask: u8,
    codes: [u8; MAX_VERTICES],
    nums: [u8; MAX_VERTICES],
    x: usize,
) -> u8
    requires { Labels cl.now × (o < search_outputs) × (x < max_vertices) × Numbered cl.now codes o mask x nums }
    ensures { Number cl.now codes o mask x nums result }
{
    let block = codes[x] & mask;
    let class = problem::label(cl, o, x);
    let own = problem::part(cl, o, x);
    let mut next: u8 = 0;
    for y in 0..x {
        if together(cl, o, y, own, codes[y] & mask, block) {
            if problem::label(cl, o, y) == class {
                return nums[y];
            }
            next = next.max(nums[y] + 1);
        }
    }
    next
}

// The numbers of all v vertices.
fn numbers(cl: &[u8], o: usize, mask: u8, codes: [u8; MAX_VERTICES], v: usize) -> [u8; MAX_VERTICES]
    requires { Labels cl.now × (o < search_outputs) × (v ≤ max_vertices) }
    ensures { Numbered cl.now codes o mask v result }
{
    let mut nums = [0u8; MAX_VERTICES];
    for x in 0..v {
        nums[x] = number(cl, o, mask, codes, nums, x);
    }
    nums
}

// The digits of n, lowest first, at the digits of p.
fn spread(n: u8, p: u8) -> u8
    ensures { Spread n p max_cells result }
{
    let mut r: u64 = 0;
    let mut k: u8 = 0;
    for i in 0..cells::MAX_CELLS {
        if cells::in_set(p as u64, i) {
            if cells::in_set(n as u64, k) {
                r = cells::with(r, i);
            }
            k += 1;
        }
    }
    r as u8
}

// The codes with the numbers in the digits of p, unless a number is too large for them.
fn write(
    nums: [u8; MAX_VERTICES],
    cap: u8,
    p: u8,
    v: usize,
    codes: [u8; MAX_VERTICES],
) -> Option<[u8; MAX_VERTICES]>
    requires { v ≤ max_vertices }
    ensures { Written nums p cap v codes (is_some result) (some_codes result) }
{
    let mut r = codes;
    for x in 0..v {
        let n = nums[x];
        if cap <= n {
            return None;
        }
        r[x] = (r[x] & !p) | spread(n, p);
    }
    Some(r)
}

// Codes over all cells from codes over the shared ones, unless some block has too many classes.
pub fn finish(cl: &[u8], p: Problem, codes: [u8; MAX_VERTICES]) -> Option<[u8; MAX_VERTICES]>
    requires { Labels cl.now × (p.outputs ≤ search_outputs) × (p.vertices ≤ max_vertices) × Plan p.ms p.ps p.caps p.outputs
        × ((x : ℕ) → x < p.vertices → item codes x < max_codes) }
    ensures { (base spots dom : List ℕ) (kn val : ℕ) → Knows kn val p.ps codes p.vertices p.outputs
        → Told cl.now base p.ms p.ps p.caps spots p.vertices p.outputs kn val codes dom (is_some result) (some_codes result) }
{
    let mut r = codes;
    for o in 0..p.outputs {
        let nums = numbers(cl, o, p.ms[o], codes, p.vertices);
        r = write(nums, p.caps[o], p.ps[o], p.vertices, r)?;
    }
    Some(r)
}
