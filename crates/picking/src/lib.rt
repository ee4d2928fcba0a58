// With the tables of the cells given, for each output the first set of cells that serves it: all sets are looked at, and one that
// serves is kept where it has the first cell in which it differs from the best so far (specs/BestLaws). It rests on relation,
// which tells whether tables leave a conflict, and on the order of digits.
#![tactic(auto)]

ghost use Rattle.std.specs.Prelude.{◌≡◌, true, false, ◌^◌, ◌<◌, ◌≤◌, length};
ghost use Rattle.limits.specs.Limits.{search_outputs, max_vertices, max_cells};
ghost use Rattle.order.specs.Order.{is_less};
ghost use Rattle.relation.specs.Relation.{Classes};
ghost use Rattle.picking.specs.Picked.{Picked};
ghost use Rattle.picking.specs.Best.{Suits, set_order, Best};

use limits::{MAX_VERTICES, SEARCH_OUTPUTS};

// The codes as relation reads tables.
fn widened(codes: [u8; MAX_VERTICES]) -> [u16; MAX_VERTICES]
    ensures { result ≡ codes }
{
    codes.map(u16::from)
}

// Whether of two sets of the first u cells f comes before g: it has the first cell in which they differ.
fn sooner(f: u8, g: u8, u: u8) -> bool
    requires { u ≤ max_cells }
    ensures { result ≡ is_less (set_order u g f) }
{
    for i in 0..u {
        let a = cells::in_set(f as u64, i);
        if a != cells::in_set(g as u64, i) {
            return a;
        }
    }
    false
}

// Whether the set f is within the budget and tells apart all that output o has to tell apart.
fn suits(cl: &[u8], codes: &[u16], v: usize, o: usize, budget: u8, f: u8) -> bool
    requires { Classes cl.now × (length codes.now ≡ max_vertices) × (v ≤ max_vertices) × (o < search_outputs) }
    ensures { (result ≡ true → Suits cl.now codes.now v o budget f)
        × (result ≡ false → Suits cl.now codes.now v o budget f → ⊥) }
{
    f.count_ones() <= budget as u32 && relation::none_left(cl, codes, o, f as u16, v)
}

// The first set of the first u cells that suits output o.
fn first_row(cl: &[u8], codes: &[u16], v: usize, o: usize, u: u8, budget: u8) -> u8
    requires { Classes cl.now × (length codes.now ≡ max_vertices) × (v ≤ max_vertices) × (o < search_outputs) × (u ≤ max_cells) }
    ensures { Best cl.now codes.now v o u budget (2 ^ u) result }
{
    let mut best: u8 = 0;
    for f in 0..cells::power(u) {
        if sooner(f, best, u) && suits(cl, codes, v, o, budget, f) {
            best = f;
        }
    }
    best
}

// For each of m outputs the first set of the u cells with these codes that serves it.
pub fn first_rows(
    cl: &[u8],
    codes: [u8; MAX_VERTICES],
    budgets: [u8; SEARCH_OUTPUTS],
    v: usize,
    m: usize,
    u: u8,
) -> [u8; SEARCH_OUTPUTS]
    requires { Classes cl.now × (v ≤ max_vertices) × (m ≤ search_outputs) × (u ≤ max_cells) }
    ensures { Picked cl.now budgets v m u codes result }
{
    let tables = widened(codes);
    let mut r = [0u8; SEARCH_OUTPUTS];
    for o in 0..m {
        r[o] = first_row(cl, &tables, v, o, u, budgets[o]);
    }
    r
}
