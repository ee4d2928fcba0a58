// Formulas on a text: one pass over a formula's text tells whether it is spelled right, how deep it is nested, whether
// its names are inputs, and its value on every row. Of a formula that is nested too deeply only that and its spelling
// are told. Rests on cursor for what stands at a place, and on rows for tables.
#![tactic(auto)]

ghost use Rattle.std.specs.Prelude.{map, true, ℕ, suc, ◌≤◌, length, drop, Some};
ghost use Rattle.limits.specs.Limits.{max_depth};
ghost use Rattle.text.specs.Bytes.{Read, after};
ghost use Rattle.names.specs.Name.{among};
ghost use Rattle.names.specs.Pack.{name_of};
ghost use Rattle.cursor.specs.Opening as spec;
ghost use Rattle.cursor.specs.Item.{MovedIs, gate_of};
ghost use Rattle.rows.specs.Words.{Rowwise, row_on};
ghost use Rattle.formula.specs.Tree.{Formula};
ghost use Rattle.formula.specs.Reader.{read_formula, close_not};
ghost use Rattle.formula.specs.Value.{on_row};
ghost use Rattle.formula.specs.Gates.{two};
ghost use Rattle.formula.specs.Part.{PartIs, Atom, Skimmed, Closed, Negated, Joined, gate_on};
ghost use Rattle.formula.specs.Skim.{spelling};

use cursor::{Cursor, Gate, Opening};

// What is known of a formula that was read: the cursor after it, its depth as far as it matters, whether its names are
// inputs, and its value on each row.
#[derive(Clone, Copy)]
pub struct Part {
    pub next: Cursor,
    pub depth: usize,
    pub known: bool,
    pub rows: [u64; limits::TABLE_WORDS],
}

// A digit.
fn constant(b: bool, next: Cursor) -> Part
    ensures { Atom next true (λ (x : ℕ). b) result }
{
    Part {
        next,
        depth: 0,
        known: true,
        rows: rows::constant(b),
    }
}

// A name: the first of the inputs is the highest digit of a row's number.
fn input(inputs: &[u64], n: u64, next: Cursor) -> Part
    ensures { Atom next (among (name_of n) (map name_of inputs.now)) (λ (x : ℕ). on_row (map name_of inputs.now) x (name_of n)) result }
{
    match names::find(inputs, n) {
        Some(i) => Part {
            next,
            depth: 0,
            known: true,
            rows: rows::input(inputs.len() - 1 - i),
        },
        None => Part {
            next,
            depth: 0,
            known: false,
            rows: rows::constant(false),
        },
    }
}

// A formula that was only skimmed.
fn unread(next: Cursor) -> Part
    ensures { Skimmed next result }
{
    Part {
        next,
        depth: 0,
        known: false,
        rows: rows::constant(false),
    }
}

// A formula past its closing bracket. Past the deepest that is allowed depths are not told apart.
fn closed(s: &[u8], p: Part) -> Option<Part>
    ensures { Closed s.now (Some p) result }
{
    let next = p.next.byte(s, b')')?;
    let depth = p.depth.min(limits::MAX_DEPTH) + 1;
    Some(Part { next, depth, ..p })
}

// The negation of a formula.
fn negated(p: Part) -> Part
    ensures { Negated p result }
{
    Part {
        rows: rows::complement(p.rows),
        ..p
    }
}

// Two operands of a gate, row by row.
fn combined(
    g: Gate,
    a: [u64; limits::TABLE_WORDS],
    b: [u64; limits::TABLE_WORDS],
) -> [u64; limits::TABLE_WORDS]
    ensures { Rowwise (λ (r : ℕ). two (gate_of g) (row_on a r) (row_on b r)) result }
{
    match g {
        Gate::And => rows::both(a, b),
        Gate::Or => rows::either(a, b),
        Gate::Xor => rows::differ(a, b),
    }
}

// The operands so far, and one more.
fn joined(g: Gate, p: Part, q: Part) -> Part
    ensures { Joined (gate_of g) p q result }
{
    Part {
        next: q.next,
        depth: p.depth.max(q.depth),
        known: p.known && q.known,
        rows: combined(g, p.rows, q.rows),
    }
}

// Past the formula at a place, where only its spelling matters.
#[cycle(skim_skim_operands)]
fn skim(s: &[u8], c: Cursor) -> Option<Cursor>
    requires { c.at ≤ length s.now }
    ensures { MovedIs s.now result (spelling (read_formula (drop c.at s.now))) }
{
    match c.opening(s)? {
        Opening::Name(_, next) | Opening::Digit(_, next) => Some(next),
        Opening::Not(next) => skim(s, next)?.byte(s, b')'),
        Opening::Gate(_, next) => skim_operands(s, skim(s, next)?),
    }
}

// Past the operands of a gate after the first, of which there is at least one, and its closing bracket.
#[cycle(skim_skim_operands)]
fn skim_operands(s: &[u8], first: Cursor) -> Option<Cursor>
    ensures { (g : spec.Gate) (q : Read Formula) → MovedIs s.now (Some first) (spelling q) → MovedIs s.now result (spelling (gate_on g q)) }
{
    let second = first.byte(s, b' ')?;
    let mut past = skim(s, second)?;
    // Only a space tells that a further operand comes: nothing is counted.
    while let Some(next) = past.byte(s, b' ') {
        past = skim(s, next)?;
    }
    past.byte(s, b')')
}

// The formula at a place, of which the inputs' names are given. Past `left` brackets it is only skimmed, so that the stack
// holds no more tables than the deepest formula that is allowed needs.
#[cycle(nested_negation_gate)]
fn nested(s: &[u8], inputs: &[u64], c: Cursor, left: usize) -> Option<Part>
    requires { (c.at ≤ length s.now) × (left ≤ suc max_depth) }
    ensures { PartIs left s.now (map name_of inputs.now) (read_formula (drop c.at s.now)) result }
{
    if left == 0 {
        return Some(unread(skim(s, c)?));
    }
    match c.opening(s)? {
        Opening::Name(n, next) => Some(input(inputs, n, next)),
        Opening::Digit(b, next) => Some(constant(b, next)),
        Opening::Not(next) => negation(s, inputs, next, left - 1),
        Opening::Gate(g, next) => gate(s, inputs, g, next, left - 1),
    }
}

// The formula at a place, negated, and its closing bracket. Inlined, as `gate` is: the tables of the two then take the same
// place on the stack.
#[cycle(nested_negation_gate)]
#[inline(always)]
fn negation(s: &[u8], inputs: &[u64], c: Cursor, left: usize) -> Option<Part>
    requires { (c.at ≤ length s.now) × (left ≤ max_depth) }
    ensures { PartIs (suc left) s.now (map name_of inputs.now) (after (read_formula (drop c.at s.now)) (λ f u. close_not f u)) result }
{
    closed(s, negated(nested(s, inputs, c, left)?))
}

// The operands of a gate, of which there are at least two, and its closing bracket.
#[cycle(nested_negation_gate)]
#[inline(always)]
fn gate(s: &[u8], inputs: &[u64], g: Gate, c: Cursor, left: usize) -> Option<Part>
    requires { (c.at ≤ length s.now) × (left ≤ max_depth) }
    ensures { PartIs (suc left) s.now (map name_of inputs.now) (gate_on (gate_of g) (read_formula (drop c.at s.now))) result }
{
    let mut sum = nested(s, inputs, c, left)?;
    let mut next = sum.next.byte(s, b' ')?;
    // Only a space tells that a further operand comes. One call reads them all, so that the stack has one place for its answer.
    loop {
        sum = joined(g, sum, nested(s, inputs, next, left)?);
        match sum.next.byte(s, b' ') {
            Some(further) => next = further,
            None => return closed(s, sum),
        }
    }
}

// The formula at a place, of which the inputs' names are given.
pub fn formula(s: &[u8], inputs: &[u64], c: Cursor) -> Option<Part>
    requires { c.at ≤ length s.now }
    ensures { PartIs (suc max_depth) s.now (map name_of inputs.now) (read_formula (drop c.at s.now)) result }
{
    nested(s, inputs, c, limits::MAX_DEPTH + 1)
}
