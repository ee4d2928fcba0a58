// The lines of a design sheet: each line asked questions 2 to 5 with what is known so far. Rests on cursor for the items
// of a line, and on formula for the formulas and their tables.
#![tactic(auto)]

ghost use Rattle.std.specs.Prelude.{◌≡◌, List, map, ℕ, ◌≤◌, ◌<◌, length, drop};
ghost use Rattle.std.proofs.Math.Option.{Option};
ghost use Rattle.limits.specs.Limits.{max_inputs, max_bound, max_outputs};
ghost use Rattle.text.specs.Bytes.{eat, after, whole};
ghost use Rattle.names.specs.Name as names;
ghost use Rattle.names.specs.Pack.{name_of};
ghost use Rattle.names.specs.Names.{read_names};
ghost use Rattle.rows.specs.Words.{Rowwise};
ghost use Rattle.formula.specs.Value.{value, on_row};
ghost use Rattle.sheet.specs.Lines.{Output, read_in, read_bound, read_limit, read_out};
ghost use Rattle.sheet.specs.Examine.{Design, within, ask_in, ask_bound, ask_limit, ask_out, ask_end, ask_line, with_output, new_name};
ghost use Rattle.sheet.specs.Known.{Holds, Fresh, Fits, first_no, StepIs, LineIs, LimitIs, OutIs, place_of, PlacesAre, closes_at};

use cursor::{Cursor, NameList};
use refusal::Question;

// A whole truth table.
#[derive(Clone, Copy)]
pub struct Rows {
    pub words: [u64; limits::TABLE_WORDS],
}

// What is known of a sheet: the inputs' names, the places of the bound inputs among them, the limit, and the outputs'
// names and tables, each list with its count.
#[derive(Clone, Copy)]
pub struct Sheet {
    pub inputs: usize,
    pub names: [u64; limits::MAX_INPUTS],
    pub bounds: usize,
    pub bound: [usize; limits::MAX_BOUND],
    pub limit: usize,
    pub outputs: usize,
    pub outs: [u64; limits::MAX_OUTPUTS],
    pub tables: [Rows; limits::MAX_OUTPUTS],
}

// Which line is wanted.
#[derive(Clone, Copy, Debug, PartialEq, Eq)]
pub enum Place {
    Design,
    In,
    Bound,
    Limit,
    Out,
    Over,
}

// What a line comes to whose questions are all answered "yes": the next place, and what is known then.
#[derive(Clone, Copy)]
pub struct Step {
    pub place: Place,
    pub sheet: Sheet,
}

// What an `out` line says: its name, its formula's depth as far as it matters, whether the formula's names are inputs, and
// its table.
#[derive(Clone, Copy)]
struct OutLine {
    name: u64,
    depth: usize,
    known: bool,
    rows: [u64; limits::TABLE_WORDS],
}

// The names of a line that begins with head and is nothing besides.
pub fn names_line(l: &[u8], head: &[u8]) -> Option<NameList>
    ensures { LineIs (whole (after (eat head.now l.now) (λ _ s. read_names s))) result }
{
    let c = Cursor::start().text(l, head)?;
    let r = c.names(l)?;
    if r.next.at_end(l) { Some(r) } else { None }
}

// Whether no name stands twice.
fn distinct(ns: &[u64]) -> bool
    ensures { result ≡ names.distinct (map name_of ns.now) }
{
    for i in 0..ns.len() {
        if names::find(&ns[i + 1..], ns[i]).is_some() {
            return false;
        }
    }
    true
}

// The places of the names ns among the inputs, where all of them have one.
fn placed(ns: &[u64], inputs: &[u64]) -> Option<[usize; limits::MAX_BOUND]>
    requires { length ns.now ≤ max_bound }
    ensures { PlacesAre (map name_of ns.now) (map name_of inputs.now) result }
{
    let mut list = [0; limits::MAX_BOUND];
    for i in 0..ns.len() {
        list[i] = names::find(inputs, ns[i])?;
    }
    Some(list)
}

// Whether a count is 1 to high.
fn in_range(n: usize, high: usize) -> bool
    ensures { result ≡ within 1 high n }
{
    1 <= n && n <= high
}

// The first of questions 2 to 4 that a line of names is answered "no" to, or the names; high is the greatest count.
fn first_no(w: Option<NameList>, high: usize) -> Result<NameList, Question>
    requires { high ≤ max_inputs }
    ensures { result ≡ first_no high w }
{
    let l = w.ok_or(Question::Spelling)?;
    if !in_range(l.count, high) {
        return Err(Question::Ranges);
    }
    if !distinct(&l.names[..l.count]) {
        return Err(Question::NewNames);
    }
    Ok(l)
}

// The names of an `in` line.
pub fn asked_in(k: Sheet, w: Option<NameList>) -> Result<Step, Question>
    ensures { (d : Design) (x : Option (List names.Name)) → LineIs x w → Holds d k → Fresh d → StepIs (ask_in d x) result }
{
    let l = first_no(w, limits::MAX_INPUTS)?;
    let names = l.names;
    Ok(Step {
        place: Place::Bound,
        sheet: Sheet {
            inputs: l.count,
            names,
            ..k
        },
    })
}

// The `in` line.
fn ask_in(k: Sheet, l: &[u8]) -> Result<Step, Question>
    ensures { (d : Design) → Holds d k → Fresh d → StepIs (ask_in d (read_in l.now)) result }
{
    asked_in(k, names_line(l, b"(in"))
}

// The `bound` line.
fn ask_bound(k: Sheet, l: &[u8]) -> Result<Step, Question>
    requires { k.inputs ≤ max_inputs }
    ensures { (d : Design) → Holds d k → StepIs (ask_bound d (read_bound l.now)) result }
{
    let w = first_no(names_line(l, b"(bound"), limits::MAX_BOUND)?;
    let bound = placed(&w.names[..w.count], &k.names[..k.inputs]).ok_or(Question::InputNames)?;
    Ok(Step {
        place: Place::Limit,
        sheet: Sheet {
            bounds: w.count,
            bound,
            ..k
        },
    })
}

// The number of a line `(limit N)`.
pub fn limit_line(l: &[u8]) -> Option<usize>
    ensures { LimitIs (read_limit l.now) result }
{
    let c = Cursor::start().text(l, b"(limit ")?;
    let (n, e) = c.number(l, limits::MAX_DIGITS)?;
    if closes(l, e) { Some(n) } else { None }
}

// Whether the closing bracket stands at a place, and nothing after it.
fn closes(l: &[u8], c: Cursor) -> bool
    ensures { result ≡ closes_at (drop c.at l.now) }
{
    match c.byte(l, b')') {
        Some(e) => e.at_end(l),
        None => false,
    }
}

// The `limit` line.
fn ask_limit(k: Sheet, l: &[u8]) -> Result<Step, Question>
    ensures { (d : Design) → Holds d k → StepIs (ask_limit d (read_limit l.now)) result }
{
    let limit = limit_line(l).ok_or(Question::Spelling)?;
    if limits::MAX_LIMIT < limit {
        return Err(Question::Ranges);
    }
    Ok(Step {
        place: Place::Out,
        sheet: Sheet { limit, ..k },
    })
}

// The name and the formula of a line `(out NAME F)`, where the inputs are given.
fn out_line(l: &[u8], inputs: &[u64]) -> Option<OutLine>
    ensures { OutIs (map name_of inputs.now) (read_out l.now) result }
{
    let c = Cursor::start().text(l, b"(out ")?;
    let (name, e) = c.name(l)?;
    let f = e.byte(l, b' ')?;
    let p = formula::formula(l, inputs, f)?;
    if !closes(l, p.next) {
        return None;
    }
    let rows = p.rows;
    Some(OutLine {
        name,
        depth: p.depth,
        known: p.known,
        rows,
    })
}

// The sheet with one output more.
pub fn with_output(k: Sheet, n: u64, rows: [u64; limits::TABLE_WORDS]) -> Sheet
    requires { k.outputs < max_outputs }
    ensures { (d : Design) (o : Output) → Holds d k → name_of n ≡ o.name → Rowwise (λ (i : ℕ). value (on_row d.inputs i) o.formula) rows → Holds (with_output d o) result }
{
    let mut next = k;
    next.outs[k.outputs] = n;
    next.tables[k.outputs] = Rows { words: rows };
    next.outputs = k.outputs + 1;
    next
}

// Whether the output name n is new.
pub fn is_new(k: Sheet, n: u64) -> bool
    requires { (k.inputs ≤ max_inputs) × (k.outputs ≤ max_outputs) }
    ensures { (d : Design) → Holds d k → result ≡ new_name d (name_of n) }
{
    names::find(&k.names[..k.inputs], n).is_none() && names::find(&k.outs[..k.outputs], n).is_none()
}

// An `out` line.
fn ask_out(k: Sheet, l: &[u8]) -> Result<Step, Question>
    requires { (k.inputs ≤ max_inputs) × (k.outputs ≤ max_outputs) }
    ensures { (d : Design) → Holds d k → StepIs (ask_out d (read_out l.now)) result }
{
    let w = out_line(l, &k.names[..k.inputs]).ok_or(Question::Spelling)?;
    if limits::MAX_OUTPUTS <= k.outputs || limits::MAX_DEPTH < w.depth {
        return Err(Question::Ranges);
    }
    if !is_new(k, w.name) {
        return Err(Question::NewNames);
    }
    if !w.known {
        return Err(Question::InputNames);
    }
    Ok(Step {
        place: Place::Out,
        sheet: with_output(k, w.name, w.rows),
    })
}

// The line `(end)`.
fn ask_end(k: Sheet) -> Result<Step, Question>
    ensures { (d : Design) → Holds d k → StepIs (ask_end d) result }
{
    if k.outputs < 1 {
        return Err(Question::Ranges);
    }
    Ok(Step {
        place: Place::Over,
        sheet: k,
    })
}

// One line, by the place that it stands at.
pub fn ask_line(p: Place, k: Sheet, l: &[u8]) -> Result<Step, Question>
    requires { (k.inputs ≤ max_inputs) × (k.outputs ≤ max_outputs) }
    ensures { (d : Design) → Holds d k → Fits (place_of p) d → StepIs (ask_line (place_of p) d l.now) result }
{
    match p {
        Place::Design => {
            if text::equal(l, b"(design 1)") {
                Ok(Step {
                    place: Place::In,
                    sheet: k,
                })
            } else {
                Err(Question::Spelling)
            }
        }
        Place::In => ask_in(k, l),
        Place::Bound => ask_bound(k, l),
        Place::Limit => ask_limit(k, l),
        Place::Out => {
            if text::equal(l, b"(end)") {
                ask_end(k)
            } else {
                ask_out(k, l)
            }
        }
        Place::Over => Err(Question::Spelling),
    }
}
