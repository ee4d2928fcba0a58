// The PLA text: question 12, line by line. A cube has as many bytes as any other, so of the cubes only the place of the first
// and their number are kept. Rests on cubes for a cube's line, on cursor for the items of the other lines, and on sheet for
// lines of names.
#![tactic(auto)]

ghost use Rattle.std.specs.Prelude.{[], ◌∷◌, ◌+◌, ◌≤◌, ◌<◌, length, drop};
ghost use Rattle.limits.specs.Limits.{max_pla, max_pla_digits};
ghost use Rattle.text.specs.Bytes.{eat, after, whole, space};
ghost use Rattle.text.specs.Line.{lines, ends_line};
ghost use Rattle.text.specs.Number.{read_number_of};
ghost use Rattle.names.specs.Name.{read_name};
ghost use Rattle.cursor.specs.Item.{NameIs, NamesAre};
ghost use Rattle.sheet.specs.Known.{LineIs};
ghost use Rattle.platext.specs.Lines.{first_cube, names_of, read_named};
ghost use Rattle.platext.specs.Text as spec;
ghost use Rattle.platext.specs.Text.{Head, read_pla};
ghost use Rattle.platext.specs.Reading.{NextIs, CountIs, CountLineIs, NamedLineIs, HeadIs, Fits, CubesAre, LastIs, TextIs};

use cursor::{Cursor, NameList};

// The number of each line.
pub const INPUTS_LINE: usize = 1;

pub const OUTPUTS_LINE: usize = 2;

pub const INPUT_NAMES_LINE: usize = 3;

pub const OUTPUT_NAMES_LINE: usize = 4;

const CUBES_LINE: usize = 5;

pub const FIRST_CUBE: usize = 6;

// The lines before the cubes: what they say, and where the next line starts.
#[derive(Clone, Copy)]
struct Header {
    inputs: NameList,
    outputs: NameList,
    cubes: usize,
    next: usize,
}

// What a PLA text says: the names, where the first cube stands, and how many there are.
#[derive(Clone, Copy)]
pub struct PlaText {
    pub inputs: NameList,
    pub outputs: NameList,
    pub first: usize,
    pub cubes: usize,
}

// The end of the line from a place on, where 0x0A ends it.
fn next_line(s: &[u8], at: usize) -> Option<usize>
    ensures { NextIs s.now at result }
{
    if s.len() <= at {
        return None;
    }
    let e = text::line_end(s, at);
    if e < s.len() { Some(e) } else { None }
}

// The number of a line that begins with head.
fn count_of(l: &[u8], head: &[u8]) -> Option<usize>
    ensures { CountIs (whole (after (eat head.now l.now) (λ _ s. read_number_of max_pla_digits s))) result }
{
    let c = Cursor::start().text(l, head)?;
    let (n, e) = c.number(l, limits::MAX_PLA_DIGITS)?;
    if e.at_end(l) { Some(n) } else { None }
}

// The line from a place on, which begins with head and has a number of at least low: the number, and where the next line starts.
fn count_line(s: &[u8], at: usize, head: &[u8], low: usize) -> Option<(usize, usize)>
    ensures { CountLineIs s.now at head.now low result }
{
    let e = next_line(s, at)?;
    let n = count_of(&s[at..e], head)?;
    if n < low { None } else { Some((n, e + 1)) }
}

// A name after a space.
fn spaced_name(l: &[u8], c: Cursor) -> Option<(u64, Cursor)>
    ensures { NameIs l.now result (after (eat (space ∷ []) (drop c.at l.now)) (λ _ t. read_name t)) }
{
    c.byte(l, b' ')?.name(l)
}

// So many names, each after a space: the first ten are kept.
fn names_of(l: &[u8], start: Cursor, n: usize) -> Option<NameList>
    requires { start.at ≤ length l.now }
    ensures { NamesAre l.now result (names_of n (drop start.at l.now)) }
{
    let mut c = start;
    let mut names = [0u64; limits::MAX_INPUTS];
    for count in 0..n {
        let (v, next) = spaced_name(l, c)?;
        cursor::keep(&mut names, count, v);
        c = next;
    }
    Some(NameList {
        next: c,
        count: n,
        names,
    })
}

// The names of a line that begins with head and has so many names.
fn names_in(l: &[u8], head: &[u8], n: usize) -> Option<NameList>
    ensures { LineIs (read_named head.now n l.now) result }
{
    let c = Cursor::start().text(l, head)?;
    let list = names_of(l, c, n)?;
    if list.next.at_end(l) {
        Some(list)
    } else {
        None
    }
}

// The line from a place on, which begins with head and has so many names: the names, and where the next line starts.
fn named_line(s: &[u8], at: usize, head: &[u8], n: usize) -> Option<(NameList, usize)>
    ensures { NamedLineIs s.now at head.now n result }
{
    let e = next_line(s, at)?;
    let list = names_in(&s[at..e], head, n)?;
    Some((list, e + 1))
}

// The lines before the cubes, or the first bad one.
fn read_head(s: &[u8]) -> Result<Header, usize>
    ensures { HeadIs s.now result }
{
    let (i, at) = count_line(s, 0, b".i ", 1).ok_or(INPUTS_LINE)?;
    let (o, at) = count_line(s, at, b".o ", 1).ok_or(OUTPUTS_LINE)?;
    let (inputs, at) = named_line(s, at, b".ilb", i).ok_or(INPUT_NAMES_LINE)?;
    let (outputs, at) = named_line(s, at, b".ob", o).ok_or(OUTPUT_NAMES_LINE)?;
    let (cubes, next) = count_line(s, at, b".p ", 0).ok_or(CUBES_LINE)?;
    Ok(Header {
        inputs,
        outputs,
        cubes,
        next,
    })
}

// The last line, which has the number n and ends at e, after so many cubes where the text has to have p: the bad line, if there is one.
fn at_last(s: &[u8], e: usize, n: usize, cubes: usize, p: usize) -> Result<(), usize>
    requires { (e < length s.now) × (n ≤ max_pla + first_cube) }
    ensures { LastIs s.now e n cubes p result }
{
    if cubes != p {
        return Err(n);
    }
    if e + 1 < s.len() {
        return Err(n + 1);
    }
    Ok(())
}

// The cubes from a place on, for i inputs and o outputs, p of them, and the last line: the first bad line, if there is one.
fn read_cubes(s: &[u8], at: usize, i: usize, o: usize, p: usize) -> Result<(), usize>
    requires { (at ≤ length s.now) × (length s.now ≤ max_pla) }
    ensures { (h : Head) → Fits i o p h → CubesAre s.now at h (spec.read_cubes (ends_line s.now) h [] first_cube (lines (drop at s.now))) result }
{
    let mut start = at;
    let mut cubes = 0;
    // How many lines come is not known before the line `.e`.
    loop {
        let e = next_line(s, start).ok_or(FIRST_CUBE + cubes)?;
        if text::equal(&s[start..e], b".e") {
            return at_last(s, e, FIRST_CUBE + cubes, cubes, p);
        }
        if !cubes::is_cube(&s[start..e], i, o) {
            return Err(FIRST_CUBE + cubes);
        }
        start = e + 1;
        cubes += 1;
    }
}

// Question 12: what the text says, or its first bad line.
pub fn read_text(s: &[u8]) -> Result<PlaText, usize>
    ensures { TextIs s.now (read_pla s.now) result }
{
    if s.is_empty() || limits::MAX_PLA < s.len() {
        return Err(0);
    }
    let h = read_head(s)?;
    read_cubes(s, h.next, h.inputs.count, h.outputs.count, h.cubes)?;
    Ok(PlaText {
        inputs: h.inputs,
        outputs: h.outputs,
        first: h.next,
        cubes: h.cubes,
    })
}
