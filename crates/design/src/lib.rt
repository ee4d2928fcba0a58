// The design sheet as a whole: the examination by questions 1 to 5, line by line, and Table. Rests on sheet for what a
// line is asked, and on rows for tables.
#![tactic(auto)]

ghost use Rattle.std.specs.Prelude.{◌≡◌};
ghost use Rattle.sheet.specs.Examine as spec;
ghost use Rattle.sheet.specs.Known.{Holds, place_of};
ghost use Rattle.design.specs.Tabulate.{table_of, tabulate};
ghost use Rattle.design.specs.Answer.{ExaminedIs, Examination, table_answer};

use refusal::{Question, Refusal};
use sheet::{Place, Rows, Sheet};

// Whether a byte may stand in a sheet.
fn plain(b: u8) -> bool
    ensures { result ≡ spec.plain b }
{
    match b {
        0x20..=0x7E => true,
        0x0A => true,
        _ => false,
    }
}

// Question 1.
pub fn sized(s: &[u8]) -> bool
    ensures { result ≡ spec.sized s.now }
{
    let Some((last, rest)) = s.split_last() else {
        return false;
    };
    s.len() <= limits::MAX_SHEET && *last == b'\n' && rest.iter().all(|b| plain(*b))
}

// A sheet of which nothing is known.
pub fn blank() -> Sheet
    ensures { Holds spec.nothing result }
{
    Sheet {
        inputs: 0,
        names: [0; limits::MAX_INPUTS],
        bounds: 0,
        bound: [0; limits::MAX_BOUND],
        limit: 0,
        outputs: 0,
        outs: [0; limits::MAX_OUTPUTS],
        tables: [Rows {
            words: [0; limits::TABLE_WORDS],
        }; limits::MAX_OUTPUTS],
    }
}

// The answer after the last line, where n is the number of the line after it.
fn ended(p: Place, n: usize, k: Sheet) -> Result<Sheet, Refusal>
    ensures { (d : spec.Design) → Holds d k → ExaminedIs (spec.at_end (place_of p) d n) result }
{
    match p {
        Place::Over => Ok(k),
        _ => Err(Refusal {
            question: Question::Spelling,
            line: n,
        }),
    }
}

// Questions 1 to 5.
pub fn examine(s: &[u8]) -> Result<Sheet, Refusal>
    ensures examined_is { ExaminedIs (spec.examine s.now) result }
    ensures examination { Examination result }
{
    if !sized(s) {
        return Err(Refusal {
            question: Question::SheetBytes,
            line: 0,
        });
    }
    let mut k = blank();
    let mut p = Place::Design;
    let mut at = 0;
    let mut n = 1;
    // This goes from line to line, and counts no index up one by one.
    while at < s.len() {
        let e = text::line_end(s, at);
        let step = sheet::ask_line(p, k, &s[at..e]).map_err(|question| Refusal {
            question,
            line: n,
        })?;
        p = step.place;
        k = step.sheet;
        at = e + 1;
        n += 1;
    }
    ended(p, n, k)
}

// Table on what an examination answered: the digits of an output, in row order from the buffer's start, and how many they are.
// Where a question is answered "no" the buffer is left as it was.
pub fn table_of(
    e: Result<Sheet, Refusal>,
    output: usize,
    buffer: &mut [u8],
) -> Result<usize, Refusal>
    requires { Examination e }
    ensures { (x : spec.Examined) → ExaminedIs x e → record { answer = table_answer result; buffer = buffer.new } ≡ table_of x output buffer.old }
{
    let k = e?;
    if k.outputs <= output {
        return Err(Refusal {
            question: Question::OutputNumber,
            line: 0,
        });
    }
    let n = bits::power(k.inputs);
    if buffer.len() < n {
        return Err(Refusal {
            question: Question::BufferLength,
            line: 0,
        });
    }
    rows::put_digits(buffer, k.tables[output].words, n);
    Ok(n)
}

// Table on a design sheet.
pub fn table(s: &[u8], output: usize, buffer: &mut [u8]) -> Result<usize, Refusal>
    ensures { record { answer = table_answer result; buffer = buffer.new } ≡ tabulate s.now output buffer.old }
{
    table_of(examine(s), output, buffer)
}
