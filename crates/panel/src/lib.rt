// A panel that arrives as two texts, a PLA text and a second one with the `bound` and the `limit` line: its examination, which
// answers as that of a sheet does, by 12 to 14 on the first text, 1 and 2 on the second, and 3 to 5 on both; and the tables that
// the cubes say. Rests on platext for the PLA text, on cubes for the rows of a cube, and on sheet and design for what a sheet is
// asked.
#![tactic(auto)]

ghost use Rattle.std.specs.Prelude.{◌≡◌, List, ℕ, ◌≤◌, length};
ghost use Rattle.std.proofs.Math.Option.{some};
ghost use Rattle.limits.specs.Limits.{max_outputs};
ghost use Rattle.text.specs.Line.{lines};
ghost use Rattle.refusal.specs.Number.{Refuses};
ghost use Rattle.names.specs.Name.{Name};
ghost use Rattle.sheet.specs.Lines.{read_bound, read_limit};
ghost use Rattle.sheet.specs.Examine.{Design};
ghost use Rattle.sheet.specs.Examine as sheets;
ghost use Rattle.sheet.specs.Known.{Holds};
ghost use Rattle.design.specs.Answer.{ExaminedIs, Examination};
ghost use Rattle.cubes.specs.Cube.{Cube};
ghost use Rattle.platext.specs.Lines.{first_cube};
ghost use Rattle.platext.specs.Text.{Pla};
ghost use Rattle.platext.specs.Reading.{Stand, ReadAs};
ghost use Rattle.platext.specs.Writable.{Writable};
ghost use Rattle.panel.specs.Questions.{zeros_and_ones, other_mark};
ghost use Rattle.panel.specs.Board.{read_board};
ghost use Rattle.panel.specs.Examine as spec;
ghost use Rattle.panel.specs.Held.{CubesStand, OtherIs, Added, Covering, Readable, BoardIs, Held, Ready, SomeReady, AskedIs};

use cursor::NameList;
use platext::PlaText;
use refusal::{Question, Refusal};
use sheet::{Place, Rows, Sheet};

// The number of each line of the second text.
const BOUND_LINE: usize = 1;

const LIMIT_LINE: usize = 2;

// Where the lines of the second text end.
#[derive(Clone, Copy)]
struct BoardLines {
    bound: usize,
    limit: usize,
}

// Whether every byte is 0 or 1.
fn zeros_and_ones(m: &[u8]) -> bool
    ensures { result ≡ zeros_and_ones m.now }
{
    m.iter().all(|b| matches!(*b, b'0' | b'1'))
}

// Question 14: the line of the first cube with another byte in its output part, if there is one.
fn other_mark(s: &[u8], first: usize, cubes: usize, i: usize, o: usize) -> Option<usize>
    requires { CubesStand s.now i o first cubes }
    ensures { (cs : List Cube) (e : ℕ) → Stand s.now i o first cs e → length cs ≡ cubes → OtherIs result (other_mark first_cube cs) }
{
    let mut at = first;
    for k in 0..cubes {
        let m = at + i + 1;
        let e = m + o;
        if !zeros_and_ones(&s[m..e]) {
            return Some(platext::FIRST_CUBE + k);
        }
        at = e + 1;
    }
    None
}

// Adds the rows of one cube to the table of each output that has a 1 in the cube's output part.
fn add(tables: &mut [Rows; limits::MAX_OUTPUTS], rows: [u64; limits::TABLE_WORDS], marks: &[u8])
    requires { length marks.now ≤ max_outputs }
    ensures { Added tables.old rows marks.now tables.new }
{
    for o in 0..marks.len() {
        if marks[o] == b'1' {
            tables[o] = Rows {
                words: rows::either(tables[o].words, rows),
            };
        }
    }
}

// The tables of the outputs: on each row whether some cube with a 1 for the output covers it.
fn tables(s: &[u8], t: PlaText) -> [Rows; limits::MAX_OUTPUTS]
    requires { Readable s.now t }
    ensures { (x : Pla) → ReadAs s.now x t → Covering x result }
{
    let mut tables = [Rows {
        words: [0; limits::TABLE_WORDS],
    }; limits::MAX_OUTPUTS];
    let mut at = t.first;
    for _cube in 0..t.cubes {
        let m = at + t.inputs.count;
        let e = m + 1 + t.outputs.count;
        let rows = cubes::covered(&s[at..m]);
        add(&mut tables, rows, &s[m + 1..e]);
        at = e + 1;
    }
    tables
}

// A "no" to question 2 at a line of the second text.
fn misspelled(line: usize) -> Refusal
    ensures { Refuses 2 line result }
{
    Refusal {
        question: Question::Spelling,
        line,
    }
}

// Questions 1 and 2 on the second text.
fn read_board(b: &[u8]) -> Result<BoardLines, Refusal>
    ensures { BoardIs b.now (sheets.sized b.now) (read_board (lines b.now)) result }
{
    if !design::sized(b) {
        return Err(Refusal {
            question: Question::SheetBytes,
            line: 0,
        });
    }
    let bound = text::line_end(b, 0);
    if sheet::names_line(&b[..bound], b"(bound").is_none() {
        return Err(misspelled(BOUND_LINE));
    }
    if b.len() <= bound + 1 {
        return Err(misspelled(LIMIT_LINE));
    }
    let limit = text::line_end(b, bound + 1);
    if sheet::limit_line(&b[bound + 1..limit]).is_none() {
        return Err(misspelled(LIMIT_LINE));
    }
    if limit + 1 < b.len() {
        return Err(misspelled(LIMIT_LINE + 1));
    }
    Ok(BoardLines { bound, limit })
}

// Question 4 on the outputs' names, and the sheet with the outputs and their tables.
fn ask_outputs(
    k: Sheet,
    outputs: NameList,
    tables: [Rows; limits::MAX_OUTPUTS],
) -> Result<Sheet, Refusal>
    requires { SomeReady k outputs.count outputs.names tables }
    ensures { (x : Pla) (d : Design) → Ready x d k outputs.count outputs.names tables → AskedIs (spec.ask_outputs d (spec.outputs_of x)) result }
{
    let mut sheet = k;
    for o in 0..outputs.count {
        if !sheet::is_new(sheet, outputs.names[o]) {
            return Err(Refusal {
                question: Question::NewNames,
                line: platext::OUTPUT_NAMES_LINE,
            });
        }
        sheet = sheet::with_output(sheet, outputs.names[o], tables[o].words);
    }
    Ok(sheet)
}

// Questions 3 and 4 on the names of the PLA text, and the sheet with its inputs and outputs.
fn ask_names(s: &[u8], t: PlaText) -> Result<Sheet, Refusal>
    requires { Readable s.now t }
    ensures { (x : Pla) → ReadAs s.now x t → Writable x → AskedIs (spec.ask_names x) result }
{
    let inputs = sheet::asked_in(design::blank(), Some(t.inputs)).map_err(|question| Refusal {
        question,
        line: platext::INPUT_NAMES_LINE,
    })?;
    ask_outputs(inputs.sheet, t.outputs, tables(s, t))
}

// Questions 3 to 5 on the lines of the second text.
fn ask_board(k: Sheet, bound: &[u8], limit: &[u8]) -> Result<Sheet, Refusal>
    requires { Held k }
    ensures { (d : Design) (bs : List Name) (n : ℕ) → Holds d k → read_bound bound.now ≡ some bs
        → read_limit limit.now ≡ some n → ExaminedIs (spec.ask_board bs n d) result }
{
    let a = sheet::ask_line(Place::Bound, k, bound).map_err(|question| Refusal {
        question,
        line: BOUND_LINE,
    })?;
    let b = sheet::ask_line(Place::Limit, a.sheet, limit).map_err(|question| Refusal {
        question,
        line: LIMIT_LINE,
    })?;
    Ok(b.sheet)
}

// The examination of a PLA text and a second text.
pub fn examine(pla: &[u8], board: &[u8]) -> Result<Sheet, Refusal>
    ensures examined_is { ExaminedIs (spec.examine pla.now board.now) result }
    ensures examination { Examination result }
{
    let t = platext::read_text(pla).map_err(|line| Refusal {
        question: Question::PlaSpelling,
        line,
    })?;
    if limits::MAX_INPUTS < t.inputs.count {
        return Err(Refusal {
            question: Question::PlaRanges,
            line: platext::INPUTS_LINE,
        });
    }
    if limits::MAX_OUTPUTS < t.outputs.count {
        return Err(Refusal {
            question: Question::PlaRanges,
            line: platext::OUTPUTS_LINE,
        });
    }
    if let Some(line) = other_mark(pla, t.first, t.cubes, t.inputs.count, t.outputs.count) {
        return Err(Refusal {
            question: Question::PlaMarks,
            line,
        });
    }
    let b = read_board(board)?;
    let k = ask_names(pla, t)?;
    ask_board(k, &board[..b.bound], &board[b.bound + 1..b.limit])
}
