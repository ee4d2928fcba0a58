// Map: what an examination answers to the first network sheet in byte order of all that are permitted, those with the fewest
// shared tables, or a refusal; and the cause of a refusal by 8. Rests on design for the examination of a sheet, on classes for
// columns, on first for the search, on unserved for sets of outputs and on selection for designs with some of their outputs, on
// lineorder for the order of network sheets, and on writer for the network sheet.
#![tactic(auto)]

ghost use Rattle.std.specs.Prelude.{◌≡◌, ℕ, ◌≤◌, ◌<◌, ◌%◌, get_or};
ghost use Rattle.limits.specs.Limits.{max_bound, max_outputs, max_vertices};
ghost use Rattle.sheet.specs.Examine as spec;
ghost use Rattle.sheet.specs.Known.{Holds};
ghost use Rattle.classes.specs.Proper.{Proper};
ghost use Rattle.design.specs.Answer.{ExaminedIs, Right, Examination};
ghost use Rattle.mapper.specs.Map.{OutcomeOf, Outcome};
ghost use Rattle.mapper.specs.Cause.{CauseOf, CauseIs};
ghost use Rattle.mapper.specs.Answer.{map_answer, cause_answer};
ghost use Rattle.mapper.specs.SearchInput.{LabelsAre, BudgetsAre};
ghost use Rattle.mapper.specs.Posed.{Designed, Poses};

use classes::{LocalClass, Locals, Shape};
use refusal::{Question, Refusal};
use sheet::Sheet;

// How many cells the network has, and of how many bytes its sheet is.
#[derive(Clone, Copy, Debug, PartialEq, Eq)]
pub struct Mapped {
    pub cells: usize,
    pub length: usize,
}

// The label of a class: a class number is below MAX_VERTICES, and so is what a label may be.
fn label_of(c: LocalClass) -> u8
    ensures { result ≡ c.0 % max_vertices }
{
    (c.0 % limits::MAX_VERTICES) as u8
}

// The class labels of the outputs as the search takes them, which knows plain numbers only: this is the one step from local
// class numbers to labels.
fn labels(ls: [Locals; limits::MAX_OUTPUTS]) -> [u8; limits::LABELS]
    ensures { LabelsAre ls result }
{
    let mut cl = [0u8; limits::LABELS];
    for i in 0..limits::MAX_OUTPUTS * limits::MAX_VERTICES {
        cl[i] = label_of(ls[i / limits::MAX_VERTICES].classes[i % limits::MAX_VERTICES]);
    }
    cl
}

// The budgets of the outputs as the search takes them.
fn budgets(ws: [usize; limits::MAX_OUTPUTS], outputs: usize) -> [u8; limits::SEARCH_OUTPUTS]
    requires { (outputs ≤ max_outputs) × ((o : ℕ) → o < outputs → get_or ws o 0 ≤ max_bound) }
    ensures { BudgetsAre ws outputs result }
{
    let mut r = [0u8; limits::SEARCH_OUTPUTS];
    for o in 0..outputs {
        r[o] = ws[o] as u8;
    }
    r
}

// What a design asks of the search: the shape of its rows, and the class labels and budgets of its outputs.
#[derive(Drop)]
struct Posed {
    shape: Shape,
    labels: [u8; limits::LABELS],
    budgets: [u8; limits::SEARCH_OUTPUTS],
}

// What the design asks, where it has few enough global classes to be asked about.
fn pose(k: Sheet) -> Option<Posed>
    requires { Designed k }
    ensures { (d : spec.Design) → Holds d k → Proper d → Poses d k result }
{
    let c = classes::classes_of(k);
    if limits::MAX_CLASSES < c.globals.count {
        return None;
    }
    Some(Posed {
        shape: c.shape,
        labels: labels(c.locals),
        budgets: budgets(c.widths, k.outputs),
    })
}

// The first network sheet in byte order of all that are permitted for what an examination answered, from the buffer's start.
// Where a question is answered "no" the buffer is left as it was.
pub fn map_of(e: Result<Sheet, Refusal>, buffer: &mut [u8]) -> Result<Mapped, Refusal>
    requires { Examination e }
    ensures { (x : spec.Examined) → ExaminedIs x e → Right x → OutcomeOf x buffer.old (map_answer result) buffer.new }
{
    let k = e?;
    let Some(p) = pose(k) else {
        return Err(Refusal {
            question: Question::FewClasses,
            line: 0,
        });
    };
    let found = first::first(
        &p.labels,
        p.budgets,
        p.shape.vertices,
        k.outputs,
        k.limit as u8,
    );
    let Some(core) = found else {
        return Err(Refusal {
            question: Question::EnoughCells,
            line: 0,
        });
    };
    let cells = core.count as usize;
    let n = writer::put_network(&mut [], k, p.shape, cells, core.rows, core.codes);
    if buffer.len() < n {
        return Err(Refusal {
            question: Question::BufferLength,
            line: 0,
        });
    }
    let length = writer::put_network(buffer, k, p.shape, cells, core.rows, core.codes);
    Ok(Mapped { cells, length })
}

// Map on a design sheet.
pub fn map(sheet: &[u8], buffer: &mut [u8]) -> Result<Mapped, Refusal>
    ensures { Outcome sheet.now buffer.old (map_answer result) buffer.new }
{
    map_of(design::examine(sheet), buffer)
}

// The cause of a refusal by 8 for what an examination answered: none where 8 does not refuse, or the fewest outputs that it
// refuses on their own, output o being among them where digit o of the number is 1.
pub fn cause_of(e: Result<Sheet, Refusal>) -> Option<usize>
    requires { Examination e }
    ensures { (x : spec.Examined) → ExaminedIs x e → Right x → CauseOf x (cause_answer result) }
{
    let k = e.ok()?;
    let p = pose(k)?;
    let s = unserved::unserved(
        &p.labels,
        p.budgets,
        p.shape.vertices,
        k.outputs,
        k.limit as u8,
    )?;
    Some(s as usize)
}

// The cause for a design sheet.
pub fn cause(sheet: &[u8]) -> Option<usize>
    ensures { CauseIs sheet.now (cause_answer result) }
{
    cause_of(design::examine(sheet))
}
