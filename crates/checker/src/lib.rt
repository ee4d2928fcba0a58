// Check: a design and a network sheet in, "same", "differs" or a refusal out. Rests on design, netsheet and classes for what the
// sheets say, and on comparing for the comparison.
#![tactic(auto)]

ghost use Rattle.std.specs.Prelude.{◌≡◌, ◌≤◌, length};
ghost use Rattle.limits.specs.Limits.{max_cells};
ghost use Rattle.sheet.specs.Examine as sheets;
ghost use Rattle.sheet.specs.Examine.{Design};
ghost use Rattle.design.specs.Answer.{ExaminedIs, Right, Examination};
ghost use Rattle.network.specs.Network.{Network};
ghost use Rattle.network.specs.Numbers.{numbers_of};
ghost use Rattle.network.specs.Check as spec;
ghost use Rattle.checker.specs.Answer.{checked_of};
ghost use Rattle.checker.specs.Beside.{BesideIs};
ghost use Rattle.checker.specs.Limits.{Small, LimitsAre, Judged};

use classes::Shape;
use comparing::Comparison;
use netsheet::NetworkSheet;
use refusal::{Question, Refusal};
use sheet::Sheet;

// What is compared: the design, the places where the network's tables stand in its sheet, and the shape of the design's rows.
#[derive(Clone, Copy)]
pub struct Beside {
    pub sheet: Sheet,
    pub network: NetworkSheet,
    pub shape: Shape,
}

// How many numbers below u are in a mask.
pub fn count(mask: u8, u: usize) -> usize
    requires { u ≤ max_cells }
    ensures { result ≡ length (numbers_of u mask) }
{
    (0..u).filter(|i| bits::has(mask as u64, *i as u32)).count()
}

// Question 11: the first line that offends, where one does.
fn offending(
    limit: usize,
    luts: usize,
    outputs: usize,
    reads: [u8; limits::MAX_OUTPUTS],
    widths: [usize; limits::MAX_OUTPUTS],
) -> Option<usize>
    requires { Small limit luts outputs }
    ensures { (d : Design) (w : Network) → LimitsAre d w limit luts outputs reads widths → Judged d w result }
{
    if limit < luts {
        return Some(limit + limits::FIRST_LUT);
    }
    for o in 0..outputs {
        if widths[o] < count(reads[o], luts) {
            return Some(luts + limits::FIRST_LUT + o);
        }
    }
    None
}

// Questions 10 and 11, after what the examination of a design answered.
pub fn examine_pair(e: Result<Sheet, Refusal>, network: &[u8]) -> Result<Beside, Refusal>
    requires { Examination e }
    ensures { (x : sheets.Examined) → ExaminedIs x e → Right x → BesideIs network.now (spec.examine_pair x network.now) result }
{
    let sheet = e?;
    let network = netsheet::read_network(network, sheet).map_err(|line| Refusal {
        question: Question::NetworkSpelling,
        line,
    })?;
    let c = classes::classes_of(sheet);
    if let Some(line) = offending(
        sheet.limit,
        network.luts,
        sheet.outputs,
        network.reads,
        c.widths,
    ) {
        return Err(Refusal {
            question: Question::NetworkLimits,
            line,
        });
    }
    Ok(Beside {
        sheet,
        network,
        shape: c.shape,
    })
}

// Check, after what the examination of a design answered.
pub fn check_of(e: Result<Sheet, Refusal>, network: &[u8]) -> Result<Comparison, Refusal>
    requires { Examination e }
    ensures { (x : sheets.Examined) → ExaminedIs x e → Right x → checked_of result ≡ spec.check_of x network.now }
{
    let b = examine_pair(e, network)?;
    Ok(comparing::compare(network, b.sheet, b.network, b.shape))
}

// Check on a design sheet and a network sheet.
pub fn check(sheet: &[u8], network: &[u8]) -> Result<Comparison, Refusal>
    ensures { checked_of result ≡ spec.check sheet.now network.now }
{
    check_of(design::examine(sheet), network)
}
