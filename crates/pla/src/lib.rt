// Table, Map, the cause of a refusal by 8, and Check on a panel that arrives as a PLA text and a second text: the examination of both, and then what a sheet's
// examination is followed by. Rests on panel for the examination, on design, mapper and checker for the operations, and on
// demands for what is proved of them.
#![tactic(auto)]

ghost use Rattle.std.specs.Prelude.{◌≡◌};
ghost use Rattle.design.specs.Tabulate.{table_of};
ghost use Rattle.design.specs.Answer.{table_answer};
ghost use Rattle.mapper.specs.Map.{OutcomeOf};
ghost use Rattle.mapper.specs.Cause.{CauseOf};
ghost use Rattle.mapper.specs.Answer.{map_answer, cause_answer};
ghost use Rattle.network.specs.Check.{check_of};
ghost use Rattle.checker.specs.Answer.{checked_of};
ghost use Rattle.panel.specs.Examine.{examine};

use comparing::Comparison;
use mapper::Mapped;
use refusal::Refusal;

// Table on a PLA panel.
pub fn table(pla: &[u8], board: &[u8], output: usize, buffer: &mut [u8]) -> Result<usize, Refusal>
    ensures { record { answer = table_answer result; buffer = buffer.new }
        ≡ table_of (examine pla.now board.now) output buffer.old }
{
    design::table_of(panel::examine(pla, board), output, buffer)
}

// Map on a PLA panel.
pub fn map(pla: &[u8], board: &[u8], buffer: &mut [u8]) -> Result<Mapped, Refusal>
    ensures { OutcomeOf (examine pla.now board.now) buffer.old (map_answer result) buffer.new }
{
    mapper::map_of(panel::examine(pla, board), buffer)
}

// The cause of a refusal by 8 for a PLA panel.
pub fn cause(pla: &[u8], board: &[u8]) -> Option<usize>
    ensures { CauseOf (examine pla.now board.now) (cause_answer result) }
{
    mapper::cause_of(panel::examine(pla, board))
}

// Check on a PLA panel and a network sheet.
pub fn check(pla: &[u8], board: &[u8], network: &[u8]) -> Result<Comparison, Refusal>
    ensures { checked_of result ≡ check_of (examine pla.now board.now) network.now }
{
    checker::check_of(panel::examine(pla, board), network)
}
