// This file states how the parts of a command and the commands of a statement follow one another.

ghost use Rattle.ptb_command.specs.CommandLaws.{CommandLaws};

use ptb_expr::spelling_laws;
use ptb_text::finding_laws;

/// The parts of a command and the commands of a statement are read one after the other, and each
/// command has a byte place.
#[tactic(auto, using(crate::proofs::CommandLaws::command_laws))]
pub fn command_laws()
    ensures { CommandLaws }
{
    finding_laws();
    spelling_laws();
}
