// This file states the laws of mistakes.

ghost use Rattle.ptb_check.specs.Laws.{CheckLaws, CodeMistakeLaws};

use ptb_expr::spelling_laws;
use ptb_machine::{command_laws, effect_laws};

/// The mistake of a command is found by its code.
#[tactic(auto, using(crate::proofs::MistakeLaws::code_mistake_laws))]
pub(crate) fn code_mistake_laws()
    ensures { CodeMistakeLaws }
{
    spelling_laws();
    command_laws();
}

/// The command at which a run ends with a fault has no mistake in its text, or its mistake is among
/// those of its program. HOW? is among them for each jump to a written number that no statement has.
#[tactic(auto, using(crate::proofs::MistakeLaws::check_laws))]
pub fn check_laws()
    ensures { CheckLaws }
{
    spelling_laws();
    command_laws();
    effect_laws();
}
