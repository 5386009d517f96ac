// This file states that the laws of expressions hold.

ghost use Rattle.ptb_expr.specs.Laws.{ValueLaws, CodeLaws};
ghost use Rattle.ptb_expr.specs.Spells.{SpellingLaws};
ghost use Rattle.ptb_expr.specs.Marks.{MarkLaws};

use ptb_text::finding_laws;

/// What is read of an expression or a variable is spelled so by the grammar, in one way, and ends
/// ahead within the text.
pub fn spelling_laws()
    ensures { SpellingLaws }
{
    finding_laws();
}

/// The marks of what is read, and of its faults, lie within the text.
pub fn mark_laws()
    ensures { MarkLaws }
{
    finding_laws();
}

/// Evaluating a tree takes answers one by one, at most one for each of its RNDs.
#[tactic(auto, using(crate::proofs::ValueReads::value_laws))]
pub fn value_laws()
    ensures { ValueLaws }
{}

/// Running the steps of a tree evaluates the tree, with its questions and its fault.
#[tactic(auto, using(crate::proofs::TreeSteps::code_laws))]
pub fn code_laws()
    ensures { CodeLaws }
{}
