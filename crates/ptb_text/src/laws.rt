// This file states that the laws of the places of statements hold.

ghost use Rattle.ptb_text.specs.NumberOrder.{StatementLaws};

/// A statement has its text under its number, and the next number is that of the statement after
/// it.
#[tactic(auto, using(crate::proofs::NextByte::statement_laws))]
pub fn statement_laws()
    ensures { StatementLaws }
{}
