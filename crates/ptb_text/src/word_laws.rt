// This file states that the laws of what is found at a place hold.

ghost use Rattle.ptb_text.specs.FoundParts.{FindingLaws};

/// What is found lies ahead of the place and within the text, and the next byte says what it can
/// be.
#[tactic(auto, using(crate::proofs::FoundParts::finding_laws))]
pub fn finding_laws()
    ensures { FindingLaws }
{}
