// This file states the laws of actions and runs.

ghost use Rattle.ptb_machine.specs.EndingLaws.{EndingLaws};
ghost use Rattle.ptb_machine.specs.Laws.{EffectLaws, RunLaws};
ghost use Rattle.ptb_machine.specs.SeededRuns.{SeededLaws};

use ptb_expr::value_laws;

/// What was shown stays shown, a command is one step, and no loop or call opens past the limit.
#[tactic(auto, using(crate::proofs::RunLaws::effect_laws))]
pub fn effect_laws()
    ensures { EffectLaws }
{}

/// A run is one turn and then the turns after it, its commands are at most as many as its limit
/// says, and it takes its answers one by one.
#[tactic(auto, using(crate::proofs::RunLaws::run_laws))]
pub fn run_laws()
    ensures { RunLaws }
{
    value_laws();
}

/// A run that has its answers ends in one of seven ways: after the last statement, at STOP, with
/// one of the three faults, at its limit, or for lack of a line; the last only where no answers are
/// taken instead of lines.
#[tactic(auto, using(crate::proofs::Endings::ending_laws))]
pub fn ending_laws()
    ensures { EndingLaws }
{}

/// A seed gives one run of each program on each input, by any rules: each of its answers is drawn by
/// the next word of the seed's generator for the bound of its question. No other list of answers is
/// drawn so.
#[tactic(auto, using(crate::proofs::DrawnAnswers::seeded_laws))]
pub fn seeded_laws()
    ensures { SeededLaws }
{
    run_laws();
}
