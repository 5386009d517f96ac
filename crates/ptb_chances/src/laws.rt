// This file states the laws of chances and tables.

ghost use Rattle.std.specs.Prelude.{ℕ, ◌<◌, List};
ghost use Rattle.ptb_numbers.specs.Fractions.{Equals};
ghost use Rattle.ptb_answers.specs.Outcome.{Answers, Outcome, IsReader};
ghost use Rattle.ptb_machine.specs.Play.{Finish};
ghost use Rattle.ptb_chances.specs.Prelude.{chance_of_all, tree, TableLaws};

/// The chances of all runs add up to 1. Their sum has a denominator, which is not 0.
pub fn chance_laws<A, W>()
    ensures sum { (play : Answers → Outcome A W) (most : ℕ) → IsReader play most
        → Equals (chance_of_all play (tree play most)) (record { numerator = 1; denominator = 1 }) }
    ensures positive { (play : Answers → Outcome A W) (most : ℕ) → IsReader play most
        → 0 < (chance_of_all play (tree play most)).denominator }
{}

/// The results of the table of all runs rise, and are those that a run has. Each has the chance of the
/// runs with it, in lowest terms, and their number. The chances add up to 1, and the numbers of runs to
/// that of all runs.
pub fn table_laws()
    ensures { (play : Answers → Outcome Finish (List ℕ)) (most : ℕ) → IsReader play most
        → TableLaws play most }
{}
