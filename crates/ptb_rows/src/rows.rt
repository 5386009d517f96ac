// This file states that the worked rows hold of the definitions.

ghost use Rattle.ptb_rows.specs.Rows.{AfterRows, AllRows, BoundRows, ChanceRows, CheckRows};
ghost use Rattle.ptb_rows.specs.Rows.{ChoiceRows, ClashRows, ExampleRows, FaultRows};
ghost use Rattle.ptb_rows.specs.Rows.{ListRows, ListingRows, LongRunRows, OptionRows, ProgramRows};
ghost use Rattle.ptb_rows.specs.Rows.{RefusalRows, RunRows, SampleRows, SeedRows, ShareRows};
ghost use Rattle.ptb_rows.specs.Rows.{SplitRows};

/// Worked rows of plain runs.
#[tactic(auto, using(crate::proofs::RunRows::run_rows))]
pub fn run_rows()
    ensures { RunRows }
{}

/// Worked rows of runs by a seed.
#[tactic(auto, using(crate::proofs::SeedRows::seed_rows))]
pub fn seed_rows()
    ensures { SeedRows }
{}

/// Worked rows of the lists that split all runs.
#[tactic(auto, using(crate::proofs::SplitRows::split_rows))]
pub fn split_rows()
    ensures { SplitRows }
{}

/// Worked rows of samples.
#[tactic(auto, using(crate::proofs::SampleRows::sample_rows))]
pub fn sample_rows()
    ensures { SampleRows }
{}

/// Worked rows of answers instead of missing lines.
#[tactic(auto, using(crate::proofs::ChoiceRows::choice_rows))]
pub fn choice_rows()
    ensures { ChoiceRows }
{}

/// Worked rows of programs that run once.
#[tactic(auto, using(crate::proofs::ProgramRows::program_rows))]
pub fn program_rows()
    ensures { ProgramRows }
{}

/// The examples of the document on the language.
#[tactic(auto, using(crate::proofs::ExampleRows::example_rows))]
pub fn example_rows()
    ensures { ExampleRows }
{}

/// Worked rows of programs whose runs are long.
#[tactic(auto, using(crate::proofs::LongRunRows::long_run_rows))]
pub fn long_run_rows()
    ensures { LongRunRows }
{}

/// Worked rows of listings of all runs.
#[tactic(auto, using(crate::proofs::AllRows::all_rows))]
pub fn all_rows()
    ensures { AllRows }
{}

/// Worked rows of listings that begin after a run, or end early.
#[tactic(auto, using(crate::proofs::AfterRows::after_rows))]
pub fn after_rows()
    ensures { AfterRows }
{}

/// Worked rows of reports with bounds.
#[tactic(auto, using(crate::proofs::BoundRows::bound_rows))]
pub fn bound_rows()
    ensures { BoundRows }
{}

/// Worked rows of the runs that begin with some answers.
#[tactic(auto, using(crate::proofs::ShareRows::share_rows))]
pub fn share_rows()
    ensures { ShareRows }
{}

/// Worked rows of programs that are refused.
#[tactic(auto, using(crate::proofs::TextRows::refusal_rows))]
pub fn refusal_rows()
    ensures { RefusalRows }
{}

/// Worked rows of listings.
#[tactic(auto, using(crate::proofs::TextRows::listing_rows))]
pub fn listing_rows()
    ensures { ListingRows }
{}

/// Worked rows of the mistakes in a text.
#[tactic(auto, using(crate::proofs::CheckRows::check_rows))]
pub fn check_rows()
    ensures { CheckRows }
{}

/// Worked rows of the chances of results.
#[tactic(auto, using(crate::proofs::ChanceRows::chance_rows))]
pub fn chance_rows()
    ensures { ChanceRows }
{}

/// Worked rows of options that don't go together.
#[tactic(auto, using(crate::proofs::CommandLineRows::clash_rows))]
pub fn clash_rows()
    ensures { ClashRows }
{}

/// Worked rows of lists of answers.
#[tactic(auto, using(crate::proofs::ListRows::list_rows))]
pub fn list_rows()
    ensures { ListRows }
{}

/// Worked rows of what clap finds on the command line.
#[tactic(auto, using(crate::proofs::CommandLineRows::option_rows))]
pub fn option_rows()
    ensures { OptionRows }
{}

/// Worked rows of words that clap refuses.
#[tactic(auto, using(crate::proofs::CommandLineRows::fault_rows))]
pub fn fault_rows()
    ensures { FaultRows }
{}
