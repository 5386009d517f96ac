// This file states that the worked rows of the language hold of the definitions.

ghost use Rattle.ptb_rows.specs.Prelude.{LoadingRows, WordRows, ValueRows, AnswerRows, PrintRows, InputRows, LoopRows};
ghost use Rattle.ptb_rows.specs.Prelude.{RunFaultRows, ArrayRows, LongRows, StepRows, TreeRows, ReportRows, TableRows};
ghost use Rattle.ptb_rows.specs.Prelude.{SampledRunRows, MistakeRows};

/// Worked rows of loading and listing.
#[tactic(auto, using(crate::proofs::LoadingRows::loading_rows))]
pub fn loading_rows()
    ensures { LoadingRows }
{}

/// Worked rows of words and tokens.
#[tactic(auto, using(crate::proofs::LoadingRows::word_rows))]
pub fn word_rows()
    ensures { WordRows }
{}

/// Worked rows of expressions.
#[tactic(auto, using(crate::proofs::ExpressionRows::value_rows))]
pub fn value_rows()
    ensures { ValueRows }
{}

/// Worked rows of answers to RND.
#[tactic(auto, using(crate::proofs::PlayRows::answer_rows))]
pub fn answer_rows()
    ensures { AnswerRows }
{}

/// Worked rows of PRINT.
#[tactic(auto, using(crate::proofs::PlayRows::print_rows))]
pub fn print_rows()
    ensures { PrintRows }
{}

/// Worked rows of INPUT.
#[tactic(auto, using(crate::proofs::PlayRows::input_rows))]
pub fn input_rows()
    ensures { InputRows }
{}

/// Worked rows of loops and subroutines.
#[tactic(auto, using(crate::proofs::PlayRows::loop_rows))]
pub fn loop_rows()
    ensures { LoopRows }
{}

/// Worked rows of faults and their marks.
#[tactic(auto, using(crate::proofs::PlayRows::run_fault_rows))]
pub fn run_fault_rows()
    ensures { RunFaultRows }
{}

/// Worked rows of assignments and the array.
#[tactic(auto, using(crate::proofs::PlayRows::array_rows))]
pub fn array_rows()
    ensures { ArrayRows }
{}

/// Worked rows of long texts.
#[tactic(auto, using(crate::proofs::PlayRows::long_rows))]
pub fn long_rows()
    ensures { LongRows }
{}

/// Worked rows of steps.
#[tactic(auto, using(crate::proofs::PlayRows::step_rows))]
pub fn step_rows()
    ensures { StepRows }
{}

/// Worked rows of runs.
#[tactic(auto, using(crate::proofs::TreeRows::tree_rows))]
pub fn tree_rows()
    ensures { TreeRows }
{}

/// Worked rows of reports.
#[tactic(auto, using(crate::proofs::TreeRows::report_rows))]
pub fn report_rows()
    ensures { ReportRows }
{}

/// Worked rows of samples.
#[tactic(auto, using(crate::proofs::SampledRunRows::sampled_run_rows))]
pub fn sampled_run_rows()
    ensures { SampledRunRows }
{}

/// Worked rows of chances.
#[tactic(auto, using(crate::proofs::TableRows::table_rows))]
pub fn table_rows()
    ensures { TableRows }
{}

/// Worked rows of the mistakes in the text of a program.
#[tactic(auto, using(crate::proofs::MistakeRows::mistake_rows))]
pub fn mistake_rows()
    ensures { MistakeRows }
{}
