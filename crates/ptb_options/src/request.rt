// This file says what the tool is asked to do.

ghost use Rattle.ptb_text.specs.Statements.{IsMemorySize};

use crate::answers::{MarkedAnswers, PlainAnswers};
use ptb_answers::{Form, Rules};

/// The most commands that a run begins, where `--steps` is left out.
pub(crate) const DEFAULT_STEPS: u32 = 10_000;

/// The memory that the program is given, where `--memory` is left out.
pub(crate) const DEFAULT_MEMORY: u16 = 4096;

/// What is done with the program.
#[derive(Drop)]
pub enum Mode {
    /// It is run once, with these answers.
    Plain(PlainAnswers),
    /// It is run once, with the answers that this seed gives, 0 to 4,294,967,295.
    Seeded(u64),
    /// All its runs are listed.
    All {
        /// The answers with which each listed run begins, some of them with their bounds; all runs are
        /// listed where there is none.
        under: Option<MarkedAnswers>,
        /// The answers of the run after which the listing begins, some of them with their bounds; it
        /// begins with the first run where there is none.
        after: Option<MarkedAnswers>,
        /// The number of runs that are listed, if there are that many; all of them where there is
        /// none.
        first: Option<u64>,
        /// How the reports have the answers.
        form: Form,
    },
    /// The lists of answers that split all its runs into shares are listed.
    Shares {
        /// The most answers that a list has, 1 to 64.
        answers: u8,
        /// How the lists have the answers.
        form: Form,
    },
    /// Runs whose answers a seed draws are listed.
    Sample {
        /// The seed, 0 to 4,294,967,295.
        seed: u64,
        /// The number of runs, 1 to 1,000,000,000.
        runs: u32,
        /// How the reports have the answers.
        form: Form,
    },
    /// Its text is listed.
    List,
    /// The mistakes in its text are listed.
    Check,
    /// Each result that its runs have is listed, with its exact chance.
    Chances,
}

/// What the tool is asked to do.
#[derive(Drop)]
pub struct Request {
    /// The rules of its runs: the most commands that a run begins, 1 to 1,000,000,000, and the bound
    /// with which INPUT asks for an answer where no line is left, if it does, 1 to 32767.
    pub rules: Rules,
    /// The memory that the program is given, 64 to 32767.
    pub memory: u16,
    /// What is done with the program.
    pub mode: Mode,
    pub ghost in_range: { IsMemorySize memory },
}
