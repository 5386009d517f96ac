// This file has the chooser that notes where another one was refused memory.

ghost use Rattle.std.specs.Prelude.{◌≡◌, IfOk, Ok, false};
ghost use Rattle.ptb_machine.specs.Runs.{ending_alone};
ghost use Rattle.ptb_machine.specs.MemoryNotes.{noted, noted_result};

use crate::fault::RunFault;
use crate::run_end::RunEnd;
use ptb_answers::{Chooser, Pause};
use ptb_command::Ending;

/// Answers as another chooser does. Where that one is refused memory, no answer is left, and the
/// refusal is noted.
///
/// A run stops at the question then, as it does for lack of an answer.
#[derive(Drop)]
pub(crate) struct MemoryNote<C> {
    /// The chooser that has the answers.
    pub(crate) chooser: C,
    /// Whether the last answer was refused memory.
    pub(crate) refused: bool,
}

impl<C> MemoryNote<C> {
    /// Nothing was refused yet.
    pub(crate) fn new(chooser: C) -> Self
        ensures chooser { result.chooser ≡ chooser }
        ensures refused { result.refused ≡ false }
    {
        MemoryNote {
            chooser,
            refused: false,
        }
    }

    /// The result of a run that asked it: lack of memory where the run stopped for that.
    pub(crate) fn conclude(&self, ended: Result<RunEnd, RunFault>) -> Result<RunEnd, RunFault>
        ensures result { ending_alone result ≡ noted_result self.now.refused (ending_alone ended) }
        ensures end { IfOk result (λ end. ended ≡ Ok end) }
    {
        let end = ended?;
        match end.ending {
            Ending::NoAnswer if self.refused => Err(RunFault::Memory),
            _ => Ok(end),
        }
    }
}

impl<C: Chooser> Chooser for MemoryNote<C> {
    ghost choices = { λ n. C.choices n.chooser };

    ghost refused = { λ n. noted n.refused (C.refused n.chooser) };

    fn choose(&mut self, bound: i16) -> Result<i16, Pause> {
        let answer = self.chooser.choose(bound);
        self.refused = false;
        match answer {
            Err(Pause::Memory) => {
                self.refused = true;
                Err(Pause::Ended)
            }
            answer => answer,
        }
    }
}
