// This file has the reports of runs.

ghost use Rattle.std.specs.Prelude.{◌≡◌, []};
ghost use Rattle.ptb_explore.specs.Prelude.{answers_in, bounds_in, asked_items, ending_word, report_text};
ghost use Rattle.ptb_explore.specs.Prelude.{WritesText, writes_of};

use crate::report_text::Parts;
use crate::report_writer::ReportWriter;
use ptb_answers::{Answers, Asked, Bounds, Form};
use ptb_machine::{Ending, ending_word};
use ptb_text::{DeviceFault, Write};
use std::alloc::Global;

/// The report of a run.
#[derive(Drop)]
pub struct Report {
    /// The answers that the run took, each with its bound.
    pub asked: Vec<Asked>,
    /// How the run ended.
    pub ending: Ending,
    /// How many commands it began.
    pub steps: u32,
    /// All that it showed.
    pub transcript: Vec<u8>,
}

impl Report {
    /// A report that has nothing yet.
    pub(crate) fn new(alloc: Global) -> Self
        ensures { result.asked.items ≡ [] }
    {
        Report {
            asked: Vec::new(alloc),
            ending: Ending::End,
            steps: 0,
            transcript: Vec::new(alloc),
        }
    }

    /// The answers that the run took, in order.
    ///
    /// For users of the library: the program reads `asked`.
    pub fn answers(&self) -> Answers<'_>
        ensures { result ≡ answers_in self.now.asked.items }
    {
        Answers::new(&self.asked)
    }

    /// The bounds of the questions that the run answered, in order.
    ///
    /// For users of the library: the program reads `asked`.
    pub fn bounds(&self) -> Bounds<'_>
        ensures { result ≡ bounds_in self.now.asked.items }
    {
        Bounds::new(&self.asked)
    }

    /// Writes the report, with its answers as the form has them.
    ///
    /// # Errors
    ///
    /// [`DeviceFault::Write`] where the writer failed. A prefix of the report may have been taken then.
    pub(crate) fn write<W: Write>(
        &self,
        form: Form,
        reports: &mut ReportWriter,
        writer: &mut W,
    ) -> Result<(), DeviceFault>
        ensures { WritesText (writes_of W.contents W.failures writer.old writer.new)
            (report_text (asked_items form self.now.asked.items)
            (ending_word self.now.ending) self.now.steps self.now.transcript.items) result }
    {
        let parts = Parts {
            form,
            asked: &self.asked,
            word: ending_word(self.ending),
            steps: self.steps,
            transcript: &self.transcript,
        };
        reports.write(writer, &parts)
    }
}
