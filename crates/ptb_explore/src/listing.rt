// This file writes the reports of all runs.

ghost use Rattle.std.specs.Prelude.{◌≡◌, ◌≤◌, ℕ, IsErrOf};
ghost use Rattle.ptb_explore.specs.Prelude.{play_of, most_of, IsSameListing, less_one, report, runs_left};
ghost use Rattle.ptb_explore.specs.Prelude.{NextWrites, WritesRuns, FailsToWrite, FailsOnlyToWrite, PlaysRuns};
ghost use Rattle.ptb_explore.specs.Prelude.{FailsAfterSome, FailsOnlyAfterSome, PlaysOneMore};

use crate::explorer::Explorer;
use crate::fault::ExploreFault;
use crate::report_writer::ReportWriter;
use ptb_answers::Form;
use ptb_machine::run_laws;
use ptb_text::{DeviceFault, Write};

// Writes the report of the next run, and says whether there is one.
fn write_next<W: Write>(
    explorer: &mut Explorer,
    form: Form,
    reports: &mut ReportWriter,
    writer: &mut W,
) -> Result<bool, DeviceFault>
    ensures same { IsSameListing explorer.old explorer.new }
    ensures rises { explorer.old.played ≤ explorer.new.played }
    ensures played { ¬ IsErrOf result DeviceFault.Memory → PlaysRuns explorer.old explorer.new }
    ensures once { PlaysOneMore explorer.old explorer.new }
    ensures writes { NextWrites (play_of explorer.old) explorer.old.prefix
        (report form (play_of explorer.old)) explorer.old.front explorer.new.front
        (W.contents writer.old) (W.contents writer.new) result }
    ensures failed { FailsToWrite result (W.failures writer.old) (W.failures writer.new) }
    ensures unfailed { FailsOnlyToWrite result (W.failures writer.old) (W.failures writer.new) }
{
    run_laws();
    match explorer.next() {
        Err(_) => Err(DeviceFault::Memory),
        Ok(None) => Ok(false),
        Ok(Some(run)) => match run.write(form, reports, writer) {
            Ok(()) => Ok(true),
            Err(_) => Err(DeviceFault::Write),
        },
    }
}

// How many reports may still be written after one more.
fn one_less(remaining: Option<u64>) -> Option<u64>
    ensures { result ≡ less_one remaining }
{
    match remaining {
        None => None,
        Some(n) => Some(n.saturating_sub(1)),
    }
}

/// Writes the reports of the runs that are left, or of the first of them, in the order of their
/// answers and in this form. The number of reports, or `u64::MAX` where there were more.
///
/// # Errors
///
/// [`ExploreFault::Memory`] where a growth was refused memory, [`ExploreFault::Write`] where the
/// writer failed, each with the number of reports that were written. The explorer is then at
/// the last run of them, or at the one whose report was begun. Both come only while a report was
/// still to be written, never after the last of those asked for. The commands that were played count
/// in [`played`](Explorer::played): at most those of the runs that were reported, or whose report was
/// begun, and those of one play that was refused memory.
pub fn write_all_runs<W: Write>(
    explorer: &mut Explorer,
    first: Option<u64>,
    form: Form,
    writer: &mut W,
) -> Result<u64, ExploreFault>
    ensures same { IsSameListing explorer.old explorer.new }
    ensures rises { explorer.old.played ≤ explorer.new.played }
    ensures played { ((n : ℕ) → ¬ IsErrOf result (ExploreFault.Memory n))
        → PlaysRuns explorer.old explorer.new }
    ensures once { PlaysOneMore explorer.old explorer.new }
    ensures writes { WritesRuns (play_of explorer.old) explorer.old.prefix
        (report form (play_of explorer.old))
        (runs_left (play_of explorer.old) (most_of explorer.old) explorer.old.prefix
        explorer.old.front first)
        explorer.old.front explorer.new.front
        (W.contents writer.old) (W.contents writer.new) result }
    ensures failed { FailsAfterSome result (W.failures writer.old) (W.failures writer.new) }
    ensures unfailed { FailsOnlyAfterSome result (W.failures writer.old) (W.failures writer.new) }
{
    run_laws();
    let mut reports = ReportWriter::new();
    let mut written: u64 = 0;
    let mut remaining = first;
    while remaining != Some(0) {
        match write_next(explorer, form, &mut reports, writer) {
            Ok(true) => {}
            Ok(false) => return Ok(written),
            Err(fault) => return Err(ExploreFault::after(fault, written)),
        }
        written = written.saturating_add(1);
        remaining = one_less(remaining);
    }
    Ok(written)
}
