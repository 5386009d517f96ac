// This file writes the table of the chances of all results of a program's runs.

ghost use Rattle.std.specs.Prelude.{◌≡◌, IfErr, IfOk, OnOk, IsErrOf};
ghost use Rattle.std.specs.Io.KnownBytes.{Appends};
ghost use Rattle.ptb_chances.specs.Prelude.{HasFailed, TakesSome, IsScreenFault, play, most_answers, chances};

use crate::count::count_runs;
use crate::watch::Watch;
use ptb_machine::{Line, Rules, run_laws};
use ptb_text::{DeviceFault, Program, Write};
use std::alloc::{AllocError, Global};

/// The text of the table that [`write_chances`] writes. While the runs are counted, `watch` may show how far
/// this is.
///
/// # Errors
///
/// Where a growth was refused memory.
pub(crate) fn chances_text<W: Watch>(
    alloc: Global,
    program: &Program,
    lines: &[Line],
    rules: Rules,
    watch: &W,
) -> Result<Vec<u8>, AllocError>
    ensures { IfOk result (λ text. text.items ≡ chances (play program.now lines.now rules)
        (most_answers program.now lines.now rules.limit)) }
{
    run_laws();
    let tally = count_runs(alloc, program, lines, rules, watch)?;
    tally.text(alloc)
}

/// Writes the table of the chances of a program's runs on these input lines, by these rules: each result
/// that a run has, with the sum of the chances of its runs and their number. While the runs are counted,
/// the writer may show how far this is.
///
/// Each answer of a question has the same chance. The result of a run is its ending and the last line that
/// it showed. The chances of the table add up to 1.
///
/// # Errors
///
/// [`DeviceFault::Memory`] where a growth was refused memory: nothing was written.
/// [`DeviceFault::Write`] where the writer failed: a prefix of the table was written.
pub fn write_chances<W: Write + Watch>(
    alloc: Global,
    program: &Program,
    lines: &[Line],
    rules: Rules,
    writer: &mut W,
) -> Result<(), DeviceFault>
    ensures written { OnOk result (Appends (W.contents writer.old) (W.contents writer.new)
        (chances (play program.now lines.now rules)
        (most_answers program.now lines.now rules.limit))) }
    ensures kind { IfErr result IsScreenFault }
    ensures memory { IsErrOf result DeviceFault.Memory → writer.new ≡ writer.old }
    ensures prefix { IsErrOf result DeviceFault.Write
        → TakesSome (W.contents writer.old) (W.contents writer.new)
        (chances (play program.now lines.now rules)
        (most_answers program.now lines.now rules.limit)) }
    ensures failed { IsErrOf result DeviceFault.Write
        → HasFailed (W.failures writer.old) (W.failures writer.new) }
    ensures unfailed { ¬ IsErrOf result DeviceFault.Write
        → W.failures writer.new ≡ W.failures writer.old }
{
    let Ok(text) = chances_text(alloc, program, lines, rules, &*writer) else {
        return Err(DeviceFault::Memory);
    };
    match writer.write_all(text.as_slice()) {
        Ok(()) => Ok(()),
        Err(_) => Err(DeviceFault::Write),
    }
}
