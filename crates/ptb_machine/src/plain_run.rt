// This file has the runs that play a program once, with a list of answers or with those of a seed.

ghost use Rattle.std.specs.Prelude.{◌≡◌, ◌⊎◌, ℕ, ℤ, List, [], IfOk, IfSome, IsErrOf};
ghost use Rattle.std.specs.Io.KnownBytes.{Appends};
ghost use Rattle.ptb_machine.specs.Prelude.{play, ending_alone, GoesBy, HasLine, PlaysWith, ReadsLines, WantsMemory};
ghost use Rattle.ptb_machine.specs.Prelude.{IsDrawn, SeededLaws, reads_of, writes_of};

use crate::complete_run::run_to_end;
use crate::fault::RunFault;
use crate::laws::{run_laws, seeded_laws};
use crate::memory_note::MemoryNote;
use crate::run_end::RunEnd;
use ptb_answers::{Chooser, Listed, Pause, Rules, Seeded};
use ptb_command::Ending;
use ptb_devices::{ReaderLines, WriterScreen};
use ptb_text::{Program, Read, Write};
use std::alloc::Global;

/// Runs a program once, by these rules, on the lines of an input and with these answers. What it
/// shows goes to the writer.
///
/// A line is read when the run asks for it, and what it shows before was shown then: the input is
/// read on only while fewer lines are complete than were asked for. Answers that are left over are
/// not looked at.
///
/// For users of the library: the program calls [`run_plain_to_end`].
///
/// # Errors
///
/// [`RunFault::Read`] where a line could not be read, or more than 16,777,216 bytes would have to
/// be: on the lines that came complete the run ends for lack of a line, and the writer got what it
/// shows. So it is also with answers instead of lines: none stands for a line that may come.
/// [`RunFault::Memory`] where a growth was refused memory: nothing was shown then.
/// [`RunFault::Write`] where the writer failed: it got a prefix of what the run shows. Never
/// [`RunFault::Spent`].
pub fn run_plain<R: Read, W: Write>(
    alloc: Global,
    program: &Program,
    answers: &[i16],
    rules: Rules,
    input: &mut R,
    out: &mut W,
) -> Result<Ending, RunFault>
    ensures plays { PlaysWith program.now rules (λ _. answers.now)
        (reads_of R.remaining R.given R.failures input.old input.new)
        (writes_of W.contents W.failures out.old out.new) result }
    ensures memory { IsErrOf result RunFault.Memory
        → Appends (W.contents out.old) (W.contents out.new) [] }
    ensures reads { ReadsLines (reads_of R.remaining R.given R.failures input.old input.new) result }
{
    let end = run_plain_to_end(alloc, program, answers, rules, input, out)?;
    Ok(end.ending)
}

/// Runs a program as [`run_plain`] does, and also gives the line at which a limit stopped it.
///
/// # Errors
///
/// As [`run_plain`].
pub fn run_plain_to_end<R: Read, W: Write>(
    alloc: Global,
    program: &Program,
    answers: &[i16],
    rules: Rules,
    input: &mut R,
    out: &mut W,
) -> Result<RunEnd, RunFault>
    ensures plays { PlaysWith program.now rules (λ _. answers.now)
        (reads_of R.remaining R.given R.failures input.old input.new)
        (writes_of W.contents W.failures out.old out.new) (ending_alone result) }
    ensures memory { IsErrOf (ending_alone result) RunFault.Memory
        → Appends (W.contents out.old) (W.contents out.new) [] }
    ensures reads { ReadsLines (reads_of R.remaining R.given R.failures input.old input.new)
        (ending_alone result) }
    ensures line { IfOk result (HasLine program.now rules (λ _. answers.now)
        (reads_of R.remaining R.given R.failures input.old input.new)) }
{
    let mut chooser = MemoryNote::new(Listed::new(answers));
    run_on_input(alloc, program, rules, &mut chooser, input, out)
}

/// Runs a program once, by these rules, on the lines of an input and with the answers that the seed
/// gives to its questions. What it shows goes to the writer.
///
/// The answers are those of one list: the run is the plain run with this list, and its answers are
/// what is drawn from the seed for the bounds of its questions. None is missing or out of range.
/// Lines are read as they are for a plain run.
///
/// For users of the library: the program calls [`run_seeded_to_end`].
///
/// # Errors
///
/// [`RunFault::Read`] and [`RunFault::Write`] as for a plain run; the answers are then those of the
/// run on the lines that came complete. [`RunFault::Memory`] where a growth was refused memory:
/// either nothing was shown, or the writer got what the run shows up to a question, whose answer
/// there was no memory for. Never [`RunFault::Spent`].
pub fn run_seeded<R: Read, W: Write>(
    alloc: Global,
    program: &Program,
    seed: u64,
    rules: Rules,
    input: &mut R,
    out: &mut W,
) -> Result<Ending, RunFault>
    ensures plays { (answers : List (List ℕ) → List ℤ)
        → ((lines : List (List ℕ)) → IsDrawn seed (play program.now lines rules) (answers lines))
        → PlaysWith program.now rules answers
        (reads_of R.remaining R.given R.failures input.old input.new)
        (writes_of W.contents W.failures out.old out.new) result }
    ensures memory { (answers : List (List ℕ) → List ℤ)
        → ((lines : List (List ℕ)) → IsDrawn seed (play program.now lines rules) (answers lines))
        → IsErrOf result RunFault.Memory → WantsMemory program.now rules answers
        (reads_of R.remaining R.given R.failures input.old input.new)
        (writes_of W.contents W.failures out.old out.new) }
    ensures reads { ReadsLines (reads_of R.remaining R.given R.failures input.old input.new) result }

    // There is one such list for each input.
    ensures laws { SeededLaws }
{
    let end = run_seeded_to_end(alloc, program, seed, rules, input, out)?;
    Ok(end.ending)
}

/// Runs a program as [`run_seeded`] does, and also gives the line at which a limit stopped it.
///
/// # Errors
///
/// As [`run_seeded`].
pub fn run_seeded_to_end<R: Read, W: Write>(
    alloc: Global,
    program: &Program,
    seed: u64,
    rules: Rules,
    input: &mut R,
    out: &mut W,
) -> Result<RunEnd, RunFault>
    ensures plays { (answers : List (List ℕ) → List ℤ)
        → ((lines : List (List ℕ)) → IsDrawn seed (play program.now lines rules) (answers lines))
        → PlaysWith program.now rules answers
        (reads_of R.remaining R.given R.failures input.old input.new)
        (writes_of W.contents W.failures out.old out.new) (ending_alone result) }
    ensures memory { (answers : List (List ℕ) → List ℤ)
        → ((lines : List (List ℕ)) → IsDrawn seed (play program.now lines rules) (answers lines))
        → IsErrOf (ending_alone result) RunFault.Memory → WantsMemory program.now rules answers
        (reads_of R.remaining R.given R.failures input.old input.new)
        (writes_of W.contents W.failures out.old out.new) }
    ensures reads { ReadsLines (reads_of R.remaining R.given R.failures input.old input.new)
        (ending_alone result) }
    ensures line { (answers : List (List ℕ) → List ℤ)
        → ((lines : List (List ℕ)) → IsDrawn seed (play program.now lines rules) (answers lines))
        → IfOk result (HasLine program.now rules answers
        (reads_of R.remaining R.given R.failures input.old input.new)) }

    // There is one such list for each input.
    ensures laws { SeededLaws }
{
    run_laws();
    seeded_laws();
    let mut chooser = MemoryNote::new(Seeded::new(alloc, seed));
    run_on_input(alloc, program, rules, &mut chooser, input, out)
}

// A run with a chooser that goes by some answers, on the lines of an input.
fn run_on_input<C: Chooser, R: Read, W: Write>(
    alloc: Global,
    program: &Program,
    rules: Rules,
    chooser: &mut MemoryNote<C>,
    input: &mut R,
    out: &mut W,
) -> Result<RunEnd, RunFault>
    ensures plays { (answers : List (List ℕ) → List ℤ) → GoesBy (C.refused chooser.new.chooser)
        (C.choices chooser.old.chooser) (C.choices chooser.new.chooser) answers program.now rules
        → PlaysWith program.now rules answers
        (reads_of R.remaining R.given R.failures input.old input.new)
        (writes_of W.contents W.failures out.old out.new) (ending_alone result) }
    ensures refused { (answers : List (List ℕ) → List ℤ) → GoesBy (C.refused chooser.new.chooser)
        (C.choices chooser.old.chooser) (C.choices chooser.new.chooser) answers program.now rules
        → IsErrOf (ending_alone result) RunFault.Memory
        → Appends (W.contents out.old) (W.contents out.new) []
        ⊎ ((n : ℤ) × C.refused chooser.new.chooser Pause.Memory n) }
    ensures memory { (answers : List (List ℕ) → List ℤ) → GoesBy (C.refused chooser.new.chooser)
        (C.choices chooser.old.chooser) (C.choices chooser.new.chooser) answers program.now rules
        → IsErrOf (ending_alone result) RunFault.Memory → WantsMemory program.now rules answers
        (reads_of R.remaining R.given R.failures input.old input.new)
        (writes_of W.contents W.failures out.old out.new) }
    ensures reads { ReadsLines (reads_of R.remaining R.given R.failures input.old input.new)
        (ending_alone result) }
    ensures line { (answers : List (List ℕ) → List ℤ) → GoesBy (C.refused chooser.new.chooser)
        (C.choices chooser.old.chooser) (C.choices chooser.new.chooser) answers program.now rules
        → IfOk result (HasLine program.now rules answers
        (reads_of R.remaining R.given R.failures input.old input.new)) }
{
    let mut screen = WriterScreen::new(out);
    let mut source = ReaderLines::new(input);
    let ended = run_to_end(alloc, program, rules, chooser, &mut screen, &mut source);
    // The source keeps its fault, so that it is reported however the run ended.
    match source.fault() {
        Some(fault) => Err(RunFault::from(fault)),
        None => chooser.conclude(ended),
    }
}
