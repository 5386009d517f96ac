// This file serves a request: it loads the program, and runs it, reports all its runs or a sample of
// them, writes the lists that split its runs or the table of their chances, or lists it or its
// mistakes.

ghost use Rattle.std.specs.Prelude.{◌≡◌, IfSome, IsErrOf, None};
ghost use Rattle.ptb_serve.specs.Prelude.{status, ending_alone, reads_of, writes_of, IsRunStatus, IsServedIn};
ghost use Rattle.ptb_serve.specs.Prelude.{end_line, FailsLoudly, ReadsOnlyWhatIsAsked, Served, ReplyLaws, outcome_of};

use crate::all_runs::{Listing, list_runs};
use crate::attempt::Attempt;
use crate::chances::list_table;
use crate::laws::reply_laws;
use crate::list_mismatch::ListMismatch;
use crate::mistakes::list_mistakes;
use crate::note::Note;
use crate::sample::list_sample;
use crate::shares::{Shares, list_shares};
use crate::text::list_text;
use ptb_chances::Watch;
use ptb_explore::Sample;
use ptb_machine::{Ending, RunEnd, RunFault, run_plain_to_end, run_seeded_to_end};
use ptb_options::{Mode, Request};
use ptb_text::{Program, Read, Write, load};
use std::alloc::Global;

/// The result of serving a request.
#[derive(Clone, Copy, Debug, PartialEq, Eq)]
pub struct Outcome {
    /// The status that the program exits with.
    pub status: u8,
    /// The line that goes to standard error, if there is one.
    pub note: Option<Note>,
    /// Why a list of the request fits no run: with each note that refuses a list, and with no other.
    pub mismatch: Option<ListMismatch>,
    /// Where the limit stopped a run, so that the status is 4, the number of the statement in which
    /// its next command begins. There is none with any other status.
    pub line: Option<u16>,
}

impl Outcome {
    // The status of a request that was served, or the note of one that wasn't.
    fn of(attempt: Attempt) -> Outcome
        ensures { result ≡ record (outcome_of attempt.served) {
          mismatch = attempt.mismatch;
          line = attempt.line;
        } }
    {
        let mismatch = attempt.mismatch;
        let line = attempt.line;
        match attempt.served {
            Ok(status) => Outcome {
                status,
                note: None,
                mismatch,
                line,
            },
            Err(note) => Outcome {
                status: note.status(),
                note: Some(note),
                mismatch,
                line,
            },
        }
    }
}

/// Serves a request: the program is loaded from one reader, and is run on the lines of another, or
/// all its runs or those of a sample are reported, or the lists that split its runs or the table of
/// their chances are written, or it or the mistakes in its text are listed. What it shows, the reports,
/// the lists, the table or the listing go to the writer. While a table is counted, the writer may show
/// how far it is.
///
/// The program is loaded before the input is read: a text that is refused or can't be read leaves the
/// input alone. So does a listing of a program's text or of its mistakes. At most 1,048,577 bytes are
/// read of a program, and at most 16,777,217 of an input, also of one that never ends.
///
/// A run reads its input only as far as it asks for lines: while fewer lines are complete than it
/// wants, at most 4096 bytes at once. With answers instead of lines, a run that took all lines may
/// have looked for another. A report of all runs or of a sample, the lists that split the runs, and the
/// table of their chances take an input that is read to its end.
///
/// A note says why a request isn't served, or not to its end. With [`Note::Unwritten`] a prefix of
/// the reply was written. With [`Note::OutOfMemory`] the reports of the first runs were written where
/// all runs or those of a sample are reported, the first lines where lists are written, and nothing or
/// what the run shows up to a question where it is a run by a seed. With [`Note::InputUnread`] what a
/// run shows before it asks for the line that can't be read was written. With every other note nothing
/// was written. A write that fails always gives [`Note::Unwritten`].
pub fn serve<P: Read, R: Read, W: Write + Watch>(
    alloc: Global,
    request: &Request,
    program: &mut P,
    input: &mut R,
    out: &mut W,
) -> Outcome
    ensures served { Served request.now
        (reads_of P.remaining P.given P.failures program.old program.new)
        (reads_of R.remaining R.given R.failures input.old input.new)
        (writes_of W.contents W.failures out.old out.new) result }
    ensures reads { ReadsOnlyWhatIsAsked request.now
        (reads_of P.remaining P.given P.failures program.old program.new)
        (reads_of R.remaining R.given R.failures input.old input.new) result }
    ensures fails { FailsLoudly
        (reads_of P.remaining P.given P.failures program.old program.new)
        (reads_of R.remaining R.given R.failures input.old input.new)
        (writes_of W.contents W.failures out.old out.new) result }

    // What a reply is, in terms of runs.
    ensures laws { ReplyLaws }
{
    reply_laws();
    match load(alloc, request.memory, program) {
        Ok(program) => Outcome::of(serve_program(alloc, request, &program, input, out)),
        Err(refusal) => Outcome::of(Attempt::without_mismatch(Err(Note::from(refusal)))),
    }
}

// Serves a request for a program that was loaded.
fn serve_program<R: Read, W: Write + Watch>(
    alloc: Global,
    request: &Request,
    program: &Program,
    input: &mut R,
    out: &mut W,
) -> Attempt
    requires memory { program.now.memory ≡ request.now.memory }
    ensures { IsServedIn request.now program.now
        (reads_of R.remaining R.given R.failures input.old input.new)
        (writes_of W.contents W.failures out.old out.new)
        result.served result.mismatch result.line request.now.mode }
{
    match &request.mode {
        Mode::Plain(answers) => {
            let answers = answers.as_slice();
            let ended = run_plain_to_end(alloc, program, answers, request.rules, input, out);
            run_attempt(ended)
        }
        Mode::Seeded(seed) => {
            let ended = run_seeded_to_end(alloc, program, *seed, request.rules, input, out);
            run_attempt(ended)
        }
        Mode::All {
            under,
            after,
            first,
            form,
        } => {
            let listing = Listing::new(under, after, *first, *form);
            list_runs(alloc, request, program, listing, input, out)
        }
        Mode::Shares { answers, form } => {
            let shares = Shares::new(*answers, *form);
            let served = list_shares(alloc, request, program, shares, input, out);
            Attempt::without_mismatch(served)
        }
        Mode::Sample { seed, runs, form } => {
            let sample = Sample {
                seed: *seed,
                runs: *runs,
                form: *form,
            };
            let served = list_sample(alloc, request, program, sample, input, out);
            Attempt::without_mismatch(served)
        }
        Mode::List => Attempt::without_mismatch(list_text(program, out)),
        Mode::Check => Attempt::without_mismatch(list_mistakes(program, out)),
        Mode::Chances => Attempt::without_mismatch(list_table(alloc, request, program, input, out)),
    }
}

// The attempt of a run.
fn run_attempt(ended: Result<RunEnd, RunFault>) -> Attempt
    requires { ¬ IsErrOf (ending_alone ended) RunFault.Spent }
    ensures status { IsRunStatus (ending_alone ended) result.served }
    ensures mismatch { result.mismatch ≡ None }
    ensures line { result.line ≡ end_line ended }
{
    match ended {
        Ok(end) => Attempt {
            served: run_status(Ok(end.ending)),
            mismatch: None,
            line: end.line,
        },
        Err(fault) => Attempt::without_mismatch(run_status(Err(fault))),
    }
}

// The status of a run that ended.
fn ending_status(ending: Ending) -> u8
    ensures { result ≡ status ending }
{
    match ending {
        Ending::End | Ending::Stop => 0,
        Ending::What => 1,
        Ending::How => 2,
        Ending::Sorry => 3,
        Ending::Limit => 4,
        Ending::NoInput => 5,
        Ending::NoAnswer => 6,
        Ending::BadAnswer => 7,
    }
}

// The status of a run that ended, or the note that says why it did not.
fn run_status(ended: Result<Ending, RunFault>) -> Result<u8, Note>
    requires { ¬ IsErrOf ended RunFault.Spent }
    ensures { IsRunStatus ended result }
{
    match ended {
        Ok(ending) => Ok(ending_status(ending)),
        Err(RunFault::Memory) => Err(Note::OutOfMemory),
        Err(RunFault::Read) => Err(Note::InputUnread),
        Err(RunFault::Write) => Err(Note::Unwritten),
        Err(RunFault::Spent) => unreachable!(),
    }
}
