// This file has the lists of answers that split a program's runs.

ghost use Rattle.std.specs.Prelude.{◌≡◌, [], None};
ghost use Rattle.ptb_serve.specs.Prelude.{FailsAfterSome, FailsOnlyAfterSome, beginning_line, split_play, stopped};
ghost use Rattle.ptb_serve.specs.Prelude.{WritesRuns, Front, runs_left};
ghost use Rattle.ptb_serve.specs.Prelude.{reads_of, writes_of, IsServed, IsServedOn};
ghost use Rattle.ptb_options.specs.declared.request.Mode.TheVariants as modes;

use crate::note::Note;
use ptb_explore::{Beginnings, ExploreFault, Form, write_beginnings};
use ptb_machine::{Line, read_lines};
use ptb_options::Request;
use ptb_text::{Program, Read, Write};
use std::alloc::Global;

/// How many answers the lists have that split a program's runs, and how they are written.
#[derive(Clone, Copy)]
pub struct Shares {
    /// The most answers of a list.
    pub answers: u8,
    /// How the lists have the answers.
    pub form: Form,
}

impl Shares {
    /// Lists of at most `answers` answers.
    pub fn new(answers: u8, form: Form) -> Shares
        ensures { result ≡ record { answers = answers; form = form } }
    {
        Shares { answers, form }
    }
}

/// Writes the lists that split a program's runs, one in each line. The status is 0.
///
/// Nothing is written until the input was read to its end.
///
/// # Errors
///
/// [`Note::InputUnread`] where the input could not be read or has more than 16,777,216 bytes: nothing
/// was written. [`Note::OutOfMemory`] where a growth was refused memory: the lines of the first lists
/// were written, fewer than all. [`Note::Unwritten`] where the writer failed: a prefix of the lines
/// was written.
pub fn list_shares<R: Read, W: Write>(
    alloc: Global,
    request: &Request,
    program: &Program,
    shares: Shares,
    input: &mut R,
    out: &mut W,
) -> Result<u8, Note>
    requires memory { program.now.memory ≡ request.now.memory }
    ensures { IsServed (modes.Shares shares.answers shares.form) request.now program.now
        (reads_of R.remaining R.given R.failures input.old input.new)
        (writes_of W.contents W.failures out.old out.new) result }
{
    let lines = read_lines(alloc, input)?;
    share_lines(alloc, request, program, &lines, shares, out)
}

// Writes the lists that split a program's runs on the lines of an input that was read. Its caller owns
// these lines and has few exits: each exit of a body is proved with all that the body owns.
fn share_lines<W: Write>(
    alloc: Global,
    request: &Request,
    program: &Program,
    lines: &[Line],
    shares: Shares,
    out: &mut W,
) -> Result<u8, Note>
    requires memory { program.now.memory ≡ request.now.memory }
    ensures { IsServedOn (modes.Shares shares.answers shares.form) request.now program.now lines.now
        (writes_of W.contents W.failures out.old out.new) result }
{
    let most = usize::from(shares.answers);
    let beginnings = Beginnings::start(alloc, program, lines, request.rules, most)?;
    write_lists(beginnings, shares.form, out)?;
    Ok(0)
}

// Writes the lists that a search has left, and drops it.
fn write_lists<W: Write>(
    mut beginnings: Beginnings<'_>,
    form: Form,
    out: &mut W,
) -> Result<u64, ExploreFault>
    ensures writes { (front : Front)
        × WritesRuns (stopped beginnings.entry.most (split_play beginnings.entry)) []
        (beginning_line form (split_play beginnings.entry))
        (runs_left (stopped beginnings.entry.most (split_play beginnings.entry))
        beginnings.entry.most [] beginnings.entry.front None)
        beginnings.entry.front front (W.contents out.old) (W.contents out.new) result }
    ensures failed { FailsAfterSome result (W.failures out.old) (W.failures out.new) }
    ensures unfailed { FailsOnlyAfterSome result (W.failures out.old) (W.failures out.new) }
{
    write_beginnings(&mut beginnings, form, out)
}
