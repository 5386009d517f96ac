// This file has the listing of all runs of a program, each with its report.

ghost use Rattle.std.specs.Prelude.{◌≡◌, ℕ, List, Option, None, IfErr, IfOk, IfSome, IsErrOf, OnOk, option_copied};
ghost use Rattle.ptb_serve.specs.Prelude.{FailsAfterSome, FailsOnlyAfterSome, input_lines, play, exploration, play_of};
ghost use Rattle.ptb_serve.specs.Prelude.{most_of, WritesRuns, report, Front, runs_left, mode_of, IsUnstarted};
ghost use Rattle.ptb_serve.specs.Prelude.{ServesProgram, ReportsFailures, ReportsMismatch, share_prefix, first_front};
ghost use Rattle.ptb_serve.specs.Prelude.{front_note, items_of, ReadsInput};

use crate::attempt::Attempt;
use crate::note::Note;
use ptb_answers::Marked;
use ptb_explore::{ExploreFault, Explorer, Form, OpenFault, write_all_runs};
use ptb_machine::{Line, read_lines};
use ptb_options::{MarkedAnswers, Request};
use ptb_text::{Program, Read, Write};
use std::alloc::Global;

/// Which runs are listed, and how their reports are written.
#[derive(Clone, Copy)]
pub struct Listing<'a> {
    /// The answers with which each of the runs begins; any run is listed where there is none.
    pub under: &'a Option<MarkedAnswers>,
    /// The run after which the listing begins, if it is named.
    pub after: &'a Option<MarkedAnswers>,
    /// The most runs that are listed; all of them where there is none.
    pub first: Option<u64>,
    /// How the reports have the answers.
    pub form: Form,
}

impl<'a> Listing<'a> {
    ghost use Rattle.ptb_options.specs.declared.request.Mode.TheVariants as modes;

    /// The listing of these runs.
    pub fn new(
        under: &'a Option<MarkedAnswers>,
        after: &'a Option<MarkedAnswers>,
        first: Option<u64>,
        form: Form,
    ) -> Listing<'a>
        ensures { mode_of result ≡ modes.All under.now after.now first form }
    {
        Listing {
            under,
            after,
            first,
            form,
        }
    }
}

/// Writes the reports of the runs of a listing. The status is 0.
///
/// Nothing is written until the input was read to its end, and the listing's `under` and then its
/// `after` were checked.
///
/// # Errors
///
/// [`Note::InputUnread`] where the input could not be read or has more than 16,777,216 bytes;
/// [`Note::NoBeginning`] where no run begins with `under`, [`Note::NoRun`] where `after` is no run of
/// these, both even if only a bound is not that of its question: nothing was written with these, and the
/// attempt says why. [`Note::OutOfMemory`] where a growth was refused memory, never where a list was
/// found to fit no run: nothing was written, or the reports of the first runs, fewer than all.
/// [`Note::Unwritten`] where the writer failed: a prefix of the reports was written.
pub fn list_runs<R: Read, W: Write>(
    alloc: Global,
    request: &Request,
    program: &Program,
    listing: Listing,
    input: &mut R,
    out: &mut W,
) -> Attempt
    requires memory { program.now.memory ≡ request.now.memory }
    ensures serves { ServesProgram (mode_of listing.entry) request.now program.now
        (R.remaining input.old) (R.remaining input.new)
        (W.contents out.old) (W.contents out.new) result.served }
    ensures reads { ReadsInput (mode_of listing.entry)
        (R.remaining input.old) (R.remaining input.new)
        (R.failures input.old) (R.failures input.new)
        (R.given input.old) (R.given input.new) result.served }
    ensures failures { ReportsFailures (W.failures out.old) (W.failures out.new) result.served }
    ensures mismatch { ReportsMismatch (mode_of listing.entry) request.now program.now
        (R.remaining input.old) result.served result.mismatch }
    ensures no_line { result.line ≡ None }
{
    match read_lines(alloc, input) {
        Ok(lines) => list_runs_on(alloc, request, program, &lines, listing, out),
        Err(fault) => Attempt::without_mismatch(Err(Note::from(fault))),
    }
}

// Writes the reports of a program's runs on the lines of an input that was read, or says why a list
// fits no run. Its caller owns these lines and has few exits: each exit of a body is proved with all that
// the body owns.
fn list_runs_on<W: Write>(
    alloc: Global,
    request: &Request,
    program: &Program,
    lines: &[Line],
    listing: Listing,
    out: &mut W,
) -> Attempt
    requires memory { program.now.memory ≡ request.now.memory }
    ensures serves { (known left : Option (List ℕ)) → IfSome known (λ c. lines.now ≡ input_lines c)
        → ServesProgram (mode_of listing.entry) request.now program.now known left
        (W.contents out.old) (W.contents out.new) result.served }
    ensures read { ¬ IsErrOf result.served Note.InputUnread }
    ensures failures { ReportsFailures (W.failures out.old) (W.failures out.new) result.served }
    ensures mismatch { (known : Option (List ℕ)) → IfSome known (λ c. lines.now ≡ input_lines c)
        → ReportsMismatch (mode_of listing.entry) request.now program.now known
        result.served result.mismatch }
    ensures no_line { result.line ≡ None }
{
    match explorer_from(alloc, request, program, lines, listing) {
        Ok(explorer) => match write_reports(explorer, listing.first, listing.form, out) {
            Ok(_) => Attempt::without_mismatch(Ok(0)),
            Err(broken) => Attempt::without_mismatch(Err(Note::from(broken))),
        },
        Err(why) => Attempt::unstarted(why),
    }
}

// Writes the reports of the runs that an explorer has left, or of the first of them, and drops it. This body owns the
// explorer because it has few exits: each exit of a body is proved with all that the body owns.
fn write_reports<W: Write>(
    mut explorer: Explorer<'_>,
    first: Option<u64>,
    form: Form,
    out: &mut W,
) -> Result<u64, ExploreFault>
    ensures writes { (front : Front) × WritesRuns (play_of explorer.entry) explorer.entry.prefix
        (report form (play_of explorer.entry))
        (runs_left (play_of explorer.entry) (most_of explorer.entry) explorer.entry.prefix
        explorer.entry.front first)
        explorer.entry.front front (W.contents out.old) (W.contents out.new) result }
    ensures failed { FailsAfterSome result (W.failures out.old) (W.failures out.new) }
    ensures unfailed { FailsOnlyAfterSome result (W.failures out.old) (W.failures out.new) }
{
    write_all_runs(&mut explorer, first, form, out)
}

// The items of a list, if it is named.
fn named_items(list: &Option<MarkedAnswers>) -> Option<&[Marked]>
    ensures { option_copied result ≡ list.now }
{
    match list {
        None => None,
        Some(list) => Some(list.as_slice()),
    }
}

// The items of a list; none where it is not named.
fn items(list: &Option<MarkedAnswers>) -> &[Marked]
    ensures { result.now ≡ items_of list.now }
{
    match list {
        None => &[],
        Some(list) => list.as_slice(),
    }
}

// An explorer of the runs of a listing: before the first of them, or at the run after which the listing
// begins. The answers with which each run begins are looked at first.
fn explorer_from<'a>(
    alloc: Global,
    request: &Request,
    program: &'a Program,
    lines: &'a [Line],
    listing: Listing,
) -> Result<Explorer<'a>, OpenFault>
    ensures explorer { IfOk result (λ e. e ≡ exploration program.now lines.now request.now.rules
        (share_prefix listing.entry.under.now) (first_front listing.entry.after.now) e.kept e.played) }
    ensures begun { OnOk result (front_note (play program.now lines.now request.now.rules)
        listing.entry.under.now listing.entry.after.now ≡ None) }
    ensures unstarted { IfErr result (IsUnstarted (play program.now lines.now request.now.rules)
        listing.entry.under.now listing.entry.after.now) }
{
    let under = items(listing.under);
    let explorer = Explorer::under(alloc, program, lines, request.rules, under)?;
    match named_items(listing.after) {
        None => Ok(explorer),
        Some(list) => explorer.go_to(list),
    }
}
