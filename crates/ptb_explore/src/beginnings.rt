// This file writes the lists that split all runs of a program, by `write_beginnings`.

ghost use Rattle.std.specs.Prelude.{◌≡◌, ◌+◌, ◌<◌, ◌≤◌, ℕ, Ok, None, [], false, IfOk, OnErr, IsErrOf};
ghost use Rattle.ptb_explore.specs.Prelude.{Answers, bounds_of, answers_in, bounds_in, beginning_line, split_play};
ghost use Rattle.ptb_explore.specs.Prelude.{stopped, IsSameSearch, AreCopiesAt, game_of, PlaysLists, PlaysOneListMore};
ghost use Rattle.ptb_explore.specs.Prelude.{FailsToWrite, FailsOnlyToWrite, NextWrites, WritesRuns, IsPosition};
ghost use Rattle.ptb_explore.specs.Prelude.{front_at, At, runs_left, FailsAfterSome, FailsOnlyAfterSome};

use crate::beginning_search::find_beginning;
use crate::fault::ExploreFault;
use crate::plan::ListingPosition;
use crate::report_text::write_list;
use crate::runner::Runner;
use ptb_answers::{Answers, Asked, Bounds, Form};
use ptb_machine::{Line, Rules, run_laws};
use ptb_text::{DeviceFault, Program, Write};
use std::alloc::{AllocError, Global};
use std::marker::Model;

/// Finds the lists of answers that split the runs of a program, one after the other, in the order of
/// their answers: the runs of at most `most` answers, and the lists of `most` answers after which the
/// program asks again.
///
/// No play goes past the question after its first `most` answers. As an
/// [`Explorer`](crate::Explorer) does, it keeps copies of the machine, so that the next play starts
/// from the last place at which it is the same.
#[derive(Drop)]
pub struct Beginnings<'a> {
    /// Plays the program; its report has the answers and bounds of the list at which the search is.
    runner: Runner<'a>,
    /// The most answers that a list has.
    most: usize,
    /// Where the search is.
    position: ListingPosition,
}

impl<'a> Model for Beginnings<'a> {
    ghost use Rattle.std.specs.Prelude.{[]};
    ghost use Rattle.std.specs.Coded.{codes};
    ghost use Rattle.ptb_answers.specs.contracts.rules.Rules as rules_type;
    ghost use Rattle.ptb_explore.specs.Prelude.{answers_in, bounds_in, Splitting, stopped, AreCopiesAt, game_of};
    ghost use Rattle.ptb_explore.specs.Prelude.{IsPosition, front_at};

    ghost Value = { Splitting };

    // that of its rules is given, since they state a fact
    ghost coded = { Prim.hlevel (codes, rules_type.the_row.coded) };

    ghost view = { λ b. record {
      program = b.runner.player;
      input = b.runner.lines.now;
      rules = b.runner.rules;
      most = b.most;
      front = front_at b.position (answers_in b.runner.report.asked.items);
      played = b.runner.played;
    } };

    ghost invariant = { λ b. IsPosition (stopped b.most (game_of b.runner)) []
        b.position (answers_in b.runner.report.asked.items) (bounds_in b.runner.report.asked.items)
        × AreCopiesAt b.runner.player b.runner.lines.now b.runner.rules b.position b.runner.report
        b.runner.copies.kept.items };
}

impl<'a> Beginnings<'a> {
    ghost use Rattle.ptb_explore.specs.Prelude.{MovesTo, PlaysList, play_limit, IsLast, Start};

    /// A search for the lists of at most `most` answers, before the first of them.
    ///
    /// # Errors
    ///
    /// Where a growth was refused memory.
    pub fn start(
        alloc: Global,
        program: &'a Program,
        lines: &'a [Line],
        rules: Rules,
        most: usize,
    ) -> Result<Beginnings<'a>, AllocError>
        ensures { IfOk result (λ b. b ≡ record {
          program = program.now;
          input = lines.now;
          rules = rules;
          most = most;
          front = Start;
          played = 0;
        }) }
    {
        run_laws();
        Ok(Beginnings {
            runner: Runner::new(alloc, program, lines, rules)?,
            most,
            position: ListingPosition::AtStart,
        })
    }

    /// Moves on to the next list, and says whether there is one. Where there is none, every later call
    /// says so, too.
    ///
    /// # Errors
    ///
    /// Where a growth was refused memory, never where no list is left. The search is where it
    /// was then, and a further call looks for that list once more.
    ///
    /// What [`played`](Beginnings::played) gives doesn't fall, and rises by no more than the commands
    /// that the play of the list begins, to its end or to the question that follows the list; after
    /// refused memory by less than 4,294,967,296.
    ///
    /// Public so that tests can try it.
    pub fn next(&mut self) -> Result<bool, AllocError>
        ensures same { IsSameSearch self.old self.new }
        ensures next { IfOk result (MovesTo (stopped self.old.most (split_play self.old))
            self.old.front self.new.front) }
        ensures unmoved { OnErr result (self.new.front ≡ self.old.front) }
        ensures ended { IsLast (stopped self.old.most (split_play self.old)) [] self.old.front
            → result ≡ Ok false }
        ensures played { IfOk result (PlaysList self.old self.new) }
        ensures rises { self.old.played ≤ self.new.played }
        ensures once { self.new.played < self.old.played + play_limit }
    {
        run_laws();
        let found = find_beginning(&mut self.runner, self.most, self.position);
        match found {
            Ok(true) => {
                self.position = ListingPosition::AtRun;
                Ok(true)
            }
            Ok(false) => {
                self.runner.copies.clear();
                self.position = ListingPosition::AtEnd;
                Ok(false)
            }
            Err(fault) => {
                self.runner.copies.clear();
                Err(fault)
            }
        }
    }

    /// How many commands were played for the lists so far; `u64::MAX` where there were more. A call of
    /// [`next`](Beginnings::next) that is refused memory adds fewer than 4,294,967,296.
    ///
    /// For users of the library: the program doesn't call it.
    pub fn played(&self) -> u64
        ensures { result ≡ self.now.played }
    {
        self.runner.played
    }

    /// The answers of the list at which the search is, each with its bound.
    ///
    /// Public so that tests can try it.
    pub fn asked(&self) -> &[Asked]
        ensures answers { (u : Answers) → self.now.front ≡ At u → answers_in result.now ≡ u }
        ensures bounds { (u : Answers) → self.now.front ≡ At u
            → bounds_in result.now ≡ bounds_of (split_play self.now) u }
    {
        run_laws();
        &self.runner.report.asked
    }

    /// The answers of the list at which the search is, in order.
    ///
    /// For users of the library: the program calls [`asked`](Beginnings::asked).
    pub fn answers(&self) -> Answers<'_>
        ensures { (u : Answers) → self.now.front ≡ At u → result ≡ u }
    {
        Answers::new(self.asked())
    }

    /// The bounds of the questions that this list answers, in order.
    ///
    /// For users of the library: the program calls [`asked`](Beginnings::asked).
    pub fn bounds(&self) -> Bounds<'_>
        ensures { (u : Answers) → self.now.front ≡ At u → result ≡ bounds_of (split_play self.now) u }
    {
        Bounds::new(self.asked())
    }
}

// Writes the line of the next list, and says whether there is one.
fn write_next_line<W: Write>(
    beginnings: &mut Beginnings,
    form: Form,
    writer: &mut W,
) -> Result<bool, DeviceFault>
    ensures same { IsSameSearch beginnings.old beginnings.new }
    ensures rises { beginnings.old.played ≤ beginnings.new.played }
    ensures played { ¬ IsErrOf result DeviceFault.Memory → PlaysLists beginnings.old beginnings.new }
    ensures once { PlaysOneListMore beginnings.old beginnings.new }
    ensures writes { NextWrites (stopped beginnings.old.most (split_play beginnings.old)) []
        (beginning_line form (split_play beginnings.old)) beginnings.old.front beginnings.new.front
        (W.contents writer.old) (W.contents writer.new) result }
    ensures failed { FailsToWrite result (W.failures writer.old) (W.failures writer.new) }
    ensures unfailed { FailsOnlyToWrite result (W.failures writer.old) (W.failures writer.new) }
{
    run_laws();
    match beginnings.next() {
        Err(_) => Err(DeviceFault::Memory),
        Ok(false) => Ok(false),
        Ok(true) => {
            match write_list(writer, form, beginnings.asked()) {
                Ok(()) => Ok(true),
                Err(_) => Err(DeviceFault::Write),
            }
        }
    }
}

/// Writes the lists that are left, a line each, in the order of their answers and in this form. The
/// number of lines, or `u64::MAX` where there were more.
///
/// # Errors
///
/// [`ExploreFault::Memory`] where a growth was refused memory, [`ExploreFault::Write`] where the
/// writer failed, each with the number of complete lines that were written. The search is then
/// at the last of these lists, or at the one whose line was begun. Both come only while a line was
/// still to be written. The commands that were played count in [`played`](Beginnings::played): at
/// most those that the plays of the lists begin that were written, or whose line was begun, and those
/// of one play that was refused memory.
pub fn write_beginnings<W: Write>(
    beginnings: &mut Beginnings,
    form: Form,
    writer: &mut W,
) -> Result<u64, ExploreFault>
    ensures same { IsSameSearch beginnings.old beginnings.new }
    ensures rises { beginnings.old.played ≤ beginnings.new.played }
    ensures played { ((n : ℕ) → ¬ IsErrOf result (ExploreFault.Memory n))
        → PlaysLists beginnings.old beginnings.new }
    ensures once { PlaysOneListMore beginnings.old beginnings.new }
    ensures writes { WritesRuns (stopped beginnings.old.most (split_play beginnings.old)) []
        (beginning_line form (split_play beginnings.old))
        (runs_left (stopped beginnings.old.most (split_play beginnings.old)) beginnings.old.most []
        beginnings.old.front None)
        beginnings.old.front beginnings.new.front
        (W.contents writer.old) (W.contents writer.new) result }
    ensures failed { FailsAfterSome result (W.failures writer.old) (W.failures writer.new) }
    ensures unfailed { FailsOnlyAfterSome result (W.failures writer.old) (W.failures writer.new) }
{
    run_laws();
    let mut written: u64 = 0;
    loop {
        match write_next_line(beginnings, form, writer) {
            Ok(true) => {}
            Ok(false) => return Ok(written),
            Err(fault) => return Err(ExploreFault::after(fault, written)),
        }
        written = written.saturating_add(1);
    }
}
