// This file opens explorers: before the first of their runs, or at one of them.

ghost use Rattle.std.specs.Prelude.{◌≡◌, List, true, [], IfOk, OnOk, IsErrOf};
ghost use Rattle.ptb_explore.specs.Prelude.{answers_of, unmarked, Answers, bounds_of, play, most_answers, answers_in};
ghost use Rattle.ptb_explore.specs.Prelude.{bounds_in, ArePrefixes, AreCopies, exploration, game_of, play_of};
ghost use Rattle.ptb_explore.specs.Prelude.{IsAdded, IsPlayed, IsSameGame, TreeLaws, IsMarkedRun, IsMarkedBeginning};
ghost use Rattle.ptb_explore.specs.Prelude.{IsItemMismatch, IsRunMismatch, At, IsNextRun, IsRun, Start, begins_with};

use crate::explorer::Explorer;
use crate::fault::OpenFault;
use crate::item_lists::{copied_list, items_begin_with, unmarked};
use crate::mismatch::{Mismatch, item_mismatch, run_mismatch};
use crate::plan::ListingPosition;
use crate::runner::Runner;
use ptb_answers::Marked;
use ptb_machine::{Line, Rules, run_laws};
use ptb_text::Program;
use std::alloc::{AllocError, Global};

impl<'a> Runner<'a> {
    // Plays the answers of a list, and makes the report of their run, if they are a run and each bound
    // that is stated is that of its question.
    fn check_run(&mut self, list: &[Marked]) -> Result<(), OpenFault>
        ensures same { IsSameGame self.old self.new }
        ensures run { OnOk result (IsMarkedRun (game_of self.old) list.now) }
        ensures answers { OnOk result
            (answers_in self.new.report.asked.items ≡ answers_of list.now) }
        ensures bounds { OnOk result (bounds_in self.new.report.asked.items
            ≡ bounds_of (game_of self.old) (answers_of list.now)) }
        ensures copies { OnOk result (AreCopies self.old.player self.old.lines.now self.old.rules
            (answers_of list.now) self.new.report.transcript.items self.new.copies.kept.items) }
        ensures played { OnOk result (IsAdded (game_of self.old) (answers_of list.now)
            self.old.played self.new.played) }
        ensures mismatch { (m : Mismatch) → IsErrOf result (OpenFault.NotARun m)
            → IsRunMismatch (game_of self.old) [] list.now m }
        ensures kind { (m : Mismatch) → ¬ IsErrOf result (OpenFault.NoBeginning m) }

        // Memory is refused to the play, before its steps are known, and never to the comparison.
        ensures memory { IsErrOf result OpenFault.Memory → self.new.played ≡ self.old.played }
    {
        run_laws();
        self.copies.clear();
        self.chooser.replay(list)?;
        let ending = self.play_from_start()?;
        if let Some(mismatch) = run_mismatch(list, &self.chooser, ending) {
            return Err(OpenFault::NotARun(mismatch));
        }
        self.chooser.exchange_answers(&mut self.report.asked);
        Ok(())
    }

    // Plays the answers of a list and then ones, and looks whether all of the answers are taken and
    // each bound that is stated is that of the question: a run begins with the list then.
    fn check_beginning(&mut self, list: &[Marked]) -> Result<(), OpenFault>
        requires none { self.old.copies.kept.items ≡ [] }
        ensures same { IsSameGame self.old self.new }
        ensures beginning { OnOk result (IsMarkedBeginning (game_of self.old) list.now) }
        ensures none { OnOk result (self.new.copies.kept.items ≡ []) }
        ensures played { OnOk result ((a : Answers)
            → IsNextRun (game_of self.old) (answers_of list.now) Start a
            → IsAdded (game_of self.old) a self.old.played self.new.played) }
        ensures mismatch { (m : Mismatch) → IsErrOf result (OpenFault.NoBeginning m)
            → IsItemMismatch (game_of self.old) list.now m }
        ensures kind { (m : Mismatch) → ¬ IsErrOf result (OpenFault.NotARun m) }

        // Memory is refused before the steps are known, and never to the comparison.
        ensures memory { IsErrOf result OpenFault.Memory → self.new.played ≡ self.old.played }
    {
        run_laws();
        self.chooser.replay(list)?;
        let ending = self.play_from_start()?;
        self.copies.clear();
        match item_mismatch(list, &self.chooser, ending) {
            None => Ok(()),
            Some(mismatch) => Err(OpenFault::NoBeginning(mismatch)),
        }
    }
}

impl<'a> Explorer<'a> {
    ghost use Rattle.std.specs.Prelude.{IfSome, option_copied};
    ghost use Rattle.ptb_explore.specs.Explorations.{AreKeptAt};
    ghost use Rattle.ptb_explore.specs.Openings.{first_front, IsRunWithPrefix, IsRefusedRun, IsPlayedBefore};
    ghost use Rattle.ptb_explore.specs.Openings.{IsPlayedFor};

    // An explorer of the runs that begin with the answers of `prefix`, of all runs where that is empty:
    // before the first of them, or at the run `after`, if one is named. Some of the answers of both
    // lists may have their bounds. `prefix` is looked at first; nothing is played for an empty one.
    fn open(
        alloc: Global,
        program: &'a Program,
        lines: &'a [Line],
        rules: Rules,
        prefix: &[Marked],
        after: Option<&[Marked]>,
    ) -> Result<Explorer<'a>, OpenFault>
        ensures opened { IfOk result (λ e. e ≡ exploration program.now lines.now rules
            (answers_of prefix.now) (first_front (option_copied after.entry)) e.kept e.played) }
        ensures beginning { OnOk result
            (IsMarkedBeginning (play program.now lines.now rules) prefix.now) }
        ensures run { OnOk result (IfSome (option_copied after.entry)
            (IsRunWithPrefix (play program.now lines.now rules) prefix.now)) }
        ensures kept { IfOk result (λ e. AreKeptAt (first_front (option_copied after.entry)) e.kept) }
        ensures played { IfOk result (λ e. IsPlayedFor (play program.now lines.now rules) prefix.now
            (option_copied after.entry) e.played) }
        ensures no_beginning { (m : Mismatch) → IsErrOf result (OpenFault.NoBeginning m)
            → IsMarkedBeginning (play program.now lines.now rules) prefix.now → ⊥ }
        ensures not_a_run { (m : Mismatch) → IsErrOf result (OpenFault.NotARun m)
            → IsMarkedBeginning (play program.now lines.now rules) prefix.now × IfSome (option_copied after.entry)
            (λ list. IsRunWithPrefix (play program.now lines.now rules) prefix.now list → ⊥) }
        ensures mismatch { (m : Mismatch) → IsErrOf result (OpenFault.NoBeginning m)
            → IsItemMismatch (play program.now lines.now rules) prefix.now m }
        ensures run_mismatch { (m : Mismatch) → IsErrOf result (OpenFault.NotARun m)
            → IsRefusedRun (play program.now lines.now rules) prefix.now (option_copied after.entry) m }

        // Laws of the definitions.
        ensures laws { TreeLaws (play program.now lines.now rules)
            (most_answers program.now lines.now rules.limit) }
    {
        run_laws();
        let items = copied_list(alloc, prefix)?;
        let mut runner = Runner::new(alloc, program, lines, rules)?;
        if !prefix.is_empty() {
            runner.check_beginning(prefix)?;
        }
        let explorer = Explorer {
            runner,
            prefix: items,
            position: ListingPosition::AtStart,
        };
        match after {
            None => Ok(explorer),
            Some(list) => explorer.go_to(list),
        }
    }

    /// An explorer before the first run of a program with these input lines. Each run is played by
    /// these rules.
    ///
    /// For users of the library: the program calls [`under`](Explorer::under).
    ///
    /// # Errors
    ///
    /// Where a growth was refused memory.
    pub fn start(
        alloc: Global,
        program: &'a Program,
        lines: &'a [Line],
        rules: Rules,
    ) -> Result<Explorer<'a>, AllocError>
        ensures start { IfOk result (λ e.
            e ≡ exploration program.now lines.now rules [] Start [] 0) }

        // Laws of the definitions.
        ensures laws { TreeLaws (play program.now lines.now rules)
            (most_answers program.now lines.now rules.limit) }
    {
        // Each run begins with no answers, and no run is named. So memory alone can be missing.
        Explorer::open(alloc, program, lines, rules, &[], None).or(Err(AllocError))
    }

    /// An explorer before the first of the runs that begin with the answers of a list, of which some
    /// may have their bounds. Unless the list is empty, it has played the first of them, which shows
    /// that a run begins so.
    ///
    /// # Errors
    ///
    /// [`OpenFault::NoBeginning`] with the reason where no run begins with the answers, or a bound that
    /// is stated is not that of its question; [`OpenFault::Memory`] where a growth was refused memory.
    pub fn under(
        alloc: Global,
        program: &'a Program,
        lines: &'a [Line],
        rules: Rules,
        list: &[Marked],
    ) -> Result<Explorer<'a>, OpenFault>
        ensures under { IfOk result (λ e.
            e ≡ exploration program.now lines.now rules (answers_of list.now) Start [] e.played) }
        ensures beginning { OnOk result
            (IsMarkedBeginning (play program.now lines.now rules) list.now) }
        ensures played { IfOk result (λ e.
            IsPlayedBefore (play program.now lines.now rules) list.now e.played) }
        ensures no_beginning { (m : Mismatch) → IsErrOf result (OpenFault.NoBeginning m)
            → IsMarkedBeginning (play program.now lines.now rules) list.now → ⊥ }
        ensures mismatch { (m : Mismatch) → IsErrOf result (OpenFault.NoBeginning m)
            → IsItemMismatch (play program.now lines.now rules) list.now m }
        ensures kind { (m : Mismatch) → ¬ IsErrOf result (OpenFault.NotARun m) }

        // Laws of the definitions.
        ensures laws { TreeLaws (play program.now lines.now rules)
            (most_answers program.now lines.now rules.limit) }
    {
        Explorer::open(alloc, program, lines, rules, list, None)
    }

    /// An explorer that is at the run of the answers of a list, of which some may have their
    /// bounds.
    ///
    /// For users of the library: the program calls [`go_to`](Explorer::go_to).
    ///
    /// # Errors
    ///
    /// [`OpenFault::NotARun`] with the reason where the answers are no run, or a bound that is stated
    /// is not that of its question; [`OpenFault::Memory`] where a growth was refused memory.
    pub fn after_marked(
        alloc: Global,
        program: &'a Program,
        lines: &'a [Line],
        rules: Rules,
        list: &[Marked],
    ) -> Result<Explorer<'a>, OpenFault>
        ensures after { IfOk result (λ e. e ≡ exploration program.now lines.now rules
            [] (At (answers_of list.now)) e.kept e.played) }
        ensures run { OnOk result (IsMarkedRun (play program.now lines.now rules) list.now) }
        ensures kept { IfOk result (λ e. ArePrefixes 0 (answers_of list.now) e.kept) }
        ensures played { IfOk result (λ e.
            IsPlayed (play program.now lines.now rules) (answers_of list.now) e.played) }
        ensures not_a_run { (m : Mismatch) → IsErrOf result (OpenFault.NotARun m)
            → IsMarkedRun (play program.now lines.now rules) list.now → ⊥ }
        ensures mismatch { (m : Mismatch) → IsErrOf result (OpenFault.NotARun m)
            → IsRunMismatch (play program.now lines.now rules) [] list.now m }
        ensures kind { (m : Mismatch) → ¬ IsErrOf result (OpenFault.NoBeginning m) }

        // Laws of the definitions.
        ensures laws { TreeLaws (play program.now lines.now rules)
            (most_answers program.now lines.now rules.limit) }
    {
        Explorer::open(alloc, program, lines, rules, &[], Some(list))
    }

    /// An explorer that is at the run of these answers.
    ///
    /// For users of the library: the program calls [`go_to`](Explorer::go_to).
    ///
    /// # Errors
    ///
    /// [`OpenFault::NotARun`] with the reason where the answers are no run, [`OpenFault::Memory`]
    /// where a growth was refused memory.
    pub fn after(
        alloc: Global,
        program: &'a Program,
        lines: &'a [Line],
        rules: Rules,
        answers: &[i16],
    ) -> Result<Explorer<'a>, OpenFault>
        ensures after { IfOk result (λ e.
            e ≡ exploration program.now lines.now rules [] (At answers.now) e.kept e.played) }
        ensures run { OnOk result (IsRun (play program.now lines.now rules) answers.now) }
        ensures kept { IfOk result (λ e. ArePrefixes 0 answers.now e.kept) }
        ensures played { IfOk result (λ e.
            IsPlayed (play program.now lines.now rules) answers.now e.played) }
        ensures not_a_run { (m : Mismatch) → IsErrOf result (OpenFault.NotARun m)
            → IsRun (play program.now lines.now rules) answers.now → ⊥ }
        ensures mismatch { (m : Mismatch) → IsErrOf result (OpenFault.NotARun m)
            → IsRunMismatch (play program.now lines.now rules) [] (unmarked answers.now) m }
        ensures kind { (m : Mismatch) → ¬ IsErrOf result (OpenFault.NoBeginning m) }

        // Laws of the definitions.
        ensures laws { TreeLaws (play program.now lines.now rules)
            (most_answers program.now lines.now rules.limit) }
    {
        run_laws();
        let list = unmarked(alloc, answers)?;
        Explorer::open(alloc, program, lines, rules, &[], Some(&list))
    }

    /// Moves to the run of the answers of a list, of which some may have their bounds.
    ///
    /// # Errors
    ///
    /// [`OpenFault::NotARun`] with the reason where the answers do not begin as each run of the
    /// listing does, or are no run, or a bound that is stated is not that of its question;
    /// [`OpenFault::Memory`] where a growth was refused memory, never where the answers do not begin
    /// so.
    pub fn go_to(mut self, list: &[Marked]) -> Result<Explorer<'a>, OpenFault>
        ensures there { IfOk result (λ e. e ≡ record self.entry {
          front = At (answers_of list.now);
          kept = e.kept;
          played = e.played;
        }) }
        ensures run { OnOk result (IsMarkedRun (play_of self.entry) list.now) }
        ensures begins { OnOk result (begins_with (answers_of list.now) self.entry.prefix ≡ true) }
        ensures kept { IfOk result (λ e. ArePrefixes 0 (answers_of list.now) e.kept) }
        ensures played { IfOk result (λ e.
            IsAdded (play_of self.entry) (answers_of list.now) self.entry.played e.played) }
        ensures not_a_run { (m : Mismatch) → IsErrOf result (OpenFault.NotARun m)
            → IsMarkedRun (play_of self.entry) list.now
            → begins_with (answers_of list.now) self.entry.prefix ≡ true → ⊥ }
        ensures mismatch { (under : List Marked) → answers_of under ≡ self.entry.prefix
            → (m : Mismatch) → IsErrOf result (OpenFault.NotARun m)
            → IsRunMismatch (play_of self.entry) under list.now m }
        ensures kind { (m : Mismatch) → ¬ IsErrOf result (OpenFault.NoBeginning m) }
        ensures memory { IsErrOf result OpenFault.Memory
            → begins_with (answers_of list.now) self.entry.prefix ≡ true }
    {
        run_laws();
        if !items_begin_with(list, &self.prefix) {
            return Err(OpenFault::NotARun(Mismatch::NotUnder));
        }
        self.runner.check_run(list)?;
        self.position = ListingPosition::AtRun;
        Ok(self)
    }
}
