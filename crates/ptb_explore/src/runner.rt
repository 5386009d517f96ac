// This file has what plays the runs of a program, one after the other: `Runner`, by `play_plan`.

ghost use Rattle.std.specs.Prelude.{◌≡◌, ◌+◌, ◌<◌, ◌≤◌, false, [], length, drop, IfOk, OnOk};
ghost use Rattle.ptb_explore.specs.Prelude.{play, answers_in, bounds_in, Agrees, AreCopies, PlaysOn, WentBack};
ghost use Rattle.ptb_explore.specs.Prelude.{last_steps, play_limit, game_of, IsSameGame, Resumes, IsRunPrefix};
ghost use Rattle.ptb_explore.specs.Prelude.{PlayEnds, IsFresh, play_steps, recorder_choices, recorded};

use crate::copies::Copies;
use crate::recorder::Recorder;
use crate::report::Report;
use ptb_machine::{Line, Lines, Machine, Player, Rules, TextScreen};
use ptb_text::Program;
use std::alloc::{AllocError, Global};
use std::mem;

/// Plays runs of a program, one after the other, on the same lines and by the same rules, and has the
/// report of one of them.
///
/// One player plays them all, so that the program is translated once.
#[derive(Drop)]
pub(crate) struct Runner<'a> {
    /// Plays the runs.
    pub(crate) player: Player<'a>,
    /// The lines that answer INPUT, in each run from the first on.
    pub(crate) lines: &'a [Line],
    /// By which each run is played.
    pub(crate) rules: Rules,
    /// Plans the next run, and answers its questions.
    pub(crate) chooser: Recorder,
    /// The report of the run that was found last.
    pub(crate) report: Report,
    /// Copies of the machine, as it was in that run.
    pub(crate) copies: Copies,
    /// How many commands were played.
    pub(crate) played: u64,
    /// Where memory comes from.
    pub(crate) alloc: Global,
}

impl<'a> Runner<'a> {
    /// A runner that has played nothing.
    ///
    /// # Errors
    ///
    /// Where a growth was refused memory.
    pub(crate) fn new(
        alloc: Global,
        program: &'a Program,
        lines: &'a [Line],
        rules: Rules,
    ) -> Result<Runner<'a>, AllocError>
        ensures program { IfOk result (λ r. r.player ≡ program.now) }
        ensures lines { IfOk result (λ r. r.lines.now ≡ lines.now) }
        ensures rules { IfOk result (λ r. r.rules ≡ rules) }
        ensures none { IfOk result (λ r. r.copies.kept.items ≡ []) }
        ensures played { IfOk result (λ r. r.played ≡ 0) }
    {
        Ok(Runner {
            player: Player::new(alloc, program)?,
            lines,
            rules,
            chooser: Recorder::new(alloc),
            report: Report::new(alloc),
            copies: Copies::new(),
            played: 0,
            alloc,
        })
    }

    // Goes back to the newest copy whose answers are among the first that the plan and the report have
    // in common, or to the beginning of a run, and gives the machine that is there.
    #[inline(always)]
    fn go_back(
        &mut self,
        common: usize,
        screen: &mut TextScreen,
        source: &mut Lines,
    ) -> Result<Box<Machine>, AllocError>
        requires fresh { IsFresh self.old.chooser }
        requires begins { source.old.taken ≡ 0 }
        requires agrees { Agrees (play self.old.player source.old.lines self.old.rules) common
            (recorded self.old.chooser) (answers_in self.old.report.asked.items)
            (bounds_in self.old.chooser.asked.items) }
        requires copies { AreCopies self.old.player source.old.lines self.old.rules
            (answers_in self.old.report.asked.items) screen.old self.old.copies.kept.items }
        ensures same { self.new ≡ record self.old {
          chooser = self.new.chooser;
          copies = self.new.copies;
        } }
        ensures plan { (recorder_choices self.new.chooser).plan ≡ recorded self.old.chooser }
        ensures same_lines { source.new.lines ≡ source.old.lines }
        ensures within { OnOk result (source.new.taken ≤ length source.new.lines) }
        ensures unspent { IfOk result (λ b. b.value.spent ≡ false) }
        ensures run_prefix { IfOk result (λ b. IsRunPrefix self.old.player source.old.lines
            self.old.rules (recorder_choices self.new.chooser) screen.new
            (drop source.new.taken source.new.lines) b.value) }
        ensures copies { OnOk result (AreCopies self.old.player source.old.lines self.old.rules
            (recorder_choices self.new.chooser).taken screen.new self.new.copies.kept.items) }
        ensures back { OnOk result
            (WentBack common self.old.copies.kept.items self.new.copies.kept.items) }
        ensures steps { IfOk result (λ b. b.value.steps ≡ last_steps self.new.copies.kept.items) }
    {
        match self.copies.go_back(self.alloc, common)? {
            None => {
                screen.cut(0);
                self.copies.start(self.alloc, &self.player)
            }
            Some(copy) => {
                self.chooser.assume_given(copy.taken);
                screen.cut(copy.shown);
                source.go(copy.lines);
                match copy.machine {
                    Some(machine) => Ok(machine),
                    None => unreachable!(),
                }
            }
        }
    }

    /// Plays its plan on from a copy, for the steps and the transcript of the report, which keeps its
    /// answers. The first answers of the plan are those of the report, as many as `common` says. The
    /// steps are added to those played.
    ///
    /// # Errors
    ///
    /// Where a growth was refused memory.
    #[inline(always)]
    pub(crate) fn play_plan(&mut self, common: usize) -> Result<(), AllocError>
        requires { Resumes self.old common }
        ensures same { IsSameGame self.old self.new }
        ensures plan { OnOk result
            ((recorder_choices self.new.chooser).plan ≡ recorded self.old.chooser) }
        ensures ends { OnOk result (PlayEnds (game_of self.old) (recorder_choices self.new.chooser)
            self.new.chooser.refused_bound
            self.new.report.steps self.new.report.transcript.items self.new.report.ending) }
        ensures begun { OnOk result (self.new.report.steps ≡ play_steps self.old.player
            self.old.lines.now self.old.rules (recorder_choices self.new.chooser).taken) }
        ensures asked { self.new.report.asked.items ≡ self.old.report.asked.items }
        ensures copies { OnOk result (AreCopies self.old.player self.old.lines.now self.old.rules
            (recorder_choices self.new.chooser).taken self.new.report.transcript.items
            self.new.copies.kept.items) }
        ensures played { OnOk result (PlaysOn common self.old.copies.kept.items self.old.played
            self.new.report.steps self.new.played) }
        ensures rises { self.old.played ≤ self.new.played }
        ensures once { self.new.played < self.old.played + play_limit }
    {
        let transcript = mem::replace(&mut self.report.transcript, Vec::new(self.alloc));
        let mut screen = TextScreen::from_vec(transcript);
        let mut source = Lines::new(self.lines);
        let machine = self.go_back(common, &mut screen, &mut source);
        let mut machine = machine?;
        let ending = self.play_counted(&mut machine, &mut screen, &mut source);
        let steps = machine.steps();
        self.copies.recycle(machine);
        self.report.transcript = screen.into_vec();
        self.report.ending = ending?;
        self.report.steps = steps;
        Ok(())
    }
}
