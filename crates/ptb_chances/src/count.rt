// This file adds up the chances of all runs of a program. Plays that come to the same state are
// continued together.

ghost use Rattle.std.specs.Prelude.{◌≡◌, ◌<◌, [], ◌∷◌, IfOk, OnOk};
ghost use Rattle.ptb_chances.specs.Prelude.{lines, play, most_answers, last_line, tree, AddsRow, IsAccountOf};
ghost use Rattle.ptb_chances.specs.Prelude.{IsTallied, work_to_do, planned, waiting_plays};

use crate::last_line::last_line;
use crate::plays::{PlayDevices, Played};
use crate::result_key::ResultKey;
use crate::stage::Stage;
use crate::tally::Tally;
use crate::watch::Watch;
use crate::worklist::{Plan, SavedState, Worklist};
use ptb_machine::{Ending, Line, Lines, Player, Rules, TextScreen, run_laws};
use ptb_text::Program;
use std::alloc::{AllocError, Global};

// Adds plays that are over to a tally, by what they showed last.
fn add_over(
    alloc: Global,
    ending: Ending,
    shown: &[u8],
    plan: &Plan,
    tally: &mut Tally,
) -> Result<(), AllocError>
    ensures { OnOk result (AddsRow tally.old (record {
      result = record { ending = ending; line = last_line (lines shown.now) };
      chance = plan.now.chance;
      runs = plan.now.runs;
    }) tally.new) }
{
    let key = ResultKey {
        ending,
        line: Vec::from_slice(alloc, last_line(shown))?,
    };
    tally.add(alloc, key, &plan.chance, &plan.runs)
}

// After each such number of plans, the watch is asked whether progress is due.
const PLANS: u32 = 256;

// How far the runs of a program are counted.
#[derive(Drop)]
struct Count<'p, 'l> {
    stage: Stage<'p, 'l>,
    work: Worklist,
    tally: Tally,
}

impl<'p, 'l> Count<'p, 'l> {
    // No run is counted yet, and one play is left to be played, from the beginning of the program.
    fn start(
        alloc: Global,
        program: &'p Program,
        lines: &'l [Line],
        rules: Rules,
    ) -> Result<Count<'p, 'l>, AllocError>
        ensures program { IfOk result (λ count. count.stage.player ≡ program.now) }
        ensures lines { IfOk result (λ count. count.stage.devices.source.lines ≡ lines.now) }
        ensures rules { IfOk result (λ count. count.stage.rules ≡ rules) }
        ensures counted { IfOk result (λ count.
            IsTallied count.stage count.tally (waiting_plays count.work)) }
    {
        run_laws();
        let player = Player::new(alloc, program)?;
        let machine = player.machine(alloc)?;
        let work = Worklist::start(alloc, &player)?;
        let devices = PlayDevices {
            screen: TextScreen::new(alloc),
            source: Lines::new(lines),
        };
        Ok(Count {
            stage: Stage {
                player,
                rules,
                machine,
                devices,
                before: SavedState::new(alloc),
            },
            work,
            tally: Tally::new(alloc),
        })
    }

    // Plays a plan that was taken out of the work. Plays that are over are counted; others are put back.
    fn settle(&mut self, alloc: Global, plan: Plan) -> Result<(), AllocError>
        requires { IsTallied self.old.stage self.old.tally
            (planned self.old.work.state plan ∷ waiting_plays self.old.work) }
        ensures player { self.new.stage.player ≡ self.old.stage.player }
        ensures rules { self.new.stage.rules ≡ self.old.stage.rules }
        ensures lines { self.new.stage.devices.source.lines
            ≡ self.old.stage.devices.source.lines }
        ensures counted { OnOk result (IsTallied self.old.stage self.new.tally
            (waiting_plays self.new.work)) }
        ensures less { OnOk result (work_to_do self.old.stage (waiting_plays self.new.work)
            < work_to_do self.old.stage
            (planned self.old.work.state plan ∷ waiting_plays self.old.work)) }
    {
        run_laws();
        let played = self.stage.play(alloc, &self.work.state, &plan)?;
        match played {
            Played::Over(ending) => {
                let shown = self.stage.devices.screen.bytes();
                add_over(alloc, ending, shown, &plan, &mut self.tally)
            }
            Played::Asks(bound) => self.work.add_plans(alloc, &plan, bound),
            Played::Goes => {
                let state = std::mem::replace(&mut self.stage.before, SavedState::new(alloc));
                self.work.add(alloc, plan.at(state))
            }
        }
    }

    // Shows how far the runs are counted, if that is due after this number of plans.
    fn show<W: Watch>(&self, alloc: Global, played: u32, watch: &W) {
        if played % PLANS != 0 || !watch.is_due() {
            return;
        }
        if let Ok(billionths) = self.tally.billionths(alloc) {
            watch.show(self.work.waiting_count(), billionths);
        }
    }

    // Counts all that is left to be played, and takes out the tally of all runs. It is lent what it counts with, since
    // each exit of a body is proved with all that the body owns.
    fn finish<W: Watch>(&mut self, alloc: Global, watch: &W) -> Result<Tally, AllocError>
        requires { IsTallied self.old.stage self.old.tally (waiting_plays self.old.work) }
        ensures { IfOk result (λ tally. IsTallied self.old.stage tally []) }
    {
        let mut played: u32 = 0;
        'plans: loop {
            let Some(plan) = self.work.next(alloc) else {
                return Ok(std::mem::replace(&mut self.tally, Tally::new(alloc)));
            };
            self.settle(alloc, plan)?;
            played = played.wrapping_add(1);
            self.show(alloc, played, watch);
        }
    }
}

/// The tally of all runs of a program on these input lines, by these rules.
///
/// # Errors
///
/// Where a growth was refused memory.
pub(crate) fn count_runs<W: Watch>(
    alloc: Global,
    program: &Program,
    lines: &[Line],
    rules: Rules,
    watch: &W,
) -> Result<Tally, AllocError>
    ensures { IfOk result (IsAccountOf (play program.now lines.now rules)
        (tree (play program.now lines.now rules)
        (most_answers program.now lines.now rules.limit))) }
{
    let mut counting = Count::start(alloc, program, lines, rules)?;
    counting.finish(alloc, watch)
}
