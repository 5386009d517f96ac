// This file does complete runs, by `run` and `run_to_end`.

ghost use Rattle.std.specs.Prelude.{◌≡◌, IfOk};
ghost use Rattle.ptb_machine.specs.Prelude.{run_devices, IsAtFirst, IsCompleteRun, IsRunToEnd, SameBorrows, lent};

use crate::fault::RunFault;
use crate::machine::Machine;
use crate::player::Player;
use crate::run_end::RunEnd;
use ptb_answers::{Chooser, Rules};
use ptb_command::{CommandIo, Ending};
use ptb_devices::{LineSource, Screen};
use ptb_text::Program;
use std::alloc::{AllocError, Global};

/// Runs a program from its beginning to its ending, by these rules.
///
/// For users of the library: the program calls [`run_to_end`].
///
/// # Errors
///
/// [`RunFault::Memory`], [`RunFault::Read`] and [`RunFault::Write`] where a growth was refused
/// memory, the input could not be read or is too long, or the screen could not be written. A prefix
/// of what the run shows may have been shown then. Never [`RunFault::Spent`]. A failed write always
/// gives [`RunFault::Write`].
pub fn run<C: Chooser, S: Screen, L: LineSource>(
    alloc: Global,
    program: &Program,
    rules: Rules,
    chooser: &mut C,
    screen: &mut S,
    source: &mut L,
) -> Result<Ending, RunFault>
    ensures { IsCompleteRun C.Chooser S.Screen L.LineSource program.now rules
        (run_devices chooser.old screen.old source.old)
        (run_devices chooser.new screen.new source.new) result }
{
    let end = run_to_end(alloc, program, rules, chooser, screen, source)?;
    Ok(end.ending)
}

/// Runs a program as [`run`] does, and also gives the line at which a limit stopped it.
///
/// # Errors
///
/// As [`run`].
pub(crate) fn run_to_end<C: Chooser, S: Screen, L: LineSource>(
    alloc: Global,
    program: &Program,
    rules: Rules,
    chooser: &mut C,
    screen: &mut S,
    source: &mut L,
) -> Result<RunEnd, RunFault>
    ensures { IsRunToEnd C.Chooser S.Screen L.LineSource program.now rules
        (run_devices chooser.old screen.old source.old)
        (run_devices chooser.new screen.new source.new) result }
{
    let (player, mut machine) = start_run(alloc, program)?;
    let mut io = CommandIo::new(chooser, screen, source, true, rules);
    play(&player, &mut machine, &mut io)
}

// A player of a program, and a machine at the beginning of its run. `run_to_end` owns them and lends them to `play`,
// which has the loop: each exit of a body is proved with all that the body owns.
fn start_run(alloc: Global, program: &Program) -> Result<(Player<'_>, Machine), AllocError>
    ensures player { IfOk result (λ b. b.0 ≡ program.now) }
    ensures first { IfOk result (λ b. IsAtFirst b.0 b.1) }
{
    let player = Player::new(alloc, program)?;
    let machine = player.machine(alloc)?;
    Ok((player, machine))
}

// Plays a machine, which is at the beginning of a run of the player's program, to the ending.
fn play<C: Chooser, S: Screen, L: LineSource>(
    player: &Player<'_>,
    machine: &mut Machine,
    io: &mut CommandIo<'_, C, S, L>,
) -> Result<RunEnd, RunFault>
    requires { IsAtFirst player.now machine.old }
    ensures run { IsRunToEnd C.Chooser S.Screen L.LineSource player.now io.old.rules
        (lent io.old) (lent io.new) result }
    ensures same { SameBorrows io.old io.new }
{
    'steps: loop {
        player.advance(machine, io.rules.limit);
        if let Some(ending) = player.step_on(machine, io)? {
            return Ok(player.end(machine, ending));
        }
    }
}
