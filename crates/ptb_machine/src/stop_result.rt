// This file has the result of a step, by the result of its command.

ghost use Rattle.std.specs.Prelude.{◌≡◌, ℕ, List, Some, slice_get};
ghost use Rattle.ptb_expr.specs.Store.{Cells};
ghost use Rattle.ptb_command.specs.CommandIo.{io_trace, SameDevices};
ghost use Rattle.ptb_machine.specs.CommandResults.{IsResultOf, result_of_stop};

use crate::fault::RunFault;
use crate::fault_report::{ending_of, report_fault};
use ptb_answers::{Chooser, Pause};
use ptb_command::{CommandIo, CommandStop, Ending, line_at};
use ptb_devices::{LineSource, Screen};
use ptb_text::Program;

// The result of a step whose command stopped so, once its fault is reported if it has one.
fn result_of_stop(stop: CommandStop) -> Result<Option<Ending>, RunFault>
    ensures { result ≡ result_of_stop stop }
{
    match stop {
        CommandStop::Fault(fault) => Ok(Some(ending_of(fault.kind))),
        CommandStop::Over => Ok(Some(Ending::Stop)),
        CommandStop::NoInput => Ok(Some(Ending::NoInput)),
        CommandStop::Pause(Pause::Ended) => Ok(Some(Ending::NoAnswer)),
        CommandStop::Pause(Pause::OutOfRange(_)) => Ok(Some(Ending::BadAnswer)),
        CommandStop::Pause(Pause::Memory) => Err(RunFault::Memory),
        CommandStop::Device(fault) => Err(RunFault::from(fault)),
    }
}

/// The result of a step whose command, one of this statement, has the result `done`. A fault is
/// reported.
pub(crate) fn step_result<C: Chooser, S: Screen, L: LineSource>(
    done: Result<(), CommandStop>,
    program: &Program,
    statement: usize,
    io: &mut CommandIo<'_, C, S, L>,
) -> Result<Option<Ending>, RunFault>
    ensures comes { (given : List (List ℕ)) (cells : Cells) (n : ℕ) (text : List ℕ) →
        slice_get program.now.lines statement ≡ Some (n, text) → IsResultOf
        (io_trace C.choices S.Screen L.most io.old given cells)
        (io_trace C.choices S.Screen L.most io.new given cells) n text done result }
    ensures chooser { io.new.chooser ≡ io.old.chooser }
    ensures same { SameDevices io.old io.new }
{
    let Err(stop) = done else {
        return Ok(None);
    };
    match stop {
        CommandStop::Fault(fault) => {
            let (number, text) = line_at(program, statement);
            let mut fresh = io.fresh;
            let reported = report_fault(io.screen, &mut fresh, number.unsigned_abs(), text, fault);
            io.fresh = fresh;
            reported?;
            Ok(Some(ending_of(fault.kind)))
        }
        _ => result_of_stop(stop),
    }
}
