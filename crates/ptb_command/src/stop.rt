// This file says why a command isn't done.

ghost use Rattle.std.specs.Prelude.{◌≡◌};
ghost use Rattle.ptb_expr.specs.Value.{fault};
ghost use Rattle.ptb_command.specs.Stops.{still_shows};

use ptb_answers::Pause;
use ptb_expr::{Fault, FaultKind};
use ptb_text::DeviceFault;

/// Why a command isn't done.
#[derive(Clone, Copy, Debug, PartialEq, Eq)]
pub enum CommandStop {
    /// It has a fault, which is not reported yet.
    Fault(Fault),
    /// It ends the run, as STOP does.
    Over,
    /// No input line is left for it.
    NoInput,
    /// A question of it has no answer, though there is memory for one.
    Pause(Pause),
    /// A device has failed, or a device or the chooser was refused memory.
    Device(DeviceFault),
}

/// A fault that is marked at a place.
pub(crate) fn fault(kind: FaultKind, mark: usize) -> CommandStop
    ensures { result ≡ CommandStop.Fault (fault kind mark) }
{
    CommandStop::Fault(Fault { kind, mark })
}

/// Whether what a command has gathered is shown when it has this result.
pub(crate) fn still_shows<X: Copy>(done: Result<X, CommandStop>) -> bool
    ensures { result ≡ still_shows done }
{
    !matches!(done, Err(CommandStop::NoInput | CommandStop::Device(_)))
}

impl From<DeviceFault> for CommandStop {
    ghost use Rattle.ptb_command.specs.declared.stop.CommandStop.TheVariants.{Device};

    ghost from_gives = { λ fault r. r ≡ Device fault };

    fn from(fault: DeviceFault) -> CommandStop {
        CommandStop::Device(fault)
    }
}

impl From<ptb_expr::Stop> for CommandStop {
    ghost use Rattle.ptb_command.specs.Stops.{stop_of};

    ghost from_gives = { λ stop r. r ≡ stop_of stop };

    fn from(stop: ptb_expr::Stop) -> CommandStop {
        match stop {
            ptb_expr::Stop::Fault(fault) => CommandStop::Fault(fault),
            ptb_expr::Stop::Pause(Pause::Memory) => CommandStop::Device(DeviceFault::Memory),
            ptb_expr::Stop::Pause(pause) => CommandStop::Pause(pause),
        }
    }
}
