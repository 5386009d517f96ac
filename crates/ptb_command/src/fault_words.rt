// This file has the lines that name the faults of a program, and shows them.

ghost use Rattle.std.specs.Prelude.{◌≡◌, ◌<◌, [], ◌++◌, drop, flat_map, length, if◌then◌else◌};
ghost use Rattle.ptb_command.specs.Act.{newline, fault_word};
ghost use Rattle.ptb_command.specs.Prelude.{Cells, Devices, screen_state, with_screen, trace, IsShown};

use crate::pending_output::PendingOutput;
use ptb_devices::Screen;
use ptb_expr::FaultKind;
use ptb_text::DeviceFault;

/// Shows the line of a fault, after a newline where the transcript isn't fresh, and then these pieces:
/// all at once, if they have at most 512 bytes.
///
/// # Errors
///
/// [`DeviceFault`] where the screen doesn't show them all. A prefix of them may have been shown then.
pub fn put_fault<S: Screen>(
    screen: &mut S,
    fresh: &mut bool,
    kind: FaultKind,
    pieces: &[&[u8]],
) -> Result<(), DeviceFault>
    ensures { (d : Devices) (cells : Cells) → IsShown
        (trace (with_screen (screen_state S.Screen screen.old) d) fresh.old cells)
        (trace (with_screen (screen_state S.Screen screen.new) d) fresh.new cells)
        ((if fresh.old then [] else newline) ++ fault_word kind ++ newline
        ++ flat_map (λ p. p.now) pieces.now) result }
{
    let mut pending = PendingOutput::new();
    pending.put(screen, fresh, fault_line(*fresh, kind))?;
    for piece in pieces {
        pending.put(screen, fresh, piece)?;
    }
    pending.flush(screen, fresh)
}

/// The line with the word of a fault, after a newline where the transcript isn't fresh.
pub fn fault_line(fresh: bool, kind: FaultKind) -> &'static [u8]
    ensures { result.now ≡ (if fresh then [] else newline) ++ fault_word kind ++ newline }
{
    match kind {
        FaultKind::What => on_a_line(fresh, b"\nWHAT?\n"),
        FaultKind::How => on_a_line(fresh, b"\nHOW?\n"),
        FaultKind::Sorry => on_a_line(fresh, b"\nSORRY\n"),
    }
}

// A text without the newline before it, where the transcript is fresh.
fn on_a_line(fresh: bool, text: &'static [u8]) -> &'static [u8]
    requires { 0 < length text.now }
    ensures { result.now ≡ (if fresh then drop 1 text.now else text.now) }
{
    if fresh { &text[1..] } else { text }
}
