// This file shows bytes of a run, and keeps whether its transcript is fresh.

ghost use Rattle.std.specs.Prelude.{◌≡◌};
ghost use Rattle.ptb_command.specs.Prelude.{Cells, Devices, screen_state, with_screen, trace, fresh_after, IsShown};

use ptb_devices::Screen;
use ptb_text::DeviceFault;

// Whether a transcript is fresh once these bytes were shown.
fn fresh_after(fresh: bool, bytes: &[u8]) -> bool
    ensures { result ≡ fresh_after fresh bytes.now }
{
    if bytes.is_empty() {
        fresh
    } else {
        bytes[bytes.len() - 1] == b'\n'
    }
}

/// Shows bytes, and keeps whether the transcript is fresh.
///
/// # Errors
///
/// [`DeviceFault`] where the screen doesn't show them all. `fresh` stays as it was then, and a
/// prefix of the bytes may have been shown.
pub(crate) fn put<S: Screen>(
    screen: &mut S,
    fresh: &mut bool,
    bytes: &[u8],
) -> Result<(), DeviceFault>
    ensures { (d : Devices) (cells : Cells) → IsShown
        (trace (with_screen (screen_state S.Screen screen.old) d) fresh.old cells)
        (trace (with_screen (screen_state S.Screen screen.new) d) fresh.new cells)
        bytes.now result }
{
    screen.put(bytes)?;
    *fresh = fresh_after(*fresh, bytes);
    Ok(())
}
