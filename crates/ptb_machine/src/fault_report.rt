// This file reports a fault.

ghost use Rattle.std.specs.Prelude.{◌≡◌, take, drop};
ghost use Rattle.ptb_machine.specs.Prelude.{Cells, ending_of, report_bytes, Devices, screen_state, with_screen, trace};
ghost use Rattle.ptb_machine.specs.Prelude.{IsShown};

use itoa::Buffer;
use ptb_command::{Ending, put_fault};
use ptb_devices::Screen;
use ptb_expr::{Fault, FaultKind};
use ptb_text::DeviceFault;

/// How a run ends that a fault ends.
pub(crate) fn ending_of(kind: FaultKind) -> Ending
    ensures { result ≡ ending_of kind }
{
    match kind {
        FaultKind::What => Ending::What,
        FaultKind::How => Ending::How,
        FaultKind::Sorry => Ending::Sorry,
    }
}

// The text before a mark, all of it where the mark is past its end.
fn text_before(text: &[u8], mark: usize) -> &[u8]
    ensures { result.now ≡ take mark text.now }
{
    &text[..mark.min(text.len())]
}

// The text after a mark.
fn text_after(text: &[u8], mark: usize) -> &[u8]
    ensures { result.now ≡ drop mark text.now }
{
    &text[mark.min(text.len())..]
}

/// Shows what is wrong with the statement of this number and text: the word of the fault on a line of
/// its own, and the statement with a question mark where its mark is, or after it where that is
/// past its end.
///
/// # Errors
///
/// [`DeviceFault`] where the screen could not be written. A prefix of the report may have been
/// shown then.
///
/// Public so that tests can try it.
pub fn report_fault<S: Screen>(
    screen: &mut S,
    fresh: &mut bool,
    number: u16,
    text: &[u8],
    fault: Fault,
) -> Result<(), DeviceFault>
    ensures { (d : Devices) (cells : Cells) → IsShown
        (trace (with_screen (screen_state S.Screen screen.old) d) fresh.old cells)
        (trace (with_screen (screen_state S.Screen screen.new) d) fresh.new cells)
        (report_bytes fresh.old number text.now fault) result }
{
    let mut buffer = Buffer::new();
    let digits = buffer.format(number).as_bytes();
    let before = text_before(text, fault.mark);
    let following = text_after(text, fault.mark);
    let pieces = [digits, b" ", before, b"?", following, b"\n"];
    put_fault(screen, fresh, fault.kind, &pieces)
}
