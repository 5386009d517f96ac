// This file has what INPUT asks for, `LineRequest`, and asks for it.

ghost use Rattle.std.specs.Prelude.{◌≡◌, ◌≤◌, ◌+◌, ℕ, List, [], ◌∷◌, ◌++◌, length, IfOk, IfSome, IsOk};
ghost use Rattle.ptb_command.specs.Prelude.{IsTarget, Cells, goes_on, show, IsPromptIn, NamesOne, prompt_by, said_by};
ghost use Rattle.ptb_command.specs.Prelude.{nothing_refused, pending_trace, SameDevices, HasAsked, Comes, IsShort};
ghost use Rattle.ptb_command.specs.declared.operation.Operation.TheVariants.{Input};

use crate::command_io::CommandIo;
use crate::execution::print::bytes_in;
use crate::execution::values::target;
use crate::operation::{Destination, Prompt};
use crate::pending_output::{PENDING_LIMIT, PendingOutput};
use crate::stop::CommandStop;
use ptb_answers::Chooser;
use ptb_devices::{LineSource, Screen};
use ptb_expr::{Step, Store, Target};
use ptb_text::Letter;

/// How many bytes an answer needs at most: its line, the word of a fault, and a newline after each.
pub(crate) const ANSWER_ROOM: usize = 262;

/// A line that is asked for.
#[derive(Clone, Copy)]
pub(crate) struct LineRequest<'a> {
    /// What is shown first.
    pub(crate) said: &'a [u8],
    /// What is shown before the colon of the prompt.
    pub(crate) name: &'a [u8],
    /// What the value of the line is stored in.
    pub(crate) destination: Destination,
    /// The steps of its index.
    pub(crate) steps: &'a [Step],
}

impl<'a> LineRequest<'a> {
    /// What an INPUT asks for whose text is this.
    pub(crate) fn new(
        text: &'a [u8],
        steps: &'a [Step],
        prompt: Prompt,
        destination: Destination,
    ) -> Self
        ensures said { IsPromptIn text.now prompt → result.said.now ≡ said_by text.now prompt }
        ensures name { IsPromptIn text.now prompt →
            prompt_by text.now prompt ≡ result.name.now ++ 58 ∷ [] }
        ensures destination { result.destination ≡ destination }
        ensures steps { result.steps.now ≡ steps.now }
    {
        let (said, name): (&[u8], &[u8]) = match prompt {
            Prompt::Name(range) => (b"", bytes_in(text, range)),
            Prompt::Text(range) => (bytes_in(text, range), b""),
            Prompt::CarriageReturn => (b"\r", b""),
        };
        LineRequest {
            said,
            name,
            destination,
            steps,
        }
    }
}

// Shows a prompt: this text and a colon.
fn show_prompt<C: Chooser, S: Screen, L: LineSource>(
    name: &[u8],
    io: &mut CommandIo<'_, C, S, L>,
    pending: &mut PendingOutput,
) -> Result<(), CommandStop>
    ensures comes { (given : List (List ℕ)) (cells : Cells) → Comes nothing_refused
        (pending_trace C.choices S.Screen L.most io.old given cells pending.old)
        (pending_trace C.choices S.Screen L.most io.new given cells pending.new)
        (show (name.now ++ 58 ∷ [])) goes_on result }
    ensures same { SameDevices io.old io.new }
{
    io.show(pending, name)?;
    io.show(pending, b":")
}

/// The item of an INPUT of a variable.
#[derive(Clone, Copy)]
pub(crate) struct ShortItem {
    /// The variable.
    pub(crate) letter: Letter,
    /// What is shown before the colon of the prompt.
    pub(crate) name: u8,
}

impl ShortItem {
    /// The item of this prompt and destination, which are in this text, if it is of a variable whose
    /// name is shown.
    #[inline(always)]
    pub(crate) fn new(text: &[u8], prompt: Prompt, destination: Destination) -> Option<ShortItem>
        ensures { IfSome result (IsShort text.now (Input prompt destination)) }
    {
        let Prompt::Name(range) = prompt else {
            return None;
        };
        let Destination::Letter(letter) = destination else {
            return None;
        };
        let from = usize::from(range.from);
        if usize::from(range.to) != from + 1 {
            return None;
        }
        let name = *text.get(from)?;
        Some(ShortItem { letter, name })
    }
}

/// Shows what a request says, finds what it stores in, and shows its prompt. There is room for an answer
/// then.
pub(crate) fn request_line<C: Chooser, S: Screen, L: LineSource>(
    request: &LineRequest<'_>,
    store: &Store,
    io: &mut CommandIo<'_, C, S, L>,
    pending: &mut PendingOutput,
) -> Result<Target, CommandStop>
    ensures comes { HasAsked C.Chooser S.Screen L.LineSource request.now store.now
        io.old io.new pending.old pending.new result }
    ensures target { IfOk result (IsTarget store.now) }
    ensures named { IsOk result → NamesOne request.now.destination }
    ensures room { IsOk result → length pending.new + ANSWER_ROOM ≤ PENDING_LIMIT }
    ensures same { SameDevices io.old io.new }
{
    io.show(pending, request.said)?;
    let target = target(request.steps, request.destination, store, io.chooser)?;
    show_prompt(request.name, io, pending)?;
    io.make_room(pending, ANSWER_ROOM)?;
    Ok(target)
}
