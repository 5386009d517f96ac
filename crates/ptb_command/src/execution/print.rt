// This file shows values and texts, as PRINT does, by `show_expression`, and has what a command gathers.

ghost use Rattle.std.specs.Prelude.{◌≡◌, ◌∷◌, [], ℕ, ℤ, List, Ok, IsFalse, IsTrue};
ghost use Rattle.ptb_command.specs.Prelude.{Cells, Tree, first_width, padded_decimal, parts_action, goes_on, show};
ghost use Rattle.ptb_command.specs.Prelude.{AreStepsAt, FailsWithoutValue, IsIn, IsLiteralIn, bytes_in, literal_bytes};
ghost use Rattle.ptb_command.specs.Prelude.{Part, Show, nothing_refused, refused_answers, pending_trace, SameDevices};
ghost use Rattle.ptb_command.specs.Prelude.{Comes, width_of};

use crate::command_io::CommandIo;
use crate::execution::decimals::{WIDTH_LIMIT, write_decimal};
use crate::execution::values::long_value;
use crate::operation::{Expression, Literal, Range};
use crate::pending_output::PendingOutput;
use crate::stop::CommandStop;
use ptb_answers::Chooser;
use ptb_devices::{LineSource, Screen};
use ptb_expr::{Step, Store};

/// The width of the values at the start of each command.
pub const FIRST_WIDTH: u8 = 6;

/// What a command has gathered, and the width of the values that it shows. It is lent to one command
/// after the other: making one takes longer than emptying it.
#[derive(Drop)]
pub struct Output {
    /// The bytes that are shown later.
    pub pending: PendingOutput,
    /// The width.
    pub width: u8,
}

impl Output {
    /// Nothing is gathered, and the width is that of the start of a command.
    pub fn new() -> Output
        ensures pending { result.pending ≡ [] }
        ensures width { result.width ≡ first_width }
    {
        Output {
            pending: PendingOutput::new(),
            width: FIRST_WIDTH,
        }
    }

    /// Begins again, for another command.
    #[inline(always)]
    pub(crate) fn start(&mut self)
        ensures pending { self.new.pending ≡ [] }
        ensures width { self.new.width ≡ first_width }
    {
        self.pending.clear();
        self.width = FIRST_WIDTH;
    }

    /// Takes a value for the width, if it is one. Whether it is.
    #[inline(always)]
    pub(crate) fn try_width(&mut self, value: i16) -> bool
        ensures set { IsTrue result → (width_of value ≡ Ok self.new.width)
            × (self.new ≡ record self.old { width = self.new.width }) }
        ensures same { IsFalse result → self.new ≡ self.old }
    {
        match u8::try_from(value) {
            Ok(width) => {
                self.width = width;
                true
            }
            Err(_) => false,
        }
    }
}

/// The bytes of a text in a range; none where the range ends after the text.
pub(crate) fn bytes_in(text: &[u8], range: Range) -> &[u8]
    ensures { IsIn text.now range → result.now ≡ bytes_in text.now range }
{
    let from = usize::from(range.from);
    let to = usize::from(range.to);
    text.get(from..to).unwrap_or(&[])
}

/// The bytes of a literal, which may be in this text.
pub(crate) fn literal_bytes(text: &[u8], literal: Literal) -> &[u8]
    ensures { IsLiteralIn text.now literal → result.now ≡ literal_bytes text.now literal }
{
    match literal {
        Literal::Text(range) => bytes_in(text, range),
        Literal::CarriageReturn => b"\r",
    }
}

// Shows a value with blanks before it up to the width.
fn show_value<C: Chooser, S: Screen, L: LineSource>(
    io: &mut CommandIo<'_, C, S, L>,
    pending: &mut PendingOutput,
    width: u8,
    value: i16,
) -> Result<(), CommandStop>
    ensures comes { (given : List (List ℕ)) (cells : Cells) → Comes nothing_refused
        (pending_trace C.choices S.Screen L.most io.old given cells
        pending.old)
        (pending_trace C.choices S.Screen L.most io.new given cells
        pending.new)
        (show (padded_decimal width value)) goes_on result }
    ensures same { SameDevices io.old io.new }
{
    let mut text = [b' '; WIDTH_LIMIT];
    let start = write_decimal(value, &mut text, WIDTH_LIMIT);
    let from = start.min(WIDTH_LIMIT - usize::from(width));
    io.show(pending, &text[from..])
}

/// Shows the value of an expression.
pub(crate) fn show_expression<C: Chooser, S: Screen, L: LineSource>(
    steps: &[Step],
    expression: Expression,
    store: &Store,
    io: &mut CommandIo<'_, C, S, L>,
    output: &mut Output,
) -> Result<(), CommandStop>
    ensures comes { (given : List (List ℕ)) (x : Tree) (rest : List Part) (operands : List ℤ) →
        AreStepsAt steps.now expression x →
        Comes (refused_answers (C.refused io.new.chooser.now))
        (pending_trace C.choices S.Screen L.most io.old given store.now output.old.pending)
        (pending_trace C.choices S.Screen L.most io.new given store.now output.new.pending)
        (parts_action (Show x ∷ rest) output.old.width operands)
        (λ _. parts_action rest output.new.width operands) result }
    ensures valued { FailsWithoutValue steps.now expression result }
    ensures same { SameDevices io.old io.new }
{
    let value = long_value(steps, expression, store, io.chooser)?;
    show_value(io, &mut output.pending, output.width, value)
}
