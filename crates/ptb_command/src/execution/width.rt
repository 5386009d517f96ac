// This file has the width of the values that PRINT shows, by `new_width`.

ghost use Rattle.std.specs.Prelude.{◌∷◌, ℕ, ℤ, Bool, List};
ghost use Rattle.ptb_command.specs.Prelude.{Tree, or_fault, parts_action, width_of, goes_on, work_action, AreStepsAt};
ghost use Rattle.ptb_command.specs.Prelude.{FailsWithoutValue, Part, Width, Devices, nothing_refused, refused_answers};
ghost use Rattle.ptb_command.specs.Prelude.{with_choices, Comes, Trace, trace, with_pending};

use crate::execution::values::long_value;
use crate::operation::Expression;
use crate::stop::{CommandStop, fault};
use ptb_answers::Chooser;
use ptb_expr::{FaultKind, Step, Store};

// A value as a width.
fn width_of(value: i16, mark: usize) -> Result<u8, CommandStop>
    ensures { (o : Trace) → Comes nothing_refused o o
        (work_action (λ _. or_fault (width_of value) mark)) goes_on result }
{
    match u8::try_from(value) {
        Ok(width) => Ok(width),
        Err(_) => Err(fault(FaultKind::How, mark)),
    }
}

/// The value of an expression as a width; `mark` is the mark of a value that is no width.
pub(crate) fn new_width<C: Chooser>(
    steps: &[Step],
    expression: Expression,
    mark: u8,
    store: &Store,
    chooser: &mut C,
) -> Result<u8, CommandStop>
    ensures comes { (d : Devices) (fresh : Bool) (pending : List ℕ) (x : Tree) (rest : List Part)
        (w : ℕ) (operands : List ℤ) →
        AreStepsAt steps.now expression x →
        Comes (refused_answers (C.refused chooser.new))
        (with_pending pending (trace (with_choices (C.choices chooser.old) d) fresh store.now))
        (with_pending pending (trace (with_choices (C.choices chooser.new) d) fresh store.now))
        (parts_action (Width x mark ∷ rest) w operands)
        (λ width. parts_action rest width operands) result }
    ensures valued { FailsWithoutValue steps.now expression result }
{
    let value = long_value(steps, expression, store, chooser)?;
    width_of(value, usize::from(mark))
}
