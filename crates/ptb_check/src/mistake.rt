// This file finds the mistake of a command by its code.

ghost use Rattle.std.specs.Prelude.{◌≡◌, ℕ, List};
ghost use Rattle.ptb_check.specs.Prelude.{command_at, IsTranslated, first_fail, only_number, code_mistake};
ghost use Rattle.ptb_check.specs.Prelude.{destination_fail, part_fail, command_mistake, jump_mistake};

use crate::laws::code_mistake_laws;
use ptb_expr::{Fault, FaultKind, Step};
use ptb_machine::{CommandCode, Destination, Operation, start_of};
use ptb_text::Program;

// The fault of the first step that always has one.
fn first_fail(steps: &[Step]) -> Option<Fault>
    ensures { result ≡ first_fail steps.now }
{
    let mut rest = steps;
    while let Some((step, after)) = rest.split_first() {
        if let Step::Fail(kind, mark) = *step {
            return Some(Fault {
                kind,
                mark: usize::from(mark),
            });
        }
        rest = after;
    }
    None
}

// The number of a single step.
fn only_number(steps: &[Step]) -> Option<i16>
    ensures { result ≡ only_number steps.now }
{
    match steps {
        [Step::Number(value)] => Some(*value),
        _ => None,
    }
}

// The mistake of a jump to a written number that no statement has.
fn jump_mistake(program: &Program, number: Option<i16>, end: u8) -> Option<Fault>
    ensures { result ≡ jump_mistake program.now.lines end number }
{
    if start_of(program, number?).is_some() {
        return None;
    }
    Some(Fault {
        kind: FaultKind::How,
        mark: usize::from(end),
    })
}

// The fault in what a value is stored in.
fn destination_fail(steps: &[Step], destination: Destination) -> Option<Fault>
    ensures { result ≡ destination_fail steps.now destination }
{
    match destination {
        Destination::Letter(_) => None,
        Destination::Element(index, _) => first_fail(index.steps_in(steps)),
        Destination::Missing(fault) => first_fail(fault.steps_in(steps)),
    }
}

// The fault in a part of a command.
fn part_fail(steps: &[Step], operation: Operation) -> Option<Fault>
    ensures { result ≡ part_fail steps.now operation }
{
    match operation {
        Operation::Set(destination, value) => match destination_fail(steps, destination) {
            Some(fault) => Some(fault),
            None => first_fail(value.steps_in(steps)),
        },
        Operation::Show(value) | Operation::Width(value, _) | Operation::Discard(value) => {
            first_fail(value.steps_in(steps))
        }
        Operation::Input(_, destination) => destination_fail(steps, destination),
        _ => None,
    }
}

/// The mistake of the command that was translated into this code, if it has one: the fault in its
/// text, or that of a GOTO or a GOSUB to a written number that no statement has. Nothing is run.
pub(crate) fn mistake_of(program: &Program, code: &CommandCode) -> Option<Fault>
    ensures { (t : List ℕ) (i : ℕ) → IsTranslated t i code.now
        → result ≡ command_mistake program.now.lines (command_at t i) }
{
    code_mistake_laws();
    code_mistake(program, code.expression_steps(), code.operations())
}

// The mistake of a command, by its operations.
fn code_mistake(program: &Program, steps: &[Step], operations: &[Operation]) -> Option<Fault>
    ensures { result ≡ code_mistake program.now.lines steps.now operations.now }
{
    let mut rest = operations;
    while let Some((operation, after)) = rest.split_first() {
        match *operation {
            Operation::Fail(kind, mark) => return Some(Fault {
                kind,
                mark: usize::from(mark),
            }),
            Operation::Goto { number, end } | Operation::Gosub { number, end, .. } => {
                return jump_mistake(program, only_number(number.steps_in(steps)), end);
            }
            Operation::Done { .. }
            | Operation::If { .. }
            | Operation::Return { .. }
            | Operation::For { .. }
            | Operation::EndTurn { .. }
            | Operation::Stop
            | Operation::Remark => return None,
            _ => {}
        }
        if let Some(fault) = part_fail(steps, *operation) {
            return Some(fault);
        }
        rest = after;
    }
    None
}
