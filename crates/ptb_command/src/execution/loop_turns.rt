// This file ends a turn of a loop, by `end_turn`: its variable gets its next value, or the loop is over.

ghost use Rattle.std.specs.Prelude.{◌≡◌, ℕ, ℤ, List, neg_ℤ, pos, ◌+ℤ◌, IfSome, IsNone, IsTrue, Some, None, true, false};
ghost use Rattle.std.specs.Prelude.{unwrap_or, if◌then◌else◌};
ghost use Rattle.ptb_command.specs.Prelude.{NextKw, value_at, in_range, Statements, is_past, command_action, goes_on};
ghost use Rattle.ptb_command.specs.Prelude.{Refines, command_of, parts_of, Configuration, Devices, Open, OpenLoop};
ghost use Rattle.ptb_command.specs.Prelude.{loop_of_open, AddsStep, IsNext, Begun, ClosesNewer, loop_of, Place};

use crate::command_order::command_laws;
use crate::execution::values::value;
use crate::location::Location;
use crate::stack::{OpenLoop, Stack};
use ptb_expr::Store;
use ptb_text::Letter;

// Whether a value of the variable of a loop with this limit and step lies past the limit.
#[inline(always)]
fn is_past(limit: i16, step: i16, value: i32) -> bool
    ensures { (letter : ℕ) (back : Place) → result ≡ is_past
        (record { letter = letter; limit = limit; step = step; back = back }) value }
{
    if step < 0 {
        value < i32::from(limit)
    } else {
        value > i32::from(limit)
    }
}

// Stores the last value of a loop's variable, if it is in range. Not inlined, so that the code of a turn
// stays short.
#[inline(never)]
fn set_last_value(store: &mut Store, letter: Letter, value: i32)
    ensures { (back : Place) (item : OpenLoop) → item.letter ≡ letter →
        is_past (loop_of_open back item) value ≡ true →
        AddsStep (loop_of_open back item) store.old store.new false
        (in_range (neg_ℤ (pos 32768)) value) }
{
    if let Ok(value) = i16::try_from(value) {
        store.set(letter, value);
    }
}

// Adds a loop's step to its variable; whether the loop continues. Where the sum is out of range it
// doesn't, and the variable keeps its value.
#[inline(always)]
fn add_step(store: &mut Store, item: &OpenLoop) -> bool
    ensures { (back : Place) → AddsStep (loop_of_open back item.now) store.old store.new result
        (in_range (neg_ℤ (pos 32768)) (value_at store.old item.now.letter +ℤ item.now.step)) }
{
    let sum = i32::from(store.get(item.letter)) + i32::from(item.step);
    // A sum that is not past the limit is in range.
    if is_past(item.limit, item.step, sum) {
        set_last_value(store, item.letter, sum);
        return false;
    }
    store.set(item.letter, sum as i16);
    true
}

/// Ends a turn of the newest loop; whether its next turn begins. Otherwise the loop is over and closed.
#[inline(always)]
pub fn end_newest_turn(store: &mut Store, stack: &mut Stack, item: &OpenLoop) -> bool
    ensures loop_turn { (m : Configuration) (p : Statements) (q : Place) (t : List ℕ) (i : ℕ)
        (d : Devices) (next : Location) (os : List Open) → Begun p q next.statement t NextKw i →
        IsNext t i item.now.letter next.offset →
        ClosesNewer item.now.letter os stack.old (Some item.now) →
        Refines p (record m { cells = store.old; stack = os })
        (record m {
          place = Some (if result then item.now.back else next);
          cells = store.new;
          stack = stack.new;
        }) d d
        (command_action p q (command_of NextKw (parts_of NextKw t i))) (goes_on tt) }
    ensures open { IsTrue result → stack.new ≡ stack.old }
{
    command_laws();
    if add_step(store, item) {
        return true;
    }
    stack.close_newest();
    false
}

/// Ends a turn of the newest level's loop of a variable: gives where the next turn begins, and
/// `Some(None)` where the loop is over, so that the run continues after the NEXT. Loops that are
/// newer are closed, and so is that loop where it is over; where the sum is out of range it is, and
/// its variable keeps its value. Where there is no such loop, nothing is done, and the result is
/// `None`.
#[inline(always)]
pub(crate) fn end_turn(
    store: &mut Store,
    stack: &mut Stack,
    letter: Letter,
) -> Option<Option<Location>>
    ensures loop_turn { IfSome result (λ to. (m : Configuration) (p : Statements) (q : Place)
        (t : List ℕ) (i : ℕ) (d : Devices) (next : Location) → Begun p q next.statement t NextKw i →
        IsNext t i letter next.offset →
        Refines p (record m { cells = store.old; stack = stack.old })
        (record m { place = Some (unwrap_or to next); cells = store.new; stack = stack.new }) d d
        (command_action p q (command_of NextKw (parts_of NextKw t i))) (goes_on tt)) }
    ensures none { IsNone result → (loop_of letter stack.old ≡ None)
        × (stack.new ≡ stack.old) × (store.new ≡ store.old) }
{
    let item = stack.close_newer(letter)?;
    if end_newest_turn(store, stack, &item) {
        return Some(Some(item.back));
    }
    Some(None)
}
