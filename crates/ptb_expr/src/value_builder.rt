// This file makes the value of an expression, by `ValueBuilder`: each part is evaluated when it is read. It gives up
// where something is asked or goes wrong, so it needs no chooser and no marks.

ghost use Rattle.std.specs.Prelude.{◌≡◌, Ok, IfSome, IsNone, IsErr};
ghost use Rattle.ptb_expr.specs.Builders.{unary_result};

use crate::builder::{Builder, Unary};
use crate::fault::FaultKind;
use crate::operator::{Operator, absolute, apply, negate};
use crate::store::Store;
use ptb_text::Letter;
use std::marker::Model;

// What is done with a value. None where it asks or has a fault.
#[inline(always)]
fn apply_unary(unary: Unary, value: i16, store: &Store) -> Option<i16>
    ensures value { IfSome result (λ v. unary_result store.now unary value ≡ Ok v) }
    ensures none { IsNone result → IsErr (unary_result store.now unary value) }
{
    match unary {
        Unary::Itself => Some(value),
        Unary::Element => store.element(value).ok(),
        Unary::Ask => None,
        Unary::Absolute => absolute(value).ok(),
        Unary::Negate => negate(value).ok(),
    }
}

/// Evaluates parts. Contracts see the cells of its store.
#[derive(Drop)]
pub(crate) struct ValueBuilder<'a> {
    store: &'a Store,
}

impl<'a> Model for ValueBuilder<'a> {
    ghost use Rattle.ptb_expr.specs.Store.{Cells};

    ghost Value = { Cells };

    ghost view = { λ b. b.store.now };
}

impl<'a> ValueBuilder<'a> {
    /// Variables have the values of this store.
    #[inline(always)]
    pub(crate) fn new(store: &'a Store) -> ValueBuilder<'a>
        ensures { result ≡ store.now }
    {
        ValueBuilder { store }
    }
}

impl<'a> Builder for ValueBuilder<'a> {
    type Made = i16;

    ghost use Rattle.ptb_expr.specs.Builders.{MakesValue};

    ghost makes = { MakesValue };

    ghost keeps = { MakesValue };

    ghost spoils = { λ _ _ _. Unit {0} };

    ghost gives_up = { Unit {0} };

    ghost room_used = { λ _. 0 };

    ghost room_wanted = { λ _. 0 };

    #[inline(always)]
    fn number(&mut self, value: i16) -> i16 {
        value
    }

    #[inline(always)]
    fn variable(&mut self, letter: Letter) -> i16 {
        self.store.get(letter)
    }

    #[inline(always)]
    fn size(&mut self) -> i16 {
        self.store.size()
    }

    #[inline(always)]
    fn unary(&mut self, unary: Unary, part: i16, _mark: u8) -> Option<i16> {
        apply_unary(unary, part, self.store)
    }

    #[inline(always)]
    fn keep(&mut self, part: i16) -> i16 {
        part
    }

    #[inline(always)]
    fn binary(&mut self, operator: Operator, left: i16, right: i16, _mark: u8) -> Option<i16> {
        apply(operator, left, right)
    }

    #[inline(always)]
    fn malformed(&mut self, _kind: FaultKind, _mark: u8) {}

    #[inline(always)]
    fn unclosed(&mut self, _part: i16, _mark: u8) {}

    #[inline(always)]
    fn malformed_laws(&self) {}
}
