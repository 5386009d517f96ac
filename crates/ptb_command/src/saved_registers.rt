// This file has the saved form of registers: what they hold in little memory.

ghost use Rattle.std.specs.Prelude.{◌≡◌, ◌↔◌, [], None, pos, IsTrue, OnOk};
ghost use Rattle.ptb_expr.specs.Store.{empty_cells};
ghost use Rattle.ptb_command.specs.Takeovers.{TakesOver};

use crate::location::Location;
use crate::registers::Registers;
use crate::saved_stack::SavedStack;
use ptb_expr::SavedStore;
use std::alloc::{AllocError, Global};
use std::marker::Model;

// Whether two places are the same, if there are places.
fn same_place(one: Option<Location>, other: Option<Location>) -> bool
    ensures { IsTrue result ↔ (one ≡ other) }
{
    match (one, other) {
        (None, None) => true,
        (Some(one), Some(other)) => one.is_same(other),
        (None, Some(_)) => false,
        (Some(_), None) => false,
    }
}

/// What registers hold, in little memory.
#[derive(Drop)]
pub struct SavedRegisters {
    place: Option<Location>,
    store: SavedStore,
    stack: SavedStack,
}

impl Model for SavedRegisters {
    ghost use Rattle.ptb_command.specs.declared.registers.Registers.{Registers};

    ghost Value = { Registers };

    ghost view = { λ s. record { place = s.place; store = s.store; stack = s.stack } };
}

impl SavedRegisters {
    /// Registers without memory, where no command is next.
    pub fn new(alloc: Global) -> SavedRegisters
        ensures { result ≡ record { place = None; store = empty_cells (pos 0); stack = [] } }
    {
        SavedRegisters {
            place: None,
            store: SavedStore::new(alloc),
            stack: SavedStack::new(alloc),
        }
    }

    /// Takes over what registers hold.
    ///
    /// # Errors
    ///
    /// Where a growth was refused memory. The contents are then unspecified.
    pub fn save(&mut self, registers: &Registers) -> Result<(), AllocError>
        ensures { OnOk result (self.new ≡ registers.now) }
    {
        self.place = registers.place;
        self.store.save(&registers.store)?;
        self.stack.save(&registers.stack)
    }

    /// Whether another one holds the same.
    pub fn is_same(&self, other: &SavedRegisters) -> bool
        ensures { IsTrue result ↔ (self.now ≡ other.now) }
    {
        same_place(self.place, other.place)
            && self.stack.is_same(&other.stack)
            && self.store.is_same(&other.store)
    }

    /// A number that is the same for those that hold the same. Others seldom have it, too.
    pub fn hash(&self) -> u64 {
        let place = match self.place {
            Some(place) => place.hash().wrapping_add(1),
            None => 0,
        };
        self.store
            .hash()
            .wrapping_mul(0x9E37_79B9_7F4A_7C15)
            .wrapping_add(self.stack.hash())
            .wrapping_mul(0x9E37_79B9_7F4A_7C15)
            .wrapping_add(place)
    }
}

impl Registers {
    /// Takes over what was saved. It takes no memory where both arrays have the same size.
    ///
    /// # Errors
    ///
    /// [`AllocError`] where there is no memory for the array. They hold what they held then.
    pub fn restore(&mut self, alloc: Global, saved: &SavedRegisters) -> Result<(), AllocError>
        ensures { TakesOver self.old self.new saved.now (λ r. r.store) result }
    {
        self.store.restore(alloc, &saved.store)?;
        self.stack.restore(&saved.stack);
        self.place = saved.place;
        Ok(())
    }
}
