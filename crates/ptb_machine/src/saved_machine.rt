// This file has the saved form of a machine: where a run is, in little memory.

ghost use Rattle.std.specs.Prelude.{◌≡◌, ◌↔◌, [], None, true, pos, IsTrue, OnOk};
ghost use Rattle.ptb_expr.specs.Store.{empty_cells};
ghost use Rattle.ptb_command.specs.Configuration.{configuration};
ghost use Rattle.ptb_command.specs.Takeovers.{TakesOver};

use crate::machine::Machine;
use ptb_command::SavedRegisters;
use std::alloc::{AllocError, Global};
use std::marker::Model;

/// The state of a machine. It takes memory for what is in use alone: the elements up to the last
/// one that was stored, and the loops and calls that are open.
///
/// Contracts see it as that machine.
#[derive(Drop)]
pub struct SavedMachine {
    registers: SavedRegisters,
    steps: u32,
    fresh: bool,
    spent: bool,
}

impl Model for SavedMachine {
    ghost use Rattle.ptb_command.specs.Configuration.{Configuration, configuration};

    ghost Value = { Configuration };

    ghost view = { λ s. configuration s.registers s.steps s.fresh s.spent };
}

impl SavedMachine {
    /// A place without memory, at which no run is: no command is next or was begun, nothing is open or
    /// was shown, and the run is over.
    pub fn new(alloc: Global) -> SavedMachine
        ensures { result ≡ configuration
            (record { place = None; store = empty_cells (pos 0); stack = [] }) 0 true true }
    {
        SavedMachine {
            registers: SavedRegisters::new(alloc),
            steps: 0,
            fresh: true,
            spent: true,
        }
    }

    /// Takes over where a machine is.
    ///
    /// # Errors
    ///
    /// [`AllocError`] where a growth was refused memory. The contents are then unspecified.
    pub fn save(&mut self, machine: &Machine) -> Result<(), AllocError>
        ensures { OnOk result (self.new ≡ machine.now) }
    {
        self.steps = machine.steps;
        self.fresh = machine.fresh;
        self.spent = machine.spent;
        self.registers.save(&machine.registers)
    }

    /// Whether another one is of the same machine. Machines with the same contents continue in the same
    /// way.
    pub fn is_same(&self, other: &SavedMachine) -> bool
        ensures { IsTrue result ↔ (self.now ≡ other.now) }
    {
        self.steps == other.steps
            && self.fresh == other.fresh
            && self.spent == other.spent
            && self.registers.is_same(&other.registers)
    }

    /// A number that is the same for those of the same machine. Others seldom have it, too.
    pub fn hash(&self) -> u64 {
        let fresh = if self.fresh { 1 } else { 0 };
        self.registers.hash().wrapping_add(fresh)
    }

    /// How many commands were begun.
    pub fn steps(&self) -> u32
        ensures { result ≡ self.now.steps }
    {
        self.steps
    }
}

impl Machine {
    /// Goes to where a machine was when it was saved. It takes no memory where both arrays have the
    /// same size, as those of one program have.
    ///
    /// # Errors
    ///
    /// [`AllocError`] where there is no memory for the array. It stays where it was then.
    pub fn restore(&mut self, alloc: Global, saved: &SavedMachine) -> Result<(), AllocError>
        ensures { TakesOver self.old self.new saved.now (λ m. m.cells) result }
    {
        self.registers.restore(alloc, &saved.registers)?;
        self.steps = saved.steps;
        self.fresh = saved.fresh;
        self.spent = saved.spent;
        Ok(())
    }
}
