// This file has the registers, which are what commands change: where the run is, what is stored,
// and what is open.

ghost use Rattle.std.specs.Prelude.{◌≡◌, ℕ, ℤ, List, true, false, Option, IfOk};
ghost use Rattle.ptb_command.specs.Configuration.{configuration};
ghost use Rattle.ptb_command.specs.Representation.{Represents};
ghost use Rattle.ptb_command.specs.State.{first_state};
ghost use Rattle.ptb_command.specs.Takeovers.{TakesOver};

use crate::command_order::command_laws;
use crate::location::Location;
use crate::stack::Stack;
use crate::statement_places::first_place;
use ptb_expr::Store;
use ptb_text::Program;
use std::alloc::{AllocError, Global};

/// What commands change.
#[derive(Drop)]
pub struct Registers {
    /// The next command, if one is left. Where the text is over at its place, the next statement is
    /// meant.
    pub place: Option<Location>,
    /// The values of the variables and of the array.
    pub store: Store,
    /// The open loops and calls.
    pub stack: Stack,
}

impl Registers {
    /// The registers at the beginning of a run of a program: its first command is next, the variables
    /// and the array hold 0, and nothing is open.
    ///
    /// # Errors
    ///
    /// [`AllocError`] where there is no memory for the array.
    // Inlined, so that the registers of each run are written once and not copied.
    #[inline(always)]
    pub fn new(alloc: Global, program: &Program) -> Result<Registers, AllocError>
        ensures { IfOk result (λ r. (input : List (List ℕ)) (choose : Option ℤ) →
            Represents program.now.lines (configuration r 0 true false)
            (first_state program.now input choose)) }
    {
        command_laws();
        Ok(Registers {
            place: first_place(program),
            store: Store::new(alloc, program.size())?,
            stack: Stack::new(),
        })
    }

    /// Registers that hold the same.
    ///
    /// # Errors
    ///
    /// [`AllocError`] where there is no memory for the array.
    pub fn copy(&self, alloc: Global) -> Result<Registers, AllocError>
        ensures { IfOk result (λ r. r ≡ self.now) }
    {
        Ok(Registers {
            place: self.place,
            store: self.store.copy(alloc)?,
            stack: self.stack.copy(),
        })
    }

    /// Takes over what other registers hold. It takes no memory where both arrays have the same size.
    ///
    /// # Errors
    ///
    /// [`AllocError`] where there is no memory for the array. They hold what they held then.
    #[inline(always)]
    pub fn copy_from(&mut self, alloc: Global, other: &Registers) -> Result<(), AllocError>
        ensures { TakesOver self.old self.new other.now (λ r. r.store) result }
    {
        self.store.copy_from(alloc, &other.store)?;
        self.stack.copy_from(&other.stack);
        self.place = other.place;
        Ok(())
    }
}
