// This file has the saved form of a stack: what it holds in little memory.

ghost use Rattle.std.specs.Prelude.{◌≡◌, ◌↔◌, [], IsTrue, OnOk};

use crate::stack::{Open, Stack, hash_of_opens, same_opens};
use std::alloc::{AllocError, Global};
use std::marker::Model;

/// The loops and calls that are open in a stack. It takes memory for these alone.
///
/// Contracts see them as a list, newest first.
#[derive(Drop)]
pub(crate) struct SavedStack {
    // newest last
    opens: Vec<Open>,
}

impl Model for SavedStack {
    ghost use Rattle.std.specs.Prelude.{◌≤◌, List, reverse, vec_len};
    ghost use Rattle.ptb_command.specs.State.{nesting_limit};
    ghost use Rattle.ptb_command.specs.declared.stack.Open.{Open};

    ghost Value = { List Open };

    ghost view = { λ s. reverse s.opens.items };

    ghost invariant = { λ s. vec_len s.opens ≤ nesting_limit };
}

impl SavedStack {
    /// Nothing is open.
    pub(crate) fn new(alloc: Global) -> SavedStack
        ensures { result ≡ [] }
    {
        SavedStack {
            opens: Vec::new(alloc),
        }
    }

    /// Replaces its loops and calls with those of a stack.
    ///
    /// # Errors
    ///
    /// Where they are refused memory. The contents are then unspecified.
    pub(crate) fn save(&mut self, stack: &Stack) -> Result<(), AllocError>
        ensures { OnOk result (self.new ≡ stack.now) }
    {
        self.opens.clear();
        self.opens.extend_from_slice(stack.opens.as_slice())
    }

    /// Whether another one has the same loops and calls.
    pub(crate) fn is_same(&self, other: &SavedStack) -> bool
        ensures { IsTrue result ↔ (self.now ≡ other.now) }
    {
        let opens = self.opens.as_slice();
        let others = other.opens.as_slice();
        same_opens(opens, others)
    }

    /// A number that is the same for those that hold the same. Others may have it, too.
    pub(crate) fn hash(&self) -> u64 {
        hash_of_opens(self.opens.as_slice())
    }
}

impl Stack {
    /// Replaces its loops and calls with those that were saved.
    pub(crate) fn restore(&mut self, saved: &SavedStack)
        ensures { self.new ≡ saved.now }
    {
        self.opens.clear();
        let _ = self.opens.try_extend_from_slice(saved.opens.as_slice());
    }
}
