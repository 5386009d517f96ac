// This file has the copies of a machine that are kept of a run, from which the next runs continue.

ghost use Rattle.std.specs.Prelude.{◌≡◌, ◌<◌, ℕ, ℤ, List, Option, [], false, IfOk, drop, length};
ghost use Rattle.ptb_command.specs.Representation.{Represents};
ghost use Rattle.ptb_command.specs.State.{first_state};
ghost use Rattle.ptb_explore.specs.Copies.{KeepsCopy, GoesBackTo, IsSameCopy, with_one_free};

use arrayvec::ArrayVec;
use ptb_machine::{Machine, Player};
use std::alloc::{AllocError, Global};
use std::mem;

/// How many copies are kept at most.
pub(crate) const MOST_COPIES: usize = 64;

/// A copy of a machine, and how far its run was.
#[derive(Default, Drop)]
pub(crate) struct KeptCopy {
    /// The machine. A place that is not in use has none.
    pub(crate) machine: Option<Box<Machine>>,
    /// How many answers were taken.
    pub(crate) taken: usize,
    /// How many bytes were shown.
    pub(crate) shown: usize,
    /// How many lines were taken.
    pub(crate) lines: usize,
}

/// How far a run is.
#[derive(Clone, Copy)]
pub(crate) struct RunProgress {
    /// How many answers were taken.
    pub(crate) taken: usize,
    /// How many bytes were shown.
    pub(crate) shown: usize,
    /// How many lines were taken.
    pub(crate) lines: usize,
}

// Copies a machine, into the room of another where there is one.
#[inline(always)]
fn copied_machine(
    alloc: Global,
    free: Option<Box<Machine>>,
    machine: &Machine,
) -> Result<Box<Machine>, AllocError>
    ensures { IfOk result (λ b. b.value ≡ machine.now) }
{
    match free {
        Some(mut copy) => {
            copy.copy_from(alloc, machine)?;
            Ok(copy)
        }
        None => boxed_copy(alloc, machine),
    }
}

// Copies a machine into room of its own. Not inlined: a function that has room for a machine on the
// stack clears that room at each call, which would take a tenth of the time of a listing.
#[inline(never)]
fn boxed_copy(alloc: Global, machine: &Machine) -> Result<Box<Machine>, AllocError>
    ensures { IfOk result (λ b. b.value ≡ machine.now) }
{
    match Box::new(alloc, machine.copy(alloc)?) {
        Ok(copy) => Ok(copy),
        Err(_) => Err(AllocError),
    }
}

// A machine at the beginning of a run, in room of its own; not inlined for the same reason.
#[inline(never)]
fn boxed_first(alloc: Global, player: &Player) -> Result<Box<Machine>, AllocError>
    ensures first { IfOk result (λ b. (input : List (List ℕ)) (choose : Option ℤ) →
        Represents player.now.lines b.value (first_state player.now input choose)) }
    ensures unspent { IfOk result (λ b. b.value.spent ≡ false) }
{
    match Box::new(alloc, player.machine(alloc)?) {
        Ok(machine) => Ok(machine),
        Err(_) => Err(AllocError),
    }
}

impl KeptCopy {
    // A copy of it, which takes the room of another machine where there is one.
    // Inlined, as what calls it for each run is: a result of five words is passed in memory.
    #[inline(always)]
    fn copy(&self, alloc: Global, free: Option<Box<Machine>>) -> Result<KeptCopy, AllocError>
        ensures { IfOk result (IsSameCopy self.now) }
    {
        let machine = match &self.machine {
            Some(machine) => Some(copied_machine(alloc, free, machine)?),
            None => None,
        };
        Ok(KeptCopy {
            machine,
            taken: self.taken,
            shown: self.shown,
            lines: self.lines,
        })
    }
}

/// The copies of a run that are kept, at most [`MOST_COPIES`].
///
/// Machines that no copy needs are held for their room. With them there are at most
/// [`MOST_COPIES`] machines and the last one, since a new one is made only where there is no such room.
#[derive(Drop)]
pub(crate) struct Copies {
    /// Those that are kept, the one with the fewest answers first.
    pub(crate) kept: ArrayVec<KeptCopy, MOST_COPIES>,
    /// Machines that no copy needs.
    pub(crate) spare: ArrayVec<Option<Box<Machine>>, MOST_COPIES>,
    /// The machine of the run before, whose room the next run takes first: to add it to the spare ones
    /// and take it from there would cost more.
    last: Option<Box<Machine>>,
}

// The room of the last machine, or of a spare one, if there is one.
#[inline(always)]
fn free_machine(
    last: &mut Option<Box<Machine>>,
    spare: &mut ArrayVec<Option<Box<Machine>>, MOST_COPIES>,
) -> Option<Box<Machine>> {
    match mem::replace(last, None) {
        Some(machine) => Some(machine),
        None => spare.pop().flatten(),
    }
}

impl Copies {
    /// No copies.
    pub(crate) fn new() -> Copies
        ensures { result.kept.items ≡ [] }
    {
        Copies {
            kept: ArrayVec::new(),
            spare: ArrayVec::new(),
            last: None,
        }
    }

    // Room for one copy more: that of the one with the fewest answers, which is dropped, where there
    // are as many as can be.
    fn machine_for_next(&mut self) -> Option<Box<Machine>>
        ensures { self.new.kept.items ≡ with_one_free self.old.kept.items }
    {
        if self.kept.is_full() {
            return self.oldest_machine();
        }
        self.spare.pop().flatten()
    }

    // The room of the copy with the fewest answers, which is dropped. Not inlined, since few runs have so
    // many copies, and the loop of a play would keep the places of all of them.
    #[inline(never)]
    fn oldest_machine(&mut self) -> Option<Box<Machine>>
        requires { length self.old.kept.items ≡ 64 }
        ensures { self.new.kept.items ≡ drop 1 self.old.kept.items }
    {
        let KeptCopy { machine, .. } = self.kept.remove(0);
        machine
    }

    /// A machine at the beginning of a run of the player's program, in the room of one that no copy needs
    /// where there is one.
    ///
    /// # Errors
    ///
    /// Where there is no memory for it.
    pub(crate) fn start(
        &mut self,
        alloc: Global,
        player: &Player,
    ) -> Result<Box<Machine>, AllocError>
        ensures kept { self.new.kept ≡ self.old.kept }
        ensures first { IfOk result (λ b. (input : List (List ℕ)) (choose : Option ℤ) →
            Represents player.now.lines b.value (first_state player.now input choose)) }
        ensures unspent { IfOk result (λ b. b.value.spent ≡ false) }
    {
        match free_machine(&mut self.last, &mut self.spare) {
            Some(mut machine) => {
                player.restart(alloc, &mut machine)?;
                Ok(machine)
            }
            None => boxed_first(alloc, player),
        }
    }

    /// Keeps a copy of a machine that took answers in its last step, if there is memory for it. The run
    /// is as far as `reached` says; `before` is the number of answers taken before that step.
    pub(crate) fn keep(
        &mut self,
        alloc: Global,
        machine: &Machine,
        before: usize,
        reached: RunProgress,
    )
        ensures { KeepsCopy before machine.now reached.taken reached.shown reached.lines
            self.old.kept.items self.new.kept.items }
    {
        if reached.taken <= before {
            return;
        }
        // a copy, so that it lies in memory only where a copy of the machine is kept
        let held = reached;
        self.add(alloc, machine, held);
    }

    // Adds a copy of a machine, if there is memory for it. Inlined, since each run that takes an answer keeps a
    // copy: a call would take 20 instructions more.
    #[inline(always)]
    fn add(&mut self, alloc: Global, machine: &Machine, reached: RunProgress)
        ensures { (before : ℕ) → before < reached.taken
            → KeepsCopy before machine.now reached.taken reached.shown reached.lines
            self.old.kept.items self.new.kept.items }
    {
        let RunProgress {
            taken,
            shown,
            lines,
        } = reached;
        let free = self.machine_for_next();
        if let Ok(copy) = copied_machine(alloc, free, machine) {
            let _ = self.kept.try_push(KeptCopy {
                machine: Some(copy),
                taken,
                shown,
                lines,
            });
        }
    }

    /// Drops the copies that took more answers than `most`, and gives a copy of the newest that is
    /// left, from which a run can continue.
    ///
    /// # Errors
    ///
    /// Where that copy is refused memory.
    #[inline(always)]
    pub(crate) fn go_back(
        &mut self,
        alloc: Global,
        most: usize,
    ) -> Result<Option<KeptCopy>, AllocError>
        ensures { IfOk result (GoesBackTo most self.old.kept.items self.new.kept.items) }
    {
        loop {
            let Some(newest) = self.kept.as_slice().last() else {
                return Ok(None);
            };
            if newest.taken <= most {
                let free = free_machine(&mut self.last, &mut self.spare);
                return Ok(Some(newest.copy(alloc, free)?));
            }
            let Some(dropped) = self.kept.pop() else {
                return Ok(None);
            };
            let _ = self.spare.try_push(dropped.machine);
        }
    }

    /// Takes the machine of a run that is over, for its room.
    pub(crate) fn recycle(&mut self, machine: Box<Machine>)
        ensures { self.new.kept ≡ self.old.kept }
    {
        self.last = Some(machine);
    }

    /// Drops all copies, and gives their room back.
    pub(crate) fn clear(&mut self)
        ensures { self.new.kept.items ≡ [] }
    {
        self.kept.clear();
        self.spare.clear();
        self.last = None;
    }
}
