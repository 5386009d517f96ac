// This file has what is left to be played of all runs: where plays are, with the chance and the
// number of the plays that have come there.

ghost use Rattle.std.specs.Prelude.{◌≡◌, ◌<ℤ◌, ◌≤ℤ◌, pos, [], ◌∷◌, ◌++◌, map, unsigned_abs, IsTrue};
ghost use Rattle.std.specs.Prelude.{◌+◌, ◌<◌, IfOk, OnOk, IfSome, IfNone};
ghost use Rattle.ptb_chances.specs.Prelude.{Configuration, IsAtFirst, Equals, plus, after_answer};
ghost use Rattle.ptb_chances.specs.Prelude.{first_waiting, gone_to, planned, waiting_plays, Puts, PutsAnswers};
ghost use Rattle.ptb_chances.specs.Prelude.{states_left, Takes, unplanned};

use ptb_machine::{Player, SavedMachine};
use ptb_numbers::{Fraction, Natural};
use std::alloc::{AllocError, Global};
use std::collections::BTreeMap;

/// Where plays are: a machine, how many lines were taken, and the end of what was shown.
#[derive(Drop)]
pub(crate) struct SavedState {
    pub(crate) machine: SavedMachine,
    pub(crate) taken: usize,
    pub(crate) shown: Vec<u8>,
}

/// Answers that plays take next, with the chance and the number of these plays.
#[derive(Drop)]
pub(crate) struct Plan {
    pub(crate) answers: Vec<i16>,
    pub(crate) chance: Fraction,
    pub(crate) runs: Natural,
}

/// Plays in one state, with their chance and their number.
#[derive(Drop)]
pub(crate) struct Waiting {
    pub(crate) state: SavedState,
    pub(crate) chance: Fraction,
    pub(crate) runs: Natural,
}

/// What is left to be played.
#[derive(Drop)]
pub(crate) struct Worklist {
    /// Where the plays of the plans are.
    pub(crate) state: SavedState,
    pub(crate) plans: Vec<Plan>,
    /// Plays that have no plan, by the keys of their states.
    pub(crate) states: BTreeMap<u64, Waiting>,
    /// Those whose key another state has.
    pub(crate) others: Vec<Waiting>,
}

impl SavedState {
    /// A state in which no play is.
    pub(crate) fn new(alloc: Global) -> SavedState {
        SavedState {
            machine: SavedMachine::new(alloc),
            taken: 0,
            shown: Vec::new(alloc),
        }
    }

    /// The beginning of the player's program.
    ///
    /// # Errors
    ///
    /// Where there is no memory for it.
    pub(crate) fn first(alloc: Global, player: &Player) -> Result<SavedState, AllocError>
        ensures machine { IfOk result (λ state. IsAtFirst player.now state.machine) }
        ensures taken { IfOk result (λ state. state.taken ≡ 0) }
        ensures shown { IfOk result (λ state. state.shown.items ≡ []) }
    {
        let machine = player.machine(alloc)?;
        let mut saved = SavedMachine::new(alloc);
        saved.save(&machine)?;
        Ok(SavedState {
            machine: saved,
            taken: 0,
            shown: Vec::new(alloc),
        })
    }

    // A number that the same states have. It rises with the steps.
    fn key(&self) -> u64 {
        let mut sum = self.machine.hash();
        for byte in &self.shown {
            sum = sum
                .wrapping_mul(0x9E37_79B9_7F4A_7C15)
                .wrapping_add(u64::from(*byte));
        }
        sum = sum
            .wrapping_mul(0x9E37_79B9_7F4A_7C15)
            .wrapping_add(self.taken as u64);
        u64::from(self.machine.steps())
            .wrapping_mul(0x1_0000_0000)
            .wrapping_add(sum / 0x1_0000_0000)
    }

    // Whether another state is the same.
    fn is_same(&self, other: &SavedState) -> bool
        ensures { IsTrue result → (self.now.machine ≡ other.now.machine)
            × (self.now.taken ≡ other.now.taken) × (self.now.shown.items ≡ other.now.shown.items) }
    {
        self.taken == other.taken
            && self.shown.as_slice() == other.shown.as_slice()
            && self.machine.is_same(&other.machine)
    }
}

impl Waiting {
    // Adds other plays, which are in the same state.
    fn join(&mut self, alloc: Global, other: &Waiting) -> Result<(), AllocError>
        ensures state { OnOk result (self.new.state ≡ self.old.state) }
        ensures chance { OnOk result (Equals self.new.chance
            (plus self.old.chance other.now.chance)) }
        ensures positive { OnOk result (0 < self.new.chance.denominator) }
        ensures runs { OnOk result (self.new.runs ≡ self.old.runs + other.now.runs) }
    {
        self.chance.add(alloc, &other.chance)?;
        self.runs.add(&other.runs)
    }
}

impl Plan {
    // The plan of one play, which takes no answer.
    fn first(alloc: Global) -> Result<Plan, AllocError>
        ensures { IfOk result (λ plan. (plan.answers.items ≡ [])
            × (plan.chance ≡ record { numerator = 1; denominator = 1 }) × (plan.runs ≡ 1)) }
    {
        Ok(Plan {
            answers: Vec::new(alloc),
            chance: Fraction::one(alloc)?,
            runs: Natural::from_word(alloc, 1)?,
        })
    }

    /// The same plays, which are in a state after their last answer.
    pub(crate) fn at(self, state: SavedState) -> Waiting
        ensures { unplanned result ≡ gone_to state.machine state.taken state.shown.items
            self.chance self.runs }
    {
        let Plan { chance, runs, .. } = self;
        Waiting {
            state,
            chance,
            runs,
        }
    }

    // The same plays after an answer more, to a question with this bound.
    fn answered(&self, alloc: Global, answer: i16, bound: i16) -> Result<Plan, AllocError>
        requires { pos 1 ≤ℤ bound }
        ensures { (state : SavedState) → IfOk result (λ plan.
            planned state plan ≡ after_answer (planned state self.now) bound answer) }
    {
        let mut answers = Vec::from_slice(alloc, &self.answers)?;
        answers.push(answer)?;
        let mut chance = self.chance.copy(alloc)?;
        chance.divide(u32::from(bound.unsigned_abs()))?;
        Ok(Plan {
            answers,
            chance,
            runs: self.runs.copy(alloc)?,
        })
    }
}

impl Worklist {
    /// One play, at the beginning of the player's program.
    ///
    /// # Errors
    ///
    /// Where a growth was refused memory.
    pub(crate) fn start(alloc: Global, player: &Player) -> Result<Worklist, AllocError>
        ensures { IfOk result (λ work. (m : Configuration)
            × (waiting_plays work ≡ first_waiting m ∷ []) × IsAtFirst player.now m) }
    {
        let mut plans = Vec::new(alloc);
        plans.push(Plan::first(alloc)?)?;
        Ok(Worklist {
            state: SavedState::first(alloc, player)?,
            plans,
            states: BTreeMap::new(alloc),
            others: Vec::new(alloc),
        })
    }

    /// Takes out plays that have the fewest commands done, of those in one state, and goes
    /// to this state.
    pub(crate) fn next(&mut self, alloc: Global) -> Option<Plan>
        ensures none { IfNone result (waiting_plays self.old ≡ []) }
        ensures some { IfSome result (λ plan. Takes (waiting_plays self.old)
            (planned self.new.state plan) (waiting_plays self.new)) }
    {
        if let Some(plan) = self.plans.pop() {
            return Some(plan);
        }
        let Waiting {
            state,
            chance,
            runs,
        } = self.next_state()?;
        self.state = state;
        Some(Plan {
            answers: Vec::new(alloc),
            chance,
            runs,
        })
    }

    // Takes out plays that have no plan.
    fn next_state(&mut self) -> Option<Waiting>
        ensures none { IfNone result (states_left self.old ≡ []) }
        ensures some { IfSome result (λ w. Takes (states_left self.old) (unplanned w)
            (states_left self.new)) }
        ensures plans { self.new.plans ≡ self.old.plans }
    {
        if let Some(waiting) = self.others.pop() {
            return Some(waiting);
        }
        let (_, waiting) = self.states.pop_first()?;
        Some(waiting)
    }

    // Puts in the plays of a plan, after an answer more to a question with this bound.
    fn add_plan(
        &mut self,
        alloc: Global,
        plan: &Plan,
        answer: i16,
        bound: i16,
    ) -> Result<(), AllocError>
        requires { pos 1 ≤ℤ bound }
        ensures added { OnOk result (Takes (waiting_plays self.new)
            (after_answer (planned self.old.state plan.now) bound answer) (waiting_plays self.old)) }
        ensures state { self.new.state ≡ self.old.state }
    {
        let answered = plan.answered(alloc, answer, bound)?;
        self.plans.push(answered)?;
        Ok(())
    }

    /// Puts in the plays of a plan, after each answer to a question with this bound.
    ///
    /// # Errors
    ///
    /// Where a growth was refused memory.
    pub(crate) fn add_plans(
        &mut self,
        alloc: Global,
        plan: &Plan,
        bound: i16,
    ) -> Result<(), AllocError>
        requires { pos 1 ≤ℤ bound }
        ensures { OnOk result (PutsAnswers (planned self.old.state plan.now) bound
            (unsigned_abs bound) (waiting_plays self.old) (waiting_plays self.new)) }
    {
        let mut answer = 0;
        while answer < bound {
            answer += 1;
            self.add_plan(alloc, plan, answer, bound)?;
        }
        Ok(())
    }

    /// How many states wait.
    pub(crate) fn waiting_count(&self) -> usize {
        self.states.len().saturating_add(self.others.len())
    }

    /// Puts in plays in one state: together with those in the same state, where these are found.
    ///
    /// # Errors
    ///
    /// Where a growth was refused memory.
    pub(crate) fn add(&mut self, alloc: Global, waiting: Waiting) -> Result<(), AllocError>
        ensures { OnOk result (Puts (waiting_plays self.old) (unplanned waiting) (waiting_plays self.new)) }
    {
        let key = waiting.state.key();
        let Some(other) = self.states.get_mut(&key) else {
            self.states.insert(key, waiting)?;
            return Ok(());
        };
        if other.state.is_same(&waiting.state) {
            return other.join(alloc, &waiting);
        }
        self.others.push(waiting)?;
        Ok(())
    }
}
