// This file has the chooser that plays a plan, and keeps what it answered.

ghost use Rattle.std.specs.Prelude.{◌≡◌, ◌+◌, ◌-◌, ◌<◌, ◌≤◌, pos, OnOk};
ghost use Rattle.std.specs.Prelude.{[], ◌∷◌, ◌++◌, length, take, replicate, vec_len};
ghost use Rattle.ptb_answers.specs.AnswerText.{answers_of};
ghost use Rattle.ptb_answers.specs.AskedQuestions.{answers_in};

use ptb_answers::{Asked, Chooser, Marked, Pause};
use std::alloc::{AllocError, Global};
use std::mem;

/// No answer, whatever the question. A play stops where it comes in a plan.
const NO_ANSWER: i16 = 0;

/// The bound of a question that was not asked yet.
const NO_BOUND: i16 = 0;

/// Answers from a plan, and then 1 each time. It keeps each answer with its bound.
///
/// The first `planned` of the answers are the plan, those after it are ones.
#[derive(Drop)]
pub(crate) struct Recorder {
    /// The answers that were given, each with its bound, and after them those that are planned and not
    /// given yet.
    pub(crate) asked: Vec<Asked>,
    /// How many of the answers were given.
    pub(crate) given: usize,
    /// How many of the answers are the plan.
    pub(crate) planned: usize,
    /// The bound of the last question that a planned answer was out of range for; 0 before any.
    pub(crate) refused_bound: i16,
    ghost bounded: { given ≤ vec_len asked },
    ghost within: { planned ≤ vec_len asked },
    ghost later_one: { answers_in asked.items
        ≡ take planned (answers_in asked.items) ++ replicate (vec_len asked - planned) (pos 1) },
    ghost at_end: { planned < vec_len asked → given ≡ vec_len asked },
}

impl Recorder {
    ghost use Rattle.ptb_explore.specs.Plans.{stopping_plan};
    ghost use Rattle.ptb_explore.specs.Recorders.{recorded};

    /// A recorder with no plan: it answers 1 each time.
    pub(crate) fn new(alloc: Global) -> Self
        ensures asked { result.asked.items ≡ [] }
        ensures given { result.given ≡ 0 }
        ensures planned { result.planned ≡ 0 }
    {
        Recorder {
            asked: Vec::new(alloc),
            given: 0,
            planned: 0,
            refused_bound: 0,
        }
    }

    /// Plans these answers, the last of which, at this place, is replaced by the raised one. None was
    /// given yet.
    ///
    /// # Errors
    ///
    /// Where the plan is refused memory; nothing is changed then.
    pub(crate) fn replace_plan(
        &mut self,
        list: &[Asked],
        last: usize,
        raised: Asked,
    ) -> Result<(), AllocError>
        requires { length list.now ≡ last + 1 }
        ensures asked { OnOk result (self.new.asked.items ≡ take last list.now ++ raised ∷ []) }
        ensures planned { OnOk result (self.new.planned ≡ last + 1) }
        ensures given { OnOk result (self.new.given ≡ 0) }
    {
        self.asked.resize(list.len(), raised)?;
        self.asked.copy_from_slice(list);
        self.asked[last] = raised;
        self.planned = self.asked.len();
        self.given = 0;
        Ok(())
    }

    /// Plans the answers of a list. None was given yet.
    ///
    /// # Errors
    ///
    /// Where the plan is refused memory; a prefix of it is planned then.
    pub(crate) fn replay(&mut self, list: &[Marked]) -> Result<(), AllocError>
        ensures answers { OnOk result (recorded self.new ≡ answers_of list.now) }
        ensures planned { OnOk result (self.new.planned ≡ vec_len self.new.asked) }
        ensures given { OnOk result (self.new.given ≡ 0) }
    {
        self.clear();
        for item in list {
            self.asked.push(Asked {
                answer: item.answer,
                bound: NO_BOUND,
            })?;
            self.planned = self.asked.len();
        }
        Ok(())
    }

    /// Plans ones after its plan, up to so many answers, and then no answer, so that the play stops at
    /// the next question.
    ///
    /// # Errors
    ///
    /// Where the plan is refused memory.
    pub(crate) fn stop_after(&mut self, most: usize) -> Result<(), AllocError>
        requires fresh { self.old.given ≡ 0 }
        requires planned { self.old.planned ≡ vec_len self.old.asked }
        requires within { vec_len self.old.asked ≤ most }
        ensures answers { OnOk result
            (recorded self.new ≡ stopping_plan most (recorded self.old)) }
        ensures front { OnOk result (take (vec_len self.old.asked) self.new.asked.items
            ≡ self.old.asked.items) }
        ensures planned { OnOk result (self.new.planned ≡ vec_len self.new.asked) }
        ensures given { OnOk result (self.new.given ≡ 0) }
    {
        let one = Asked {
            answer: 1,
            bound: NO_BOUND,
        };
        self.asked.resize(most, one)?;
        self.planned = self.asked.len();
        self.asked.push(Asked {
            answer: NO_ANSWER,
            bound: NO_BOUND,
        })?;
        self.planned = self.asked.len();
        Ok(())
    }

    /// Forgets the answers of its plan that were not given.
    pub(crate) fn keep_given(&mut self)
        ensures asked { self.new.asked.items ≡ take self.old.given self.old.asked.items }
        ensures given { self.new.given ≡ self.old.given }
    {
        self.asked.truncate(self.given);
        self.planned = self.asked.len();
    }

    /// Counts so many of the first answers of its plan as given, with the bounds that they are planned
    /// with.
    pub(crate) fn assume_given(&mut self, count: usize)
        requires planned { self.old.planned ≡ vec_len self.old.asked }
        requires within { count ≤ vec_len self.old.asked }
        ensures asked { self.new.asked.items ≡ self.old.asked.items }
        ensures planned { self.new.planned ≡ self.old.planned }
        ensures given { self.new.given ≡ count }
    {
        self.given = count;
    }

    /// Gives its answers and their bounds away, in exchange for others, which are its plan now.
    pub(crate) fn exchange_answers(&mut self, asked: &mut Vec<Asked>)
        ensures asked { asked.new.items ≡ self.old.asked.items }
        ensures planned { self.new.planned ≡ vec_len self.new.asked }
        ensures given { self.new.given ≡ 0 }
    {
        mem::swap(&mut self.asked, asked);
        self.planned = self.asked.len();
        self.given = 0;
    }

    /// Forgets its plan and its answers.
    pub(crate) fn clear(&mut self)
        ensures asked { self.new.asked.items ≡ [] }
        ensures given { self.new.given ≡ 0 }
        ensures planned { self.new.planned ≡ 0 }
    {
        self.planned = 0;
        self.given = 0;
        self.asked.clear();
    }
}

impl Chooser for Recorder {
    ghost use Rattle.ptb_explore.specs.Recorders.{recorder_choices, RefusedByPlan};

    ghost choices = { recorder_choices };

    ghost refused = { λ r. RefusedByPlan (recorder_choices r) r.refused_bound };

    #[inline(always)]
    fn choose(&mut self, bound: i16) -> Result<i16, Pause> {
        let place = self.given;
        if place < self.asked.len() {
            let answer = self.asked[place].answer;
            if answer < 1 || answer > bound {
                self.refused_bound = bound;
                return Err(Pause::OutOfRange(answer));
            }
            self.asked[place] = Asked { answer, bound };
            self.given += 1;
            Ok(answer)
        } else {
            match self.asked.push(Asked { answer: 1, bound }) {
                Ok(()) => {
                    self.given += 1;
                    Ok(1)
                }
                Err(_) => Err(Pause::Memory),
            }
        }
    }
}
