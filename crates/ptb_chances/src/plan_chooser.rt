// This file has the chooser that gives the answers of a plan, and keeps the bound of the question
// after them.

use ptb_answers::{Chooser, Listed, Pause};
use std::marker::Model;

/// Gives the answers of a plan, in order. It keeps the bound of the last question that it refused.
#[derive(Drop)]
pub(crate) struct PlanChooser<'a> {
    list: Listed<'a>,
    refused_bound: i16,
}

impl<'a> Model for PlanChooser<'a> {
    ghost use Rattle.ptb_chances.specs.PlanChoosers.{PlanAnswers};

    ghost Value = { PlanAnswers };

    ghost view = { λ l. record {
      answers = l.list.answers;
      given = l.list.given;
      refused_bound = l.refused_bound;
    } };
}

impl<'a> PlanChooser<'a> {
    ghost use Rattle.std.specs.Prelude.{◌≡◌, ◌↔◌, length, pos, IsTrue};

    /// A plan of which no answer was given.
    pub(crate) fn new(answers: &'a [i16]) -> PlanChooser<'a>
        ensures { result ≡ record { answers = answers.now; given = 0; refused_bound = pos 0 } }
    {
        PlanChooser {
            list: Listed::new(answers),
            refused_bound: 0,
        }
    }

    /// Whether all of them were given.
    pub(crate) fn is_used_up(&self) -> bool
        ensures { IsTrue result → self.now.given ≡ length self.now.answers }
    {
        self.list.left() == 0
    }

    /// The bound of the last question that it refused, 0 before any.
    pub(crate) fn refused_bound(&self) -> i16
        ensures { result ≡ self.now.refused_bound }
    {
        self.refused_bound
    }
}

impl<'a> Chooser for PlanChooser<'a> {
    ghost use Rattle.ptb_chances.specs.PlanChoosers.{plan_choices, RefusedByPlanAnswers};

    ghost choices = { plan_choices };

    ghost refused = { RefusedByPlanAnswers };

    fn choose(&mut self, bound: i16) -> Result<i16, Pause> {
        match self.list.choose(bound) {
            Err(Pause::Ended) => {
                self.refused_bound = bound;
                Err(Pause::Ended)
            }
            chosen => chosen,
        }
    }
}
