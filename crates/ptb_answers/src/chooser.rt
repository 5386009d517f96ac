// This file has the choosers, which answer the questions of RND.

ghost use Rattle.std.specs.Prelude.{◌≡◌, ℕ, ◌+◌, ◌≤◌, true, List, [], ◌∷◌, length, ℤ, pos, ◌≤ℤ◌};
ghost use Rattle.std.specs.Prelude.{IfOk, IfErr};
ghost use Rattle.ptb_answers.specs.declared.pause.Pause.{Pause};
ghost use Rattle.ptb_answers.specs.Outcome.{is_answer};
ghost use Rattle.ptb_answers.specs.Choices.{Choices, with_answers, IsOutside};

use crate::pause::Pause;
use std::marker::Model;

/// Answers the questions of RND.
pub trait Chooser {
    /// What it is to answer, what it has answered, and the bounds of these where it keeps bounds.
    ghost choices: { Self → Choices };

    /// What holds after a pause at a question with this bound.
    ghost refused: { Self → Pause → ℤ → Type 0 };

    /// Answers a question with a number from 1 to `bound`, which is at least 1.
    ///
    /// # Errors
    ///
    /// [`Pause::Ended`] where no answer is left, [`Pause::OutOfRange`] with the next answer where
    /// that is not from 1 to `bound`, [`Pause::Memory`] where a growth was refused memory. The plan
    /// and what was given are then as before.
    fn choose(&mut self, bound: i16) -> Result<i16, Pause>
        requires { pos 1 ≤ℤ bound }
        ensures answer { IfOk result (λ k. is_answer bound k ≡ true) }
        ensures grown { IfOk result
            (λ k. choices self.new ≡ with_answers (k ∷ []) (bound ∷ []) (choices self.old)) }
        ensures same { IfErr result (λ _. choices self.new ≡ choices self.old) }
        ensures refused { IfErr result (λ z. refused self.new z bound) }
        ensures outside { IfErr result (λ z. IsOutside z bound) };
}

/// Gives the answers of a list, in order.
///
/// It keeps no bounds, and is never short of memory.
#[derive(Drop)]
pub struct Listed<'a> {
    answers: &'a [i16],
    given: usize,
}

impl<'a> Model for Listed<'a> {
    ghost use Rattle.std.specs.Prelude.{◌≤◌, length};
    ghost use Rattle.ptb_answers.specs.Choices.{AnswerList};

    ghost Value = { AnswerList };

    ghost view = { λ l. record { answers = l.answers.now; given = l.given } };

    ghost invariant = { λ l. l.given ≤ length l.answers.now };
}

impl<'a> Listed<'a> {
    /// A list of which no answer was given.
    pub fn new(answers: &'a [i16]) -> Listed<'a>
        ensures { result ≡ record { answers = answers.now; given = 0 } }
    {
        Listed { answers, given: 0 }
    }

    /// How many answers are left.
    pub fn left(&self) -> usize
        ensures { result + self.now.given ≡ length self.now.answers }
    {
        self.answers.len() - self.given
    }
}

impl<'a> Chooser for Listed<'a> {
    ghost use Rattle.ptb_answers.specs.Choices.{choices_of, RefusedByList};

    ghost choices = { choices_of };

    ghost refused = { λ l. RefusedByList l.answers l.given };

    fn choose(&mut self, bound: i16) -> Result<i16, Pause> {
        if self.given == self.answers.len() {
            return Err(Pause::Ended);
        }
        let answer = self.answers[self.given];
        if answer < 1 || answer > bound {
            return Err(Pause::OutOfRange(answer));
        }
        self.given += 1;
        Ok(answer)
    }
}
