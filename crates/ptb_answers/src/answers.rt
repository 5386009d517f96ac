// This file has the answers of a list of questions that were answered.

ghost use Rattle.std.specs.Prelude.{◌≡◌};
ghost use Rattle.ptb_answers.specs.AskedQuestions.{answers_in};

use crate::asked::Asked;
use std::marker::Model;

/// The answers of a list of questions that were answered, in order: an iterator over that list, which
/// keeps none of its own.
#[derive(Drop)]
pub struct Answers<'a> {
    left: &'a [Asked],
}

impl<'a> Model for Answers<'a> {
    ghost use Rattle.std.specs.Prelude.{List, ℤ};
    ghost use Rattle.ptb_answers.specs.AskedQuestions.{answers_in};

    ghost Value = { List ℤ };

    ghost view = { λ a. answers_in a.left.now };
}

impl<'a> Answers<'a> {
    /// The answers of these questions.
    pub fn new(asked: &'a [Asked]) -> Answers<'a>
        ensures { result ≡ answers_in asked.now }
    {
        Answers { left: asked }
    }
}

impl<'a> Iterator for Answers<'a> {
    ghost use Rattle.std.specs.Iterator.{YieldsFirst, item_count};

    type Item = i16;

    ghost next_gives = { YieldsFirst (λ a. a) };

    ghost remaining = { item_count (λ a. a) };

    fn next(&mut self) -> Option<i16> {
        let (first, others) = self.left.split_first()?;
        self.left = others;
        Some(first.answer)
    }

    fn size_hint(&self) -> (usize, Option<usize>) {
        let left = self.len();
        (left, Some(left))
    }
}

impl<'a> ExactSizeIterator for Answers<'a> {
    fn len(&self) -> usize {
        self.left.len()
    }
}
