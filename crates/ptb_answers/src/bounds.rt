// This file has the bounds of a list of questions that were answered.

ghost use Rattle.std.specs.Prelude.{◌≡◌};
ghost use Rattle.ptb_answers.specs.AskedQuestions.{bounds_in};

use crate::asked::Asked;
use std::marker::Model;

/// The bounds of a list of questions that were answered, in order: an iterator over that list, which
/// keeps none of its own.
#[derive(Drop)]
pub struct Bounds<'a> {
    left: &'a [Asked],
}

impl<'a> Model for Bounds<'a> {
    ghost use Rattle.std.specs.Prelude.{List, ℤ};
    ghost use Rattle.ptb_answers.specs.AskedQuestions.{bounds_in};

    ghost Value = { List ℤ };

    ghost view = { λ b. bounds_in b.left.now };
}

impl<'a> Bounds<'a> {
    /// The bounds of these questions.
    pub fn new(asked: &'a [Asked]) -> Bounds<'a>
        ensures { result ≡ bounds_in asked.now }
    {
        Bounds { left: asked }
    }
}

impl<'a> Iterator for Bounds<'a> {
    ghost use Rattle.std.specs.Iterator.{YieldsFirst, item_count};

    type Item = i16;

    ghost next_gives = { YieldsFirst (λ b. b) };

    ghost remaining = { item_count (λ b. b) };

    fn next(&mut self) -> Option<i16> {
        let (first, others) = self.left.split_first()?;
        self.left = others;
        Some(first.bound)
    }

    fn size_hint(&self) -> (usize, Option<usize>) {
        let left = self.len();
        (left, Some(left))
    }
}

impl<'a> ExactSizeIterator for Bounds<'a> {
    fn len(&self) -> usize {
        self.left.len()
    }
}
