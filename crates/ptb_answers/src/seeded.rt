// This file has the chooser that draws its answers from a seed.

ghost use Rattle.std.specs.Prelude.{◌≡◌, ◌≤ℤ◌, [], length, pos};
ghost use Rattle.rand_pcg.specs.Pcg.{pcg32};
ghost use Rattle.ptb_answers.specs.AskedQuestions.{answers_in, bounds_in};
ghost use Rattle.ptb_answers.specs.Seeds.{drawn_answer, drawn_from, generator_after};
ghost use Rattle.ptb_answers.specs.Seeds.{generator_of, seeded_choices};

use crate::answers::Answers;
use crate::asked::Asked;
use crate::bounds::Bounds;
use crate::chooser::Chooser;
use crate::pause::Pause;
use rand_core::utils::NextWord;
use rand_pcg::Lcg64Xsh32;
use std::alloc::Global;
use std::marker::Model;

/// Answers by a seed: each answer is 1 more than the generator's next word modulo the bound.
///
/// It keeps the answers that it gave, and their bounds. It has an answer to each question, unless it is
/// refused memory. Once a run is over, its answers can be forgotten: those of the next run are drawn
/// by the words that follow, so that no word serves two runs.
///
/// Contracts see the generator before the first of the answers that are kept, and their bounds.
#[derive(Drop)]
pub struct Seeded {
    // The generator's state before the first of the answers.
    first: u64,
    generator: Lcg64Xsh32,
    asked: Vec<Asked>,
}

impl Model for Seeded {
    ghost use Rattle.ptb_answers.specs.AskedQuestions.{answers_in, bounds_in};
    ghost use Rattle.ptb_answers.specs.Seeds.{HasDrawn, SeededAnswers, at_state};

    ghost Value = { SeededAnswers };

    ghost view = { λ s. record {
      first = at_state s.generator s.first;
      bounds = bounds_in s.asked.items;
    } };

    ghost invariant = { λ s. HasDrawn (at_state s.generator s.first) (bounds_in s.asked.items)
        (answers_in s.asked.items) s.generator };
}

impl Seeded {
    /// A seed by which no question was answered.
    pub fn new(alloc: Global, seed: u64) -> Seeded
        ensures { result ≡ record { first = generator_of seed; bounds = [] } }
    {
        let generator = Lcg64Xsh32::new(seed, 1);
        Seeded {
            first: generator.state(),
            generator,
            asked: Vec::new(alloc),
        }
    }

    /// The answers that it gave, in order, each with its bound.
    pub fn asked(&self) -> &[Asked]
        ensures answers { answers_in result.now ≡ drawn_from self.now.first self.now.bounds }
        ensures bounds { bounds_in result.now ≡ self.now.bounds }
    {
        self.asked.as_slice()
    }

    /// The answers that it gave, in order.
    ///
    /// For users of the library: the program calls [`asked`](Seeded::asked).
    pub fn answers(&self) -> Answers<'_>
        ensures { result ≡ drawn_from self.now.first self.now.bounds }
    {
        Answers::new(self.asked())
    }

    /// The bounds of the questions that it answered, in order.
    ///
    /// For users of the library: the program calls [`asked`](Seeded::asked).
    pub fn bounds(&self) -> Bounds<'_>
        ensures { result ≡ self.now.bounds }
    {
        Bounds::new(self.asked())
    }

    /// Forgets the answers that it gave, and keeps their room. The next answer is drawn by the word
    /// after those that they were drawn by.
    pub fn forget(&mut self)
        ensures { self.new ≡ record {
          first = generator_after self.old.first (length self.old.bounds);
          bounds = [];
        } }
    {
        self.first = self.generator.state();
        self.asked.clear();
    }
}

impl Chooser for Seeded {
    ghost use Rattle.ptb_answers.specs.Seeds.{RefusedForMemory};

    ghost choices = { seeded_choices };

    ghost refused = { λ _. RefusedForMemory };

    fn choose(&mut self, bound: i16) -> Result<i16, Pause> {
        // The list grows before a word is drawn, so that no word is lost where it can't.
        let unanswered = Asked {
            answer: bound,
            bound,
        };
        if self.asked.push(unanswered).is_err() {
            return Err(Pause::Memory);
        }
        let answer = drawn_answer(self.generator.next_word(), bound);
        let last = self.asked.len() - 1;
        self.asked[last] = Asked { answer, bound };
        Ok(answer)
    }
}

// The answer that a word gives to a question with this bound.
fn drawn_answer(word: u32, bound: i16) -> i16
    requires { pos 1 ≤ℤ bound }
    ensures { result ≡ drawn_answer word bound }
{
    1 + (word % bound as u32) as i16
}
