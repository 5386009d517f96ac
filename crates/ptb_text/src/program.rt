// This file has the program: the texts of its statements under their numbers, and how they are found.

ghost use Rattle.std.specs.Prelude.{◌≡◌, ℕ, ℤ, ◌+◌, ◌<◌, ◌≤◌, ◌^◌, List, [], Some, None, length, IfOk, IfErr, IsSome};
ghost use Rattle.std.specs.Prelude.{IsNone, IfSome, OnSome, option_map, pos, ◌<ℤ◌, IsTrue, ◌↔◌, slice_get, take};
ghost use Rattle.ptb_text.specs.Prelude.{option_copied, IsMemorySize, IsSound, IsText, cost, first_number};
ghost use Rattle.ptb_text.specs.Prelude.{number_above, size_of, text_limit, text_of_number, number_limit, IsAt};
ghost use Rattle.ptb_text.specs.Prelude.{IsGapFor, statement_at, texts_length};

use std::alloc::Global;
use std::marker::Model;

/// What a statement takes of the memory beside its text: two for its number and one for its end.
pub(crate) const STATEMENT_COST: usize = 3;

/// A statement's number, and where its text is in the pool of all texts.
#[derive(Clone, Copy, Debug)]
pub(crate) struct Statement {
    pub(crate) number: u16,
    pub(crate) place: u16,
    pub(crate) length: u8,
}

impl Statement {
    /// The place after its text.
    pub(crate) fn end(&self) -> usize
        ensures { result ≡ self.now.place + self.now.length }
    {
        usize::from(self.place) + usize::from(self.length)
    }
}

/// A program: the texts of its statements under their numbers, and the memory that it is given.
///
/// A number is 1 to 32767. A text has 1 to 255 bytes from space to tilde, the first no space. A
/// statement takes the length of its text and 3 of the memory, and all of them together no more
/// than there is.
#[derive(Debug, Drop)]
pub struct Program {
    // rising by their numbers
    pub(crate) statements: Vec<Statement>,
    // their texts in the same order, each directly after the one before it
    pub(crate) pool: Vec<u8>,
    pub(crate) memory: u16,
}

impl Model for Program {
    ghost use Rattle.ptb_text.specs.Statements.{StoredProgram};

    ghost Value = { StoredProgram };

    ghost use Rattle.ptb_text.specs.Program.{stored_program, IsKept};

    ghost view = { stored_program };

    ghost invariant = { IsKept };
}

impl Program {
    /// A program without statements, with a memory of 64 to 32767.
    pub fn new(alloc: Global, memory: u16) -> Program
        requires { IsMemorySize memory }
        ensures { result ≡ record { lines = []; memory = memory } }
    {
        Program {
            statements: Vec::new(alloc),
            pool: Vec::new(alloc),
            memory,
        }
    }

    /// The memory that it is given, 64 to 32767.
    ///
    /// For users of the library: the program doesn't call it.
    pub fn memory(&self) -> u16
        ensures value { result ≡ self.now.memory }
        ensures sound { IsSound self.now }
    {
        self.memory
    }

    /// The memory that its statements leave, 0 to 32767.
    pub fn size(&self) -> i16
        ensures value { result ≡ pos (size_of self.now) }
        ensures sound { IsSound self.now }
    {
        (self.memory - self.cost()) as i16
    }

    /// The number of its statements.
    pub fn len(&self) -> usize
        ensures value { result ≡ length self.now.lines }
        ensures sound { IsSound self.now }
    {
        self.statements.len()
    }

    /// Whether it has no statement.
    pub fn is_empty(&self) -> bool
        ensures value { IsTrue result ↔ (self.now.lines ≡ []) }
        ensures sound { IsSound self.now }
    {
        self.statements.is_empty()
    }

    /// The text of the statement of this number, if there is one.
    ///
    /// For users of the library: the program doesn't call it.
    pub fn line(&self, number: i16) -> Option<&[u8]>
        ensures value { option_copied result ≡ text_of_number self.now.lines number }
        ensures number { OnSome result (pos 0 <ℤ number) }
        ensures text { IfSome result (λ t. IsText t.now) }
    {
        let number = u16::try_from(number).ok()?;
        let at = self.search(number).ok()?;
        Some(self.statement_at(at).1)
    }

    /// Which of the statements has this number, if one has: how many are before it.
    pub fn statement_index(&self, number: i16) -> Option<usize>
        ensures found { IfSome result (λ index.
            option_map (λ s. s.0) (statement_at self.now.lines index) ≡ Some number) }
        ensures absent { IsNone result → text_of_number self.now.lines number ≡ None }
        ensures sound { IsSome result → IsSound self.now }
    {
        let number = u16::try_from(number).ok()?;
        self.search(number).ok()
    }

    /// The number and the text of the statement that has `index` others before it, if there is one.
    pub fn get(&self, index: usize) -> Option<(i16, &[u8])>
        ensures value { option_map {U = ℤ × List ℕ} (λ s. (s.0, s.1.now)) result
            ≡ statement_at self.now.lines index }
        ensures sound { IsSound self.now }
        ensures short { IfSome result (λ s. length s.1.now ≤ text_limit) }
    {
        if index >= self.len() {
            return None;
        }
        let (number, text) = self.statement_at(index);
        Some((number as i16, text))
    }

    /// The least number of a statement, if there is one.
    ///
    /// For users of the library: the program doesn't call it.
    pub fn first(&self) -> Option<i16>
        ensures value { result ≡ option_map pos (first_number self.now.lines) }
        ensures text { IfSome result (λ n. IsSome (text_of_number self.now.lines n)) }
        ensures number { IfSome result (λ n. pos 0 <ℤ n) }
    {
        self.number_at(0)
    }

    /// The least number of a statement above `number`, if there is one.
    ///
    /// For users of the library: the program doesn't call it.
    pub fn after(&self, number: i16) -> Option<i16>
        ensures value { result ≡ option_map pos (number_above self.now.lines number) }
        ensures text { IfSome result (λ n. IsSome (text_of_number self.now.lines n)) }
        ensures number { IfSome result (λ k. pos 0 <ℤ k) }
    {
        let Ok(number) = u16::try_from(number) else {
            return self.first();
        };
        match self.search(number) {
            Ok(at) => self.number_at(at + 1),
            Err(at) => self.number_at(at),
        }
    }

    /// Where the text of the statement at this index is, or the end of all texts.
    pub(crate) fn text_start(&self, at: usize) -> u16
        requires { at ≤ length self.now.lines }
        ensures { result ≡ texts_length (take at self.now.lines) }
    {
        match self.statements.get(at) {
            Some(statement) => statement.place,
            None => self.pool.len() as u16,
        }
    }

    /// What the statements take of the memory.
    pub(crate) fn cost(&self) -> u16
        ensures value { result ≡ cost self.now.lines }
        ensures sound { IsSound self.now }
    {
        (self.pool.len() + STATEMENT_COST * self.statements.len()) as u16
    }

    /// The number and the text of the statement at an index, counted from 0 in rising order.
    pub(crate) fn statement_at(&self, at: usize) -> (u16, &[u8])
        requires { at < length self.now.lines }
        ensures line { slice_get self.now.lines at ≡ Some (result.0, result.1.now) }
        ensures number { result.0 ≤ number_limit }
        ensures text { length result.1.now ≤ text_limit }
    {
        let statement = self.statements[at];
        let text = &self.pool[usize::from(statement.place)..statement.end()];
        (statement.number, text)
    }

    // The number of the statement at this index, if there is one.
    fn number_at(&self, at: usize) -> Option<i16>
        ensures value { result ≡ option_map (λ s. pos s.0) (slice_get self.now.lines at) }
        ensures text { IfSome result (λ n. IsSome (text_of_number self.now.lines n)) }
        ensures number { IfSome result (λ n. pos 0 <ℤ n) }
    {
        let statement = self.statements.get(at)?;
        Some(statement.number as i16)
    }

    /// Where the statement of this number is, or where it would go. Lines mostly come in rising
    /// order, so the last statement is looked at first.
    pub(crate) fn search(&self, number: u16) -> Result<usize, usize>
        ensures found { IfOk result (IsAt self.now.lines number) }
        ensures absent { IfErr result (IsGapFor self.now.lines number) }
        ensures sound { IsSound self.now }
        ensures bound { length self.now.lines < 2 ^ 63 }
    {
        match self.statements.last() {
            Some(last) if last.number >= number => {
                self.statements.binary_search_by_key(&number, |s| s.number)
            }
            _ => Err(self.statements.len()),
        }
    }
}
