// This file changes the statements of a program, by `enter`: one is stored, replaced or deleted.

ghost use Rattle.std.specs.Prelude.{◌≡◌, ◌+◌, ◌<◌, ◌≤◌, ◌^◌, length, IsOk, IfErr, OnOk, OnErr, IsErrOf, vec_capacity};
ghost use Rattle.std.specs.Prelude.{vec_len, ◌-◌, IsTrue};
ghost use Rattle.ptb_text.specs.Prelude.{splice, Enters, IsLineFault, HasText, after_line, if_room, is_statement};
ghost use Rattle.ptb_text.specs.Prelude.{with_text, without_number, IsAt, IsGapFor, laid_out, lengths};

use crate::LoadFault;
use crate::line::numbered_line;
use crate::program::{Program, STATEMENT_COST, Statement};

/// The greatest length of a statement's text.
const TEXT_LIMIT: usize = 255;

impl Program {
    /// Enters a line: the statement of its number gets its text, whether there was one or not. A
    /// line without a text deletes the statement, if there is one, and a line of blanks does
    /// nothing.
    ///
    /// The program stays as it was on each fault.
    ///
    /// # Errors
    ///
    /// In this order: `BadByte` for the first byte that isn't from space to tilde (a tab and a
    /// byte 13 are such bytes, too); `NoNumber` where no number of at least 1 is in front;
    /// `NumberTooBig` for a number over 32767; `TextTooLong` for a text over 255 bytes; `Full`
    /// where the statements would take more memory than there is; `Memory` where a growth was
    /// refused for the text that the line stores.
    pub fn enter(&mut self, line: &[u8]) -> Result<(), LoadFault>
        ensures ok { OnOk result
            (after_line self.old.lines self.old.memory line.now ≡ Ok self.new.lines) }
        ensures refused { IfErr result
            (λ f. IsLineFault f → after_line self.old.lines self.old.memory line.now ≡ Err f) }

        // Lack of memory comes last.
        ensures memory_last { IfErr result (λ f. ¬ IsLineFault f
            → (f ≡ LoadFault.Memory) × IsOk (after_line self.old.lines self.old.memory line.now)) }
        ensures memory_text { IsErrOf result LoadFault.Memory → HasText line.now }
        ensures err { OnErr result (self.new ≡ self.old) }
        ensures memory { self.new.memory ≡ self.old.memory }
    {
        let Some(line) = numbered_line(line)? else {
            return Ok(());
        };
        if line.text.is_empty() {
            self.delete(line.number);
            return Ok(());
        }
        if line.text.len() > TEXT_LIMIT {
            return Err(LoadFault::TextTooLong);
        }
        self.store_text(line.number, line.text)
    }

    // Deletes the statement of this number, if there is one.
    fn delete(&mut self, number: u16)
        ensures lines { self.new.lines ≡ without_number self.old.lines number }
        ensures memory { self.new.memory ≡ self.old.memory }
    {
        if let Ok(at) = self.search(number) {
            let deleted = self.statements.remove(at);
            self.pool.drain(usize::from(deleted.place)..deleted.end());
            lay_out(&mut self.statements[at..], deleted.place);
        }
    }

    // Stores a text under a number.
    fn store_text(&mut self, number: u16, text: &[u8]) -> Result<(), LoadFault>
        requires { IsTrue (is_statement (number, text.now)) }
        ensures { Enters (if_room self.old.memory (with_text self.old.lines number text.now))
            self.old self.new result }
    {
        match self.search(number) {
            Ok(at) => self.replace(at, number, text),
            Err(at) => self.insert(at, number, text),
        }
    }

    // Another text for the statement at a place. All memory is taken before anything changes.
    fn replace(&mut self, at: usize, number: u16, text: &[u8]) -> Result<(), LoadFault>
        requires statement { IsTrue (is_statement (number, text.now)) }
        requires place { IsAt self.old.lines number at }
        ensures { Enters (if_room self.old.memory (with_text self.old.lines number text.now))
            self.old self.new result }
    {
        let old = self.statements[at];
        let cost = self.cost() - u16::from(old.length) + text.len() as u16;
        if cost > self.memory {
            return Err(LoadFault::Full);
        }
        let more = text.len().saturating_sub(usize::from(old.length));
        if self.pool.try_reserve(more).is_err() {
            return Err(LoadFault::Memory);
        }
        put_text(&mut self.pool, usize::from(old.place), old.end(), text);
        self.statements[at] = Statement {
            number,
            place: old.place,
            length: text.len() as u8,
        };
        lay_out(&mut self.statements[at..], old.place);
        Ok(())
    }

    // A new statement, at the place where it goes. All memory is taken before anything changes.
    fn insert(&mut self, at: usize, number: u16, text: &[u8]) -> Result<(), LoadFault>
        requires statement { IsTrue (is_statement (number, text.now)) }
        requires place { IsGapFor self.old.lines number at }
        ensures { Enters (if_room self.old.memory (with_text self.old.lines number text.now))
            self.old self.new result }
    {
        let cost = self.cost() + (text.len() + STATEMENT_COST) as u16;
        if cost > self.memory {
            return Err(LoadFault::Full);
        }
        if self.pool.try_reserve(text.len()).is_err() {
            return Err(LoadFault::Memory);
        }
        if self.statements.try_reserve(1).is_err() {
            return Err(LoadFault::Memory);
        }
        let place = self.text_start(at);
        put_text(&mut self.pool, usize::from(place), usize::from(place), text);
        let statement = Statement {
            number,
            place,
            length: text.len() as u8,
        };
        self.statements.insert(at, statement).unwrap();
        lay_out(&mut self.statements[at..], place);
        Ok(())
    }
}

// Replaces the bytes from `start` to `end` with a text. It is appended first, where there is room
// for it, and then rotated to its place, before the bytes that follow.
fn put_text(pool: &mut Vec<u8>, start: usize, end: usize, text: &[u8])
    requires order { start ≤ end }
    requires within { end ≤ vec_len pool.old }
    requires room { vec_len pool.old + length text.now ≤ vec_capacity pool.old + (end - start) }
    ensures { pool.new.items ≡ splice pool.old.items start end text.now }
{
    pool.drain(start..end);
    pool.extend_from_slice(text).unwrap();
    pool[start..].rotate_right(text.len());
}

// Sets the places of statements whose texts are directly one after the other, the first at `start`.
fn lay_out(statements: &mut [Statement], start: u16)
    requires { start + lengths statements.old < 2 ^ 16 }
    ensures { statements.new ≡ laid_out start statements.old }
{
    let mut place = start;
    for statement in statements.iter_mut() {
        statement.place = place;
        place += u16::from(statement.length);
    }
}
