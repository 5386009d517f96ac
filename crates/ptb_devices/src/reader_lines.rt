// This file gives the lines of an input one by one, while it is read.

ghost use Rattle.std.specs.Prelude.{◌≡◌};
ghost use Rattle.ptb_devices.specs.Inputs.{missed_in, fresh_input, fault_at, known_lines, most_lines, Refuses};
ghost use Rattle.ptb_devices.specs.Readers.{line_reader, line_input, input_of, GivesFrom};
ghost use Rattle.ptb_devices.specs.InputLaws.{none_known};
ghost use Rattle.ptb_devices.specs.ReaderLaws.{GivesFrom_none, GivesFrom_more};

use crate::line_buffer::LineBuffer;
use crate::lines::LineSource;
use ptb_text::{DeviceFault, Read};

/// The lines of an input, cleaned and cut, each read when it is asked for.
///
/// The reader is read only when a line is asked for and none is complete among the bytes that came: up
/// to 4096 bytes at a time, until one is, or the end or a fault comes. After the end or a fault it
/// isn't read again.
///
/// Of an input with more than [`crate::INPUT_LIMIT`] bytes, the lines that are complete within that
/// limit are given, and then [`DeviceFault::TooLong`] is answered; one byte more was taken. A fault is
/// answered to every call after it, too. No call takes memory.
#[derive(Drop)]
pub struct ReaderLines<'a, R> {
    reader: &'a mut R,
    buffer: LineBuffer,
}

impl<'a, R: Read> ReaderLines<'a, R> {
    /// The lines of all that the reader gives from here on. The buffer is a part of the value.
    pub fn new(reader: &'a mut R) -> Self
        ensures same_borrow { (line_reader result).ghost_name ≡ reader.entry.ghost_name }
        ensures reader { (line_reader result).now ≡ reader.old }
        ensures input { line_input result ≡ fresh_input }
    {
        let buffer = LineBuffer::new();
        ReaderLines { reader, buffer }
    }

    /// The fault that it answers from here on, if it has reached one.
    pub fn fault(&self) -> Option<DeviceFault>
        ensures { result ≡ fault_at (line_input self.now).end }
    {
        self.buffer.fault()
    }
}

impl<'a, R: Read> LineSource for ReaderLines<'a, R> {
    ghost lines = { λ s. known_lines (input_of R.remaining R.given R.failures s) };

    ghost most = { λ s. most_lines (line_input s) };

    ghost gives = { GivesFrom R.remaining R.given R.failures };

    ghost missed = { λ s. missed_in (line_input s) };

    ghost refused = { λ s fault. Refuses (line_input s).end fault };

    ghost gives_none = { GivesFrom_none R.remaining R.given R.failures };

    ghost gives_more = { GivesFrom_more R.remaining R.given R.failures };

    ghost loses = { λ s t xs gives. gives.reads.loses };

    ghost falls = { λ s t xs gives. gives.reads.falls };

    ghost ends = { λ s none. none_known (input_of R.remaining R.given R.failures s) none };

    fn next(&mut self) -> Result<Option<&[u8]>, DeviceFault> {
        self.buffer.forget_given();
        while !self.buffer.cut_line() {
            if !self.buffer.fill(self.reader)? {
                if self.buffer.give_last() {
                    return Ok(Some(self.buffer.kept()));
                }
                return Ok(None);
            }
        }
        Ok(Some(self.buffer.kept()))
    }

    #[inline(always)]
    fn take_ready(&mut self) -> Option<&[u8]> {
        if !self.buffer.may_have_more() {
            return None;
        }
        self.buffer.forget_given();
        self.buffer.take_whole()
    }
}
