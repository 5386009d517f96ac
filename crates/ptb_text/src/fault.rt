// This file says why a program line, or an entire program text, is refused.

use thiserror::Error;

/// Why a program line, or an entire program text, is refused.
#[derive(Clone, Copy, Debug, PartialEq, Eq, Error)]
pub enum LoadFault {
    /// A line doesn't begin with a number of at least 1.
    #[error("no statement number")]
    NoNumber,
    /// A line's number is over 32767.
    #[error("number too big")]
    NumberTooBig,
    /// A statement's text is over 255 bytes.
    #[error("text too long")]
    TextTooLong,
    /// A byte that doesn't print is at this place of a line, counted from 1.
    #[error("bad byte at {0}")]
    BadByte(usize),
    /// The program would cost more than the memory that it is given.
    #[error("program full")]
    Full,
    /// A growth was refused memory.
    #[error("out of memory")]
    Memory,
    /// The program's bytes could not be read.
    #[error("cannot read the program")]
    Read,
    /// The program text has more than 1,048,576 bytes.
    #[error("program too long")]
    TooLong,
}
