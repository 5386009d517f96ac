// This file says what can be wrong with an expression, and why it has no value.

use ptb_answers::Pause;

/// Which word a fault shows.
#[derive(Clone, Copy, Debug, PartialEq, Eq)]
pub enum FaultKind {
    /// It isn't spelled as the language wants it.
    What,
    /// It is well spelled, and can't be done.
    How,
    /// It is right, and there is no room for it.
    Sorry,
}

/// A fault of a program.
#[derive(Clone, Copy, Debug, PartialEq, Eq)]
pub struct Fault {
    /// Which of the three faults it is.
    pub kind: FaultKind,
    /// The place in the statement's text at which `?` is put: how many bytes are before it.
    pub mark: usize,
}

/// Why there is no value.
#[derive(Clone, Copy, Debug, PartialEq, Eq)]
pub enum Stop {
    /// The program is at fault.
    Fault(Fault),
    /// The chooser gave no answer.
    Pause(Pause),
}
