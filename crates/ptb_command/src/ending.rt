// This file says how a run ends.

/// How a run ends.
#[derive(Clone, Copy, Debug, PartialEq, Eq)]
pub enum Ending {
    /// No statement is left.
    End,
    /// STOP was executed.
    Stop,
    /// A fault `WHAT?`.
    What,
    /// A fault `HOW?`.
    How,
    /// A fault `SORRY`.
    Sorry,
    /// As many commands were begun as the limit allows, and one more would follow.
    Limit,
    /// INPUT found no line left.
    NoInput,
    /// A question found no answer left.
    NoAnswer,
    /// An answer was outside its bound.
    BadAnswer,
}
