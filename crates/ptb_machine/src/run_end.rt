// This file has how a run ended, and where.

use ptb_command::Ending;

/// How a run ended, and where.
#[derive(Clone, Copy, Debug, PartialEq, Eq)]
pub struct RunEnd {
    /// How it ended.
    pub ending: Ending,
    /// If it ended at its limit, the number of the statement in which its next command begins.
    /// No other ending has a line.
    pub line: Option<u16>,
}
