// This file says why a chooser gives no answer.

use thiserror::Error;

/// Why a chooser gives no answer.
#[derive(Clone, Copy, Debug, PartialEq, Eq, Error)]
pub enum Pause {
    /// No answer is left.
    #[error("no answer is left")]
    Ended,
    /// The next answer, which is this one, isn't from 1 to the bound.
    #[error("the answer {0} is out of range")]
    OutOfRange(i16),
    /// A growth was refused memory.
    #[error("out of memory")]
    Memory,
}
