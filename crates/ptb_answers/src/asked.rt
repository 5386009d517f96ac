// This file has the question that was answered: an answer with its bound.

/// An answer, and the bound of its question.
#[derive(Clone, Copy, Debug, PartialEq, Eq)]
pub struct Asked {
    /// The answer.
    pub answer: i16,
    /// The greatest answer that its question allows.
    pub bound: i16,
}
