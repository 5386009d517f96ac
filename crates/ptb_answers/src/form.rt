// This file says how the answers of a run are written: alone, or each with its bound.

/// How a report has the answers of its run.
#[derive(Clone, Copy, Debug, PartialEq, Eq)]
pub enum Form {
    /// The answers alone, as `2,1`.
    One,
    /// Each answer followed by its bound, as `2/2,1/3`.
    Two,
}

/// An answer, and the bound that is stated of its question, if one is.
#[derive(Clone, Copy, Debug, PartialEq, Eq)]
pub struct Marked {
    /// The answer.
    pub answer: i16,
    /// The greatest answer that its question allows, where that is stated.
    pub bound: Option<i16>,
}
