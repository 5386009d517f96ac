// This file has what all the tests use: values that must be the same, and tables whose rows must be so.

use std::fmt::Debug;
use std::process::Abort;

/// Two values that must be the same; `what` says of what they are.
pub(crate) fn expect_same<T: Copy + PartialEq + Debug>(rt: &impl Abort, what: &str, a: T, b: T) {
    assert_eq!(rt; a, b, "{what}");
}

/// A row of a table: what it says of a context is so, or it isn't.
pub(crate) trait Row<C> {
    /// Whether it is so.
    fn holds(&self, context: &C) -> bool;
}

/// Each row of a table holds; `what` names the table where one doesn't.
pub(crate) fn expect_rows<C, R: Row<C>>(rt: &impl Abort, what: &str, context: &C, rows: &[R]) {
    for (index, row) in rows.iter().enumerate() {
        assert!(rt; row.holds(context), "{what}: row {index}");
    }
}

/// The rows of a table, which are structs of one type: it is named before their fields.
macro_rules! table {
    ($row:ident: $($fields:tt),* $(,)?) => {
        &[$($row $fields),*]
    };
}

pub(crate) use table;
