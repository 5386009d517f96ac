// This file has the trait of whatever watches how far a table is counted.

use ptb_text::Device;

/// What may watch how far a table of chances is counted. Nothing is promised of what it shows.
pub trait Watch {
    /// Whether it wants to know how far the table is.
    fn is_due(&self) -> bool;

    /// Takes note of how many states wait, and of how many billionths of the chance of all runs are
    /// finished. These are rounded down.
    fn show(&self, waiting: usize, billionths: u32);
}

// A device doesn't watch.
impl<T> Watch for Device<T> {
    fn is_due(&self) -> bool {
        false
    }

    fn show(&self, _waiting: usize, _billionths: u32) {}
}
