// This file says which list of a request fits no run, and why.

ghost use Rattle.std.specs.Prelude.{◌≡◌};
ghost use Rattle.ptb_serve.specs.ListMismatches.{mismatch_note};

use crate::note::Note;
use ptb_explore::Mismatch;

/// Which list of the request fits no run, by its option, and why.
#[derive(Clone, Copy, Debug, PartialEq, Eq)]
pub enum ListMismatch {
    /// No run begins with the items of `--under`.
    Under(Mismatch),
    /// The items of `--after` are no run of the listing.
    After(Mismatch),
}

impl ListMismatch {
    // The note that refuses the list.
    pub(crate) fn note(self) -> Note
        ensures { result ≡ mismatch_note self }
    {
        match self {
            ListMismatch::Under(_) => Note::NoBeginning,
            ListMismatch::After(_) => Note::NoRun,
        }
    }
}
