// This file has the result of serving a request for a program that was loaded.

ghost use Rattle.std.specs.Prelude.{◌≡◌, None};
ghost use Rattle.ptb_serve.specs.ListMismatches.{refused_attempt, unstarted_attempt};

use crate::list_mismatch::ListMismatch;
use crate::note::Note;
use ptb_explore::OpenFault;

// The status, or the note that says why there is none; why a list fits no run, where that is known;
// and the line at which the limit stopped a run.
#[derive(Drop)]
pub(crate) struct Attempt {
    pub served: Result<u8, Note>,
    pub mismatch: Option<ListMismatch>,
    pub line: Option<u16>,
}

impl Attempt {
    // An attempt of which nothing more is known.
    pub(crate) fn without_mismatch(served: Result<u8, Note>) -> Attempt
        ensures { result ≡ record { served = served; mismatch = None; line = None } }
    {
        Attempt {
            served,
            mismatch: None,
            line: None,
        }
    }

    // The attempt of a listing whose list fits no run.
    fn refused(mismatch: ListMismatch) -> Attempt
        ensures { result ≡ refused_attempt mismatch }
    {
        Attempt {
            served: Err(mismatch.note()),
            mismatch: Some(mismatch),
            line: None,
        }
    }

    // The attempt of a listing that is not started. A list that fits no run is refused, and never
    // for lack of memory.
    pub(crate) fn unstarted(why: OpenFault) -> Attempt
        ensures { result ≡ unstarted_attempt why }
    {
        match why {
            OpenFault::NoBeginning(mismatch) => Attempt::refused(ListMismatch::Under(mismatch)),
            OpenFault::NotARun(mismatch) => Attempt::refused(ListMismatch::After(mismatch)),
            OpenFault::Memory => Attempt::without_mismatch(Err(Note::OutOfMemory)),
        }
    }
}
