// This file says why not all reports were written, and why there is no explorer.

ghost use Rattle.std.specs.Prelude.{◌≡◌};
ghost use Rattle.ptb_explore.specs.Listing.{fault_after};

use crate::mismatch::Mismatch;
use ptb_text::DeviceFault;
use std::alloc::AllocError;
use thiserror::Error;

/// Why not all reports were written.
///
/// Each has the number of reports that were, or `u64::MAX` where there were more.
#[derive(Clone, Copy, Debug, PartialEq, Eq, Error)]
pub enum ExploreFault {
    /// A growth was refused memory. Nothing of the next report was written.
    #[error("out of memory")]
    Memory(u64),
    /// The writer failed. A prefix of the next report may have been written.
    #[error("cannot write")]
    Write(u64),
}

impl ExploreFault {
    /// The fault of a listing that this fault of a device ended after `written` reports.
    pub(crate) fn after(fault: DeviceFault, written: u64) -> ExploreFault
        ensures { result ≡ fault_after fault written }
    {
        match fault {
            DeviceFault::Memory => ExploreFault::Memory(written),
            DeviceFault::Read | DeviceFault::TooLong | DeviceFault::Write => {
                ExploreFault::Write(written)
            }
        }
    }
}

/// Why there is no explorer of the runs that are asked for.
#[derive(Clone, Copy, Debug, PartialEq, Eq, Error)]
pub enum OpenFault {
    /// No run begins with the answers of a list, for this reason.
    #[error("no run begins so")]
    NoBeginning(Mismatch),
    /// The answers of a list are no run of the listing, for this reason.
    #[error("not a run")]
    NotARun(Mismatch),
    /// A growth was refused memory.
    #[error("out of memory")]
    Memory,
}

impl From<AllocError> for OpenFault {
    ghost use Rattle.ptb_explore.specs.declared.fault.OpenFault.TheVariants.{Memory};

    ghost from_gives = { λ _ fault. fault ≡ Memory };

    fn from(_refusal: AllocError) -> OpenFault {
        OpenFault::Memory
    }
}
