// This file says why a device does not do what it is asked for.

ghost use Rattle.std.specs.Prelude.{◌≡◌};
ghost use Rattle.ptb_text.specs.declared.device_fault.DeviceFault.TheVariants.{Memory};

use std::alloc::AllocError;
use thiserror::Error;

/// Why a reader, a writer, a screen or a source of lines does not do what it is asked for.
#[derive(Clone, Copy, Debug, PartialEq, Eq, Error)]
pub enum DeviceFault {
    /// The reader failed.
    #[error("cannot read")]
    Read,
    /// The reader has more bytes than may be read.
    #[error("too many bytes")]
    TooLong,
    /// The writer failed.
    #[error("cannot write")]
    Write,
    /// A growth was refused memory.
    #[error("out of memory")]
    Memory,
}

impl From<AllocError> for DeviceFault {
    ghost from_gives = { λ _ fault. fault ≡ Memory };

    fn from(_refusal: AllocError) -> DeviceFault {
        DeviceFault::Memory
    }
}
