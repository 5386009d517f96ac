// This file says why a step or a run isn't done.

ghost use Rattle.std.specs.Prelude.{◌≡◌};
ghost use Rattle.ptb_machine.specs.declared.fault.RunFault.TheVariants.{Memory as RunMemory};

use ptb_text::DeviceFault;
use std::alloc::AllocError;
use thiserror::Error;

/// Why a step or a run isn't done.
#[derive(Clone, Copy, Debug, PartialEq, Eq, Error)]
pub enum RunFault {
    /// A growth was refused memory.
    #[error("out of memory")]
    Memory,
    /// The input could not be read, or is too long.
    #[error("cannot read the input")]
    Read,
    /// The writer failed.
    #[error("cannot write")]
    Write,
    /// The run was over already.
    #[error("the run is over")]
    Spent,
}

/// The refusal of memory that ended a run. For runs whose bytes and lines are in memory: nothing else
/// ends them with a fault.
pub fn memory_refusal(fault: RunFault) -> AllocError
    requires { fault ≡ RunFault.Memory }
{
    match fault {
        RunFault::Memory => AllocError,
        RunFault::Read | RunFault::Write | RunFault::Spent => unreachable!(),
    }
}

impl From<AllocError> for RunFault {
    ghost from_gives = { λ _ fault. fault ≡ RunMemory };

    fn from(_refusal: AllocError) -> RunFault {
        RunFault::Memory
    }
}

impl From<DeviceFault> for RunFault {
    ghost use Rattle.ptb_machine.specs.RunFaults.{fault_of_device};

    ghost from_gives = { λ fault r. r ≡ fault_of_device fault };

    fn from(fault: DeviceFault) -> RunFault {
        match fault {
            DeviceFault::Read | DeviceFault::TooLong => RunFault::Read,
            DeviceFault::Write => RunFault::Write,
            DeviceFault::Memory => RunFault::Memory,
        }
    }
}
