//! Why a run stopped.

ghost use Rattle.std.specs.Prelude.{◌≡◌};
ghost use Rattle.circuit_run.specs.declared.fault.RunFault.TheVariants.{WriteFault, NoMemory};

use shelf_io::SinkFailed;
use std::alloc::AllocError;
use thiserror::Error;

/// Why a run stopped before its last line.
#[derive(Clone, Copy, Debug, Error)]
pub enum RunFault {
    #[error("a line could not be written")]
    WriteFault,
    #[error("no memory is left")]
    NoMemory,
}

impl From<SinkFailed> for RunFault {
    ghost from_gives = { λ _ fault. fault ≡ WriteFault };

    fn from(_: SinkFailed) -> RunFault {
        RunFault::WriteFault
    }
}

impl From<AllocError> for RunFault {
    ghost from_gives = { λ _ fault. fault ≡ NoMemory };

    fn from(_: AllocError) -> RunFault {
        RunFault::NoMemory
    }
}
