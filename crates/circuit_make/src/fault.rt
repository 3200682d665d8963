//! The reasons to make no text.

use std::alloc::AllocError;
use thiserror::Error;

/// Why no text was made.
#[derive(Clone, Copy, Debug, Drop, Error)]
pub enum MakeFault {
    /// The number of registers or of cycles isn't from 1 to 4,096.
    #[error("a number out of its range")]
    Range,
    #[error("no memory")]
    NoMemory,
}

impl From<AllocError> for MakeFault {
    ghost use Rattle.std.specs.Prelude.{◌≡◌};
    ghost use Rattle.circuit_make.specs.declared.fault.MakeFault.TheVariants.{NoMemory};

    ghost from_gives = { λ _ fault. fault ≡ NoMemory };

    fn from(_: AllocError) -> MakeFault {
        MakeFault::NoMemory
    }
}
