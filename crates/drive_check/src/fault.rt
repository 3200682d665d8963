//! The reasons to refuse a circuit for leaves that nothing drives.

use place_text::{Fault, Place};
use std::alloc::AllocError;
use thiserror::Error;

/// Why leaves of a circuit may have no value: the first fault, with its place.
#[derive(Clone, Copy, Debug, Drop, Error)]
pub enum DriveFault {
    /// A leaf that must be driven and isn't, whatever the values are. The place is that of the port, the wire, the instance or
    /// the memory's port.
    #[error("a leaf that may be undriven")]
    NotInitialized(Place),
    #[error("no memory")]
    NoMemory,
}

impl From<AllocError> for DriveFault {
    ghost use Rattle.std.specs.Prelude.{◌≡◌};
    ghost use Rattle.drive_check.specs.declared.fault.DriveFault.TheVariants.{NoMemory};

    ghost from_gives = { λ _ fault. fault ≡ NoMemory };

    fn from(_: AllocError) -> DriveFault {
        DriveFault::NoMemory
    }
}

impl Fault for DriveFault {
    ghost use Rattle.drive_check.specs.Faults.{place_of, rank_of, kind_of};
    ghost use Rattle.drive_check.specs.Ranks.{one_each, one_nowhere};

    ghost place = { place_of };

    ghost rank = { rank_of };

    ghost kind = { kind_of };

    fn place(&self) -> Option<Place> {
        match self {
            DriveFault::NotInitialized(place) => Some(*place),
            DriveFault::NoMemory => None,
        }
    }

    fn rank(&self) -> u8 {
        match self {
            DriveFault::NotInitialized(_) => 0,
            DriveFault::NoMemory => 1,
        }
    }

    fn kind(&self) -> &'static str {
        match self {
            DriveFault::NotInitialized(_) => "NotInitialized",
            DriveFault::NoMemory => "NoMemory",
        }
    }

    ghost one_each = { one_each };

    ghost one_nowhere = { one_nowhere };
}
