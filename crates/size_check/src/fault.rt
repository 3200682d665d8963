//! The reasons to refuse a circuit for its size.

use place_text::{Fault, Place};
use std::alloc::AllocError;
use thiserror::Error;

/// Why a circuit isn't measured: the first fault, with its place.
#[derive(Clone, Copy, Debug, Drop, Error)]
pub enum SizeFault {
    /// A circuit that passes a limit of its size. The place is that of the circuit's name.
    #[error("a circuit that is too large")]
    TooLarge(Place),
    #[error("no memory")]
    NoMemory,
}

impl From<AllocError> for SizeFault {
    ghost use Rattle.std.specs.Prelude.{◌≡◌};
    ghost use Rattle.size_check.specs.declared.fault.SizeFault.TheVariants.{NoMemory};

    ghost from_gives = { λ _ fault. fault ≡ NoMemory };

    fn from(_: AllocError) -> SizeFault {
        SizeFault::NoMemory
    }
}

impl Fault for SizeFault {
    ghost use Rattle.size_check.specs.Faults.{place_of, rank_of, kind_of};
    ghost use Rattle.size_check.specs.Ranks.{one_each, one_nowhere};

    ghost place = { place_of };

    ghost rank = { rank_of };

    ghost kind = { kind_of };

    fn place(&self) -> Option<Place> {
        match self {
            SizeFault::TooLarge(place) => Some(*place),
            SizeFault::NoMemory => None,
        }
    }

    fn rank(&self) -> u8 {
        match self {
            SizeFault::TooLarge(_) => 0,
            SizeFault::NoMemory => 1,
        }
    }

    fn kind(&self) -> &'static str {
        match self {
            SizeFault::TooLarge(_) => "TooLarge",
            SizeFault::NoMemory => "NoMemory",
        }
    }

    ghost one_each = { one_each };

    ghost one_nowhere = { one_nowhere };
}
