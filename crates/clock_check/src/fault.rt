//! The reasons to refuse a circuit for its clocks.

use place_text::{Fault, Place};
use std::alloc::AllocError;
use thiserror::Error;

/// Why a circuit may have more than one clock: the first fault, with its place.
#[derive(Clone, Copy, Debug, Drop, Error)]
pub enum ClockFault {
    /// A register or a memory's port whose clock doesn't lead to main's first Clock input. The place is that of the register's or
    /// the port's name.
    #[error("a clock other than main's first")]
    ClockOther(Place),
    #[error("no memory")]
    NoMemory,
}

impl From<AllocError> for ClockFault {
    ghost use Rattle.std.specs.Prelude.{◌≡◌};
    ghost use Rattle.clock_check.specs.declared.fault.ClockFault.TheVariants.{NoMemory};

    ghost from_gives = { λ _ fault. fault ≡ NoMemory };

    fn from(_: AllocError) -> ClockFault {
        ClockFault::NoMemory
    }
}

impl Fault for ClockFault {
    ghost use Rattle.clock_check.specs.Faults.{place_of, rank_of, kind_of};
    ghost use Rattle.clock_check.specs.Ranks.{one_each, one_nowhere};

    ghost place = { place_of };

    ghost rank = { rank_of };

    ghost kind = { kind_of };

    fn place(&self) -> Option<Place> {
        match self {
            ClockFault::ClockOther(place) => Some(*place),
            ClockFault::NoMemory => None,
        }
    }

    fn rank(&self) -> u8 {
        match self {
            ClockFault::ClockOther(_) => 0,
            ClockFault::NoMemory => 1,
        }
    }

    fn kind(&self) -> &'static str {
        match self {
            ClockFault::ClockOther(_) => "ClockOther",
            ClockFault::NoMemory => "NoMemory",
        }
    }

    ghost one_each = { one_each };

    ghost one_nowhere = { one_nowhere };
}
