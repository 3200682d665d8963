//! The reasons to refuse the text of a state.

use place_text::{Fault, Place};
use std::alloc::AllocError;
use thiserror::Error;

/// Why a text is no state: its first fault by line, within a line a form that is lacking before all else, and then by column.
#[derive(Clone, Copy, Debug, Drop, Error)]
pub enum StateFault {
    /// A line lacks its form, is missing or is one too many. The place is its beginning; the end of the text where it is missing.
    #[error("a line lacks its form")]
    BadLine(Place),
    /// The first or the second word isn't the one that stands there in a state of this circuit.
    #[error("another name is expected")]
    NameOrder(Place),
    /// There are more than 999,999,000,000 cycles.
    #[error("too many cycles")]
    CyclesRange(Place),
    /// The leaf doesn't hold the value.
    #[error("a value out of range")]
    ValueRange(Place),
    #[error("no memory")]
    NoMemory,
}

impl From<AllocError> for StateFault {
    ghost use Rattle.std.specs.Prelude.{◌≡◌};
    ghost use Rattle.snapshot_text.specs.declared.fault.StateFault.TheVariants.{NoMemory};

    ghost from_gives = { λ _ fault. fault ≡ NoMemory };

    fn from(_: AllocError) -> StateFault {
        StateFault::NoMemory
    }
}

impl Fault for StateFault {
    ghost use Rattle.snapshot_text.specs.Faults.{place_of, rank_of, kind_of};
    ghost use Rattle.snapshot_text.specs.Ranks.{one_each, one_nowhere};

    ghost place = { place_of };

    ghost rank = { rank_of };

    ghost kind = { kind_of };

    fn place(&self) -> Option<Place> {
        match self {
            StateFault::BadLine(place)
            | StateFault::NameOrder(place)
            | StateFault::CyclesRange(place)
            | StateFault::ValueRange(place) => Some(*place),
            StateFault::NoMemory => None,
        }
    }

    fn rank(&self) -> u8 {
        match self {
            StateFault::BadLine(_) => 0,
            StateFault::NameOrder(_) => 1,
            StateFault::CyclesRange(_) => 2,
            StateFault::ValueRange(_) => 3,
            StateFault::NoMemory => 4,
        }
    }

    fn kind(&self) -> &'static str {
        match self {
            StateFault::BadLine(_) => "BadLine",
            StateFault::NameOrder(_) => "NameOrder",
            StateFault::CyclesRange(_) => "CyclesRange",
            StateFault::ValueRange(_) => "ValueRange",
            StateFault::NoMemory => "NoMemory",
        }
    }

    ghost one_each = { one_each };

    ghost one_nowhere = { one_nowhere };
}
