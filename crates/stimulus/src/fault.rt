//! The reasons to refuse a stimulus.

use place_text::{Fault, Place};
use std::alloc::AllocError;
use thiserror::Error;

/// Why a text is no stimulus: its first fault by line and then by column, with its place in the stimulus.
#[derive(Clone, Copy, Debug, Drop, Error)]
pub enum StimFault {
    /// A line lacks its form. The place is the first word that lacks its form or is one too many, or directly behind the last
    /// word where words are missing; the end of a text without a line.
    #[error("a line lacks its form")]
    BadLine(Place),
    /// There are more than 1,000,000 cycles.
    #[error("too many cycles")]
    CyclesRange(Place),
    /// The cycle is less than that of the line before.
    #[error("cycles out of order")]
    CycleOrder(Place),
    /// The cycle isn't below the number of cycles.
    #[error("no such cycle")]
    CycleRange(Place),
    /// No leaf of a port of main has the name.
    #[error("an unknown leaf")]
    LeafUnknown(Place),
    /// The leaf isn't set from outside: it is a sink or a Clock.
    #[error("no input")]
    NotInput(Place),
    /// A line before sets the leaf in the same cycle.
    #[error("a leaf set twice in a cycle")]
    LeafTwice(Place),
    /// The leaf doesn't hold the value.
    #[error("a value out of range")]
    ValueRange(Place),
    #[error("no memory")]
    NoMemory,
}

impl From<AllocError> for StimFault {
    ghost use Rattle.std.specs.Prelude.{◌≡◌};
    ghost use Rattle.stimulus.specs.declared.fault.StimFault.TheVariants.{NoMemory};

    ghost from_gives = { λ _ fault. fault ≡ NoMemory };

    fn from(_: AllocError) -> StimFault {
        StimFault::NoMemory
    }
}

impl Fault for StimFault {
    ghost use Rattle.stimulus.specs.Faults.{place_of, rank_of, kind_of};
    ghost use Rattle.stimulus.specs.Ranks.{one_each, one_nowhere};

    ghost place = { place_of };

    ghost rank = { rank_of };

    ghost kind = { kind_of };

    fn place(&self) -> Option<Place> {
        match self {
            StimFault::BadLine(place)
            | StimFault::CyclesRange(place)
            | StimFault::CycleOrder(place)
            | StimFault::CycleRange(place)
            | StimFault::LeafUnknown(place)
            | StimFault::NotInput(place)
            | StimFault::LeafTwice(place)
            | StimFault::ValueRange(place) => Some(*place),
            StimFault::NoMemory => None,
        }
    }

    fn rank(&self) -> u8 {
        match self {
            StimFault::BadLine(_) => 0,
            StimFault::CyclesRange(_) => 1,
            StimFault::CycleOrder(_) => 2,
            StimFault::CycleRange(_) => 3,
            StimFault::LeafUnknown(_) => 4,
            StimFault::NotInput(_) => 5,
            StimFault::LeafTwice(_) => 6,
            StimFault::ValueRange(_) => 7,
            StimFault::NoMemory => 8,
        }
    }

    fn kind(&self) -> &'static str {
        match self {
            StimFault::BadLine(_) => "BadLine",
            StimFault::CyclesRange(_) => "CyclesRange",
            StimFault::CycleOrder(_) => "CycleOrder",
            StimFault::CycleRange(_) => "CycleRange",
            StimFault::LeafUnknown(_) => "LeafUnknown",
            StimFault::NotInput(_) => "NotInput",
            StimFault::LeafTwice(_) => "LeafTwice",
            StimFault::ValueRange(_) => "ValueRange",
            StimFault::NoMemory => "NoMemory",
        }
    }

    ghost one_each = { one_each };

    ghost one_nowhere = { one_nowhere };
}
