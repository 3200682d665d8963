//! The reasons to refuse a text for its layout.

use place_text::{Fault, Place};
use std::alloc::AllocError;
use thiserror::Error;

/// Why a text has no layout: the first line that fits no open block.
#[derive(Clone, Copy, Debug, Drop, Error)]
pub enum LayoutFault {
    /// A line with fewer spaces than the block that it stands in, and with none whose number it has, or with a tab behind
    /// its spaces. The place is the first byte behind the spaces.
    #[error("bad indent")]
    BadIndent(Place),
    #[error("out of memory")]
    NoMemory,
}

impl From<AllocError> for LayoutFault {
    ghost use Rattle.std.specs.Prelude.{◌≡◌};
    ghost use Rattle.fir_layout.specs.declared.fault.LayoutFault.TheVariants.{NoMemory};

    ghost from_gives = { λ _ fault. fault ≡ NoMemory };

    fn from(_: AllocError) -> LayoutFault {
        LayoutFault::NoMemory
    }
}

impl Fault for LayoutFault {
    ghost use Rattle.fir_layout.specs.Faults.{place_of, rank_of, kind_of};
    ghost use Rattle.fir_layout.specs.Ranks.{one_each, one_nowhere};

    ghost place = { place_of };

    ghost rank = { rank_of };

    ghost kind = { kind_of };

    fn place(&self) -> Option<Place> {
        match self {
            LayoutFault::BadIndent(place) => Some(*place),
            LayoutFault::NoMemory => None,
        }
    }

    fn rank(&self) -> u8 {
        match self {
            LayoutFault::BadIndent(_) => 0,
            LayoutFault::NoMemory => 1,
        }
    }

    fn kind(&self) -> &'static str {
        match self {
            LayoutFault::BadIndent(_) => "BadIndent",
            LayoutFault::NoMemory => "NoMemory",
        }
    }

    ghost one_each = { one_each };

    ghost one_nowhere = { one_nowhere };
}
