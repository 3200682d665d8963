//! The reason to refuse a net.

use place_text::{Fault, Place};
use std::alloc::AllocError;
use thiserror::Error;

/// Why the assignments of a net have no order.
#[derive(Clone, Copy, Debug, Drop, Error)]
pub enum OrderFault {
    /// A leaf that reads itself, directly or through others: the first in flat order. The place is its component's name.
    #[error("a combinational loop")]
    CombLoop(Place),
    #[error("no memory")]
    NoMemory,
}

impl From<AllocError> for OrderFault {
    ghost use Rattle.std.specs.Prelude.{◌≡◌};
    ghost use Rattle.comb_order.specs.declared.fault.OrderFault.TheVariants.{NoMemory};

    ghost from_gives = { λ _ fault. fault ≡ NoMemory };

    fn from(_: AllocError) -> OrderFault {
        OrderFault::NoMemory
    }
}

impl Fault for OrderFault {
    ghost use Rattle.comb_order.specs.Faults.{place_of, rank_of, kind_of};
    ghost use Rattle.comb_order.specs.Ranks.{one_each, one_nowhere};

    ghost place = { place_of };

    ghost rank = { rank_of };

    ghost kind = { kind_of };

    fn place(&self) -> Option<Place> {
        match self {
            OrderFault::CombLoop(place) => Some(*place),
            OrderFault::NoMemory => None,
        }
    }

    fn rank(&self) -> u8 {
        match self {
            OrderFault::CombLoop(_) => 0,
            OrderFault::NoMemory => 1,
        }
    }

    fn kind(&self) -> &'static str {
        match self {
            OrderFault::CombLoop(_) => "CombLoop",
            OrderFault::NoMemory => "NoMemory",
        }
    }

    ghost one_each = { one_each };

    ghost one_nowhere = { one_nowhere };
}
