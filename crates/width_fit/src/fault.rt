//! The reasons to refuse a circuit for its widths.

use place_text::{Fault, Place};
use std::alloc::AllocError;
use thiserror::Error;

/// Why the widths of a circuit can't be fitted: the first fault, with its place.
#[derive(Clone, Copy, Debug, Drop, Error)]
pub enum WidthFault {
    /// A place without a width that nothing drives. The place is the component's name.
    #[error("an unknown width")]
    WidthUnknown(Place),
    /// A component or an expression of more than 128 bits.
    #[error("a width over the limit")]
    WidthOver(Place),
    /// Parameters of an operation that its operand's width doesn't allow.
    #[error("parameters out of their range")]
    ParameterRange(Place),
    /// A condition or a reset of more than one bit.
    #[error("a condition of several bits")]
    ConditionWidth(Place),
    #[error("no memory")]
    NoMemory,
}

impl From<AllocError> for WidthFault {
    ghost use Rattle.std.specs.Prelude.{◌≡◌};
    ghost use Rattle.width_fit.specs.declared.fault.WidthFault.TheVariants.{NoMemory};

    ghost from_gives = { λ _ fault. fault ≡ NoMemory };

    fn from(_: AllocError) -> WidthFault {
        WidthFault::NoMemory
    }
}

impl Fault for WidthFault {
    ghost use Rattle.width_fit.specs.Faults.{place_of, rank_of, kind_of};
    ghost use Rattle.width_fit.specs.Ranks.{one_each, one_nowhere};

    ghost place = { place_of };

    ghost rank = { rank_of };

    ghost kind = { kind_of };

    fn place(&self) -> Option<Place> {
        match self {
            WidthFault::WidthUnknown(place)
            | WidthFault::WidthOver(place)
            | WidthFault::ParameterRange(place)
            | WidthFault::ConditionWidth(place) => Some(*place),
            WidthFault::NoMemory => None,
        }
    }

    fn rank(&self) -> u8 {
        match self {
            WidthFault::WidthUnknown(_) => 0,
            WidthFault::WidthOver(_) => 1,
            WidthFault::ParameterRange(_) => 2,
            WidthFault::ConditionWidth(_) => 3,
            WidthFault::NoMemory => 4,
        }
    }

    fn kind(&self) -> &'static str {
        match self {
            WidthFault::WidthUnknown(_) => "WidthUnknown",
            WidthFault::WidthOver(_) => "WidthOver",
            WidthFault::ParameterRange(_) => "ParameterRange",
            WidthFault::ConditionWidth(_) => "ConditionWidth",
            WidthFault::NoMemory => "NoMemory",
        }
    }

    ghost one_each = { one_each };

    ghost one_nowhere = { one_nowhere };
}
