//! The reasons to refuse a circuit for its types.

use place_text::{Fault, Place};
use std::alloc::AllocError;
use thiserror::Error;

/// Why the types of a circuit don't fit: the first fault, with its place.
#[derive(Clone, Copy, Debug, Drop, Error)]
pub enum TypeFault {
    /// A field before it in the bundle has the name.
    #[error("a second field of a name")]
    FieldTwice(Place),
    /// The bundle has no field of the name.
    #[error("an unknown field")]
    FieldUnknown(Place),
    /// A field of what is no bundle. The place is the field's name.
    #[error("a field of no bundle")]
    NotBundle(Place),
    /// An index of what is no vector. The place is the `[`.
    #[error("an index of no vector")]
    NotVector(Place),
    /// A number that isn't below the length of the vector.
    #[error("an index out of its vector")]
    IndexRange(Place),
    /// An index that is no UInt.
    #[error("an index that is no UInt")]
    IndexKind(Place),
    /// An operation that doesn't take operands of these kinds, a `mux` over clocks, a stored type with a clock in it, or a
    /// register's clock that is none.
    #[error("an operand of a wrong kind")]
    OperandKind(Place),
    /// Types that should be equivalent. The place is the source's, the third operand's, or that of the value after a reset.
    #[error("types that are not equivalent")]
    NotEquivalent(Place),
    /// A connect drives what can only be read.
    #[error("a connect to a source")]
    FlowSink(Place),
    /// A connect reads what can only be driven.
    #[error("a connect from a sink")]
    FlowSource(Place),
    /// A condition or a reset that is no UInt.
    #[error("a condition that is no UInt")]
    ConditionKind(Place),
    /// A type with a `flip` where none may stand.
    #[error("a type that is not passive")]
    NotPassive(Place),
    /// A number that the literal's width doesn't hold, or a negative UInt.
    #[error("a literal that does not fit")]
    LiteralFit(Place),
    /// A line of a memory that is missing, stands twice, or says a number that it may not say.
    #[error("a wrong line of a memory")]
    MemoryField(Place),
    #[error("no memory")]
    NoMemory,
}

impl From<AllocError> for TypeFault {
    ghost use Rattle.std.specs.Prelude.{◌≡◌};
    ghost use Rattle.type_check.specs.declared.fault.TypeFault.TheVariants.{NoMemory};

    ghost from_gives = { λ _ fault. fault ≡ NoMemory };

    fn from(_: AllocError) -> TypeFault {
        TypeFault::NoMemory
    }
}

impl Fault for TypeFault {
    ghost use Rattle.type_check.specs.Faults.{place_of, rank_of, kind_of};
    ghost use Rattle.type_check.specs.Ranks.{one_each, one_nowhere};

    ghost place = { place_of };

    ghost rank = { rank_of };

    ghost kind = { kind_of };

    fn place(&self) -> Option<Place> {
        match self {
            TypeFault::FieldTwice(place)
            | TypeFault::FieldUnknown(place)
            | TypeFault::NotBundle(place)
            | TypeFault::NotVector(place)
            | TypeFault::IndexRange(place)
            | TypeFault::IndexKind(place)
            | TypeFault::OperandKind(place)
            | TypeFault::NotEquivalent(place)
            | TypeFault::FlowSink(place)
            | TypeFault::FlowSource(place)
            | TypeFault::ConditionKind(place)
            | TypeFault::NotPassive(place)
            | TypeFault::LiteralFit(place)
            | TypeFault::MemoryField(place) => Some(*place),
            TypeFault::NoMemory => None,
        }
    }

    fn rank(&self) -> u8 {
        match self {
            TypeFault::FieldTwice(_) => 0,
            TypeFault::FieldUnknown(_) => 1,
            TypeFault::NotBundle(_) => 2,
            TypeFault::NotVector(_) => 3,
            TypeFault::IndexRange(_) => 4,
            TypeFault::IndexKind(_) => 5,
            TypeFault::OperandKind(_) => 6,
            TypeFault::NotEquivalent(_) => 7,
            TypeFault::FlowSink(_) => 8,
            TypeFault::FlowSource(_) => 9,
            TypeFault::ConditionKind(_) => 10,
            TypeFault::NotPassive(_) => 11,
            TypeFault::LiteralFit(_) => 12,
            TypeFault::MemoryField(_) => 13,
            TypeFault::NoMemory => 14,
        }
    }

    fn kind(&self) -> &'static str {
        match self {
            TypeFault::FieldTwice(_) => "FieldTwice",
            TypeFault::FieldUnknown(_) => "FieldUnknown",
            TypeFault::NotBundle(_) => "NotBundle",
            TypeFault::NotVector(_) => "NotVector",
            TypeFault::IndexRange(_) => "IndexRange",
            TypeFault::IndexKind(_) => "IndexKind",
            TypeFault::OperandKind(_) => "OperandKind",
            TypeFault::NotEquivalent(_) => "NotEquivalent",
            TypeFault::FlowSink(_) => "FlowSink",
            TypeFault::FlowSource(_) => "FlowSource",
            TypeFault::ConditionKind(_) => "ConditionKind",
            TypeFault::NotPassive(_) => "NotPassive",
            TypeFault::LiteralFit(_) => "LiteralFit",
            TypeFault::MemoryField(_) => "MemoryField",
            TypeFault::NoMemory => "NoMemory",
        }
    }

    ghost one_each = { one_each };

    ghost one_nowhere = { one_nowhere };
}
