//! The reasons to refuse a circuit for its names.

use place_text::{Fault, Place};
use std::alloc::AllocError;
use thiserror::Error;

/// Why the names of a circuit have no meaning: the first fault, with its place.
#[derive(Clone, Copy, Debug, Drop, Error)]
pub enum NameFault {
    /// No module has the circuit's name. The place is that name.
    #[error("no main module")]
    NoMain(Place),
    /// A module before it has the name.
    #[error("a second module of a name")]
    ModuleTwice(Place),
    /// No module has the name that an instance gives.
    #[error("an unknown module")]
    ModuleUnknown(Place),
    /// The module of an instance has, by itself or through its own instances, an instance of the module that it stands in.
    #[error("a loop of instances")]
    InstanceLoop(Place),
    /// A declaration before it in the module has the name.
    #[error("a second declaration of a name")]
    NameTwice(Place),
    /// No declaration of the name is visible to the reference.
    #[error("an unknown name")]
    NameUnknown(Place),
    #[error("no memory")]
    NoMemory,
}

impl From<AllocError> for NameFault {
    ghost use Rattle.std.specs.Prelude.{◌≡◌};
    ghost use Rattle.fir_names.specs.declared.fault.NameFault.TheVariants.{NoMemory};

    ghost from_gives = { λ _ fault. fault ≡ NoMemory };

    fn from(_: AllocError) -> NameFault {
        NameFault::NoMemory
    }
}

impl Fault for NameFault {
    ghost use Rattle.fir_names.specs.Faults.{place_of, rank_of, kind_of};
    ghost use Rattle.fir_names.specs.Ranks.{one_each, one_nowhere};

    ghost place = { place_of };

    ghost rank = { rank_of };

    ghost kind = { kind_of };

    fn place(&self) -> Option<Place> {
        match self {
            NameFault::NoMain(place)
            | NameFault::ModuleTwice(place)
            | NameFault::ModuleUnknown(place)
            | NameFault::InstanceLoop(place)
            | NameFault::NameTwice(place)
            | NameFault::NameUnknown(place) => Some(*place),
            NameFault::NoMemory => None,
        }
    }

    fn rank(&self) -> u8 {
        match self {
            NameFault::NoMain(_) => 0,
            NameFault::ModuleTwice(_) => 1,
            NameFault::ModuleUnknown(_) => 2,
            NameFault::InstanceLoop(_) => 3,
            NameFault::NameTwice(_) => 4,
            NameFault::NameUnknown(_) => 5,
            NameFault::NoMemory => 6,
        }
    }

    fn kind(&self) -> &'static str {
        match self {
            NameFault::NoMain(_) => "NoMain",
            NameFault::ModuleTwice(_) => "ModuleTwice",
            NameFault::ModuleUnknown(_) => "ModuleUnknown",
            NameFault::InstanceLoop(_) => "InstanceLoop",
            NameFault::NameTwice(_) => "NameTwice",
            NameFault::NameUnknown(_) => "NameUnknown",
            NameFault::NoMemory => "NoMemory",
        }
    }

    ghost one_each = { one_each };

    ghost one_nowhere = { one_nowhere };
}
