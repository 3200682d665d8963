//! The reasons to refuse a laid list.

use place_text::{Fault, Place};
use std::alloc::AllocError;
use thiserror::Error;

/// Why a laid list is no circuit: the kind of its first bad token, with that token's place.
#[derive(Clone, Copy, Debug, Drop, Error)]
pub enum ParseFault {
    /// The token can't continue the text.
    #[error("a token that can't continue the text")]
    BadSyntax(Place),
    /// The version's first number isn't 3.
    #[error("a version other than 3 and 4")]
    BadVersion(Place),
    /// The token can't continue the text, and is one of those that name what isn't supported.
    #[error("an unsupported construct")]
    Unsupported(Place),
    /// The token can continue the text, and opens the 129th block or bracket, or is the 129th suffix.
    #[error("more than 128 open blocks, open brackets or suffixes")]
    TooDeep(Place),
    #[error("no memory")]
    NoMemory,
}

impl From<AllocError> for ParseFault {
    ghost use Rattle.std.specs.Prelude.{◌≡◌};
    ghost use Rattle.fir_tree.specs.declared.fault.ParseFault.TheVariants.{NoMemory};

    ghost from_gives = { λ _ fault. fault ≡ NoMemory };

    fn from(_: AllocError) -> ParseFault {
        ParseFault::NoMemory
    }
}

impl Fault for ParseFault {
    ghost use Rattle.fir_tree.specs.Faults.{place_of, rank_of, kind_of};
    ghost use Rattle.fir_tree.specs.Ranks.{one_each, one_nowhere};

    ghost place = { place_of };

    ghost rank = { rank_of };

    ghost kind = { kind_of };

    fn place(&self) -> Option<Place> {
        match self {
            ParseFault::BadSyntax(place)
            | ParseFault::BadVersion(place)
            | ParseFault::Unsupported(place)
            | ParseFault::TooDeep(place) => Some(*place),
            ParseFault::NoMemory => None,
        }
    }

    fn rank(&self) -> u8 {
        match self {
            ParseFault::BadSyntax(_) => 0,
            ParseFault::BadVersion(_) => 1,
            ParseFault::Unsupported(_) => 2,
            ParseFault::TooDeep(_) => 3,
            ParseFault::NoMemory => 4,
        }
    }

    fn kind(&self) -> &'static str {
        match self {
            ParseFault::BadSyntax(_) => "BadSyntax",
            ParseFault::BadVersion(_) => "BadVersion",
            ParseFault::Unsupported(_) => "Unsupported",
            ParseFault::TooDeep(_) => "TooDeep",
            ParseFault::NoMemory => "NoMemory",
        }
    }

    ghost one_each = { one_each };

    ghost one_nowhere = { one_nowhere };
}
