//! The reasons to refuse a text for its tokens.

use place_text::{Fault, Place};
use std::alloc::AllocError;
use thiserror::Error;

/// Why a text has no tokens: its first fault from the left, at the place where its piece begins.
#[derive(Clone, Copy, Debug, Drop, Error)]
pub enum LexFault {
    /// A byte that begins no token and isn't white space.
    #[error("bad byte")]
    BadByte(Place),
    /// A string, a backquoted name, an info or an annotation that does not end, or `@` or `%` without a `[`.
    #[error("bad token")]
    BadToken(Place),
    /// A number, or a string that quotes one, whose magnitude is over 2^128 - 1.
    #[error("number out of range")]
    NumberRange(Place),
    #[error("out of memory")]
    NoMemory,
}

impl From<AllocError> for LexFault {
    ghost use Rattle.std.specs.Prelude.{◌≡◌};
    ghost use Rattle.fir_lexer.specs.declared.fault.LexFault.TheVariants.{NoMemory};

    ghost from_gives = { λ _ fault. fault ≡ NoMemory };

    fn from(_: AllocError) -> LexFault {
        LexFault::NoMemory
    }
}

impl Fault for LexFault {
    ghost use Rattle.fir_lexer.specs.Faults.{place_of, rank_of, kind_of};
    ghost use Rattle.fir_lexer.specs.Ranks.{one_each, one_nowhere};

    ghost place = { place_of };

    ghost rank = { rank_of };

    ghost kind = { kind_of };

    fn place(&self) -> Option<Place> {
        match self {
            LexFault::BadByte(place) | LexFault::BadToken(place) | LexFault::NumberRange(place) => {
                Some(*place)
            }
            LexFault::NoMemory => None,
        }
    }

    fn rank(&self) -> u8 {
        match self {
            LexFault::BadByte(_) => 0,
            LexFault::BadToken(_) => 1,
            LexFault::NumberRange(_) => 2,
            LexFault::NoMemory => 3,
        }
    }

    fn kind(&self) -> &'static str {
        match self {
            LexFault::BadByte(_) => "BadByte",
            LexFault::BadToken(_) => "BadToken",
            LexFault::NumberRange(_) => "NumberRange",
            LexFault::NoMemory => "NoMemory",
        }
    }

    ghost one_each = { one_each };

    ghost one_nowhere = { one_nowhere };
}
