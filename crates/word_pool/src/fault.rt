//! The reasons to refuse a slot or frames.

use std::alloc::AllocError;
use thiserror::Error;

/// Why a pool gives nothing.
#[derive(Clone, Copy, Debug, PartialEq, Eq, Drop, Error)]
pub enum PoolFault {
    /// All that the pool has, this many, is in use or too little.
    #[error("the pool is full")]
    Full(u64),
    #[error("no memory")]
    NoMemory,
}

impl From<AllocError> for PoolFault {
    ghost use Rattle.std.specs.Prelude.{◌≡◌};
    ghost use Rattle.word_pool.specs.declared.fault.PoolFault.TheVariants.{NoMemory};

    ghost from_gives = { λ _ fault. fault ≡ NoMemory };

    fn from(_: AllocError) -> PoolFault {
        PoolFault::NoMemory
    }
}
