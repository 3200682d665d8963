//! Why vertices have no order.

use std::alloc::AllocError;
use thiserror::Error;

/// Why there is no order of the vertices.
#[derive(Clone, Copy, Debug, Drop, Error)]
pub enum GraphFault {
    /// This vertex reads itself, directly or through others.
    #[error("a loop")]
    Loop(u32),
    #[error("no memory")]
    NoMemory,
}

impl From<AllocError> for GraphFault {
    ghost use Rattle.std.specs.Prelude.{◌≡◌};
    ghost use Rattle.comb_order.specs.declared.graph_fault.GraphFault.TheVariants.{NoMemory};

    ghost from_gives = { λ _ stop. stop ≡ NoMemory };

    fn from(_: AllocError) -> GraphFault {
        GraphFault::NoMemory
    }
}
