//! Why there is no trace.

use std::alloc::AllocError;
use thiserror::Error;

/// Why there is no trace.
#[derive(Clone, Copy, Debug, Error)]
pub enum Fault {
    #[error("standard input can't be read, is too long, or has no line `%stimulus`")]
    Text,
    #[error("the circuit's text has a fault")]
    Circuit,
    #[error("the stimulus's text has a fault")]
    Stimulus,
    #[error("no memory is left")]
    Memory,
}

impl Fault {
    /// The word that names it.
    pub fn name(self) -> &'static str {
        match self {
            Fault::Text => "text",
            Fault::Circuit => "circuit",
            Fault::Stimulus => "stimulus",
            Fault::Memory => "memory",
        }
    }
}

impl From<AllocError> for Fault {
    ghost use Rattle.std.specs.Prelude.{◌≡◌};
    ghost use Rattle.plain_trace.specs.declared.fault.Fault.TheVariants.{Memory};

    ghost from_gives = { λ _ fault. fault ≡ Memory };

    fn from(_: AllocError) -> Fault {
        Fault::Memory
    }
}
