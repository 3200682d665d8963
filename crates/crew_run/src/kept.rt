//! A sink that keeps what is written.

ghost use Rattle.std.specs.Prelude.{◌≡◌, Some, []};

use shelf_io::{Sink, SinkFailed};
use std::alloc::{AllocError, Global};

/// A sink that keeps all bytes, and fails only where memory is wanted.
#[derive(Drop)]
pub struct KeptTrace {
    bytes: Vec<u8>,
    faults: u64,
}

impl KeptTrace {
    /// Nothing is kept yet.
    pub fn new(alloc: Global) -> KeptTrace
        ensures { ⟦<KeptTrace as Sink>⟧.written result ≡ Some [] }
    {
        KeptTrace {
            bytes: Vec::new(alloc),
            faults: 0,
        }
    }

    /// What was written.
    pub fn bytes(&self) -> &[u8]
        ensures { ⟦<KeptTrace as Sink>⟧.written self.now ≡ Some result.now }
    {
        self.bytes.as_slice()
    }
}

impl Sink for KeptTrace {
    ghost use Rattle.std.specs.Prelude.{Some};

    ghost written = { λ s. Some s.bytes.items };

    ghost faults = { λ s. s.faults };

    fn write(&mut self, bytes: &[u8]) -> Result<usize, SinkFailed> {
        match self.bytes.extend_from_slice(bytes) {
            Ok(()) => Ok(bytes.len()),
            Err(AllocError) => {
                self.faults = self.faults.saturating_add(1);
                Err(SinkFailed)
            }
        }
    }
}
