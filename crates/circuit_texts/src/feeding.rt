//! What the inputs of a run are given that goes on from a snapshot.

ghost use Rattle.circuit_texts.specs.Going.{given_behind, FeedsFrom};

use crate::parts::{Span, rows_from};
use bit_words::{Row, Rows};
use crew_run::Feed;
use ground_net::Ports;
use std::alloc::{AllocError, Global};
use stimulus::Stimulus;

/// A stimulus, which was read for these ports, and a value for each input, which it has before its first setting.
#[derive(Clone, Copy)]
pub struct Resumed<'a> {
    pub ports: &'a Ports,
    pub stimulus: &'a Stimulus,
    pub start: &'a Row,
}

impl<'a> Feed for Resumed<'a> {
    ghost given = { λ s. given_behind s.start.now s.stimulus.now };

    ghost many = { λ s. s.stimulus.now.cycles };

    ghost feeds = { λ s net. FeedsFrom net s.ports.now s.stimulus.now s.start.now };

    fn cycles(&self) -> u64 {
        self.stimulus.cycles
    }

    fn rows(&self, alloc: Global, first: u64, count: u64) -> Result<Rows, AllocError> {
        let span = Span { first, count };
        rows_from(alloc, self.stimulus, self.ports, self.start, span)
    }
}
