//! What the inputs of a run are given.

ghost use Rattle.std.specs.Prelude.{◌≡◌, ℕ, ◌+◌, ◌≤◌, length, IfOk};
ghost use Rattle.ground_net.specs.declared.net.Net.{Net as TheNet};
ghost use Rattle.ground_net.specs.Watching.{inputs};
ghost use Rattle.ground_net.specs.Cycles.{Inputs};
ghost use Rattle.ground_net.specs.Nets.{IsNet};
ghost use Rattle.stimulus.specs.Stimuli.{IsFormed};
ghost use Rattle.circuit_run.specs.NetRuns.{given_in};
ghost use Rattle.crew_run.specs.Runs.{MatchGiven};
ghost use Rattle.crew_run.specs.Feeding.{Feeds};

use bit_words::Rows;
use ground_net::Ports;
use std::alloc::{AllocError, Global};
use stimulus::{Stimulus, rows};

/// Rows of the inputs' values, cycle by cycle.
pub trait Feed {
    /// What the inputs are given in each cycle.
    ghost given: { Self → ℕ → Inputs };

    /// How many cycles there are.
    ghost many: { Self → ℕ };

    /// The rows match the inputs of this net.
    ghost feeds: { Self → TheNet → Type 0 };

    /// How many cycles there are.
    fn cycles(&self) -> u64
        ensures { result ≡ many self.now };

    /// The rows of so many cycles from a first one on.
    fn rows(&self, alloc: Global, first: u64, count: u64) -> Result<Rows, AllocError>
        requires feeds { (net : TheNet) × feeds self.now net }
        requires within { first + count ≤ many self.now }
        ensures count { IfOk result (λ rows. length rows ≡ count) }
        ensures matched { (net : TheNet) → feeds self.now net → IfOk result (MatchGiven net (λ c. given self.now (first + c))) };
}

/// A stimulus, which was read for these ports.
#[derive(Clone, Copy)]
pub struct Stimulated<'a> {
    pub ports: &'a Ports,
    pub stimulus: &'a Stimulus,
}

impl<'a> Feed for Stimulated<'a> {
    ghost given = { λ s. given_in s.stimulus.now };

    ghost many = { λ s. s.stimulus.now.cycles };

    ghost feeds = { λ s net. Feeds net s.ports.now s.stimulus.now };

    fn cycles(&self) -> u64 {
        self.stimulus.cycles
    }

    fn rows(&self, alloc: Global, first: u64, count: u64) -> Result<Rows, AllocError> {
        rows(alloc, self.stimulus, self.ports, first, count)
    }
}
