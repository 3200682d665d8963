//! A net as rows of numbers.

ghost use Rattle.std.specs.Prelude.{◌≡◌, ◌<◌, ◌^◌, length, map, IfOk};
ghost use Rattle.ground_net.specs.Cones.{sinks};
ghost use Rattle.cone_cutter.specs.Rows.{sink_of, read_rows, need_rows, reads_in, needs_in, AreNetRows};

use crate::needing::needs_of;
use crate::sinks::{SinkAt, sinks_of};
use bit_words::List;
use comb_order::{Spread, spread_of};
use ground_net::Net;
use std::alloc::{AllocError, Global};

/// The sinks of a net, for each leaf what it reads, and for each sink what it needs itself: assignments, and vertices. A vertex stands
/// for several assignments at once. Its number is behind those of the leaves, and its row is that of these assignments.
#[derive(Drop)]
pub struct NetRows {
    pub leaves: usize,
    pub sinks: Vec<SinkAt>,
    pub reads: Vec<List<u32>>,
    pub needed: Vec<List<u32>>,
}

impl NetRows {
    /// The rows of a net and the sinks of a watch list.
    pub fn new(alloc: Global, net: &Net, watch: &[u32]) -> Result<NetRows, AllocError>
        requires { length net.now.leaves < 2 ^ 32 }
        ensures rows { IfOk result AreNetRows }
        ensures leaves { IfOk result (λ rows. rows.leaves ≡ length net.now.leaves) }
        ensures sinks { IfOk result (λ rows. map sink_of rows.sinks.items ≡ sinks net.now watch.now) }
        ensures reads { IfOk result (λ rows. reads_in rows ≡ read_rows net.now) }
        ensures needed { IfOk result (λ rows. needs_in rows ≡ need_rows net.now (sinks net.now watch.now)) }
    {
        let sinks = sinks_of(alloc, net, watch)?;
        let mut spread = spread_of(alloc, net)?;
        let needed = needs_of(alloc, &mut spread, net, sinks.as_slice())?;
        let Spread { rows, known: _ } = spread;
        Ok(NetRows {
            leaves: net.leaves.len(),
            sinks,
            reads: rows,
            needed,
        })
    }
}
