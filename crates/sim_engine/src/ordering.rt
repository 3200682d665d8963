//! The ordered net of a circuit.

ghost use Rattle.place_text.specs.Verdicts.{IsVerdict};
ghost use Rattle.fir_meaning.specs.Components.{design_of};
ghost use Rattle.fir_meaning.specs.Certain.{IsInitialized};
ghost use Rattle.circuit_laws.specs.WellFormed.{IsWellFormed};
ghost use Rattle.comb_order.specs.Faults.{place_of, rank_of};
ghost use Rattle.net_laws.specs.FirstLoops.{IsLoopFault};
ghost use Rattle.sim_engine.specs.OrderedNets.{IsOrderedNet};

use crate::passing::order_lowered;
use comb_order::OrderFault;
use fir_tree::Fitted;
use ground_net::Ordered;
use lower_aggregates::lower;
use std::alloc::Global;

/// The net that serves a circuit, with its assignments in an order; or the place of the first leaf, in flat order, that is on a loop
/// (FIRRTL specification 3.0, "Combinational Loops").
///
/// More leaves than a `u32` numbers are a want of memory.
pub fn ordered_net(alloc: Global, fitted: &Fitted) -> Result<Ordered, OrderFault>
    requires formed { IsWellFormed fitted.now }
    requires initialized { IsInitialized (design_of fitted.now) }
    ensures { IsVerdict place_of rank_of (IsLoopFault (design_of fitted.now)) (IsOrderedNet fitted.now.checked.resolved.names (design_of fitted.now)) result }
{
    let lowered = lower(alloc, fitted)?;
    order_lowered(alloc, fitted, &lowered)
}
