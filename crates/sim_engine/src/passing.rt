//! The passes from ground statements to the ordered net.

ghost use Rattle.std.specs.Prelude.{◌<◌, ◌^◌, length, All, IfOk};
ghost use Rattle.place_text.specs.Verdicts.{IsVerdict};
ghost use Rattle.fir_meaning.specs.Components.{design_of};
ghost use Rattle.fir_meaning.specs.Certain.{IsInitialized};
ghost use Rattle.circuit_laws.specs.WellFormed.{IsWellFormed};
ghost use Rattle.ground_net.specs.Nets.{IsNet};
ghost use Rattle.net_laws.specs.Serves.{Serves};
ghost use Rattle.comb_order.specs.Faults.{IsFault, IsOrdered, place_of, rank_of};
ghost use Rattle.net_laws.specs.FirstLoops.{IsLoopFault};
ghost use Rattle.net_of_circuit.specs.Lowering.{IsGroundOf};
ghost use Rattle.sim_engine.specs.OrderedNets.{IsOrderedNet};

use crate::net_passes::passes_serve_circuits;
use crate::passes::net_of_statements;
use comb_order::{OrderFault, order};
use fir_tree::Fitted;
use ground_net::laws::drivers_mention_leaves;
use ground_net::{GroundCircuit, Net, Ordered};
use net_laws::loop_laws::verdicts_are_of_circuits;
use std::alloc::{AllocError, Global};

/// The net of a circuit's ground statements, which serves the circuit, with its assignments in an order; or the place of the first
/// leaf, in flat order, that is on a loop (FIRRTL specification 3.0, "Combinational Loops").
///
/// More leaves than a `u32` numbers are a want of memory.
pub fn order_lowered(
    alloc: Global,
    fitted: &Fitted,
    lowered: &GroundCircuit,
) -> Result<Ordered, OrderFault>
    requires formed { IsWellFormed fitted.now }
    requires initialized { IsInitialized (design_of fitted.now) }
    requires made { IsGroundOf fitted.now lowered.now }
    requires numbered { All (λ m. length m.leaves < 2 ^ 32) lowered.now.modules }
    ensures { IsVerdict place_of rank_of (IsLoopFault (design_of fitted.now)) (IsOrderedNet fitted.now.checked.resolved.names (design_of fitted.now)) result }
{
    verdicts_are_of_circuits();
    let net = net_of(alloc, fitted, lowered)?;
    arranged(alloc, net)
}

/// The net that serves a circuit.
fn net_of(alloc: Global, fitted: &Fitted, lowered: &GroundCircuit) -> Result<Net, AllocError>
    requires formed { IsWellFormed fitted.now }
    requires initialized { IsInitialized (design_of fitted.now) }
    requires made { IsGroundOf fitted.now lowered.now }
    requires numbered { All (λ m. length m.leaves < 2 ^ 32) lowered.now.modules }
    ensures { IfOk result (λ net. Serves fitted.now.checked.resolved.names (design_of fitted.now) net) }
{
    passes_serve_circuits();
    let net = net_of_statements(alloc, lowered)?;
    Ok(net)
}

/// A net with its assignments in an order, or its first loop.
fn arranged(alloc: Global, net: Net) -> Result<Ordered, OrderFault>
    requires { IsNet net }
    ensures { IsVerdict place_of rank_of (IsFault net) (IsOrdered net) result }
{
    drivers_mention_leaves();
    match u32::try_from(net.leaves.len()) {
        Ok(_) => order(alloc, net),
        Err(_) => Err(OrderFault::NoMemory),
    }
}
