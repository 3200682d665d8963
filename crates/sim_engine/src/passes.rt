//! The passes one after the other.

ghost use Rattle.std.specs.Prelude.{◌<◌, ◌^◌, length, All, IfOk};
ghost use Rattle.sim_engine.specs.Passing.{IsInstanced, IsFlatCircuitOf, IsNetOfPasses};

use expand_whens::expand;
use flatten_instances::flatten;
use ground_net::{FlatCircuit, GroundCircuit, Net};
use memory_ports::place_memories;
use std::alloc::{AllocError, Global};

/// The net of a circuit's ground statements. The statements of each module give way to one driver for each leaf, the modules to one
/// circuit without instances, and what the memories' ports read to loads and captured reads.
///
/// A `u32` numbers the leaves of each module. Fails where memory is wanted.
pub fn net_of_statements(alloc: Global, lowered: &GroundCircuit) -> Result<Net, AllocError>
    requires numbered { All (λ m. length m.leaves < 2 ^ 32) lowered.now.modules }
    requires instanced { IsInstanced lowered.now }
    ensures { IfOk result (λ net. IsNetOfPasses lowered.now net) }
{
    let flat = flat_circuit_of(alloc, lowered)?;
    let net = place_memories(alloc, &flat)?;
    Ok(net)
}

/// The flat circuit of a circuit's ground statements.
fn flat_circuit_of(alloc: Global, lowered: &GroundCircuit) -> Result<FlatCircuit, AllocError>
    requires numbered { All (λ m. length m.leaves < 2 ^ 32) lowered.now.modules }
    requires instanced { IsInstanced lowered.now }
    ensures { IfOk result (λ flat. IsFlatCircuitOf lowered.now flat) }
{
    let driven = expand(alloc, lowered)?;
    let flat = flatten(alloc, &driven)?;
    Ok(flat)
}
