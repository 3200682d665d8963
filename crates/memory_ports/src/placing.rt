//! Flat circuits as nets.

ghost use Rattle.std.specs.Prelude.{IfOk};
ghost use Rattle.ground_net.specs.Nets.{IsNet};
ghost use Rattle.memory_ports.specs.Placing.{IsPlaced};
ghost use Rattle.memory_ports.specs.Sound.{IsSound};

use crate::drivers::placed_drivers;
use crate::leaves::placed_leaves;
use crate::memories::{placed_memories, register_words};
use crate::reads::read_data;
use ground_net::{FlatCircuit, Net, copied_registers};
use std::alloc::{AllocError, Global};

/// The net of a flat circuit. Data that a memory's port reads in the same cycle have a load for a driver; data that come a cycle
/// later are captured reads. Leaves, registers and memories stay in their order.
///
/// Of a leaf that several reads name the last one counts. A sound circuit, whose drivers fit their leaves and whose registers and
/// reads stand in flat order, has a well formed net. Fails where memory is wanted: where a leaf or a word of the state has no
/// number in 32 bits, too.
pub fn place_memories(alloc: Global, flat: &FlatCircuit) -> Result<Net, AllocError>
    ensures placed { IfOk result (λ net. IsPlaced flat.now net) }
    ensures well_formed { IfOk result (λ net. IsSound flat.now → IsNet net) }
{
    let net = placed(alloc, flat)?;
    Ok(net)
}

/// The net of a flat circuit.
fn placed(alloc: Global, flat: &FlatCircuit) -> Result<Net, AllocError>
    ensures { IfOk result (λ net. IsPlaced flat.now net) }
{
    let shown = read_data(alloc, flat)?;
    let leaves = placed_leaves(alloc, flat.leaves.as_slice(), shown.as_slice())?;
    let drivers = placed_drivers(alloc, flat, shown)?;
    let registers = copied_registers(alloc, flat.registers.as_slice())?;
    let word = register_words(leaves.as_slice(), registers.as_slice());
    let memories = placed_memories(alloc, flat.memories.as_slice(), word)?;
    Ok(Net {
        ports: flat.ports,
        leaves,
        drivers,
        registers,
        memories,
    })
}
