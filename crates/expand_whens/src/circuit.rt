//! The drivers of all modules of a circuit.

ghost use Rattle.std.specs.Prelude.{◌<◌, ◌^◌, length, All, IfOk};
ghost use Rattle.expand_whens.specs.Expanding.{IsExpanded, IsExpandedModule};

use crate::driver::drivers;
use bit_words::List;
use ground_net::{
    DrivenCircuit, DrivenModule, GroundCircuit, GroundModule, copied_instances, copied_leaves,
    copied_memories, copied_registers,
};
use std::alloc::{AllocError, Global};

/// The circuit with one driver, or none, for each leaf of each module in place of its statements. The driver of a leaf has
/// what the statements leave in it, and mentions what its live connects do.
///
/// A `u32` numbers the leaves of each module.
pub fn expand(alloc: Global, ground: &GroundCircuit) -> Result<DrivenCircuit, AllocError>
    requires { All (λ m. length m.leaves < 2 ^ 32) ground.now.modules }
    ensures { IfOk result (λ driven. IsExpanded ground.now driven) }
{
    let mut modules = List::new(alloc);
    for one in ground.modules.as_slice() {
        let driven = expanded(alloc, one)?;
        modules.push(driven)?;
    }
    Ok(DrivenCircuit {
        modules,
        main: ground.main,
    })
}

/// A module with drivers in place of its statements.
fn expanded(alloc: Global, ground: &GroundModule) -> Result<DrivenModule, AllocError>
    requires { length ground.now.leaves < 2 ^ 32 }
    ensures { IfOk result (λ driven. IsExpandedModule ground.now driven) }
{
    let drivers = drivers(alloc, ground.leaves.as_slice(), ground.body.as_slice())?;
    let leaves = copied_leaves(alloc, ground.leaves.as_slice())?;
    let registers = copied_registers(alloc, ground.registers.as_slice())?;
    let memories = copied_memories(alloc, ground.memories.as_slice())?;
    let instances = copied_instances(alloc, ground.instances.as_slice())?;
    Ok(DrivenModule {
        ports: ground.ports,
        leaves,
        drivers,
        registers,
        memories,
        instances,
    })
}
