//! One circuit without instances.

ghost use Rattle.std.specs.Prelude.{IfOk};
ghost use Rattle.flatten_instances.specs.Instances.{HasInstances};
ghost use Rattle.flatten_instances.specs.Flat.{IsFlat};

use crate::drivers::drivers_of;
use crate::leaves::leaves_of;
use crate::memories::memories_of;
use crate::plan::module_of;
use crate::registers::registers_of;
use crate::walk::plan_of;
use ground_net::{DrivenCircuit, FlatCircuit};
use std::alloc::{AllocError, Global};

/// All leaves of a run in flat order, with their drivers, registers and memories: one leaf for each path of instances and leaf
/// of the module there.
pub fn flatten(alloc: Global, driven: &DrivenCircuit) -> Result<FlatCircuit, AllocError>
    requires { HasInstances driven.now }
    ensures { IfOk result (λ flat. IsFlat driven.now flat) }
{
    let plan = plan_of(alloc, driven)?;
    let leaves = leaves_of(alloc, driven, &plan)?;
    let drivers = drivers_of(alloc, driven, &plan)?;
    let registers = registers_of(alloc, driven, &plan)?;
    let memories = memories_of(alloc, driven, &plan)?;
    let main = module_of(driven, driven.main);
    Ok(FlatCircuit {
        ports: main.ports,
        leaves,
        drivers,
        registers,
        memories,
    })
}
