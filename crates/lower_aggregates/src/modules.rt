//! Modules as ground statements (FIRRTL specification 3.0, "Circuits and Modules").

ghost use Rattle.std.specs.Prelude.{◌≤◌, length, IfOk};
ghost use Rattle.fir_tree.specs.declared.circuit.Circuit.{Circuit as ACircuit};
ghost use Rattle.fir_tree.specs.declared.scope.Scope.{Scope as AScope};
ghost use Rattle.fir_meaning.specs.Components.{TypedModule};
ghost use Rattle.net_of_circuit.specs.Lowering.{IsGroundModule};
ghost use Rattle.lower_aggregates.specs.Headings.{headings_of};
ghost use Rattle.lower_aggregates.specs.Modules.{IsLowerable};

use crate::instances::instances_of;
use crate::memories::memories_of;
use crate::pieces::pieces_of;
use crate::registers::registers_of;
use crate::table::{leaf_table, port_leaves, settable_leaves};
use crate::view::components_of;
use fir_tree::{Module, Names};
use fir_types::FirType;
use ground_net::GroundModule;
use ground_statements::lower_body;
use indexmap::IndexMap;
use std::alloc::{AllocError, Global};

/// A module as ground statements, where these are the types of its first declarations, and modules have these numbers by their names.
pub fn lower_module(
    alloc: Global,
    names: &Names,
    numbers: &IndexMap<u32, u32>,
    holder: &Module,
    types: &[FirType],
) -> Result<GroundModule, AllocError>
    requires counted { length (headings_of holder.now) ≤ length types.now }
    requires stands { (circuit : ACircuit) × (scope : AScope) × (m : TypedModule) × IsLowerable circuit scope numbers.now.entries holder.now types.now m }
    ensures { (circuit : ACircuit) (scope : AScope) (m : TypedModule) → IsLowerable circuit scope numbers.now.entries holder.now types.now m → IfOk result (λ made. IsGroundModule names.now circuit m made) }
{
    let pieces = pieces_of(alloc, holder, types)?;
    let known = components_of(alloc, pieces.as_slice())?;
    let settable = settable_leaves(alloc, pieces.as_slice())?;
    let ports = port_leaves(pieces.as_slice())?;
    let lowered = lower_body(
        alloc,
        &known,
        settable.as_slice(),
        holder.body.as_slice(),
        ports,
    )?;
    let leaves = leaf_table(alloc, names, pieces.as_slice())?;
    let registers = registers_of(alloc, &known, pieces.as_slice())?;
    let memories = memories_of(alloc, names, pieces.as_slice())?;
    let instances = instances_of(alloc, names, numbers, pieces.as_slice())?;
    Ok(GroundModule {
        ports,
        leaves,
        body: lowered.body,
        registers,
        memories,
        instances,
    })
}
