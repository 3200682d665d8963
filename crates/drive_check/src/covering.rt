//! Whether all leaves that must be driven are.

ghost use Rattle.std.specs.Prelude.{◌≡◌, ◌++◌, ⊤, flat_map, IfOk, OnOk};
ghost use Rattle.place_text.specs.Verdicts.{IsVerdict};
ghost use Rattle.circuit_laws.specs.WellFormed.{IsWellFormed};
ghost use Rattle.drive_check.specs.Faults.{place_of, rank_of};
ghost use Rattle.drive_check.specs.HeldTypes.{types_in};
ghost use Rattle.drive_check.specs.Initialized.{IsFault};
ghost use Rattle.drive_check.specs.Keys.{is_among};
ghost use Rattle.drive_check.specs.Sites.{names_of};
ghost use Rattle.drive_check.specs.Modules.{port_faults, module_faults, faults_of};

use crate::fault::DriveFault;
use crate::leaf_set::LeafSet;
use crate::module_types::ModuleTypes;
use crate::names::names_of;
use crate::undriven::{Owner, push_undriven};
use crate::walk::walk_block;
use circuit_laws::laws::{components_are_named, names_are_declared_once};
use fir_tree::{Fitted, Module};
use fir_types::{FirType, Name, Port};
use place_text::earliest;
use std::alloc::{AllocError, Global};

/// Ok where each leaf that must be driven is, whatever the values are: each sink, and each leaf of a wire, by the statements behind
/// the declaration in its block (FIRRTL specification 3.0, "Initialization" under "Conditionals"). Else the first fault by place, of the
/// modules that the main module reaches.
///
/// Takes time and memory in proportion to the circuit and to the leaves that its connects drive.
pub fn covered(alloc: Global, fitted: &Fitted) -> Result<(), DriveFault>
    requires { IsWellFormed fitted.now }
    ensures { IsVerdict place_of rank_of (IsFault fitted.now) (λ passed. ⊤) result }
{
    components_are_named();
    names_are_declared_once();
    let faults = find(alloc, fitted)?;
    match earliest(faults.as_slice()) {
        Some(first) => Err(first),
        None => Ok(()),
    }
}

/// All faults of the modules that the main module reaches.
fn find(alloc: Global, fitted: &Fitted) -> Result<Vec<DriveFault>, AllocError>
    ensures { IfOk result (λ faults. faults.items ≡ faults_of fitted.now) }
{
    let modules = fitted.checked.resolved.get().modules.as_slice();
    let reached = fitted.checked.scope.reached.as_slice();
    let mut rest = fitted.declared.as_slice();
    let mut faults = Vec::new(alloc);
    for number in 0..modules.len() {
        let holder = &modules[number];
        let names = names_of(alloc, holder)?;
        if reached.get(number).copied().unwrap_or(false) {
            push_module(alloc, &mut faults, holder, names.as_slice(), rest)?;
        }
        rest = rest.get(names.len()..).unwrap_or(&[]);
    }
    Ok(faults)
}

/// Adds the faults of a module, which has these names and types.
fn push_module(
    alloc: Global,
    faults: &mut Vec<DriveFault>,
    holder: &Module,
    names: &[Name],
    declared: &[FirType],
) -> Result<(), AllocError>
    requires { names.now ≡ names_of holder.now }
    ensures { OnOk result (faults.new.items ≡ faults.old.items ++ module_faults holder.now declared.now) }
{
    let types = ModuleTypes::new(alloc, names, declared)?;
    let certain = walk_block(alloc, &types, faults, holder.body.as_slice())?;
    push_ports(alloc, &types, &certain, faults, holder.ports.as_slice())
}

fn push_ports(
    alloc: Global,
    types: &ModuleTypes<'_>,
    certain: &LeafSet,
    faults: &mut Vec<DriveFault>,
    ports: &[Port],
) -> Result<(), AllocError>
    ensures { OnOk result (faults.new.items ≡ faults.old.items ++ flat_map (port_faults (types_in types.now) (is_among certain.now.keys.keys)) ports.now) }
{
    for port in ports {
        push_port(alloc, types, certain, faults, port)?;
    }
    Ok(())
}

fn push_port(
    alloc: Global,
    types: &ModuleTypes<'_>,
    certain: &LeafSet,
    faults: &mut Vec<DriveFault>,
    port: &Port,
) -> Result<(), AllocError>
    ensures { OnOk result (faults.new.items ≡ faults.old.items ++ port_faults (types_in types.now) (is_among certain.now.keys.keys) port.now) }
{
    if port.output {
        push_undriven(alloc, types, certain, faults, (port.name, Owner::Output))
    } else {
        push_undriven(alloc, types, certain, faults, (port.name, Owner::Input))
    }
}
