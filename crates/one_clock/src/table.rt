//! What is known of the clocks of all modules that main reaches.

ghost use Rattle.std.specs.Prelude.{◌≡◌, IfOk, OnOk};
ghost use Rattle.circuit_laws.specs.WellFormed.{IsWellFormed};
ghost use Rattle.drive_check.specs.Sites.{names_of};
ghost use Rattle.drive_check.specs.Typing.{typed};
ghost use Rattle.one_clock.specs.Tables.{Keeps, IsTable};

use crate::module_clocks::{ModuleClocks, clocks_of};
use circuit_laws::laws::modules_are_named;
use drive_check::module_types::ModuleTypes;
use drive_check::names::names_of;
use fir_tree::{Fitted, Module};
use fir_types::{FirType, Name};
use indexmap::IndexMap;
use std::alloc::{AllocError, Global};

/// What is known of the clocks of the modules that main reaches, each under the number of its name. Takes time and memory in
/// proportion to their statements and leaves.
pub fn table_of(alloc: Global, fitted: &Fitted) -> Result<IndexMap<u32, ModuleClocks>, AllocError>
    requires { IsWellFormed fitted.now }
    ensures { IfOk result (λ table. IsTable fitted.now table.entries) }
{
    modules_are_named();
    let modules = fitted.checked.resolved.get().modules.as_slice();
    let reached = fitted.checked.scope.reached.as_slice();
    let mut rest = fitted.declared.as_slice();
    let mut table = IndexMap::new(alloc);
    for number in 0..modules.len() {
        let holder = &modules[number];
        let names = names_of(alloc, holder)?;
        if reached.get(number).copied().unwrap_or(false) {
            keep(alloc, &mut table, holder, names.as_slice(), rest)?;
        }
        rest = rest.get(names.len()..).unwrap_or(&[]);
    }
    Ok(table)
}

/// Keeps what is known of a module, which has these names and types.
fn keep(
    alloc: Global,
    table: &mut IndexMap<u32, ModuleClocks>,
    holder: &Module,
    names: &[Name],
    declared: &[FirType],
) -> Result<(), AllocError>
    requires { names.now ≡ names_of holder.now }
    ensures { OnOk result (Keeps (typed (names_of holder.now) declared.now) holder.now table.old.entries table.new.entries) }
{
    let types = ModuleTypes::new(alloc, names, declared)?;
    let clocks = clocks_of(alloc, &types, holder)?;
    table.insert(holder.name.id, clocks)?;
    Ok(())
}
