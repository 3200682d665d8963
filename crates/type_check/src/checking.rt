//! The types of all expressions of a circuit, or its first fault.

ghost use Rattle.std.specs.Prelude.{◌≡◌, ◌++◌, [], IfOk, OnOk};
ghost use Rattle.std.specs.List.{flat_map};
ghost use Rattle.type_check.specs.Statements.{types_of, faults_of, module_walk};
ghost use Rattle.type_check.specs.Faults.{IsFault, place_of, rank_of};
ghost use Rattle.place_text.specs.Verdicts.{IsVerdict};

use crate::fault::TypeFault;
use crate::found::Findings;
use crate::walk::walk_module;
use bit_words::List;
use fir_tree::{Circuit, Module, Scope, Types};
use module_table::Modules;
use place_text::earliest;
use std::alloc::{AllocError, Global};

/// The type of each expression in text order, or the first fault of the circuit's types by place, and at one place by kind
/// (FIRRTL specification 3.0, "Types", "Expressions", "Connects").
///
/// All names of the circuit are known. A component is known by its name, since all declarations of a module have different
/// names, so nothing of the scope is asked. Takes time and memory in proportion to the circuit, to the types that it answers,
/// and to those of all instances and memories.
pub fn check(alloc: Global, circuit: &Circuit, scope: &Scope) -> Result<Types, TypeFault>
    ensures { IsVerdict place_of rank_of (IsFault circuit.now) (λ types. types ≡ types_of circuit.now) result }
{
    let Findings { types, faults } = find(alloc, circuit)?;
    match earliest(faults.as_slice()) {
        Some(first) => Err(first),
        None => Ok(List::from_vec(types)),
    }
}

/// The types, with all faults.
fn find(alloc: Global, circuit: &Circuit) -> Result<Findings, AllocError>
    ensures types { IfOk result (λ found. found.types.items ≡ types_of circuit.now) }
    ensures faults { IfOk result (λ found. found.faults.items ≡ faults_of circuit.now) }
{
    let modules = Modules::new(alloc, &circuit.names, circuit.modules.as_slice())?;
    let mut found = Findings {
        types: Vec::new(alloc),
        faults: Vec::new(alloc),
    };
    walk_modules(alloc, &modules, modules.all, &mut found)?;
    Ok(found)
}

/// Adds the types and the faults of some modules, where these are all modules.
fn walk_modules(
    alloc: Global,
    modules: &Modules<'_>,
    holders: &[Module],
    found: &mut Findings,
) -> Result<(), AllocError>
    ensures types { OnOk result (found.new.types.items ≡ found.old.types.items ++ flat_map (λ m. (module_walk modules.now.all.now m []).nodes) holders.now) }
    ensures faults { OnOk result (found.new.faults.items ≡ found.old.faults.items ++ flat_map (λ m. (module_walk modules.now.all.now m []).faults) holders.now) }
{
    for holder in holders {
        walk_module(alloc, modules, holder, found)?;
    }
    Ok(())
}
