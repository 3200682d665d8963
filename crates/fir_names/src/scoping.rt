//! The scope of a circuit, or its first fault.

ghost use Rattle.std.specs.Prelude.{◌≡◌, ◌<◌, ◌++◌, ◌↔◌, ℕ, map, length, slice_get, Some, true, IfOk, OnOk};
ghost use Rattle.fir_names.specs.Scopes.{IsScope};
ghost use Rattle.fir_names.specs.declared.fault.NameFault.TheVariants.{NoMain as No_main};
ghost use Rattle.fir_names.specs.Faults.{IsFault, place_of, rank_of};
ghost use Rattle.place_text.specs.Verdicts.{IsVerdict};
ghost use Rattle.fir_names.specs.Graphs.{IsGraph, Leads};
ghost use Rattle.fir_names.specs.Walks.{number_in, fault_in};
ghost use Rattle.fir_names.specs.Finds.{IsFound};

use crate::fault::NameFault;
use crate::gather::{Gathered, gather, numbers_of, push_twice};
use crate::graph::reach;
use crate::loops::push_loops;
use crate::namespace::Namespace;
use bit_words::List;
use fir_tree::{Circuit, Module, Scope};
use fir_types::Name;
use indexmap::IndexMap;
use place_text::earliest;
use std::alloc::{AllocError, Global};

/// What the names of a circuit mean, or its first fault by place, and at one place by kind (FIRRTL specification 3.0,
/// "Circuits and Modules", "Instances", "Namespaces", "Scoping").
///
/// Takes memory and time in proportion to the circuit. More than fit a `u32` of modules, or of declarations in a module, are a want of memory.
pub fn resolve(alloc: Global, circuit: &Circuit) -> Result<Scope, NameFault>
    ensures { IsVerdict place_of rank_of (IsFault circuit.now) (IsScope circuit.now) result }
{
    let (main, found) = find(alloc, circuit)?;
    match earliest(found.faults.as_slice()) {
        Some(first) => Err(first),
        None => {
            let scope = scope_of(alloc, main, found)?;
            Ok(scope)
        }
    }
}

/// What the names mean, with all faults.
fn find(alloc: Global, circuit: &Circuit) -> Result<(u32, Gathered), AllocError>
    ensures { IfOk result (λ found. IsFound circuit.now found.0 found.1) }
{
    let modules = circuit.modules.as_slice();
    let names = names_of(alloc, modules)?;
    let known = numbers_of(alloc, names.as_slice())?;
    let mut found = Gathered {
        uses: Vec::new(alloc),
        targets: Vec::new(alloc),
        graph: Vec::new(alloc),
        faults: Vec::new(alloc),
    };
    push_twice(
        alloc,
        names.as_slice(),
        Namespace::OfCircuit,
        &mut found.faults,
    )?;
    let main = main_of(&known, circuit.main, &mut found.faults)?;
    gather(alloc, &known, &mut found, modules)?;
    push_loops(alloc, found.graph.as_slice(), &mut found.faults)?;
    Ok((main, found))
}

/// The modules' names.
fn names_of(alloc: Global, modules: &[Module]) -> Result<Vec<Name>, AllocError>
    ensures { IfOk result (λ names. names.items ≡ map (λ holder. holder.name) modules.now) }
{
    let mut names = Vec::new(alloc);
    for holder in modules {
        names.push(holder.name)?;
    }
    Ok(names)
}

/// The number of the main module, and where it isn't known 0 and a fault.
fn main_of(
    known: &IndexMap<u32, u32>,
    main: Name,
    faults: &mut Vec<NameFault>,
) -> Result<u32, AllocError>
    ensures number { IfOk result (λ number. number ≡ number_in known.now.entries main) }
    ensures faults { OnOk result (faults.new.items ≡ faults.old.items ++ fault_in No_main known.now.entries main) }
{
    match known.get(&main.id) {
        Some(number) => Ok(*number),
        None => {
            faults.push(NameFault::NoMain(main.place))?;
            Ok(0)
        }
    }
}

/// The scope where there is no fault.
fn scope_of(alloc: Global, main: u32, found: Gathered) -> Result<Scope, AllocError>
    requires graph { IsGraph found.graph.items }
    requires main { main < length found.graph.items }
    ensures uses { IfOk result (λ scope. scope.uses ≡ found.uses.items) }
    ensures targets { IfOk result (λ scope. scope.targets ≡ found.targets.items) }
    ensures counted { IfOk result (λ scope. length scope.reached ≡ length found.graph.items) }
    ensures reached { IfOk result (λ scope. (k : ℕ) → (slice_get scope.reached k ≡ Some true) ↔ Leads found.graph.items main k) }
{
    let reached = reach(alloc, found.graph.as_slice(), main)?;
    let Gathered {
        uses,
        targets,
        graph: _graph,
        faults: _faults,
    } = found;
    Ok(Scope {
        reached: List::from_vec(reached),
        uses: List::from_vec(uses),
        targets: List::from_vec(targets),
    })
}
