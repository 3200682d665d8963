//! All places of the run at which modules stand, and what the modules there declare.

ghost use Rattle.std.specs.Prelude.{◌≡◌, ◌++◌, option_map, IfOk, OnOk};
ghost use Rattle.fir_meaning.specs.Components.{design_of, module_named, target_in};
ghost use Rattle.circuit_laws.specs.WellFormed.{IsWellFormed};
ghost use Rattle.plain_cycle.specs.Held.{held_sort};
ghost use Rattle.plain_cycle.specs.Parts.{bares, bares_held};
ghost use Rattle.plain_cycle.specs.Places.{stand_of, stands_of, stand_behind, next_stands, ArePlaces};

use crate::declarations::{Declaration, Sort, declarations_of};
use circuit_laws::laws::{modules_are_named, names_are_declared_once};
use fir_tree::Fitted;
use fir_types::FirType;
use std::alloc::{AllocError, Global};

/// A place at which a module stands: the names of the instances that lead there, the outermost first, and the name of the module.
#[derive(Drop)]
pub struct Standing {
    pub path: Vec<u32>,
    pub name: u32,
}

/// The declarations of a module in text order and, beside each, its type.
#[derive(Drop)]
pub struct Parts<'a> {
    pub declared: Vec<Declaration<'a>>,
    pub types: &'a [FirType],
}

/// The declarations of the first module of a name with their types.
pub fn parts_of<'a>(
    alloc: Global,
    fitted: &'a Fitted,
    name: u32,
) -> Result<Option<Parts<'a>>, AllocError>
    ensures { IfOk result (λ parts. option_map bares_held parts ≡ option_map bares (module_named (design_of fitted.now) name)) }
{
    let mut types = fitted.declared.as_slice();
    for holder in fitted.checked.resolved.get().modules.as_slice() {
        let declared = declarations_of(alloc, holder)?;
        if holder.name.id == name {
            return Ok(Some(Parts { declared, types }));
        }
        types = types.get(declared.len()..).unwrap_or(&[]);
    }
    Ok(None)
}

/// All places at which modules stand, from main's on: what stands behind a place comes later. Takes time and memory in
/// proportion to their number, each with the length of its path and the statements of the circuit.
pub fn places_of(alloc: Global, fitted: &Fitted) -> Result<Vec<Standing>, AllocError>
    requires { IsWellFormed fitted.now }
    ensures { IfOk result (λ places. ArePlaces (design_of fitted.now) (stands_of places.items)) }
{
    names_are_declared_once();
    modules_are_named();
    let mut places = Vec::new(alloc);
    places.push(Standing {
        path: Vec::new(alloc),
        name: fitted.checked.resolved.get().main.id,
    })?;
    for at in 0..usize::MAX {
        let Some(place) = places.get(at) else {
            return Ok(places);
        };
        let mut next = next_places(alloc, fitted, place)?;
        places.append(&mut next)?;
    }
    unreachable!()
}

/// The places behind the instances of the module at a place.
fn next_places(
    alloc: Global,
    fitted: &Fitted,
    place: &Standing,
) -> Result<Vec<Standing>, AllocError>
    ensures { IfOk result (λ next. stands_of next.items ≡ next_stands (design_of fitted.now) (stand_of place.now)) }
{
    let mut next = Vec::new(alloc);
    let Some(parts) = parts_of(alloc, fitted, place.name)? else {
        return Ok(next);
    };
    let declared = parts.declared.as_slice();
    for at in 0..declared.len().min(parts.types.len()) {
        push_behind(alloc, &mut next, place.path.as_slice(), &declared[at])?;
    }
    Ok(next)
}

/// Adds the place behind a declaration of the module at this path, where it is an instance.
fn push_behind(
    alloc: Global,
    next: &mut Vec<Standing>,
    path: &[u32],
    declaration: &Declaration<'_>,
) -> Result<(), AllocError>
    ensures { OnOk result (stands_of next.new.items ≡ stands_of next.old.items ++ stand_behind path.now declaration.now.name (target_in (held_sort declaration.now.sort))) }
{
    let Some(name) = target_of(declaration) else {
        return Ok(());
    };
    let mut longer = Vec::from_slice(alloc, path)?;
    longer.push(declaration.name)?;
    next.push(Standing { path: longer, name })?;
    Ok(())
}

/// The module that a declaration makes, where it is an instance.
pub fn target_of(declaration: &Declaration<'_>) -> Option<u32>
    ensures { result ≡ target_in (held_sort declaration.now.sort) }
{
    match declaration.sort {
        Sort::Instance(target) => Some(target),
        _ => None,
    }
}
