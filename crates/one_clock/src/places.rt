//! All places of the run at which modules stand.

ghost use Rattle.std.specs.Prelude.{◌≡◌, ◌↔◌, ◌++◌, [], map, nat_eq, Contains, IfOk, OnOk};
ghost use Rattle.std.specs.Map.{lookup};
ghost use Rattle.one_clock.specs.Stands.{Stand, stand_of, stands_of, stand_behind, next_stands, ComesFrom};

use crate::module_clocks::ModuleClocks;
use indexmap::IndexMap;
use std::alloc::{AllocError, Global};

/// A place at which a module stands: the names of the instances that lead there, the outermost first, and the name of the module.
#[derive(Drop)]
pub struct Standing {
    pub path: Vec<u32>,
    pub name: u32,
}

/// All places at which modules stand, from main's on: what stands behind a place comes later. Takes time and memory in
/// proportion to their number and to the lengths of their paths.
pub fn places_of(
    alloc: Global,
    table: &IndexMap<u32, ModuleClocks>,
    main: u32,
) -> Result<Vec<Standing>, AllocError>
    ensures { IfOk result (λ places. (x : Stand) → Contains (stands_of places.items) x ↔ ComesFrom table.now.entries ([], main) x) }
{
    let mut places = Vec::new(alloc);
    places.push(Standing {
        path: Vec::new(alloc),
        name: main,
    })?;
    for at in 0..usize::MAX {
        let Some(place) = places.get(at) else {
            return Ok(places);
        };
        let mut next = next_places(alloc, table, place)?;
        places.append(&mut next)?;
    }
    unreachable!()
}

/// The places behind the instances of the module at a place.
fn next_places(
    alloc: Global,
    table: &IndexMap<u32, ModuleClocks>,
    place: &Standing,
) -> Result<Vec<Standing>, AllocError>
    ensures { IfOk result (λ next. stands_of next.items ≡ next_stands table.now.entries (stand_of place.now)) }
{
    let mut next = Vec::new(alloc);
    let Some(clocks) = table.get(&place.name) else {
        return Ok(next);
    };
    for instance in clocks.instances.as_slice() {
        push_behind(
            alloc,
            &mut next,
            &clocks.targets,
            place.path.as_slice(),
            instance.name,
        )?;
    }
    Ok(next)
}

/// Adds the place behind an instance of the module at this path.
fn push_behind(
    alloc: Global,
    next: &mut Vec<Standing>,
    targets: &IndexMap<u32, u32>,
    path: &[u32],
    instance: u32,
) -> Result<(), AllocError>
    ensures { OnOk result (stands_of next.new.items ≡ stands_of next.old.items ++ stand_behind path.now instance (lookup (nat_eq instance) targets.now.entries)) }
{
    let Some(name) = targets.get(&instance) else {
        return Ok(());
    };
    let mut longer = Vec::from_slice(alloc, path)?;
    longer.push(instance)?;
    next.push(Standing {
        path: longer,
        name: *name,
    })?;
    Ok(())
}
