//! The registers and memory ports whose clock is another one.

ghost use Rattle.std.specs.Prelude.{◌≡◌, ◌++◌, flat_map, option_map, IfOk, OnOk};
ghost use Rattle.clock_check.specs.Flats.{is_within};
ghost use Rattle.drive_check.specs.Keys.{leaf_of_key};
ghost use Rattle.one_clock.specs.Judged.{leads_home, fault_unless, place_faults};

use crate::module_clocks::ModuleClocks;
use crate::places::Standing;
use clock_check::fault::ClockFault;
use clock_check::flat_key::flat_key;
use clock_check::flat_set::FlatSet;
use clock_check::hung::Hung;
use indexmap::IndexMap;
use place_text::Place;
use std::alloc::{AllocError, Global};

/// The faults of the registers and memory ports of all modules at all places, where these leaves lead to main's first Clock input.
/// Takes time in proportion to their number.
pub fn faults_of(
    alloc: Global,
    table: &IndexMap<u32, ModuleClocks>,
    rooted: &FlatSet,
    places: &[Standing],
) -> Result<Vec<ClockFault>, AllocError>
    ensures { IfOk result (λ faults. faults.items ≡ flat_map (place_faults table.now.entries (is_within rooted.now.keys.keys)) places.now) }
{
    let mut faults = Vec::new(alloc);
    for place in places {
        push_place(alloc, table, rooted, &mut faults, place)?;
    }
    Ok(faults)
}

/// Adds the faults at a place.
fn push_place(
    alloc: Global,
    table: &IndexMap<u32, ModuleClocks>,
    rooted: &FlatSet,
    faults: &mut Vec<ClockFault>,
    place: &Standing,
) -> Result<(), AllocError>
    ensures { OnOk result (faults.new.items ≡ faults.old.items ++ place_faults table.now.entries (is_within rooted.now.keys.keys) place.now) }
{
    let Some(clocks) = table.get(&place.name) else {
        return Ok(());
    };
    for hung in clocks.hung.as_slice() {
        let home = leads_home(alloc, &clocks.targets, rooted, place.path.as_slice(), hung)?;
        push_unless(faults, home, hung.place)?;
    }
    Ok(())
}

/// Whether the clock of a register or a memory's port at this path is one of these leaves.
fn leads_home(
    alloc: Global,
    targets: &IndexMap<u32, u32>,
    rooted: &FlatSet,
    path: &[u32],
    hung: &Hung,
) -> Result<bool, AllocError>
    ensures { IfOk result (λ home. home ≡ leads_home (is_within rooted.now.keys.keys) targets.now.entries path.now (option_map leaf_of_key hung.now.clock)) }
{
    match &hung.clock {
        Some(clock) => {
            let key = flat_key(alloc, targets, path, clock)?;
            Ok(rooted.contains(&key))
        }
        None => Ok(false),
    }
}

/// Adds a fault at this place, unless the clock there leads home.
fn push_unless(faults: &mut Vec<ClockFault>, home: bool, place: Place) -> Result<(), AllocError>
    ensures { OnOk result (faults.new.items ≡ faults.old.items ++ fault_unless home place) }
{
    if !home {
        faults.push(ClockFault::ClockOther(place))?;
    }
    Ok(())
}
