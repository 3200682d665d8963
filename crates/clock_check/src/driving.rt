//! What connects and invalidates do to the drivers of leaves.

ghost use Rattle.std.specs.Prelude.{◌≡◌, true, false, zip, map, Some, if◌then◌else◌, option_map, OnOk, IfOk, Bool};
ghost use Rattle.std.specs.List.{list_any};
ghost use Rattle.fir_meaning.specs.Components.{Leaf};
ghost use Rattle.fir_meaning.specs.Certain.{may_be, may_name};
ghost use Rattle.fir_meaning.specs.Drives.{is_turned, same_leaf};
ghost use Rattle.fir_meaning.specs.Mentions.{region_of, leaves_at};
ghost use Rattle.fir_meaning.specs.ClockRoot.{No_driver, From, source_for};
ghost use Rattle.drive_check.specs.HeldTypes.{types_in};
ghost use Rattle.drive_check.specs.Keys.{leaf_of_key};
ghost use Rattle.clock_check.specs.Driving.{driver_by, driver_of, region_at, clocked, connected, invalidated, linked};

use crate::drivers::{Drivers, copied};
use crate::reach::{Reach, named, reach_of};
use drive_check::leaf_set::{LeafKey, key_of};
use drive_check::listing::list_leaves;
use drive_check::module_types::ModuleTypes;
use fir_tree::{Expr, Form};
use fir_types::TypeLeaf;
use std::alloc::{AllocError, Global};

/// Notes what a connect drives, of the components that have Clock leaves.
pub fn connect(
    alloc: Global,
    types: &ModuleTypes<'_>,
    drivers: &mut Drivers,
    left: &Expr,
    right: &Expr,
) -> Result<(), AllocError>
    ensures { OnOk result ((leaf : Leaf) → clocked (types_in types.now) leaf.component ≡ true → driver_of drivers.new.known.entries leaf ≡ connected (types_in types.now) leaf left.now right.now (driver_of drivers.old.known.entries leaf)) }
{
    if !names_clock(types, left) && !names_clock(types, right) {
        return Ok(());
    }
    let of_left = named(alloc, types, left)?;
    drive(alloc, types, drivers, (right, true), of_left.as_slice())?;
    let of_right = named(alloc, types, right)?;
    drive(alloc, types, drivers, (left, false), of_right.as_slice())
}

/// Notes what an invalidate drives, of the components that have Clock leaves.
pub fn invalidate(
    alloc: Global,
    types: &ModuleTypes<'_>,
    drivers: &mut Drivers,
    target: &Expr,
) -> Result<(), AllocError>
    ensures { OnOk result ((leaf : Leaf) → clocked (types_in types.now) leaf.component ≡ true → driver_of drivers.new.known.entries leaf ≡ invalidated (types_in types.now) leaf target.now (driver_of drivers.old.known.entries leaf)) }
{
    drive(alloc, types, drivers, (target, true), &[])?;
    drive(alloc, types, drivers, (target, false), &[])
}

/// Whether an expression is a reference to a component that has Clock leaves.
fn names_clock(types: &ModuleTypes<'_>, expr: &Expr) -> bool
    ensures { (leaf : Leaf) (flip : Bool) → clocked (types_in types.now) leaf.component ≡ true → result ≡ false → may_name flip (region_of (types_in types.now) expr.now) leaf ≡ false }
{
    match &expr.form {
        Form::Ref(name, _) => types.clocked(name.id),
        Form::Literal(_, _, _) | Form::Prim(_, _, _) | Form::Mux(_) => false,
    }
}

/// Notes that the leaves of one orientation of an expression are driven, from these leaves in order.
fn drive(
    alloc: Global,
    types: &ModuleTypes<'_>,
    drivers: &mut Drivers,
    sink: (&Expr, bool),
    sources: &[LeafKey],
) -> Result<(), AllocError>
    ensures { OnOk result ((leaf : Leaf) → clocked (types_in types.now) leaf.component ≡ true → driver_of drivers.new.known.entries leaf
        ≡ (if may_name sink.entry.1 (region_of (types_in types.now) sink.entry.0.now) leaf
        then source_for sink.entry.1 leaf (region_of (types_in types.now) sink.entry.0.now) (map leaf_of_key sources.now)
        else driver_of drivers.old.known.entries leaf)) }
{
    if !names_clock(types, sink.0) {
        return Ok(());
    }
    match reach_of(alloc, types, sink.0)? {
        Some(reach) => drive_reach(alloc, drivers, (&reach, sink.1), sources),
        None => Ok(()),
    }
}

fn drive_reach(
    alloc: Global,
    drivers: &mut Drivers,
    side: (&Reach<'_>, bool),
    sources: &[LeafKey],
) -> Result<(), AllocError>
    ensures { OnOk result ((leaf : Leaf) → driver_of drivers.new.known.entries leaf
        ≡ (if may_name side.entry.1 (Some (region_at side.entry.0.now)) leaf
        then source_for side.entry.1 leaf (Some (region_at side.entry.0.now)) (map leaf_of_key sources.now)
        else driver_of drivers.old.known.entries leaf)) }
{
    let reach = side.0;
    let leaves = list_leaves(alloc, reach.part.typ)?;
    undrive(alloc, drivers, side, leaves.as_slice())?;
    if side.0.dynamic {
        return Ok(());
    }
    link(alloc, drivers, side, leaves.as_slice(), sources)
}

/// None of the parts of this orientation has a driver.
fn undrive(
    alloc: Global,
    drivers: &mut Drivers,
    side: (&Reach<'_>, bool),
    parts: &[TypeLeaf],
) -> Result<(), AllocError>
    ensures { OnOk result ((leaf : Leaf) → driver_of drivers.new.known.entries leaf
        ≡ (if list_any (may_be side.entry.1 (region_at side.entry.0.now) leaf) parts.now then No_driver else driver_of drivers.old.known.entries leaf)) }
{
    for part in parts {
        set_part(alloc, drivers, side, part, None)?;
    }
    Ok(())
}

/// Each part of this orientation has its value from the source beside it, where there is one.
fn link(
    alloc: Global,
    drivers: &mut Drivers,
    side: (&Reach<'_>, bool),
    parts: &[TypeLeaf],
    sources: &[LeafKey],
) -> Result<(), AllocError>
    ensures { OnOk result ((leaf : Leaf) → driver_of drivers.new.known.entries leaf
        ≡ linked side.entry.1 (region_at side.entry.0.now) leaf (driver_of drivers.old.known.entries leaf) (zip parts.now (map leaf_of_key sources.now))) }
{
    let count = parts.len().min(sources.len());
    for at in 0..count {
        set_part(alloc, drivers, side, &parts[at], Some(&sources[at]))?;
    }
    Ok(())
}

/// The leaves that a part may be have their value from this source, or no driver, if the part has this orientation.
fn set_part(
    alloc: Global,
    drivers: &mut Drivers,
    side: (&Reach<'_>, bool),
    part: &TypeLeaf,
    source: Option<&LeafKey>,
) -> Result<(), AllocError>
    ensures { OnOk result ((leaf : Leaf) → driver_of drivers.new.known.entries leaf
        ≡ (if may_be side.entry.1 (region_at side.entry.0.now) leaf part.now then driver_by (option_map (λ key. leaf_of_key key.now) source.entry) else driver_of drivers.old.known.entries leaf)) }
{
    if part.flip != side.1 {
        return Ok(());
    }
    set_all(alloc, drivers, side.0, part, source)
}

fn set_all(
    alloc: Global,
    drivers: &mut Drivers,
    reach: &Reach<'_>,
    part: &TypeLeaf,
    source: Option<&LeafKey>,
) -> Result<(), AllocError>
    ensures { OnOk result ((leaf : Leaf) → driver_of drivers.new.known.entries leaf
        ≡ (if list_any (λ at. same_leaf at leaf) (leaves_at (region_at reach.now) part.now.path) then driver_by (option_map (λ key. leaf_of_key key.now) source.entry) else driver_of drivers.old.known.entries leaf)) }
{
    for way in reach.ways.as_slice() {
        let key = key_of(alloc, reach.component, way.as_slice(), part.path.as_slice())?;
        let from = copied_source(alloc, source)?;
        drivers.set(key, from)?;
    }
    Ok(())
}

fn copied_source(alloc: Global, source: Option<&LeafKey>) -> Result<Option<LeafKey>, AllocError>
    ensures { IfOk result (λ copy. option_map leaf_of_key copy ≡ option_map (λ key. leaf_of_key key.now) source.entry) }
{
    match source {
        Some(key) => Ok(Some(copied(alloc, key)?)),
        None => Ok(None),
    }
}
