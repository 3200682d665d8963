//! The leaves of a component that must be driven and aren't.

ghost use Rattle.std.specs.Prelude.{◌≡◌, ◌||◌, ◌++◌, ◌==◌, true, false, find, filter_map, Some, OnOk};
ghost use Rattle.fir_meaning.specs.Components.{Leaf, flow_of};
ghost use Rattle.fir_meaning.specs.Certain.{may_be, may_name, surely_names, must_be_driven};
ghost use Rattle.fir_meaning.specs.Drives.{is_turned};
ghost use Rattle.fir_meaning.specs.Mentions.{region_of};
ghost use Rattle.drive_check.specs.HeldTypes.{types_in};
ghost use Rattle.drive_check.specs.Keys.{is_among};
ghost use Rattle.drive_check.specs.Spots.{region_at};
ghost use Rattle.drive_check.specs.Sites.{port_name_in, place_or, place_in_memory, place_of_leaf};
ghost use Rattle.drive_check.specs.Walks.{sort_of, leaf_faults, undriven};

use crate::fault::DriveFault;
use crate::leaf_set::{LeafSet, key_of};
use crate::listing::{list_leaves, list_part};
use crate::module_types::ModuleTypes;
use crate::spot::{Spot, spot_of};
use fir_tree::Expr;
use fir_types::{MemLine, Memory, Name, PathStep, TypeLeaf};
use place_text::Place;
use std::alloc::{AllocError, Global};

/// What a component is, as far as it tells which of its leaves must be driven, and where a fault of them stands.
#[derive(Clone, Copy)]
pub enum Owner<'a> {
    Input,
    Output,
    Wire,
    Instance,
    Memory(&'a Memory),
}

/// Whether a leaf must be driven, flipped or not.
fn must_drive(owner: Owner, flip: bool) -> bool
    ensures { result ≡ must_be_driven (sort_of owner.entry) (flow_of (sort_of owner.entry) flip) }
{
    match owner {
        Owner::Wire => true,
        Owner::Output => !flip,
        Owner::Input | Owner::Instance | Owner::Memory(_) => flip,
    }
}

/// Where a fault of the leaf at this way stands.
fn place_of(owner: Owner, name: Name, path: &[PathStep]) -> Place
    ensures { result ≡ place_of_leaf name (sort_of owner.entry) path.now }
{
    match owner {
        Owner::Memory(memory) => place_in_memory(name.place, memory, path),
        Owner::Input | Owner::Output | Owner::Wire | Owner::Instance => name.place,
    }
}

fn place_in_memory(other: Place, memory: &Memory, path: &[PathStep]) -> Place
    ensures { result ≡ place_in_memory other memory.now path.now }
{
    let Some(first) = path.first() else {
        return other;
    };
    match *first {
        PathStep::Field(port) => place_of_port(other, memory.lines.as_slice(), port),
        PathStep::Element(_) => other,
    }
}

/// The place of the first port of this name, and the other one where there is none.
fn place_of_port(other: Place, lines: &[MemLine], port: u32) -> Place
    ensures { result ≡ place_or other (find (λ name. name.id == port) (filter_map port_name_in lines.now)) }
{
    for line in lines {
        if let MemLine::MemPort(_, _, name) = line {
            if name.id == port {
                return name.place;
            }
        }
    }
    other
}

/// Adds a fault for each leaf of a component that must be driven and is none of these.
pub fn push_undriven(
    alloc: Global,
    types: &ModuleTypes<'_>,
    certain: &LeafSet,
    faults: &mut Vec<DriveFault>,
    component: (Name, Owner),
) -> Result<(), AllocError>
    ensures { OnOk result (faults.new.items ≡ faults.old.items ++ undriven (types_in types.now) (is_among certain.now.keys.keys) component.entry.0 (sort_of component.entry.1)) }
{
    let leaves = list_leaves(alloc, types.of(component.0.id))?;
    for leaf in &leaves {
        push_leaf(alloc, certain, faults, component, leaf)?;
    }
    Ok(())
}

/// Adds a fault where the leaf of this component must be driven and is none of these.
fn push_leaf(
    alloc: Global,
    certain: &LeafSet,
    faults: &mut Vec<DriveFault>,
    component: (Name, Owner),
    leaf: &TypeLeaf,
) -> Result<(), AllocError>
    ensures { OnOk result (faults.new.items ≡ faults.old.items ++ leaf_faults (is_among certain.now.keys.keys) component.entry.0 (sort_of component.entry.1) leaf.now) }
{
    let (name, owner) = component;
    if !must_drive(owner, leaf.flip) {
        return Ok(());
    }
    let path = leaf.path.as_slice();
    let key = key_of(alloc, name.id, &[], path)?;
    if !certain.contains(&key) {
        faults.push(DriveFault::NotInitialized(place_of(owner, name, path)))?;
    }
    Ok(())
}

/// Adds the leaves that a statement drives whatever the values are, where it drives the leaves of one expression that aren't
/// flipped, and those of another one that are.
pub fn drive(
    alloc: Global,
    types: &ModuleTypes<'_>,
    certain: &mut LeafSet,
    plain: &Expr,
    turned: &Expr,
) -> Result<(), AllocError>
    ensures { OnOk result ((leaf : Leaf) → is_among certain.new.keys.keys leaf ≡ ((surely_names false (region_of (types_in types.now) plain.now) leaf || surely_names true (region_of (types_in types.now) turned.now) leaf) || is_among certain.old.keys.keys leaf)) }
{
    drive_side(alloc, types, certain, plain, false)?;
    drive_side(alloc, types, certain, turned, true)
}

fn drive_side(
    alloc: Global,
    types: &ModuleTypes<'_>,
    certain: &mut LeafSet,
    expr: &Expr,
    flip: bool,
) -> Result<(), AllocError>
    ensures { OnOk result ((leaf : Leaf) → is_among certain.new.keys.keys leaf ≡ (surely_names flip (region_of (types_in types.now) expr.now) leaf || is_among certain.old.keys.keys leaf)) }
{
    match spot_of(alloc, types, expr)? {
        Some(spot) => drive_spot(alloc, certain, &spot, flip),
        None => Ok(()),
    }
}

fn drive_spot(
    alloc: Global,
    certain: &mut LeafSet,
    spot: &Spot<'_>,
    flip: bool,
) -> Result<(), AllocError>
    ensures { OnOk result ((leaf : Leaf) → is_among certain.new.keys.keys leaf ≡ (may_name flip (Some (region_at spot.now)) leaf || is_among certain.old.keys.keys leaf)) }
{
    let part = spot.part;
    let leaves = list_part(alloc, part)?;
    for leaf in &leaves {
        drive_leaf(alloc, certain, spot, flip, leaf)?;
    }
    Ok(())
}

/// Adds the leaf of a part, where it is flipped or not as is asked.
fn drive_leaf(
    alloc: Global,
    certain: &mut LeafSet,
    spot: &Spot<'_>,
    flip: bool,
    part: &TypeLeaf,
) -> Result<(), AllocError>
    ensures { OnOk result ((leaf : Leaf) → is_among certain.new.keys.keys leaf ≡ (may_be flip (region_at spot.now) leaf part.now || is_among certain.old.keys.keys leaf)) }
{
    if !is_turned(flip, part) {
        return Ok(());
    }
    let key = key_of(
        alloc,
        spot.component,
        spot.way.as_slice(),
        part.path.as_slice(),
    )?;
    certain.insert(key)
}

/// Whether the leaf is flipped, or isn't, as is asked.
fn is_turned(flip: bool, leaf: &TypeLeaf) -> bool
    ensures { result ≡ is_turned flip leaf.now }
{
    if flip { leaf.flip } else { !leaf.flip }
}
