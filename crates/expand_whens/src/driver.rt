//! The drivers of a module's leaves.

ghost use Rattle.std.specs.Prelude.{◌≡◌, ◌≢◌, ◌<◌, ◌^◌, ◌∷◌, [], ◌++◌, ℕ, List, length, reverse, slice_get, Contains, IfOk, OnOk, Option, Some, None};
ghost use Rattle.ground_net.specs.declared.ground.Ground.{Ground as TheGround};
ghost use Rattle.ground_net.specs.declared.ground.Ground.TheVariants.{Mux};
ghost use Rattle.ground_net.specs.declared.circuit.GroundLeaf.{GroundLeaf as TheLeaf};
ghost use Rattle.ground_net.specs.declared.circuit.GroundRole.TheVariants.{Register};
ghost use Rattle.ground_net.specs.Grounds.{Instant, value, mentions};
ghost use Rattle.ground_net.specs.Shapes.{Table, shape as shape_in};
ghost use Rattle.expand_whens.specs.Walking.{ways_at};
ghost use Rattle.expand_whens.specs.Expanding.{HasDrivers, Chooses, IsChoice, IsRest};

use crate::guard::{Way, guard_item, push_pair};
use crate::walk::walk_block;
use bit_words::{List, Value};
use ground_net::{Ground, GroundLeaf, GroundRole, GroundStmt};
use std::alloc::{AllocError, Global};
use std::mem;

/// A driver for each leaf of a module, where statements drive it.
pub fn drivers(
    alloc: Global,
    leaves: &[GroundLeaf],
    body: &[GroundStmt],
) -> Result<List<Option<Ground>>, AllocError>
    requires { length leaves.now < 2 ^ 32 }
    ensures { IfOk result (λ drivers. HasDrivers leaves.now body.now drivers) }
{
    let mut ways = Vec::new(alloc);
    let mut covered = Vec::new(alloc);
    for _ in leaves {
        ways.push(Vec::new(alloc))?;
        covered.push(false)?;
    }
    let mut asked = Vec::new(alloc);
    walk_block(alloc, body, &mut asked, &mut ways, &mut covered)?;
    let drivers = drivers_of(alloc, leaves, ways)?;
    Ok(drivers)
}

/// The drivers by the ways of each leaf.
fn drivers_of(
    alloc: Global,
    leaves: &[GroundLeaf],
    mut ways: Vec<Vec<Way>>,
) -> Result<List<Option<Ground>>, AllocError>
    requires counted { length ways.items ≡ length leaves.now }
    requires few { length leaves.now < 2 ^ 32 }
    ensures counted { IfOk result (λ drivers. length drivers ≡ length leaves.now) }
    ensures each { IfOk result (λ drivers. (x : ℕ) (leaf : TheLeaf) (driver : Option TheGround) → slice_get leaves.now x ≡ Some leaf → slice_get drivers x ≡ Some driver → Chooses leaf x (ways_at ways.items x) driver) }
{
    let mut drivers = List::new(alloc);
    for number in 0..leaves.len() {
        let mine = take_ways(alloc, &mut ways, number);
        let driver = driver_of(alloc, number as u32, &leaves[number], mine)?;
        drivers.push(driver)?;
    }
    Ok(drivers)
}

/// Takes the ways of a leaf out.
fn take_ways(alloc: Global, ways: &mut Vec<Vec<Way>>, number: usize) -> Vec<Way>
    requires { number < length ways.old.items }
    ensures counted { length ways.new.items ≡ length ways.old.items }
    ensures taken { result.items ≡ ways_at ways.old.items number }
    ensures others { (x : ℕ) → x ≢ number → ways_at ways.new.items x ≡ ways_at ways.old.items x }
{
    mem::replace(&mut ways[number], Vec::new(alloc))
}

/// The driver of a leaf by its ways: the source of the first one whose guard holds.
fn driver_of(
    alloc: Global,
    number: u32,
    leaf: &GroundLeaf,
    mut ways: Vec<Way>,
) -> Result<Option<Ground>, AllocError>
    ensures { IfOk result (λ driver. Chooses leaf.now number ways.items driver) }
{
    let Some(first) = ways.pop() else {
        return Ok(None);
    };
    let mut items = first_items(alloc, number, leaf, first)?;
    while let Some(way) = ways.pop() {
        let Way { guard, source } = way;
        push_pair(&mut items, guard_item(guard), source)?;
    }
    Ok(Some(chosen_of(items)))
}

/// The items of the way that is asked last, from the last one: its source alone, or what the leaf has otherwise, the source
/// and the guard.
fn first_items(
    alloc: Global,
    number: u32,
    leaf: &GroundLeaf,
    way: Way,
) -> Result<Vec<Ground>, AllocError>
    ensures { IfOk result (λ items. IsChoice leaf.now number (way ∷ []) (Mux (reverse items.items))) }
{
    let Way { guard, source } = way;
    match guard {
        None => {
            let items = vec![in alloc; source]?;
            Ok(items)
        }
        Some(guard) => {
            let mut items = vec![in alloc; otherwise(number, leaf)]?;
            push_pair(&mut items, guard, source)?;
            Ok(items)
        }
    }
}

/// The choice of items that are listed from the last one. One item alone is itself.
fn chosen_of(mut items: Vec<Ground>) -> Ground
    ensures value { (instant : Instant) → value result instant ≡ value (Mux (reverse items.items)) instant }
    ensures mentions { mentions result ≡ mentions (Mux (reverse items.items)) }
    ensures shape { (table : Table) → shape_in result table ≡ shape_in (Mux (reverse items.items)) table }
{
    if items.len() == 1 {
        if let Some(only) = items.pop() {
            return only;
        }
    }
    items.reverse();
    Ground::Mux(List::from_vec(items))
}

/// What a leaf has where nothing is driven.
fn otherwise(number: u32, leaf: &GroundLeaf) -> Ground
    ensures { IsRest leaf.now number result }
{
    match leaf.role {
        GroundRole::Register => Ground::Leaf(number),
        _ => Ground::Const(Value {
            kind: leaf.kind,
            width: leaf.width,
            bits: 0,
        }),
    }
}
