//! Leaves of the run that the leaves of a module at a path are.

ghost use Rattle.std.specs.Prelude.{◌≡◌, ℕ, Some, ◌++◌, [], ◌∷◌, drop, map, nat_eq, IfOk};
ghost use Rattle.std.specs.Map.{lookup};
ghost use Rattle.fir_meaning.specs.Components.{flat_through};
ghost use Rattle.drive_check.specs.Keys.{step_of, leaf_of_key};
ghost use Rattle.clock_check.specs.Flats.{leaf_of_flat};
ghost use Rattle.clock_check.specs.Enters.{port_into};

use crate::flat_set::FlatKey;
use drive_check::leaf_set::{LeafKey, Step};
use indexmap::IndexMap;
use std::alloc::{AllocError, Global};

/// The leaf of the run that a leaf of the module at a path is, where these are the module's instances, each with its module.
pub fn flat_key(
    alloc: Global,
    targets: &IndexMap<u32, u32>,
    path: &[u32],
    leaf: &LeafKey,
) -> Result<FlatKey, AllocError>
    ensures { IfOk result (λ key. leaf_of_flat key ≡ flat_through path.now leaf.now.component (lookup (nat_eq leaf.now.component) targets.now.entries) (leaf_of_key leaf.now).way) }
{
    match port_of(targets, leaf) {
        Some(port) => enter(alloc, path, leaf, port),
        None => stay(alloc, path, leaf),
    }
}

/// The port of an instance to which the leaf belongs.
fn port_of(targets: &IndexMap<u32, u32>, leaf: &LeafKey) -> Option<u32>
    ensures { result ≡ port_into (lookup (nat_eq leaf.now.component) targets.now.entries) (leaf_of_key leaf.now).way }
{
    match targets.get(&leaf.component) {
        Some(_) => first_field(leaf.way.as_slice()),
        None => None,
    }
}

fn first_field(way: &[Step]) -> Option<u32>
    ensures { (target : ℕ) → result ≡ port_into (Some target) (map step_of way.now) }
{
    match way.first() {
        Some(Step::Field(port)) => Some(*port),
        _ => None,
    }
}

/// The leaf of a port, in the module behind the instance.
fn enter(alloc: Global, path: &[u32], leaf: &LeafKey, port: u32) -> Result<FlatKey, AllocError>
    ensures { IfOk result (λ key. leaf_of_flat key ≡ record { path = path.now ++ leaf.now.component ∷ []; component = port; way = map step_of (drop 1 leaf.now.way.items) }) }
{
    let mut longer = Vec::from_slice(alloc, path)?;
    longer.push(leaf.component)?;
    Ok(FlatKey {
        path: longer,
        component: port,
        way: Vec::from_slice(alloc, behind_first(leaf.way.as_slice()))?,
    })
}

fn behind_first(way: &[Step]) -> &[Step]
    ensures { result.now ≡ drop 1 way.now }
{
    if way.is_empty() { &[] } else { &way[1..] }
}

fn stay(alloc: Global, path: &[u32], leaf: &LeafKey) -> Result<FlatKey, AllocError>
    ensures { IfOk result (λ key. leaf_of_flat key ≡ record { path = path.now; component = leaf.now.component; way = (leaf_of_key leaf.now).way }) }
{
    Ok(FlatKey {
        path: Vec::from_slice(alloc, path)?,
        component: leaf.component,
        way: Vec::from_slice(alloc, leaf.way.as_slice())?,
    })
}
