//! Sets of leaves of a module.

ghost use Rattle.std.specs.Prelude.{◌≡◌, ◌||◌, ◌&&◌, ◌++◌, map, false, OnOk, IfOk};
ghost use Rattle.fir_types.specs.declared.leaf.PathStep.{PathStep as APathStep};
ghost use Rattle.fir_meaning.specs.Components.{Leaf};
ghost use Rattle.fir_meaning.specs.Drives.{same_leaf};
ghost use Rattle.drive_check.specs.Keys.{step_of, leaf_of_key, is_among};

use fir_types::PathStep;
use indexmap::IndexSet;
use std::alloc::{AllocError, Global};

/// A step from a component to a part of it: to the field of this name, or to the element of this number.
#[derive(Clone, Copy, PartialEq, Eq, Hash)]
pub enum Step {
    Field(u32),
    Element(u128),
}

/// A leaf of a module: the number of its component's name, and the way to it.
#[derive(PartialEq, Eq, Hash, Drop)]
pub struct LeafKey {
    pub component: u32,
    pub way: Vec<Step>,
}

/// The leaf of a component behind a way and the path from there.
pub fn key_of(
    alloc: Global,
    component: u32,
    way: &[Step],
    path: &[PathStep],
) -> Result<LeafKey, AllocError>
    ensures component { IfOk result (λ key. key.component ≡ component) }
    ensures way { IfOk result (λ key. map step_of key.way.items ≡ map step_of way.now ++ path.now) }
{
    let mut whole = Vec::from_slice(alloc, way)?;
    for step in path {
        whole.push(step_from(*step))?;
    }
    Ok(LeafKey {
        component,
        way: whole,
    })
}

fn step_from(step: PathStep) -> Step
    ensures { step_of result ≡ step }
{
    match step {
        PathStep::Field(name) => Step::Field(name),
        PathStep::Element(number) => Step::Element(u128::from(number)),
    }
}

/// Leaves, each once.
#[derive(Drop)]
pub struct LeafSet {
    pub keys: IndexSet<LeafKey>,
}

impl LeafSet {
    /// No leaf.
    pub fn new(alloc: Global) -> LeafSet
        ensures { (leaf : Leaf) → is_among result.keys.keys leaf ≡ false }
    {
        LeafSet {
            keys: IndexSet::new(alloc),
        }
    }

    /// Whether the leaf is there.
    pub fn contains(&self, key: &LeafKey) -> bool
        ensures { result ≡ is_among self.now.keys.keys (leaf_of_key key.now) }
    {
        self.keys.contains(key)
    }

    /// Adds a leaf.
    pub fn insert(&mut self, key: LeafKey) -> Result<(), AllocError>
        ensures { OnOk result ((leaf : Leaf) → is_among self.new.keys.keys leaf ≡ (is_among self.old.keys.keys leaf || same_leaf (leaf_of_key key) leaf)) }
    {
        self.keys.insert(key)?;
        Ok(())
    }

    /// Adds the leaves of another set.
    pub fn add(&mut self, other: LeafSet) -> Result<(), AllocError>
        ensures { OnOk result ((leaf : Leaf) → is_among self.new.keys.keys leaf ≡ (is_among self.old.keys.keys leaf || is_among other.keys.keys leaf)) }
    {
        let LeafSet { mut keys } = other;
        self.keys.append(&mut keys)?;
        Ok(())
    }

    /// Keeps the leaves that another set has as well.
    pub fn keep(&mut self, other: &LeafSet)
        ensures { (leaf : Leaf) → is_among self.new.keys.keys leaf ≡ (is_among self.old.keys.keys leaf && is_among other.now.keys.keys leaf) }
    {
        self.keys.retain(|key| other.keys.contains(key));
    }
}
