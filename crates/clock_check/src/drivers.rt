//! What is known of the drivers of leaves.

ghost use Rattle.std.specs.Prelude.{◌≡◌, if◌then◌else◌, OnOk, IfOk, option_map};
ghost use Rattle.fir_meaning.specs.ClockRoot.{Driver, Undriven, in_branch};
ghost use Rattle.fir_meaning.specs.Components.{Leaf};
ghost use Rattle.fir_meaning.specs.Drives.{same_leaf};
ghost use Rattle.drive_check.specs.Keys.{leaf_of_key};
ghost use Rattle.clock_check.specs.Driving.{driver_by, driver_of, source_in};

use drive_check::leaf_set::{LeafKey, key_of};
use indexmap::IndexMap;
use std::alloc::{AllocError, Global};

/// The leaves that some statements drive, each with the leaf that it has its value from, where it has a driver.
#[derive(Drop)]
pub struct Drivers {
    pub known: IndexMap<LeafKey, Option<LeafKey>>,
}

/// The same key once more.
pub fn copied(alloc: Global, key: &LeafKey) -> Result<LeafKey, AllocError>
    ensures { IfOk result (λ copy. leaf_of_key copy ≡ leaf_of_key key.now) }
{
    key_of(alloc, key.component, key.way.as_slice(), &[])
}

impl Drivers {
    /// Nothing is driven.
    pub fn new(alloc: Global) -> Drivers
        ensures { (leaf : Leaf) → driver_of result.known.entries leaf ≡ Undriven }
    {
        Drivers {
            known: IndexMap::new(alloc),
        }
    }

    /// Notes that a leaf has its value from this one, or that it has no driver.
    pub fn set(&mut self, key: LeafKey, source: Option<LeafKey>) -> Result<(), AllocError>
        ensures { OnOk result ((leaf : Leaf) → driver_of self.new.known.entries leaf ≡ (if same_leaf (leaf_of_key key) leaf then driver_by (option_map leaf_of_key source) else driver_of self.old.known.entries leaf)) }
    {
        self.known.insert(key, source)?;
        Ok(())
    }

    /// The leaves that a branch drives have no driver.
    pub fn cross(&mut self, alloc: Global, branch: &Drivers) -> Result<(), AllocError>
        ensures { OnOk result ((leaf : Leaf) → driver_of self.new.known.entries leaf ≡ in_branch (driver_of self.old.known.entries leaf) (driver_of branch.now.known.entries leaf)) }
    {
        for key in branch.known.keys().as_slice() {
            let copy = copied(alloc, key)?;
            self.set(copy, None)?;
        }
        Ok(())
    }

    /// The leaf that this one has its value from, where it has a driver.
    pub fn source(&self, key: &LeafKey) -> Option<&LeafKey>
        ensures { option_map (λ source. leaf_of_key source.now) result ≡ source_in (driver_of self.now.known.entries (leaf_of_key key.now)) }
    {
        match self.known.get(key) {
            Some(source) => source.as_ref(),
            None => None,
        }
    }
}
