//! Sets of leaves of the run.

ghost use Rattle.std.specs.Prelude.{◌≡◌, ◌<◌, ◌^◌, ◌||◌, false, slice_get, option_copied, IsSome, OnOk};
ghost use Rattle.fir_meaning.specs.Components.{FlatLeaf};
ghost use Rattle.clock_check.specs.Flats.{leaf_of_flat, same_flat, is_within};
ghost use Rattle.clock_check.specs.Searched.{Grows};

use drive_check::leaf_set::Step;
use indexmap::IndexSet;
use std::alloc::{AllocError, Global};

/// A leaf of the run: the instances that lead to its module, the outermost first, its component there, and the way to it.
#[derive(PartialEq, Eq, Hash, Drop)]
pub struct FlatKey {
    pub path: Vec<u32>,
    pub component: u32,
    pub way: Vec<Step>,
}

/// Leaves of the run, each once, in the order in which they were added.
#[derive(Drop)]
pub struct FlatSet {
    pub keys: IndexSet<FlatKey>,
}

impl FlatSet {
    /// No leaf.
    pub fn new(alloc: Global) -> FlatSet
        ensures { (x : FlatLeaf) → is_within result.keys.keys x ≡ false }
    {
        FlatSet {
            keys: IndexSet::new(alloc),
        }
    }

    /// Whether the leaf is there.
    pub fn contains(&self, key: &FlatKey) -> bool
        ensures { result ≡ is_within self.now.keys.keys (leaf_of_flat key.now) }
    {
        self.keys.contains(key)
    }

    /// The leaf that was added as the one of this number, from 0 on.
    pub fn get(&self, number: usize) -> Option<&FlatKey>
        ensures key { option_copied result ≡ slice_get self.now.keys.keys number }
        ensures small { IsSome result → number < 2 ^ 63 }
    {
        if number < self.keys.len() {
            self.keys.get_index(number)
        } else {
            None
        }
    }

    /// Adds a leaf.
    pub fn insert(&mut self, key: FlatKey) -> Result<(), AllocError>
        ensures within { OnOk result ((x : FlatLeaf) → is_within self.new.keys.keys x ≡ (is_within self.old.keys.keys x || same_flat (leaf_of_flat key) x)) }
        ensures grows { OnOk result (Grows self.old.keys.keys self.new.keys.keys) }
    {
        self.keys.insert(key)?;
        Ok(())
    }
}
