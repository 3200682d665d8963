//! The search for all leaves of the run that lead to one of them.

ghost use Rattle.std.specs.Prelude.{◌≡◌, ◌||◌, ◌↔◌, [], ◌∷◌, ◌++◌, true, if◌then◌else◌, IfOk, OnOk};
ghost use Rattle.fir_meaning.specs.Components.{FlatLeaf};
ghost use Rattle.clock_check.specs.Flats.{leaf_of_flat, same_flat, is_within};
ghost use Rattle.clock_check.specs.Searched.{sinks_at, listed_in, LeadsTo, Grows};

use crate::flat_set::{FlatKey, FlatSet};
use indexmap::IndexMap;
use std::alloc::{AllocError, Global};

/// For leaves of the run those that have their value from them.
#[derive(Drop)]
pub struct FlatSinks {
    pub sinks: IndexMap<FlatKey, Vec<FlatKey>>,
}

impl FlatSinks {
    /// None.
    pub fn new(alloc: Global) -> FlatSinks
        ensures { (y : FlatLeaf) → sinks_at result.sinks.entries y ≡ [] }
    {
        FlatSinks {
            sinks: IndexMap::new(alloc),
        }
    }

    /// Notes that a leaf has its value from this one.
    pub fn add(&mut self, alloc: Global, source: FlatKey, sink: FlatKey) -> Result<(), AllocError>
        ensures { OnOk result ((y : FlatLeaf) → sinks_at self.new.sinks.entries y ≡ sinks_at self.old.sinks.entries y ++ (if same_flat (leaf_of_flat source) y then sink ∷ [] else [])) }
    {
        let copy = copied_flat(alloc, &source)?;
        let held = self.sinks.insert(copy, Vec::new(alloc))?;
        let mut all = or_none(alloc, held);
        all.push(sink)?;
        self.sinks.insert(source, all)?;
        Ok(())
    }

    /// The leaves that have their value from this one.
    pub fn of(&self, key: &FlatKey) -> &[FlatKey]
        ensures { result.now ≡ sinks_at self.now.sinks.entries (leaf_of_flat key.now) }
    {
        match self.sinks.get(key) {
            Some(found) => found.as_slice(),
            None => &[],
        }
    }
}

fn or_none(alloc: Global, held: Option<Vec<FlatKey>>) -> Vec<FlatKey>
    ensures { result.items ≡ listed_in held }
{
    match held {
        Some(keys) => keys,
        None => Vec::new(alloc),
    }
}

/// The same key once more.
pub fn copied_flat(alloc: Global, key: &FlatKey) -> Result<FlatKey, AllocError>
    ensures { IfOk result (λ copy. leaf_of_flat copy ≡ leaf_of_flat key.now) }
{
    Ok(FlatKey {
        path: Vec::from_slice(alloc, key.path.as_slice())?,
        component: key.component,
        way: Vec::from_slice(alloc, key.way.as_slice())?,
    })
}

/// All leaves that lead to this one. Takes time and memory in proportion to their number and to that of the leaves that have their
/// values from them.
pub fn search(alloc: Global, sinks: &FlatSinks, root: FlatKey) -> Result<FlatSet, AllocError>
    ensures { IfOk result (λ found. (x : FlatLeaf) → (is_within found.keys.keys x ≡ true) ↔ LeadsTo sinks.now.sinks.entries (leaf_of_flat root) x) }
{
    let mut found = FlatSet::new(alloc);
    found.insert(root)?;
    for at in 0..usize::MAX {
        let Some(key) = found.get(at) else {
            return Ok(found);
        };
        let next = sinks.of(key);
        push_all(alloc, &mut found, next)?;
    }
    unreachable!()
}

/// Adds leaves to a set.
fn push_all(alloc: Global, found: &mut FlatSet, leaves: &[FlatKey]) -> Result<(), AllocError>
    ensures within { OnOk result ((x : FlatLeaf) → is_within found.new.keys.keys x ≡ (is_within found.old.keys.keys x || is_within leaves.now x)) }
    ensures grows { OnOk result (Grows found.old.keys.keys found.new.keys.keys) }
{
    for key in leaves {
        let copy = copied_flat(alloc, key)?;
        found.insert(copy)?;
    }
    Ok(())
}
