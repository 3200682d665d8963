//! The search for the places that a chain of feeds leads to from an AsyncReset leaf.

ghost use Rattle.std.specs.Prelude.{◌≡◌, ◌↔◌, ◌||◌, ◌<◌, ◌^◌, ℕ, map, nat_eq, true, false, slice_get, option_copied, IsSome, IfOk, OnOk};
ghost use Rattle.reset_search.specs.declared.spot.Spot.{Spot as ASpot};
ghost use Rattle.reset_search.specs.Feeds.{IsReached};
ghost use Rattle.reset_search.specs.Rows.{number, holds, marked, Way, Grows};

use crate::rows::{Rows, number, rows_of};
use crate::spot::{Feeds, Spot};
use indexmap::IndexSet;
use std::alloc::{AllocError, Global};

/// The numbers of places, each once, in the order in which they were added.
#[derive(Drop)]
pub struct Marks {
    pub keys: IndexSet<usize>,
}

impl Marks {
    /// None.
    pub fn new(alloc: Global) -> Marks
        ensures { (k : ℕ) → holds result.keys.keys k ≡ false }
    {
        Marks {
            keys: IndexSet::new(alloc),
        }
    }

    /// Whether a place of the text is among them.
    pub fn has_declared(&self, place: u32) -> bool
        ensures { result ≡ marked self.now.keys.keys place }
    {
        self.keys.contains(&(2 * place as usize + 1))
    }

    /// The one that was added as this one, from 0 on.
    fn get(&self, at: usize) -> Option<usize>
        ensures key { result ≡ slice_get self.now.keys.keys at }
        ensures small { IsSome result → at < 2 ^ 63 }
    {
        if at < self.keys.len() {
            self.keys.get_index(at).copied()
        } else {
            None
        }
    }

    /// Adds one.
    fn insert(&mut self, key: usize) -> Result<(), AllocError>
        ensures within { OnOk result ((k : ℕ) → holds self.new.keys.keys k ≡ (holds self.old.keys.keys k || nat_eq k key)) }
        ensures grows { OnOk result (Grows self.old.keys.keys self.new.keys.keys) }
    {
        self.keys.insert(key)?;
        Ok(())
    }
}

/// The places that a chain of feeds leads to from an AsyncReset leaf. Takes time and memory in proportion to the feeds.
pub fn reached_in(alloc: Global, feeds: &Feeds) -> Result<Marks, AllocError>
    ensures { IfOk result (λ found. (p : ASpot) → (holds found.keys.keys (number p) ≡ true) ↔ IsReached feeds.now p) }
{
    let rows = rows_of(alloc, feeds.feeds.as_slice())?;
    search(alloc, &rows, feeds.asyncs.as_slice())
}

/// All numbers to which a way leads from one of these places.
fn search(alloc: Global, rows: &Rows, starts: &[Spot]) -> Result<Marks, AllocError>
    ensures { IfOk result (λ found. (k : ℕ) → (holds found.keys.keys k ≡ true) ↔ Way rows.now.rows.entries starts.now k) }
{
    let mut found = Marks::new(alloc);
    push_starts(&mut found, starts)?;
    for at in 0..usize::MAX {
        let Some(key) = found.get(at) else {
            return Ok(found);
        };
        push_all(&mut found, rows.of(key))?;
    }
    unreachable!()
}

/// Adds the numbers of places.
fn push_starts(found: &mut Marks, starts: &[Spot]) -> Result<(), AllocError>
    ensures within { OnOk result ((k : ℕ) → holds found.new.keys.keys k ≡ (holds found.old.keys.keys k || holds (map number starts.now) k)) }
    ensures grows { OnOk result (Grows found.old.keys.keys found.new.keys.keys) }
{
    for spot in starts {
        found.insert(number(*spot))?;
    }
    Ok(())
}

/// Adds numbers.
fn push_all(found: &mut Marks, keys: &[usize]) -> Result<(), AllocError>
    ensures within { OnOk result ((k : ℕ) → holds found.new.keys.keys k ≡ (holds found.old.keys.keys k || holds keys.now k)) }
    ensures grows { OnOk result (Grows found.old.keys.keys found.new.keys.keys) }
{
    for key in keys {
        found.insert(*key)?;
    }
    Ok(())
}
