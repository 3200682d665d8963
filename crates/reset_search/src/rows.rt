//! The feeds of a circuit as rows: for each place those that it feeds, by their numbers in the search.

ghost use Rattle.std.specs.Prelude.{◌≡◌, ◌++◌, ◌∷◌, [], ℕ, nat_eq, if◌then◌else◌, OnOk, IfOk};
ghost use Rattle.reset_search.specs.Rows.{number, targets, listed_in, AreRows};

use crate::spot::{Feed, Spot};
use bit_words::List;
use indexmap::IndexMap;
use std::alloc::{AllocError, Global};

/// For the numbers of places those of the places that they feed.
#[derive(Drop)]
pub struct Rows {
    pub rows: IndexMap<usize, List<usize>>,
}

/// The number of a place in the search: 0 for a cast, the odd ones for places of the text, and the other even ones for places of nodes.
pub fn number(spot: Spot) -> usize
    ensures { result ≡ number spot }
{
    match spot {
        Spot::Cast => 0,
        Spot::Declared(place) => 2 * place as usize + 1,
        Spot::OfNode(place) => 2 * place as usize + 2,
    }
}

/// The rows of these feeds. Takes time and memory in proportion to their number.
pub fn rows_of(alloc: Global, feeds: &[Feed]) -> Result<Rows, AllocError>
    ensures { IfOk result (λ made. AreRows feeds.now made.rows.entries) }
{
    let mut made = Rows {
        rows: IndexMap::new(alloc),
    };
    for feed in feeds {
        made.add(alloc, number(feed.from), number(feed.to))?;
    }
    Ok(made)
}

impl Rows {
    /// Notes that one place feeds another.
    fn add(&mut self, alloc: Global, from: usize, to: usize) -> Result<(), AllocError>
        ensures { OnOk result ((k : ℕ) → targets self.new.rows.entries k ≡ targets self.old.rows.entries k ++ (if nat_eq from k then to ∷ [] else [])) }
    {
        let held = self.rows.insert(from, List::new(alloc))?;
        let mut all = or_none(alloc, held);
        all.push(to)?;
        self.rows.insert(from, all)?;
        Ok(())
    }

    /// The places that one feeds.
    pub fn of(&self, from: usize) -> &[usize]
        ensures { result.now ≡ targets self.now.rows.entries from }
    {
        match self.rows.get(&from) {
            Some(found) => found.as_slice(),
            None => &[],
        }
    }
}

fn or_none(alloc: Global, held: Option<List<usize>>) -> List<usize>
    ensures { result ≡ listed_in held }
{
    match held {
        Some(all) => all,
        None => List::new(alloc),
    }
}
