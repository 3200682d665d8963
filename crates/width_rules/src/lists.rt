//! Several lists of widths, one behind another.

ghost use Rattle.std.specs.Prelude.{◌≡◌, ◌++◌, ◌<◌, ◌≤◌, [], take, drop, length, leb, IfOk, IfSome, IsNone};
ghost use Rattle.width_rules.specs.Lists.{joined, ends_behind, ReachesBeyond};

use crate::slot::Slot;
use bit_words::{List, SharedList};
use std::alloc::{AllocError, Global};
use std::marker::Model;

/// Lists of widths, which may be shared, one behind another, with the numbers of the widths at which they end. Contracts see the
/// lists.
#[derive(Drop)]
pub struct Lists {
    lists: List<SharedList<Slot>>,
    ends: List<usize>,
}

impl Model for Lists {
    ghost use Rattle.std.specs.Prelude.{◌≡◌};
    ghost use Rattle.std.specs.Prelude.{List as Listed};
    ghost use Rattle.std.specs.Coded.{coded_list};
    ghost use Rattle.width_rules.specs.declared.slot.Slot.{Slot as ASlot};
    ghost use Rattle.width_rules.specs.contracts.slot.Slot.{the_row};

    ghost Value = { Listed (Listed ASlot) };

    ghost coded = { coded_list (coded_list the_row.coded) };

    ghost use Rattle.width_rules.specs.Lists.{ends_behind};

    ghost view = { λ l. l.lists };

    ghost invariant = { λ l. l.ends ≡ ends_behind 0 l.lists };
}

impl Lists {
    /// Takes time and memory in proportion to the number of lists. More widths than a `usize` holds are a want of memory.
    pub fn new(alloc: Global, lists: List<SharedList<Slot>>) -> Result<Lists, AllocError>
        ensures { IfOk result (λ made. made ≡ lists) }
    {
        let ends = ends_of(alloc, lists.as_slice())?;
        Ok(Lists { lists, ends })
    }

    /// How many widths there are in all. Takes constant time.
    pub fn count(&self) -> usize
        ensures { result ≡ length (joined self.now) }
    {
        match self.ends.as_slice().last() {
            Some(end) => *end,
            None => 0,
        }
    }

    /// Of the widths from one number on and before another those in the first list that has one, and the number behind them. Takes
    /// time in proportion to the logarithm of the number of lists.
    pub fn piece(&self, start: usize, end: usize) -> Option<(&[Slot], usize)>
        ensures some { IfSome result (λ found. drop start (take end (joined self.now)) ≡ found.0.now ++ drop found.1 (take end (joined self.now))) }
        ensures holds { IfSome result (λ found. 0 < length found.0.now) }
        ensures none { IsNone result → drop start (take end (joined self.now)) ≡ [] }
    {
        if end <= start {
            return None;
        }
        let (own, behind) = self.list_beyond(start)?;
        let before = behind - own.len();
        Some((between(own, start - before, end - before), behind))
    }

    /// The first list that reaches beyond so many widths, and where it ends.
    fn list_beyond(&self, start: usize) -> Option<(&[Slot], usize)>
        ensures some { IfSome result (λ found. ReachesBeyond self.now start found.0.now found.1) }
        ensures none { IsNone result → length (joined self.now) ≤ start }
    {
        let ends = self.ends.as_slice();
        let number = ends.partition_point(
            |end: &usize| -> bool
                ensures { result ≡ leb end.now start }
            { *end <= start },
        );
        let own = self.lists.as_slice().get(number)?;
        Some((own.as_slice(), ends[number]))
    }
}

/// Where each list ends.
fn ends_of(alloc: Global, lists: &[SharedList<Slot>]) -> Result<List<usize>, AllocError>
    ensures { IfOk result (λ ends. ends ≡ ends_behind 0 lists.now) }
{
    let mut ends = Vec::with_capacity(alloc, lists.len())?;
    let mut end: usize = 0;
    for own in lists {
        let Some(behind) = end.checked_add(own.len()) else {
            return Err(AllocError);
        };
        ends.push(behind)?;
        end = behind;
    }
    Ok(List::from_vec(ends))
}

/// Of a list the widths from one number on and before another.
fn between(list: &[Slot], from: usize, to: usize) -> &[Slot]
    ensures { result.now ≡ drop from (take to list.now) }
{
    let (first, _) = list.split_at(to.min(list.len()));
    let (_, own) = first.split_at(from.min(first.len()));
    own
}
