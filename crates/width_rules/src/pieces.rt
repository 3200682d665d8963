//! Widths in several lists, one behind another.

ghost use Rattle.std.specs.Prelude.{◌≡◌, ◌++◌, ◌^◌, ◌-◌, ◌<◌, ◌≤◌, [], take, drop, length, IfOk, OnOk, IfSome, IsNone};
ghost use Rattle.width_rules.specs.Pieces.{slots_in};

use crate::lists::Lists;
use crate::slot::Slot;
use bit_words::List;
use std::alloc::{AllocError, Global};

/// Widths in order: a list, or of several lists, one behind another, those from one number on and before another.
#[derive(Clone, Copy)]
pub enum Slots<'a> {
    Listed(&'a [Slot]),
    Between(&'a Lists, usize, usize),
}

/// So many widths behind so many others. Takes constant time.
pub fn slots_behind(slots: Slots<'_>, before: usize, count: usize) -> Slots<'_>
    ensures own { slots_in result ≡ take count (drop before (slots_in slots.entry)) }
    ensures short { length (slots_in slots.entry) ≤ 2 ^ 64 - 1 }
{
    first_slots(without_first(slots, before), count)
}

/// The first widths.
pub fn first_slots(slots: Slots<'_>, count: usize) -> Slots<'_>
    ensures own { slots_in result ≡ take count (slots_in slots.entry) }
    ensures short { length (slots_in slots.entry) ≤ 2 ^ 64 - 1 }
{
    match slots {
        Slots::Listed(list) => {
            let (own, _) = list.split_at(count.min(list.len()));
            Slots::Listed(own)
        }
        Slots::Between(lists, start, end) => {
            let own = count.min(end.saturating_sub(start));
            Slots::Between(lists, start, start + own)
        }
    }
}

/// The widths behind the first.
pub fn without_first(slots: Slots<'_>, count: usize) -> Slots<'_>
    ensures rest { slots_in result ≡ drop count (slots_in slots.entry) }
    ensures short { length (slots_in slots.entry) ≤ 2 ^ 64 - 1 }
{
    match slots {
        Slots::Listed(list) => {
            let (_, behind) = list.split_at(count.min(list.len()));
            Slots::Listed(behind)
        }
        Slots::Between(lists, start, end) => {
            let passed = count.min(end.saturating_sub(start));
            Slots::Between(lists, start + passed, end)
        }
    }
}

/// The widths in a list of their own.
pub fn listed(alloc: Global, slots: Slots<'_>) -> Result<List<Slot>, AllocError>
    ensures { IfOk result (λ list. list ≡ slots_in slots.entry) }
{
    let mut found = List::new(alloc);
    let mut rest = slots;
    while let Some((piece, behind)) = first_piece(rest) {
        push_all(&mut found, piece)?;
        rest = behind;
    }
    Ok(found)
}

/// Of widths some first ones that stand in one list, and the widths behind them. Takes time in proportion to the logarithm of the
/// number of lists.
pub fn first_piece(slots: Slots<'_>) -> Option<(&[Slot], Slots<'_>)>
    ensures some { IfSome result (λ found. slots_in slots.entry ≡ found.0.now ++ slots_in found.1) }
    ensures holds { IfSome result (λ found. 0 < length found.0.now) }
    ensures none { IsNone result → slots_in slots.entry ≡ [] }
{
    match slots {
        Slots::Listed(list) => {
            if list.is_empty() {
                return None;
            }
            let (whole, behind) = list.split_at(list.len());
            Some((whole, Slots::Listed(behind)))
        }
        Slots::Between(lists, start, end) => {
            let (piece, behind) = lists.piece(start, end)?;
            Some((piece, Slots::Between(lists, behind, end)))
        }
    }
}

/// Adds widths.
pub fn push_all(slots: &mut List<Slot>, more: &[Slot]) -> Result<(), AllocError>
    ensures { OnOk result (slots.new ≡ slots.old ++ more.now) }
{
    for slot in more {
        slots.push(*slot)?;
    }
    Ok(())
}
