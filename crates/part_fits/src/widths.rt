//! The widths of places.

ghost use Rattle.std.specs.Prelude.{◌≡◌, ◌↔◌, ◌++◌, map, zip, IsTrue, IfOk, OnOk};
ghost use Rattle.std.specs.List.{list_any};
ghost use Rattle.width_rules.specs.Pieces.{slots_in};
ghost use Rattle.part_fits.specs.Widths.{slot_width, is_over, wider_of};

use bit_words::List;
use prim_ops::Width;
use std::alloc::{AllocError, Global};
use width_rules::pieces::{Slots, first_piece};
use width_rules::slot::Slot;
use width_rules::widths::{bounded, wider};

/// The widths of a component's places.
pub fn slot_widths(
    alloc: Global,
    widths: &[Width],
    slots: &[Slot],
) -> Result<List<Width>, AllocError>
    ensures { IfOk result (λ found. found ≡ map (slot_width widths.now) slots.now) }
{
    let mut found = List::new(alloc);
    push_widths(&mut found, widths, slots)?;
    Ok(found)
}

/// The same of widths that may stand in several lists.
pub fn widths_in(
    alloc: Global,
    widths: &[Width],
    slots: Slots<'_>,
) -> Result<List<Width>, AllocError>
    ensures { IfOk result (λ found. found ≡ map (slot_width widths.now) (slots_in slots.entry)) }
{
    let mut found = List::new(alloc);
    let mut rest = slots;
    while let Some((piece, behind)) = first_piece(rest) {
        push_widths(&mut found, widths, piece)?;
        rest = behind;
    }
    Ok(found)
}

fn push_widths(found: &mut List<Width>, widths: &[Width], slots: &[Slot]) -> Result<(), AllocError>
    ensures { OnOk result (found.new ≡ found.old ++ map (slot_width widths.now) slots.now) }
{
    for slot in slots {
        found.push(slot_width(widths, *slot))?;
    }
    Ok(())
}

/// The width of a place. A variable that has no width counts as 0 bits.
fn slot_width(widths: &[Width], slot: Slot) -> Width
    ensures { result ≡ slot_width widths.now slot }
{
    match slot {
        Slot::Fixed(bits) => bounded(u128::from(bits)),
        Slot::Var(variable) => match widths.get(variable as usize) {
            Some(width) => *width,
            None => Width::Bits(0),
        },
    }
}

/// Place by place the greater of two widths.
pub fn wider_each(
    alloc: Global,
    first: &[Width],
    second: &[Width],
) -> Result<List<Width>, AllocError>
    ensures { IfOk result (λ greater. greater ≡ map wider_of (zip first.now second.now)) }
{
    let mut greater = List::new(alloc);
    for at in 0..first.len().min(second.len()) {
        greater.push(wider(first[at], second[at]))?;
    }
    Ok(greater)
}

/// Whether the greater of two widths is, place by place, the first, of which there are no more than of the second. Stops at the
/// first place where it isn't, and takes no memory.
pub fn is_as_wide(first: &[Width], second: &[Width]) -> bool
    ensures { IsTrue result ↔ (map wider_of (zip first.now second.now) ≡ first.now) }
{
    if first.len() > second.len() {
        return false;
    }
    for at in 0..first.len() {
        if !is_wider(first[at], second[at]) {
            return false;
        }
    }
    true
}

/// Whether the wider of two widths is the first.
fn is_wider(first: Width, second: Width) -> bool
    ensures { IsTrue result ↔ (wider_of (first, second) ≡ first) }
{
    wider(first, second) == first
}

/// Whether one of the widths is over the limit.
pub fn any_over(widths: &[Width]) -> bool
    ensures { result ≡ list_any is_over widths.now }
{
    for width in widths {
        if is_over(*width) {
            return true;
        }
    }
    false
}

fn is_over(width: Width) -> bool
    ensures { result ≡ is_over width }
{
    match width {
        Width::Bits(_) => false,
        Width::Over => true,
    }
}
