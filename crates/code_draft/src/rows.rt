//! Leaves whose words stand in a row, as those of the registers of a vector.

ghost use Rattle.std.specs.Prelude.{◌≡◌, ◌≤◌, ◌+◌, ◌*◌, true, All, IfOk, IfSome};
ghost use Rattle.code_draft.specs.Rows.{IsWordAt, StandInRow, IsRow, slots_of_load};

use crate::sources::{Elements, Kept, Source, Sources};
use flat_code::{Location, Region};
use ground_net::Numbers;
use std::alloc::{AllocError, Global};

/// The row in which these leaves stand, where there are several and words suffice for the indices that pick one and for its place: the
/// code of that takes no more slots than two for each leaf. Takes time in proportion to the leaves where they are words of
/// one kind and width.
pub fn row_of(
    alloc: Global,
    sources: &Sources,
    numbers: &Numbers,
    indices: &[Location],
) -> Result<Option<Elements>, AllocError>
    ensures { IfOk result (λ o. IfSome o (IsRow sources.now numbers.now indices.now)) }
{
    let Some(row) = guess(sources, numbers) else {
        return Ok(None);
    };
    if !are_words(indices) {
        return Ok(None);
    }
    let mut leaves = Vec::new(alloc);
    numbers.push_to(&mut leaves)?;
    let room = 2 * leaves.len() as u128;
    if slots_for(indices.len()) > room || !stand_in_row(sources, leaves.as_slice(), row) {
        return Ok(None);
    }
    Ok(Some(row))
}

/// Whether each of these has at most 64 bits.
fn are_words(indices: &[Location]) -> bool
    ensures { result ≡ true → All (λ s. s.width ≤ 64) indices.now }
{
    for index in indices {
        if index.width > 64 {
            return false;
        }
    }
    true
}

/// How many slots the code of a load takes that has so many indices.
fn slots_for(indices: usize) -> u128
    ensures { result ≡ slots_of_load indices }
{
    if indices == 1 {
        4
    } else {
        7 * indices as u128 + 5
    }
}

/// The row in which the first two of these leaves stand, where there are two.
fn guess(sources: &Sources, numbers: &Numbers) -> Option<Elements> {
    let first = word_of(sources, numbers.get(0)?)?;
    let second = word_of(sources, numbers.get(1)?)?;
    let stride = second.number.checked_sub(first.number)?;
    let depth = u32::try_from(numbers.count()).ok()?;
    Some(Elements {
        kind: first.kind,
        width: first.width,
        region: Region {
            base: first.number,
            stride,
            depth,
        },
    })
}

/// The word in which a leaf stands, where it does in one.
fn word_of(sources: &Sources, leaf: u128) -> Option<Kept> {
    let leaf = usize::try_from(leaf).ok()?;
    match *sources.leaves.get(leaf)? {
        Some(Source::Word(kept)) => Some(kept),
        _ => None,
    }
}

/// Whether these leaves, of which there are several, are the elements of a region in order.
fn stand_in_row(sources: &Sources, leaves: &[u32], row: Elements) -> bool
    ensures { result ≡ true → StandInRow sources.now leaves.now row }
{
    if leaves.len() < 2 || leaves.len() != row.region.depth as usize {
        return false;
    }
    for place in 0..leaves.len() {
        let number = u128::from(row.region.base) + place as u128 * u128::from(row.region.stride);
        if !is_word_at(sources, leaves[place], row, number) {
            return false;
        }
    }
    true
}

/// Whether a leaf is the word of this number, of the kind and the width of a row.
fn is_word_at(sources: &Sources, leaf: u32, row: Elements, number: u128) -> bool
    ensures { result ≡ true → IsWordAt sources.now row leaf number }
{
    let Some(Some(Source::Word(kept))) = sources.leaves.get(leaf as usize) else {
        return false;
    };
    if kept.kind != row.kind || kept.width != row.width {
        return false;
    }
    u128::from(kept.number) == number
}
