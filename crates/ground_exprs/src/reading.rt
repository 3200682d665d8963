//! Reading the leaves of a part.

ghost use Rattle.std.specs.Prelude.{◌≡◌, ◌+◌, ◌*◌, IfOk, map};
ghost use Rattle.ground_net.specs.declared.ground.Ground.TheVariants.{Indexed};
ghost use Rattle.ground_exprs.specs.Parts.{IsRead, is_nowhere, choices, indices_of, lengths_of, spans_of};

use crate::part::Pick;
use bit_words::List;
use ground_net::{Ground, Numbers, Span, copied};
use std::alloc::{AllocError, Global};

/// What the leaf of a part has, by its number in the elements with the number 0: of the leaves that it may be the one that the indices
/// pick.
pub fn read(alloc: Global, picks: &[Pick], leaf: u32) -> Result<Ground, AllocError>
    ensures { IfOk result (λ g. IsRead picks.now leaf g) }
{
    if picks.is_empty() {
        return Ok(Ground::Leaf(leaf));
    }
    let found = indexed(alloc, picks, leaf)?;
    Ok(found)
}

/// The same, where there is an index.
fn indexed(alloc: Global, picks: &[Pick], leaf: u32) -> Result<Ground, AllocError>
    ensures { IfOk result (λ g. g ≡ Indexed (choices picks.now leaf) (indices_of picks.now) (lengths_of picks.now)) }
{
    let numbers = numbers_of(alloc, picks, leaf)?;
    let mut indices = List::new(alloc);
    let mut lengths = List::new(alloc);
    for pick in picks {
        indices.push(copied(alloc, &pick.index)?)?;
        lengths.push(pick.length)?;
    }
    Ok(Ground::Indexed(numbers, indices, lengths))
}

/// The numbers of the leaves that a leaf of a part may be.
fn numbers_of(alloc: Global, picks: &[Pick], leaf: u32) -> Result<Numbers, AllocError>
    ensures { IfOk result (λ it. it ≡ choices picks.now leaf) }
{
    if lead_nowhere(picks) {
        return Ok(Numbers::of_list(List::new(alloc)));
    }
    let spans = spans_of(alloc, picks)?;
    let numbers = Numbers::of_spans(alloc, leaf, spans)?;
    Ok(numbers)
}

/// The vectors on the way.
fn spans_of(alloc: Global, picks: &[Pick]) -> Result<List<Span>, AllocError>
    ensures { IfOk result (λ spans. spans ≡ spans_of picks.now) }
{
    let mut spans = List::new(alloc);
    for pick in picks {
        spans.push(Span {
            length: pick.length,
            stride: pick.stride,
        })?;
    }
    Ok(spans)
}

/// A vector on the way has no elements. Without a look at all of them first, those before it would be walked for nothing.
pub fn lead_nowhere(picks: &[Pick]) -> bool
    ensures { result ≡ is_nowhere picks.now }
{
    picks.iter().any(|pick| pick.length == 0)
}

/// A number of elements that have leaves. As leaves are held in memory, a `u32` numbers them; where it doesn't, memory is wanted.
pub fn as_number(length: u128) -> Result<u32, AllocError>
    ensures { IfOk result (λ number. number ≡ length) }
{
    match u32::try_from(length) {
        Ok(number) => Ok(number),
        Err(_) => Err(AllocError),
    }
}

/// The number of a leaf in the element of a number.
pub fn element_leaf(leaf: u32, number: u32, stride: u32) -> Result<u32, AllocError>
    ensures { IfOk result (λ moved. moved ≡ leaf + number * stride) }
{
    match number.checked_mul(stride) {
        Some(by) => sum_of(leaf, by),
        None => Err(AllocError),
    }
}

/// A sum; where a `u32` doesn't hold it, memory is wanted.
pub fn sum_of(a: u32, b: u32) -> Result<u32, AllocError>
    ensures { IfOk result (λ sum. sum ≡ a + b) }
{
    match a.checked_add(b) {
        Some(sum) => Ok(sum),
        None => Err(AllocError),
    }
}
