//! Expressions with other numbers for their leaves.

ghost use Rattle.std.specs.Prelude.{◌≡◌, map, slice_index, IfOk};
ghost use Rattle.ground_net.specs.Grounds.{Instant, value, mentions};
ghost use Rattle.ground_net.specs.Renumbering.{with_numbers, seen_by};

use crate::Ground;
use crate::new_numbers::NewNumbers;
use bit_words::List;
use std::alloc::{AllocError, Global};

/// The expression with the number that stands for each leaf in this list. A leaf without one gets the number 0.
pub fn renumbered(
    alloc: Global,
    ground: &Ground,
    numbers: &NewNumbers,
) -> Result<Ground, AllocError>
    ensures itself { IfOk result (λ it. it ≡ with_numbers (slice_index numbers.now) ground.now) }
    ensures value { IfOk result (λ it. (instant : Instant) → value it instant ≡ value ground.now (seen_by (slice_index numbers.now) instant)) }
    ensures mentions { IfOk result (λ it. mentions it ≡ map (slice_index numbers.now) (mentions ground.now)) }
{
    let it = renumber(alloc, ground, numbers)?;
    Ok(it)
}

/// The expression with other numbers for its leaves.
#[cycle(renumber)]
fn renumber(alloc: Global, ground: &Ground, numbers: &NewNumbers) -> Result<Ground, AllocError>
    ensures { IfOk result (λ it. it ≡ with_numbers (slice_index numbers.now) ground.now) }
{
    Ok(match ground {
        Ground::Const(value) => Ground::Const(*value),
        Ground::Leaf(leaf) => Ground::Leaf(numbers.number_of(*leaf)),
        Ground::Op(prim, operands, params) => Ground::Op(
            *prim,
            renumber_all(alloc, operands.as_slice(), numbers)?,
            List::from_slice(alloc, params.as_slice())?,
        ),
        Ground::Mux(items) => Ground::Mux(renumber_all(alloc, items.as_slice(), numbers)?),
        Ground::Select(index, items) => Ground::Select(
            renumber_all(alloc, index.as_slice(), numbers)?,
            renumber_all(alloc, items.as_slice(), numbers)?,
        ),
        Ground::Indexed(them, indices, lengths) => Ground::Indexed(
            them.renumbered(alloc, numbers)?,
            renumber_all(alloc, indices.as_slice(), numbers)?,
            List::from_slice(alloc, lengths.as_slice())?,
        ),
        Ground::Load(memory, leaf, items) => Ground::Load(
            *memory,
            *leaf,
            renumber_all(alloc, items.as_slice(), numbers)?,
        ),
        Ground::Fit(kind, width, items) => Ground::Fit(
            *kind,
            *width,
            renumber_all(alloc, items.as_slice(), numbers)?,
        ),
    })
}

/// The expressions with these numbers for their leaves, in order.
#[cycle(renumber)]
fn renumber_all(
    alloc: Global,
    grounds: &[Ground],
    numbers: &NewNumbers,
) -> Result<List<Ground>, AllocError>
    ensures { IfOk result (λ them. them ≡ map (with_numbers (slice_index numbers.now)) grounds.now) }
{
    let mut them = List::new(alloc);
    for ground in grounds {
        them.push(renumber(alloc, ground, numbers)?)?;
    }
    Ok(them)
}
