//! Steps from a part of a component to a part of it.

ghost use Rattle.std.specs.Prelude.{◌≡◌, ◌+◌, ◌*◌, ◌++◌, [], ◌∷◌, IfOk};

use crate::part::{Part, Pick};
use crate::reading::sum_of;
use bit_words::List;
use std::alloc::{AllocError, Global};

/// The whole of a component whose first leaf has this number.
pub fn whole(alloc: Global, first: u32) -> Part
    ensures { result ≡ record { first = first; picks = [] } }
{
    Part {
        first,
        picks: List::new(alloc),
    }
}

/// The part that begins so many leaves further on.
pub fn moved(part: Part, by: u32) -> Result<Part, AllocError>
    ensures first { IfOk result (λ after. after.first ≡ part.first + by) }
    ensures picks { IfOk result (λ after. after.picks ≡ part.picks) }
{
    Ok(Part {
        first: sum_of(part.first, by)?,
        picks: part.picks,
    })
}

/// The element of this number, where the elements stand a stride apart.
pub fn moved_to(part: Part, number: u128, stride: u32) -> Result<Part, AllocError>
    ensures first { IfOk result (λ after. after.first ≡ part.first + number * stride) }
    ensures picks { IfOk result (λ after. after.picks ≡ part.picks) }
{
    let Some(by) = number.checked_mul(u128::from(stride)) else {
        return Err(AllocError);
    };
    match u32::try_from(by) {
        Ok(by) => moved(part, by),
        Err(_) => Err(AllocError),
    }
}

/// The element that an index picks.
pub fn indexed(part: Part, pick: Pick) -> Result<Part, AllocError>
    ensures first { IfOk result (λ after. after.first ≡ part.first) }
    ensures picks { IfOk result (λ after. after.picks ≡ part.picks ++ pick ∷ []) }
{
    let mut picks = part.picks;
    picks.push(pick)?;
    Ok(Part {
        first: part.first,
        picks,
    })
}
