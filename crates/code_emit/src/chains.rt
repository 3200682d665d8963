//! Choices of more than two values: one choice of two values behind the other, from the last one on.

ghost use Rattle.std.specs.Prelude.{◌≡◌, ◌<◌, ◌≤◌, Some, IsSome, IfOk, All, length};
ghost use Rattle.ground_net.specs.Grounds.{chosen};
ghost use Rattle.ground_net.specs.Shapes.{shape_of_choice};
ghost use Rattle.flat_code.specs.Meaning.{location_shape};
ghost use Rattle.flat_code.specs.Fine.{location_shapes, location_slots, slots_of};
ghost use Rattle.code_draft.specs.Drafts.{IsDraft, Stands, Makes};
ghost use Rattle.code_draft.specs.Segments.{Segment};
ghost use Rattle.code_emit.specs.Ways.{IsMade};
ghost use Rattle.code_emit.specs.Spans.{ComeBefore, Follows, are_words};

use crate::values::emit_one_choice;
use bit_words::List;
use code_draft::Draft;
use flat_code::Location;
use std::alloc::{AllocError, Global};

/// The value of a choice of what stands at locations.
pub(crate) fn emit_choice(
    alloc: Global,
    draft: &mut Draft,
    locations: List<Location>,
) -> Result<Location, AllocError>
    requires { IsSome (shape_of_choice (location_shapes locations)) }
    ensures shape { IfOk result (λ s. shape_of_choice (location_shapes locations) ≡ Some (location_shape s)) }
    ensures makes { IfOk result (λ s. IsDraft draft.old → All (Stands draft.old) locations → Makes draft.old draft.new s (IsMade chosen locations (location_shape s))) }
    ensures follows { IfOk result (λ s. Follows locations draft.old draft.new s) }
{
    if locations.len() > 3 && are_words(locations.as_slice()) {
        emit_chain(alloc, draft, locations.as_slice())
    } else {
        emit_one_choice(draft, locations)
    }
}

/// Whether all are of at most 64 bits, so that each choice of two of them is one instruction.
fn are_words(locations: &[Location]) -> bool
    ensures { result ≡ are_words locations.now }
{
    locations.iter().all(|location| location.width <= 64)
}

/// The value of a choice by choices of two values.
fn emit_chain(
    alloc: Global,
    draft: &mut Draft,
    locations: &[Location],
) -> Result<Location, AllocError>
    requires shape { IsSome (shape_of_choice (location_shapes locations.now)) }
    requires many { 3 < length locations.now }
    ensures shape { IfOk result (λ s. shape_of_choice (location_shapes locations.now) ≡ Some (location_shape s)) }
    ensures makes { IfOk result (λ s. IsDraft draft.old → All (Stands draft.old) locations.now → Makes draft.old draft.new s (IsMade chosen locations.now (location_shape s))) }
    ensures segment { IfOk result (λ s. ComeBefore draft.old.slots (slots_of locations.now) → Segment draft.old draft.new (slots_of locations.now) (location_slots s) 2) }
{
    let mut at = locations.len() - 3;
    let mut last = emit_one_choice(draft, List::from_slice(alloc, &locations[at..])?)?;
    while at >= 2 {
        let three = [locations[at - 2], locations[at - 1], last];
        last = emit_one_choice(draft, List::from_slice(alloc, &three)?)?;
        at -= 2;
    }
    Ok(last)
}
