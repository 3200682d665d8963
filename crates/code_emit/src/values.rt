//! Values of operations, choices and fits: on words where they suffice, and else as wide values.

ghost use Rattle.std.specs.Prelude.{◌≡◌, ◌≤◌, Some, IsSome, IfOk, All};
ghost use Rattle.ground_net.specs.Grounds.{chosen};
ghost use Rattle.ground_net.specs.Shapes.{shaped, shape_of_row, shape_of_choice, shape_of_fit};
ghost use Rattle.flat_code.specs.Meaning.{location_shape};
ghost use Rattle.flat_code.specs.Fine.{location_shapes, location_slots, slots_of};
ghost use Rattle.code_draft.specs.Drafts.{IsDraft, Stands, Makes};
ghost use Rattle.code_draft.specs.Segments.{Step};
ghost use Rattle.code_emit.specs.Ways.{IsMade, row_value, fit_of_one};
ghost use Rattle.code_emit.specs.Spans.{Follows};

use crate::choices::choice_word;
use crate::fits::fit_word;
use crate::forms::{choice_measure, row_measure};
use crate::operations::operation_word;
use crate::ways::Measure;
use bit_words::{Kind, List};
use code_draft::{Draft, wide_value};
use flat_code::{Form, Location};
use prim_ops::Prim;
use std::alloc::{AllocError, Global};

/// The value of an operation on what stands at locations.
pub(crate) fn emit_operation(
    alloc: Global,
    draft: &mut Draft,
    prim: Prim,
    locations: List<Location>,
    params: &[u128],
) -> Result<Location, AllocError>
    requires { IsSome (shape_of_row prim params.now (location_shapes locations)) }
    ensures shape { IfOk result (λ s. shape_of_row prim params.now (location_shapes locations) ≡ Some (location_shape s)) }
    ensures makes { IfOk result (λ s. IsDraft draft.old → All (Stands draft.old) locations → Makes draft.old draft.new s (IsMade (row_value prim params.now) locations (location_shape s))) }
    ensures follows { IfOk result (λ s. Follows locations draft.old draft.new s) }
{
    let measure = row_measure(prim, locations.as_slice(), params);
    match operation_word(draft, prim, locations.as_slice(), params, measure)? {
        Some(location) => Ok(location),
        None => {
            let form = Form::Apply(prim, List::from_slice(alloc, params)?);
            wide_value(draft, form, locations, measure.kind, measure.width)
        }
    }
}

/// The value of a choice of what stands at locations, by one instruction.
pub(crate) fn emit_one_choice(
    draft: &mut Draft,
    locations: List<Location>,
) -> Result<Location, AllocError>
    requires { IsSome (shape_of_choice (location_shapes locations)) }
    ensures shape { IfOk result (λ s. shape_of_choice (location_shapes locations) ≡ Some (location_shape s)) }
    ensures makes { IfOk result (λ s. IsDraft draft.old → All (Stands draft.old) locations → Makes draft.old draft.new s (IsMade chosen locations (location_shape s))) }
    ensures step { IfOk result (λ s. Step draft.old draft.new (slots_of locations) (location_slots s) 2) }
{
    let measure = choice_measure(locations.as_slice());
    match choice_word(draft, locations.as_slice(), measure)? {
        Some(location) => Ok(location),
        None => wide_value(draft, Form::Choose, locations, measure.kind, measure.width),
    }
}

/// The value of a location, fitted to a kind and a width.
pub(crate) fn emit_fit(
    draft: &mut Draft,
    locations: List<Location>,
    kind: Kind,
    width: u8,
) -> Result<Location, AllocError>
    requires narrow { width ≤ 128 }
    requires shape { shape_of_fit kind width (location_shapes locations) ≡ Some (shaped kind width) }
    ensures shape { IfOk result (λ s. location_shape s ≡ shaped kind width) }
    ensures makes { IfOk result (λ s. IsDraft draft.old → All (Stands draft.old) locations → Makes draft.old draft.new s (IsMade (fit_of_one kind width) locations (shaped kind width))) }
    ensures step { IfOk result (λ s. Step draft.old draft.new (slots_of locations) (location_slots s) 2) }
{
    match fit_word(draft, locations.as_slice(), Measure { kind, width })? {
        Some(location) => Ok(location),
        None => wide_value(draft, Form::Fit, locations, kind, width),
    }
}
