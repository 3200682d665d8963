//! Steps of references that evaluate nothing.

ghost use Rattle.std.specs.Prelude.{◌≡◌, ◌<◌, ℕ, Some, IfOk, IsSome};
ghost use Rattle.fir_types.specs.declared.fir_type.Shape.TheViews.{out-Shape};
ghost use Rattle.fir_types.specs.declared.leaf.PathStep.TheVariants as step;
ghost use Rattle.fir_meaning.specs.Values.{field_of_shape, element_of_shape, vector_length};
ghost use Rattle.ground_exprs.specs.Numbers.{IsInside};
ghost use Rattle.ground_exprs.specs.Views.{Moves};

use crate::inside::{to_elements, to_field};
use crate::part::Part;
use crate::stepping::{moved, moved_to};
use field_tables::Tabled;
use std::alloc::AllocError;

/// A part of a component with its type.
#[derive(Drop)]
pub struct View<'a> {
    pub at: Tabled<'a>,
    pub part: Part,
}

/// The field of a name.
pub fn enter_field<'a>(at: Tabled<'a>, part: Part, id: u32) -> Result<View<'a>, AllocError>
    requires { IsSome (field_of_shape id (out-Shape at.typ.now.shape)) }
    ensures typ { IfOk result (λ view. field_of_shape id (out-Shape at.entry.typ.now.shape) ≡ Some view.at.typ.now) }
    ensures part { IfOk result (λ view. Moves at.entry.typ.now (step.Field id) part view.at.typ.now view.part) }
{
    let inner = to_field(at, id)?;
    let part = moved(part, inner.before)?;
    Ok(View { at: inner.at, part })
}

/// The element of a number.
pub fn enter_element<'a>(at: Tabled<'a>, part: Part, number: u128) -> Result<View<'a>, AllocError>
    requires vector { IsSome (element_of_shape (out-Shape at.typ.now.shape)) }
    requires within { number < vector_length at.typ.now }
    ensures typ { IfOk result (λ view. element_of_shape (out-Shape at.entry.typ.now.shape) ≡ Some view.at.typ.now) }
    ensures part { IfOk result (λ view. Moves at.entry.typ.now (step.Element number) part view.at.typ.now view.part) }
{
    let elements = to_elements(at)?;
    let part = moved_to(part, number, elements.stride)?;
    Ok(View {
        at: elements.at,
        part,
    })
}
