//! From a type to its parts, with the numbers of leaves that stand before them.

ghost use Rattle.std.specs.Prelude.{◌≡◌, ◌+◌, ◌*◌, ◌<◌, ℕ, Some, IfOk, IsSome, sum, map, if◌then◌else◌};
ghost use Rattle.fir_types.specs.declared.fir_type.Shape.TheViews.{out-Shape};
ghost use Rattle.fir_types.specs.declared.leaf.PathStep.TheVariants as step;
ghost use Rattle.fir_types.specs.Leaves.{count};
ghost use Rattle.fir_meaning.specs.Values.{field_of_shape, element_of_shape, vector_length};
ghost use Rattle.ground_exprs.specs.Numbers.{IsInside};

use field_tables::Tabled;
use fir_types::{FirType, Shape};
use std::alloc::{AllocError, Global};

/// A field of a bundle, and how many of the bundle's leaves stand before those of the field.
#[derive(Clone, Copy)]
pub struct Inner<'a> {
    pub at: Tabled<'a>,
    pub before: u32,
}

/// The elements of a vector: how many there are, and how many leaves each has.
#[derive(Clone, Copy)]
pub struct Elements<'a> {
    pub at: Tabled<'a>,
    pub length: u128,
    pub stride: u32,
}

/// The number of leaves of a type; where a `u32` doesn't hold it, memory is said to be wanted.
pub fn count_of(typ: &FirType) -> Result<u32, AllocError>
    ensures { IfOk result (λ n. n ≡ count typ.now) }
{
    count_in(Tabled::plain(typ))
}

/// The same of a type with a table.
fn count_in(at: Tabled<'_>) -> Result<u32, AllocError>
    ensures { IfOk result (λ n. n ≡ count at.entry.typ.now) }
{
    match u32::try_from(at.leaf_count()) {
        Ok(number) => Ok(number),
        Err(_) => Err(AllocError),
    }
}

/// The first field of a name (FIRRTL specification 3.0, "Sub-fields").
pub fn to_field<'a>(at: Tabled<'a>, id: u32) -> Result<Inner<'a>, AllocError>
    requires { IsSome (field_of_shape id (out-Shape at.typ.now.shape)) }
    ensures typ { IfOk result (λ inner. field_of_shape id (out-Shape at.entry.typ.now.shape) ≡ Some inner.at.typ.now) }
    ensures inside { IfOk result (λ inner. IsInside at.entry.typ.now (step.Field id) inner.at.typ.now inner.before) }
{
    let Shape::Bundle(_) = &at.typ.shape else {
        unreachable!();
    };
    let Some(inner) = at.field(id) else {
        unreachable!();
    };
    let before = at.leaves_before(id)?;
    Ok(Inner { at: inner, before })
}

/// The elements of a vector (FIRRTL specification 3.0, "Sub-indices").
pub fn to_elements<'a>(at: Tabled<'a>) -> Result<Elements<'a>, AllocError>
    requires { IsSome (element_of_shape (out-Shape at.typ.now.shape)) }
    ensures typ { IfOk result (λ inner. element_of_shape (out-Shape at.entry.typ.now.shape) ≡ Some inner.at.typ.now) }
    ensures length { IfOk result (λ inner. inner.length ≡ vector_length at.entry.typ.now) }
    ensures inside { IfOk result (λ inner. (k : ℕ) → k < inner.length → IsInside at.entry.typ.now (step.Element k) inner.at.typ.now (k * inner.stride)) }
{
    let Shape::Vector(_, length) = &at.typ.shape else {
        unreachable!();
    };
    let Some(element) = at.element() else {
        unreachable!();
    };
    let stride = count_in(element)?;
    Ok(Elements {
        at: element,
        length: *length,
        stride,
    })
}
