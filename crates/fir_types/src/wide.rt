//! The indexes of types with many fields, made once and kept beside the types.

ghost use Rattle.std.specs.Prelude.{◌≡◌, ◌==◌, [], find, IfOk, IfSome};
ghost use Rattle.std.specs.Option.{option_copied};
ghost use Rattle.fir_types.specs.Indexes.{IsIndexOf, IsIndexOfType};

use crate::equivalence::field_of;
use crate::fir_type::{Field, FirType, Shape};
use crate::index::FieldIndex;
use bit_words::Shared;
use std::alloc::{AllocError, Global};

/// The number of fields from which on an index is made.
const MANY: usize = 8;

/// The index of a type's fields without weights, where it is a bundle of many. Takes time and memory in proportion to their
/// number.
pub fn index_of(alloc: Global, typ: &FirType) -> Result<Option<Shared<FieldIndex>>, AllocError>
    ensures { IfOk result (λ index. IfSome index (IsIndexOfType typ.now)) }
{
    let Shape::Bundle(fields) = &typ.shape else {
        return Ok(None);
    };
    index_among(alloc, fields.as_slice(), &[])
}

/// The index of these fields with these weights, where they are many. Takes time and memory in proportion to their number.
pub fn index_among(
    alloc: Global,
    fields: &[Field],
    weights: &[usize],
) -> Result<Option<Shared<FieldIndex>>, AllocError>
    ensures { IfOk result (λ index. IfSome index (λ index. IsIndexOf index fields.now weights.now)) }
{
    if fields.len() < MANY {
        return Ok(None);
    }
    let index = FieldIndex::new(alloc, fields, weights)?;
    Ok(Some(Shared::new(alloc, index)?))
}

/// The first of these fields that has the name with this number, by their index where there is one. Takes no memory.
pub fn field_by<'a>(
    index: Option<&Shared<FieldIndex>>,
    fields: &'a [Field],
    id: u32,
) -> Option<&'a Field>
    requires { IfSome (option_copied index) (λ index. IsIndexOf index fields.now []) }
    ensures { option_copied result ≡ find (λ field. field.name.id == id) fields.now }
{
    match index {
        Some(index) => index.get().field(fields, id),
        None => field_of(fields, id),
    }
}
