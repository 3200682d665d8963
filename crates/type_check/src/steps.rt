//! The steps of a reference, each from a part that has a type (FIRRTL specification 3.0, "References" and "Flows").

ghost use Rattle.std.specs.Prelude.{◌≡◌, ◌++◌, ◌∷◌, [], None, option_map, IfOk, OnOk};
ghost use Rattle.fir_types.specs.declared.fir_type.Shape.TheViews.{out-Shape};
ghost use Rattle.fir_tree.specs.Parts.{flow_through, part_of};
ghost use Rattle.type_index.specs.Knowing.{element_in};
ghost use Rattle.type_check.specs.Expressions.{field_step, element_step, index_step};
ghost use Rattle.type_check.specs.Judging.{part_at, part_reached};

use crate::fault::TypeFault;
use crate::reached::Reached;
use fir_tree::kinds::is_unsigned;
use fir_tree::steps::through;
use fir_tree::{Flow, Part};
use fir_types::{Name, Shape};
use place_text::Place;
use std::alloc::AllocError;

/// The field of this name, the first one. Adds a fault where there is none.
pub fn to_field<'a>(
    faults: &mut Vec<TypeFault>,
    base: Reached<'a>,
    name: Name,
) -> Result<Option<Reached<'a>>, AllocError>
    ensures part { IfOk result (λ reached. part_reached reached ≡ (field_step name (part_at base.entry) (out-Shape base.entry.known.typ.now.shape)).part) }
    ensures faults { OnOk result (faults.new.items ≡ faults.old.items ++ (field_step name (part_at base.entry) (out-Shape base.entry.known.typ.now.shape)).faults) }
{
    let Shape::Bundle(_) = &base.known.typ.shape else {
        return fail(faults, TypeFault::NotBundle(name.place));
    };
    match base.known.field(name.id) {
        Some(found) => Ok(Some(Reached {
            known: found.known(),
            flow: through(found.field.flip, base.flow),
        })),
        None => fail(faults, TypeFault::FieldUnknown(name.place)),
    }
}

/// The element of this number, which stands at a place behind the bracket. Adds a fault where there is none.
pub fn to_element<'a>(
    faults: &mut Vec<TypeFault>,
    base: Reached<'a>,
    bracket: Place,
    at: Place,
    number: u128,
) -> Result<Option<Reached<'a>>, AllocError>
    ensures part { IfOk result (λ reached. part_reached reached ≡ (element_step bracket at number (part_at base.entry) (out-Shape base.entry.known.typ.now.shape)).part) }
    ensures faults { OnOk result (faults.new.items ≡ faults.old.items ++ (element_step bracket at number (part_at base.entry) (out-Shape base.entry.known.typ.now.shape)).faults) }
{
    let Shape::Vector(_, length) = &base.known.typ.shape else {
        return fail(faults, TypeFault::NotVector(bracket));
    };
    if number < *length {
        Ok(element_of(base))
    } else {
        fail(faults, TypeFault::IndexRange(at))
    }
}

/// The element that an index gives, which stands at a place behind the bracket. Adds a fault where there is none.
pub fn to_indexed<'a>(
    faults: &mut Vec<TypeFault>,
    base: Reached<'a>,
    bracket: Place,
    at: Place,
    index: &Part,
) -> Result<Option<Reached<'a>>, AllocError>
    ensures part { IfOk result (λ reached. part_reached reached ≡ (index_step bracket at index.now (part_at base.entry) (out-Shape base.entry.known.typ.now.shape)).part) }
    ensures faults { OnOk result (faults.new.items ≡ faults.old.items ++ (index_step bracket at index.now (part_at base.entry) (out-Shape base.entry.known.typ.now.shape)).faults) }
{
    let Shape::Vector(_, _) = &base.known.typ.shape else {
        return fail(faults, TypeFault::NotVector(bracket));
    };
    if is_unsigned(&index.typ) {
        Ok(element_of(base))
    } else {
        fail(faults, TypeFault::IndexKind(at))
    }
}

/// The element, where this is a vector.
fn element_of(base: Reached<'_>) -> Option<Reached<'_>>
    ensures { part_reached result ≡ option_map (λ element. part_of element base.entry.flow) (element_in (out-Shape base.entry.known.typ.now.shape)) }
{
    match base.known.element() {
        Some(element) => Some(Reached {
            known: element,
            flow: base.flow,
        }),
        None => None,
    }
}

/// Adds a fault, behind which nothing is reached.
fn fail<'a>(
    faults: &mut Vec<TypeFault>,
    fault: TypeFault,
) -> Result<Option<Reached<'a>>, AllocError>
    ensures none { IfOk result (λ reached. part_reached reached ≡ None) }
    ensures fault { OnOk result (faults.new.items ≡ faults.old.items ++ fault ∷ []) }
{
    faults.push(fault)?;
    Ok(None)
}
