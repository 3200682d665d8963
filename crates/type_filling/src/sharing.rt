//! Whether a type is another one with the widths that were found.

ghost use Rattle.std.specs.Prelude.{◌≡◌, ◌∷◌, IfSome};
ghost use Rattle.type_filling.specs.Filling.{taking, first_number, behind_first};
ghost use Rattle.type_filling.specs.Layers.{shape_taking, fields_taking};

use crate::filling::take_first;
use fir_types::{Field, FirType, Shape};
use prim_ops::Width;

/// The widths behind those of a type, where the fitted type is that type with the first widths. The lengths of vectors in one
/// another are taken in a loop. Takes no memory.
#[cycle(behind)]
pub fn behind_type<'a>(typ: &FirType, fitted: &FirType, widths: &'a [Width]) -> Option<&'a [Width]>
    ensures { IfSome result (λ rest. taking typ.now widths.now ≡ (fitted.now, rest.now)) }
{
    let mut inside = typ;
    let mut other = fitted;
    while let Shape::Vector(element, length) = &inside.shape {
        let Shape::Vector(other_element, other_length) = &other.shape else {
            return None;
        };
        if length != other_length {
            return None;
        }
        if inside.place != other.place {
            return None;
        }
        inside = element.get();
        other = other_element.get();
    }
    if inside.place != other.place {
        return None;
    }
    behind_shape(&inside.shape, &other.shape, widths)
}

#[cycle(behind)]
fn behind_shape<'a>(shape: &Shape, fitted: &Shape, widths: &'a [Width]) -> Option<&'a [Width]>
    ensures { IfSome result (λ rest. shape_taking shape.now widths.now ≡ (fitted.now, rest.now)) }
{
    match shape {
        Shape::Unsigned(_) | Shape::Reset => {
            let Shape::Unsigned(width) = fitted else {
                return None;
            };
            behind_width(*width, widths)
        }
        Shape::Signed(_) => {
            let Shape::Signed(width) = fitted else {
                return None;
            };
            behind_width(*width, widths)
        }
        Shape::Clock => match fitted {
            Shape::Clock => Some(widths),
            _ => None,
        },
        Shape::AsyncReset => {
            let Shape::AsyncReset = fitted else {
                return None;
            };
            let (_, rest) = take_first(widths);
            Some(rest)
        }
        Shape::Bundle(fields) => {
            let Shape::Bundle(others) = fitted else {
                return None;
            };
            behind_fields(fields.as_slice(), others.as_slice(), widths)
        }
        Shape::Vector(element, length) => {
            let Shape::Vector(other, other_length) = fitted else {
                return None;
            };
            if length != other_length {
                return None;
            }
            behind_type(element.get(), other.get(), widths)
        }
    }
}

#[cycle(behind)]
fn behind_fields<'a>(fields: &[Field], fitted: &[Field], widths: &'a [Width]) -> Option<&'a [Width]>
    ensures { IfSome result (λ rest. fields_taking fields.now widths.now ≡ (fitted.now, rest.now)) }
{
    let mut left = fitted;
    let mut rest = widths;
    for field in fields {
        let (first, others) = split(left)?;
        if first.flip != field.flip {
            return None;
        }
        if first.name.id != field.name.id {
            return None;
        }
        if first.name.place != field.name.place {
            return None;
        }
        rest = behind_type(&field.typ, &first.typ, rest)?;
        left = others;
    }
    if left.is_empty() { Some(rest) } else { None }
}

/// The first field, and those behind it.
fn split(fields: &[Field]) -> Option<(&Field, &[Field])>
    ensures { IfSome result (λ parts. fields.now ≡ parts.0.now ∷ parts.1.now) }
{
    fields.split_first()
}

/// The widths behind the first, where that has this number.
fn behind_width(width: Option<u128>, widths: &[Width]) -> Option<&[Width]>
    ensures { IfSome result (λ rest. (first_number widths.now ≡ width) × (behind_first widths.now ≡ rest.now)) }
{
    let (first, rest) = take_first(widths);
    if first == width { Some(rest) } else { None }
}
