//! The ground places of a type, and whether two types are equivalent where Reset, AsyncReset and UInt are one type.

ghost use Rattle.std.specs.Prelude.{◌≡◌, ◌++◌, ◌∷◌, [], map, flat_map, OnOk, IfOk};
ghost use Rattle.reset_search.specs.Grounds.{grounds, are_alike, all_take};
ghost use Rattle.reset_resolution.specs.Layers.{seen, field_grounds, field_alike, is_uint_like};

use fir_types::{Field, FirType, Shape};
use reset_search::{Ground, Word};
use std::alloc::{AllocError, Global};

/// The ground places of a type in order. Takes time and memory in proportion to the type.
pub fn grounds_of(alloc: Global, typ: &FirType) -> Result<Vec<Ground>, AllocError>
    ensures { IfOk result (λ found. found.items ≡ grounds typ.now) }
{
    let mut found = Vec::new(alloc);
    push_grounds(&mut found, false, true, typ)?;
    Ok(found)
}

/// Adds the ground places of a type under a flip or not, and in vectors with elements or not.
#[cycle(grounds)]
fn push_grounds(
    found: &mut Vec<Ground>,
    flip: bool,
    held: bool,
    typ: &FirType,
) -> Result<(), AllocError>
    ensures { OnOk result (found.new.items ≡ found.old.items ++ map (seen flip held) (grounds typ.now)) }
{
    let mut inside = typ;
    let mut leaf = held;
    loop {
        match &inside.shape {
            Shape::Unsigned(_) => return push_ground(found, Word::OfUint, flip, leaf),
            Shape::Signed(_) => return push_ground(found, Word::OfSint, flip, leaf),
            Shape::Clock => return Ok(()),
            Shape::Reset => return push_ground(found, Word::OfReset, flip, leaf),
            Shape::AsyncReset => return push_ground(found, Word::OfAsync, flip, leaf),
            Shape::Bundle(fields) => {
                return push_field_grounds(found, flip, leaf, fields.as_slice());
            }
            Shape::Vector(element, length) => {
                leaf = leaf && *length > 0;
                inside = element.get();
            }
        }
    }
}

#[cycle(grounds)]
fn push_field_grounds(
    found: &mut Vec<Ground>,
    flip: bool,
    leaf: bool,
    fields: &[Field],
) -> Result<(), AllocError>
    ensures { OnOk result (found.new.items ≡ found.old.items ++ map (seen flip leaf) (flat_map field_grounds fields.now)) }
{
    for field in fields {
        push_grounds(found, flip != field.flip, leaf, &field.typ)?;
    }
    Ok(())
}

fn push_ground(
    found: &mut Vec<Ground>,
    word: Word,
    flip: bool,
    leaf: bool,
) -> Result<(), AllocError>
    ensures { OnOk result (found.new.items ≡ found.old.items ++ record { word = word; flip = flip; leaf = leaf } ∷ []) }
{
    found.push(Ground { word, flip, leaf })?;
    Ok(())
}

/// Whether two types are equivalent where Reset, AsyncReset and UInt are one type. Takes no memory.
#[cycle(alike)]
pub fn are_alike(left: &FirType, right: &FirType) -> bool
    ensures { result ≡ are_alike left.now right.now }
{
    let mut one = left;
    let mut other = right;
    loop {
        match &one.shape {
            Shape::Unsigned(_) | Shape::Reset | Shape::AsyncReset => return is_one_bit_or_uint(
                other,
            ),
            Shape::Signed(_) => return matches!(&other.shape, Shape::Signed(_)),
            Shape::Clock => return matches!(&other.shape, Shape::Clock),
            Shape::Bundle(fields) => {
                return match &other.shape {
                    Shape::Bundle(others) => all_alike(fields.as_slice(), others.as_slice()),
                    _ => false,
                };
            }
            Shape::Vector(element, length) => match &other.shape {
                Shape::Vector(other_element, other_length) => {
                    if length != other_length {
                        return false;
                    }
                    one = element.get();
                    other = other_element.get();
                }
                _ => return false,
            },
        }
    }
}

#[cycle(alike)]
fn all_alike(fields: &[Field], others: &[Field]) -> bool
    ensures { result ≡ all_take (map field_alike fields.now) others.now }
{
    let mut rest = others;
    for field in fields {
        let Some((first, more)) = rest.split_first() else {
            return false;
        };
        if !same_field(field, first) {
            return false;
        }
        rest = more;
    }
    rest.is_empty()
}

#[cycle(alike)]
fn same_field(field: &Field, other: &Field) -> bool
    ensures { result ≡ field_alike field.now other.now }
{
    field.name.id == other.name.id && field.flip == other.flip && are_alike(&field.typ, &other.typ)
}

/// Whether a type is a UInt, a Reset or an AsyncReset.
fn is_one_bit_or_uint(typ: &FirType) -> bool
    ensures { result ≡ is_uint_like typ.now }
{
    matches!(
        &typ.shape,
        Shape::Unsigned(_) | Shape::Reset | Shape::AsyncReset
    )
}
