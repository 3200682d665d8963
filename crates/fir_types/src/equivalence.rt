//! Equivalent types (FIRRTL specification 3.0, "Type Equivalence"), and the fields of bundles by name.

ghost use Rattle.std.specs.Prelude.{◌≡◌, ◌↔◌, ◌==◌, IsTrue, find};
ghost use Rattle.std.specs.Option.{option_copied};
ghost use Rattle.fir_types.specs.Equivalence.{Equivalent, AreSame, IsUnsigned, SameFields};

use crate::fir_type::{Field, FirType, Shape};

/// Whether two types are equivalent: ground types of one kind whatever their widths, vectors of equal length and bundles of
/// the same names and orientations, with equivalent parts. `Reset` is `UInt<1>`. Takes no memory.
#[cycle(equivalent)]
pub fn equivalent(left: &FirType, right: &FirType) -> bool
    ensures { IsTrue result ↔ Equivalent left.now right.now }
{
    let mut one = left;
    let mut other = right;
    loop {
        match &one.shape {
            Shape::Unsigned(_) | Shape::Reset => return is_unsigned(other),
            Shape::Signed(_) => return matches!(&other.shape, Shape::Signed(_)),
            Shape::Clock => return matches!(&other.shape, Shape::Clock),
            Shape::AsyncReset => return matches!(&other.shape, Shape::AsyncReset),
            Shape::Bundle(fields) => {
                return match &other.shape {
                    Shape::Bundle(others) => same_fields(fields.as_slice(), others.as_slice()),
                    _ => false,
                };
            }
            Shape::Vector(element, length) => match &other.shape {
                Shape::Vector(other_element, other_length) => {
                    if length != other_length {
                        return false;
                    }
                    one = element.get();
                    other = other_element.get();
                }
                _ => return false,
            },
        }
    }
}

#[cycle(equivalent)]
fn same_fields(fields: &[Field], others: &[Field]) -> bool
    ensures { IsTrue result ↔ SameFields fields.now others.now }
{
    if fields.len() != others.len() {
        return false;
    }
    for (field, other) in fields.iter().zip(others) {
        if !same_field(field, other) {
            return false;
        }
    }
    true
}

#[cycle(equivalent)]
fn same_field(field: &Field, other: &Field) -> bool
    ensures { IsTrue result ↔ AreSame field.now other.now }
{
    field.name.id == other.name.id && field.flip == other.flip && equivalent(&field.typ, &other.typ)
}

fn is_unsigned(typ: &FirType) -> bool
    ensures { IsTrue result ↔ IsUnsigned typ.now }
{
    matches!(&typ.shape, Shape::Unsigned(_) | Shape::Reset)
}

/// The first field of a bundle that has the name with this number.
pub fn field_of(fields: &[Field], id: u32) -> Option<&Field>
    ensures { option_copied result ≡ find (λ field. field.name.id == id) fields.now }
{
    fields.iter().find(|field| field.name.id == id)
}
