//! What can be said of a type's leaves without a list of them (FIRRTL specification 3.0, "Types"). Nothing here takes
//! memory, and a vector's element is looked at once, however long the vector is.

ghost use Rattle.std.specs.Prelude.{◌≡◌, ◌-◌, ◌^◌, min, map, sum};
ghost use Rattle.std.specs.List.{list_any};
ghost use Rattle.fir_types.specs.Leaves.{count, field_count, leaves, field_leaves, has_clock, has_signal, is_asked};

use crate::fir_type::{Field, FirType, Shape};

/// The number of leaves of a type, or 2^128 - 1 where there are more.
#[cycle(count)]
pub fn leaf_count(typ: &FirType) -> u128
    ensures { result ≡ min (count typ.now) (2 ^ 128 - 1) }
{
    let mut factor: u128 = 1;
    let mut inside = typ;
    loop {
        match &inside.shape {
            Shape::Unsigned(_)
            | Shape::Signed(_)
            | Shape::Clock
            | Shape::Reset
            | Shape::AsyncReset => return factor,
            Shape::Bundle(fields) => {
                return factor.saturating_mul(count_fields(fields.as_slice()));
            }
            Shape::Vector(element, length) => {
                factor = factor.saturating_mul(*length);
                inside = element.get();
            }
        }
    }
}

#[cycle(count)]
fn count_fields(fields: &[Field]) -> u128
    ensures { result ≡ min (sum (map field_count fields.now)) (2 ^ 128 - 1) }
{
    let mut total: u128 = 0;
    for field in fields {
        total = total.saturating_add(leaf_count(&field.typ));
    }
    total
}

/// Whether a leaf of the type is a `Clock`. A vector of length 0 has no leaf.
pub fn has_clock(typ: &FirType) -> bool
    ensures { result ≡ has_clock typ.now }
{
    has_asked(typ, false)
}

/// Whether a leaf of the type is a `Clock` or an `AsyncReset`.
pub fn has_signal(typ: &FirType) -> bool
    ensures { result ≡ has_signal typ.now }
{
    has_asked(typ, true)
}

/// Whether a leaf of the type is a `Clock`, or with `asynchronous` an `AsyncReset`.
#[cycle(asked)]
fn has_asked(typ: &FirType, asynchronous: bool) -> bool
    ensures { result ≡ list_any (is_asked asynchronous) (leaves typ.now) }
{
    let mut inside = typ;
    loop {
        match &inside.shape {
            Shape::Unsigned(_) | Shape::Signed(_) | Shape::Reset => return false,
            Shape::Clock => return true,
            Shape::AsyncReset => return asynchronous,
            Shape::Bundle(fields) => return asked_in_fields(fields.as_slice(), asynchronous),
            Shape::Vector(element, length) => {
                if *length == 0 {
                    return false;
                }
                inside = element.get();
            }
        }
    }
}

#[cycle(asked)]
fn asked_in_fields(fields: &[Field], asynchronous: bool) -> bool
    ensures { result ≡ list_any (λ field. list_any (is_asked asynchronous) (field_leaves field)) fields.now }
{
    for field in fields {
        if has_asked(&field.typ, asynchronous) {
            return true;
        }
    }
    false
}
