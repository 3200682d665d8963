//! Literals (FIRRTL specification 3.0, "Constant Integer Expressions").

ghost use Rattle.std.specs.Prelude.{◌≡◌, ◌≤◌, ◌%◌, ◌^◌, ℕ, suc, None};
ghost use Rattle.bit_words.specs.Values.{bits_of};
ghost use Rattle.bit_words.specs.Numbers.{integer_of_number};
ghost use Rattle.prim_ops.specs.Values.{fitted};
ghost use Rattle.fir_types.specs.Bundles.{least_reaching};
ghost use Rattle.fir_meaning.specs.Values.{literal_width};

use crate::fitting::narrow;
use bit_words::{Kind, Number, Value, fit};

/// The value of a literal: its number, fitted to the width that it gives, or to the least one that holds it.
pub fn literal(kind: Kind, width: Option<u128>, number: Number) -> Value
    ensures { result ≡ fitted kind (literal_width kind (integer_of_number number) width) (integer_of_number number) }
{
    constant(kind, narrow(width_of(kind, width, number)), number)
}

/// The value of a literal of a width of at most 128: its number, fitted.
fn constant(kind: Kind, width: u8, number: Number) -> Value
    requires { width ≤ 128 }
    ensures { result ≡ fitted kind width (integer_of_number number) }
{
    let bits = low_bits(number.negative, number.magnitude);
    fit(
        kind,
        width,
        Value {
            kind: Kind::Unsigned,
            width: 128,
            bits,
        },
    )
}

/// The lowest 128 bits of a number with this sign and magnitude.
fn low_bits(negative: bool, magnitude: u128) -> u128
    ensures { (width : ℕ) → width ≤ 128 → result % 2 ^ width ≡ bits_of width (integer_of_number (record { negative = negative; magnitude = magnitude })) }
{
    match magnitude.checked_sub(1) {
        Some(less) if negative => u128::MAX - less,
        _ => magnitude,
    }
}

/// The width of a literal: the one that it gives, or else the least one that holds it.
fn width_of(kind: Kind, width: Option<u128>, number: Number) -> u128
    ensures { result ≡ literal_width kind (integer_of_number number) width }
{
    match width {
        Some(width) => width,
        None => least_width(kind, number),
    }
}

fn least_width(kind: Kind, number: Number) -> u128
    ensures { result ≡ literal_width kind (integer_of_number number) None }
{
    match number.magnitude.checked_sub(1) {
        Some(less) if number.negative => match kind {
            Kind::Unsigned => 1,
            Kind::Signed => u128::from(least_bits(less, 0)) + 1,
        },
        _ => match kind {
            Kind::Unsigned => u128::from(least_bits(number.magnitude, 1)),
            Kind::Signed => u128::from(least_bits(number.magnitude, 0)) + 1,
        },
    }
}

/// The least number of bits, from this one on and at most 127 above it, that hold a number.
fn least_bits(number: u128, from: u8) -> u8
    requires { from ≤ 1 }
    ensures value { result ≡ least_reaching (suc number) from 127 }
    ensures small { result ≤ 128 }
{
    for more in 0..127 {
        let bits = from + more;
        if number >> bits == 0 {
            return bits;
        }
    }
    from + 127
}
