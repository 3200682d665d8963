//! Widths and values of literals.

ghost use Rattle.std.specs.Prelude.{◌≡◌, ℕ, ◌≤◌, ◌<◌, ◌^◌, ◌%◌, IfSome, IfNone};
ghost use Rattle.bit_words.specs.Values.{InRange, bits_of, integer_of};
ghost use Rattle.bit_words.specs.Numbers.{integer_of_number};
ghost use Rattle.bit_words.specs.LeastWidths.{IsLeastWidth};

use crate::fitting::cut;
use crate::number::Number;
use crate::value::{Kind, Value};

/// The width of a literal without one: the least width, from 1 on, at which a value of this kind holds the number
/// (FIRRTL specification 3.0, "Constant Integer Expressions").
///
/// None exactly for a negative number read as `Unsigned`, where `-0` is 0. Takes no memory.
pub fn least_width(kind: Kind, number: Number) -> Option<u128>
    ensures some { IfSome result (λ width. IsLeastWidth kind (integer_of_number number) width) }
    ensures none { IfNone result ((width : ℕ) → ¬ (InRange kind width (integer_of_number number))) }
{
    match kind {
        Kind::Unsigned if number.negative && number.magnitude > 0 => None,
        Kind::Unsigned => Some(bit_length(number.magnitude).max(1)),
        Kind::Signed if number.negative => Some(bit_length(number.magnitude.saturating_sub(1)) + 1),
        Kind::Signed => Some(bit_length(number.magnitude) + 1),
    }
}

/// How many binary digits a number has, without zeros in front.
fn bit_length(number: u128) -> u128
    ensures most { result ≤ 128 }
    ensures below { number < 2 ^ result }
    ensures least { (width : ℕ) → number < 2 ^ width → result ≤ width }
{
    u128::from(u128::BITS - number.leading_zeros())
}

/// The value of this kind and width whose integer is the number.
///
/// The width is at most 128, and the number fits. Takes no memory.
pub fn value_from(kind: Kind, width: u8, number: Number) -> Value
    requires narrow { width ≤ 128 }
    requires fits { InRange kind width (integer_of_number number) }
    ensures kind { result.kind ≡ kind }
    ensures width { result.width ≡ width }
    ensures integer { integer_of result ≡ integer_of_number number }
{
    Value {
        kind,
        width,
        bits: cut(complement(number.negative, number.magnitude), width),
    }
}

/// The lowest 128 bits, in two's complement, of the number with this sign and magnitude.
fn complement(negative: bool, magnitude: u128) -> u128
    ensures { (width : ℕ) → width ≤ 128 → result % 2 ^ width ≡ bits_of width (integer_of_number (record { negative = negative; magnitude = magnitude })) }
{
    match magnitude.checked_sub(1) {
        Some(less) if negative => u128::MAX - less,
        _ => magnitude,
    }
}
