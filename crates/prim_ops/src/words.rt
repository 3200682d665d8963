//! The 128 bit words that results are cut from, and the parts of an integer.

ghost use Rattle.std.specs.Prelude.{◌≡◌, ℕ, ◌+◌, ◌*◌, ◌/◌, ◌%◌, ◌^◌, ◌≤◌, ◌<◌, ◌↔◌, IsTrue, ℤ, unsigned_abs};
ghost use Rattle.bit_words.specs.Values.{integer_of, bits_of, fit_of};
ghost use Rattle.prim_ops.specs.Results.{one_if};
ghost use Rattle.prim_ops.specs.Integers.{meaning};

use bit_words::{Kind, Value, fit};

/// An integer, as the number of steps from 0 upward or from -1 downward.
#[derive(Clone, Copy)]
pub(crate) enum Integer {
    /// The integer itself.
    FromZero(u128),
    /// The integer is -1 less this number.
    BelowZero(u128),
}

/// The integer of a value.
pub(crate) fn integer_from(value: Value) -> Integer
    ensures meaning { meaning result ≡ integer_of value }
    ensures small { unsigned_abs (meaning result) < 2 ^ 128 }
{
    match value.kind {
        Kind::Signed if is_negative(value.width, value.bits) => Integer::BelowZero(
            greatest(value.width) - value.bits,
        ),
        _ => Integer::FromZero(value.bits),
    }
}

/// Whether the highest bit of the width is set.
fn is_negative(width: u8, bits: u128) -> bool
    requires { width ≤ 128 }
    ensures { IsTrue result ↔ (2 ^ width ≤ 2 * bits) }
{
    bits > greatest(width) / 2
}

/// The greatest number of this width.
pub(crate) fn greatest(width: u8) -> u128
    requires { width ≤ 128 }
    ensures { result + 1 ≡ 2 ^ width }
{
    if width == 128 {
        u128::MAX
    } else {
        (1 << width) - 1
    }
}

/// The lowest 128 bits of the value's integer in two's complement.
pub(crate) fn word_of(value: Value) -> u128
    ensures { result ≡ bits_of 128 (integer_of value) }
{
    fit(value.kind, 128, value).bits
}

/// The lowest 128 bits of an integer in two's complement.
pub(crate) fn word_from(integer: Integer) -> u128
    ensures { result ≡ bits_of 128 (meaning integer) }
{
    match integer {
        Integer::FromZero(number) => number,
        Integer::BelowZero(number) => u128::MAX - number,
    }
}

/// The value of this kind and width that has the word's lowest bits.
pub(crate) fn cut(kind: Kind, width: u8, word: u128) -> Value
    requires { width ≤ 128 }
    ensures kind { result.kind ≡ kind }
    ensures width { result.width ≡ width }
    ensures integer { (n : ℤ) → word % 2 ^ width ≡ bits_of width n → integer_of result ≡ fit_of kind width n }
{
    let word = Value {
        kind: Kind::Unsigned,
        width: 128,
        bits: word,
    };
    fit(kind, width, word)
}

/// The `UInt<1>` that is 1 where a test holds.
pub(crate) fn truth(test: bool) -> Value
    ensures kind { result.kind ≡ Kind.Unsigned }
    ensures width { result.width ≡ 1 }
    ensures integer { integer_of result ≡ fit_of Kind.Unsigned 1 (one_if test) }
{
    cut(Kind::Unsigned, 1, u128::from(test))
}

/// The number times 2 to a power, modulo 2^128.
pub(crate) fn raised(number: u128, by: u128) -> u128
    ensures { (width : ℕ) → width ≤ 128 → result % 2 ^ width ≡ (number * 2 ^ by) % 2 ^ width }
{
    if by < 128 { number << by } else { 0 }
}

/// The number divided by 2 to a power.
pub(crate) fn lowered(number: u128, by: u128) -> u128
    ensures { result ≡ number / 2 ^ by }
{
    if by < 128 { number >> by } else { 0 }
}
