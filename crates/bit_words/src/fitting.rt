//! Fitting a value to a kind and a width.

ghost use Rattle.std.specs.Prelude.{◌≡◌, ℕ, ◌≤◌, ◌<◌, ◌+◌, ◌*◌, ◌^◌, ◌↔◌, ◌%◌, IsTrue};
ghost use Rattle.bit_words.specs.Values.{integer, bits_of, integer_of, fit_of};

use crate::value::{Kind, Value};

/// The value of this kind and width that is congruent to the source's integer modulo 2 to the power of the width: the
/// source is extended by its own kind or cut, and its bits are then read as the new kind. At width 0 it is 0.
///
/// The width is at most 128. Takes no memory.
pub fn fit(kind: Kind, width: u8, source: Value) -> Value
    requires { width ≤ 128 }
    ensures kind { result.kind ≡ kind }
    ensures width { result.width ≡ width }
    ensures bits { result.bits ≡ bits_of width (integer_of source) }
    ensures integer { integer_of result ≡ fit_of kind width (integer_of source) }
{
    Value {
        kind,
        width,
        bits: cut(extended(source), width),
    }
}

/// The bits, extended to 128 by the value's own kind.
fn extended(value: Value) -> u128
    ensures { (width : ℕ) → width ≤ 128 → result % 2 ^ width ≡ bits_of width (integer value.kind value.width value.bits) }
{
    match value.kind {
        Kind::Signed if is_negative(value) => u128::MAX - (greatest(value.width) - value.bits),
        _ => value.bits,
    }
}

/// Whether the highest bit of the width is set.
pub(crate) fn is_negative(value: Value) -> bool
    ensures { IsTrue result ↔ (2 ^ value.width ≤ 2 * value.bits) }
{
    value.bits > greatest(value.width) / 2
}

/// The greatest number of this width.
pub(crate) fn greatest(width: u8) -> u128
    requires { width ≤ 128 }
    ensures { result + 1 ≡ 2 ^ width }
{
    if width == 128 {
        u128::MAX
    } else {
        (1 << width) - 1
    }
}

/// The bits below the width.
pub(crate) fn cut(bits: u128, width: u8) -> u128
    requires { width ≤ 128 }
    ensures { result ≡ bits % 2 ^ width }
{
    if width == 128 {
        bits
    } else {
        bits % (1 << width)
    }
}
