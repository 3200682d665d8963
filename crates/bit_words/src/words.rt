//! The two words of a value, and back.

ghost use Rattle.std.specs.Prelude.{◌≡◌, ◌≤◌, ◌+◌, ◌*◌, ◌/◌, ◌^◌, ◌%◌};

use crate::fitting::cut;
use crate::value::{Kind, Value};

/// The lower 64 bits. Takes no memory.
pub fn low_word(value: Value) -> u64
    ensures { result ≡ value.bits % 2 ^ 64 }
{
    (value.bits & 0xffff_ffff_ffff_ffff) as u64
}

/// The bits from the 64th on. Takes no memory.
pub fn high_word(value: Value) -> u64
    ensures { result ≡ value.bits / 2 ^ 64 }
{
    (value.bits >> 64) as u64
}

/// The value of this kind and width that has the bits of these two words. Bits above the width are dropped.
///
/// The width is at most 128. Takes no memory.
pub fn from_words(kind: Kind, width: u8, low: u64, high: u64) -> Value
    requires { width ≤ 128 }
    ensures kind { result.kind ≡ kind }
    ensures width { result.width ≡ width }
    ensures bits { result.bits ≡ (low + high * 2 ^ 64) % 2 ^ width }
{
    let bits = u128::from(low) | (u128::from(high) << 64);
    Value {
        kind,
        width,
        bits: cut(bits, width),
    }
}
