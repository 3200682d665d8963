//! The decimal text of a value.

ghost use Rattle.std.specs.Prelude.{◌≡◌, ◌++◌, OnOk, OnErr};
ghost use Rattle.bit_words.specs.declared.value.Kind.TheVariants.{Signed};
ghost use Rattle.bit_words.specs.Values.{integer, integer_of};
ghost use Rattle.bit_words.specs.Decimals.{decimal_text};

use crate::fitting::{greatest, is_negative};
use crate::value::{Kind, Value};
use itoa::Buffer;
use std::alloc::AllocError;

/// Appends the decimal text of a value's integer, a `-` first where it is negative.
///
/// Where memory is wanted the bytes stay as they were.
pub fn push_decimal(out: &mut Vec<u8>, value: Value) -> Result<(), AllocError>
    ensures ok { OnOk result (out.new.items ≡ out.old.items ++ decimal_text (integer_of value)) }
    ensures err { OnErr result (out.new.items ≡ out.old.items) }
{
    let mut buffer = Buffer::new();
    match value.kind {
        Kind::Unsigned => out.extend_from_slice(buffer.format(value.bits).as_bytes()),
        Kind::Signed => out.extend_from_slice(buffer.format(signed(value)).as_bytes()),
    }
}

/// The integer that the bits mean in two's complement.
fn signed(value: Value) -> i128
    ensures { result ≡ integer Signed value.width value.bits }
{
    if is_negative(value) {
        -1 - (greatest(value.width) - value.bits) as i128
    } else {
        value.bits as i128
    }
}
