//! The text of a `printf`.

ghost use Rattle.std.specs.Prelude.{◌≡◌, ◌++◌, length, IfOk, OnOk};
ghost use Rattle.item_lines.specs.Formats.{shows};
ghost use Rattle.print_stop.specs.Printed.{shown, printed};

use crate::digits::push_digits;
use bit_words::{List, Row, Value, push_decimal};
use fir_tree::{Piece, Radix};
use std::alloc::{AllocError, Global};

/// What a format prints with these values, one for each that it shows: `Dec` in decimal with a minus, `Bin` and `Hex` the bits in least
/// digits, `Char` the lowest 8 bits as a byte.
pub fn print_text(alloc: Global, pieces: &List<Piece>, values: &Row) -> Result<Vec<u8>, AllocError>
    requires { length values.now ≡ shows pieces.now }
    ensures { IfOk result (λ bytes. bytes.items ≡ printed pieces.now values.now) }
{
    let mut bytes = Vec::new(alloc);
    push_text(&mut bytes, pieces.as_slice(), values.as_slice())?;
    Ok(bytes)
}

/// Appends what a format prints.
pub(crate) fn push_text(
    out: &mut Vec<u8>,
    pieces: &[Piece],
    values: &[Value],
) -> Result<(), AllocError>
    requires { length values.now ≡ shows pieces.now }
    ensures { OnOk result (out.new.items ≡ out.old.items ++ printed pieces.now values.now) }
{
    let mut next = 0;
    for piece in pieces {
        match piece {
            Piece::Bytes(text) => out.extend_from_slice(text.as_slice())?,
            Piece::Show(radix) => {
                push_value(out, *radix, values[next])?;
                next += 1;
            }
        }
    }
    Ok(())
}

/// Appends a value as it is shown.
fn push_value(out: &mut Vec<u8>, radix: Radix, value: Value) -> Result<(), AllocError>
    ensures { OnOk result (out.new.items ≡ out.old.items ++ shown radix value) }
{
    match radix {
        Radix::Bin => push_digits(out, value.bits, 2),
        Radix::Dec => push_decimal(out, value),
        Radix::Hex => push_digits(out, value.bits, 16),
        Radix::Char => {
            out.push((value.bits % 256) as u8)?;
            Ok(())
        }
    }
}

/// How many values a format shows.
pub(crate) fn shown_values(pieces: &[Piece]) -> usize
    ensures { result ≡ shows pieces.now }
{
    let mut count = 0;
    for piece in pieces {
        if let Piece::Show(_) = piece {
            count += 1;
        }
    }
    count
}
