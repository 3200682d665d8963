//! The listing of a refined cut. Keeps the contract that it is, byte by byte, the text of the refined cut.

ghost use Rattle.std.specs.Prelude.{◌≡◌, ◌++◌, IfOk, OnOk, decimal};
ghost use Rattle.cut_listing.specs.RefinedTexts.{greatest_line, move_line, refined_listing};

use crate::cut_print::cut_text;
use cut_refine::{Move, Refined};
use itoa::Buffer;
use std::alloc::{AllocError, Global};

/// The listing of a refined cut: the lines of the cut, a line `greatest G` with its greatest cost, and a line `sink S to T greatest H` for
/// each row of its table. Each line is ended by a line feed.
pub fn refine_text(alloc: Global, refined: &Refined) -> Result<Vec<u8>, AllocError>
    ensures { IfOk result (λ text. text.items ≡ refined_listing refined.now) }
{
    let mut text = cut_text(alloc, &refined.cut)?;
    push_greatest(&mut text, refined.greatest)?;
    for row in refined.table.as_slice() {
        push_move(&mut text, row)?;
    }
    Ok(text)
}

/// Adds the line of the greatest cost.
fn push_greatest(text: &mut Vec<u8>, greatest: u32) -> Result<(), AllocError>
    ensures { OnOk result (text.new.items ≡ text.old.items ++ greatest_line greatest) }
{
    push_number(text, b"greatest ", greatest)?;
    text.push(b'\n')?;
    Ok(())
}

/// Adds the line of a row.
fn push_move(text: &mut Vec<u8>, row: &Move) -> Result<(), AllocError>
    ensures { OnOk result (text.new.items ≡ text.old.items ++ move_line row.now) }
{
    push_number(text, b"sink ", row.sink)?;
    push_number(text, b" to ", row.target)?;
    push_number(text, b" greatest ", row.greatest)?;
    text.push(b'\n')?;
    Ok(())
}

/// Adds some bytes and a number in decimal.
fn push_number(text: &mut Vec<u8>, label: &[u8], number: u32) -> Result<(), AllocError>
    ensures { OnOk result (text.new.items ≡ text.old.items ++ label.now ++ decimal number) }
{
    let mut digits = Buffer::new();
    text.extend_from_slice(label)?;
    text.extend_from_slice(digits.format(number).as_bytes())?;
    Ok(())
}
