//! The listing of a cut. Keeps the contract that it is, byte by byte, the text of the cut.
ghost use Rattle.std.specs.Prelude.{◌≡◌, ◌++◌, IfOk, OnOk, decimal};
ghost use Rattle.cut_listing.specs.Listing.{part_line, total_line, listing_of, all_assignments};

use ground_net::{Cut, CutPart};
use itoa::Buffer;
use std::alloc::{AllocError, Global};

/// The listing of a cut: a line `partition K sinks S assignments A` for each partition, with its number and how many sinks and
/// assignments it has, and then `needed U placed T`, how many assignments the partitions need together and the sum of what they
/// have. Each line is ended by a line feed.
pub fn cut_text(alloc: Global, cut: &Cut) -> Result<Vec<u8>, AllocError>
    ensures { IfOk result (λ text. text.items ≡ listing_of cut.now) }
{
    let mut text = Vec::new(alloc);
    for (number, part) in cut.parts.as_slice().iter().enumerate() {
        push_part(&mut text, number, part)?;
    }
    push_totals(&mut text, cut.needed, placed(cut.parts.as_slice()))?;
    Ok(text)
}

/// How many assignments the partitions have, what several have counted for each.
fn placed(parts: &[CutPart]) -> u128
    ensures { result ≡ all_assignments parts.now }
{
    let mut total: u128 = 0;
    for part in parts {
        total += part.assignments.len() as u128;
    }
    total
}

/// Adds the line of a partition.
fn push_part(text: &mut Vec<u8>, number: usize, part: &CutPart) -> Result<(), AllocError>
    ensures { OnOk result (text.new.items ≡ text.old.items ++ part_line number part.now) }
{
    push_count(text, b"partition ", number as u128)?;
    push_count(text, b" sinks ", part.sinks.len() as u128)?;
    push_count(text, b" assignments ", part.assignments.len() as u128)?;
    text.push(b'\n')?;
    Ok(())
}

/// Adds the last line.
fn push_totals(text: &mut Vec<u8>, needed: u32, placed: u128) -> Result<(), AllocError>
    ensures { OnOk result (text.new.items ≡ text.old.items ++ total_line needed placed) }
{
    push_count(text, b"needed ", needed as u128)?;
    push_count(text, b" placed ", placed)?;
    text.push(b'\n')?;
    Ok(())
}

/// Adds some bytes and a number in decimal.
fn push_count(text: &mut Vec<u8>, label: &[u8], count: u128) -> Result<(), AllocError>
    ensures { OnOk result (text.new.items ≡ text.old.items ++ label.now ++ decimal count) }
{
    let mut digits = Buffer::new();
    text.extend_from_slice(label)?;
    text.extend_from_slice(digits.format(count).as_bytes())?;
    Ok(())
}
