//! The line that says which fault a text has, and where.

ghost use Rattle.std.specs.Prelude.{◌≡◌, IfOk};
ghost use Rattle.place_text.specs.Places.{fault_line_bytes};

use crate::place::{Place, TextPart};
use itoa::Buffer;
use std::alloc::{AllocError, Global};

/// The line `circuit KIND L:C`, `stimulus KIND L:C` or `state KIND L:C`, with its line feed, for a fault of this kind at
/// this place.
#[tactic(auto, unfolding(crate::specs::Places::fault_line_bytes))]
pub fn fault_line(
    alloc: Global,
    part: TextPart,
    kind: &str,
    place: Place,
) -> Result<Vec<u8>, AllocError>
    ensures { IfOk result (λ line. line.items ≡ fault_line_bytes part kind.now place) }
{
    let word = match part {
        TextPart::Circuit => "circuit ",
        TextPart::Stimulus => "stimulus ",
        TextPart::State => "state ",
    };
    let mut digits = Buffer::new();
    let mut line = Vec::from_slice(alloc, word.as_bytes())?;
    line.extend_from_slice(kind.as_bytes())?;
    line.push(b' ')?;
    line.extend_from_slice(digits.format(place.line).as_bytes())?;
    line.push(b':')?;
    line.extend_from_slice(digits.format(place.column).as_bytes())?;
    line.push(b'\n')?;
    Ok(line)
}
