//! Publishing.

ghost use Rattle.std.specs.Prelude.{◌≡◌, [], OnOk};
ghost use Rattle.flat_code.specs.Fine.{location_slots};
ghost use Rattle.flat_code.specs.declared.instr.Op.TheVariants.{Publish};
ghost use Rattle.code_draft.specs.Segments.{Segment};
ghost use Rattle.code_draft.specs.Publishing.{Publishes};

use crate::draft::Draft;
use crate::steps::{add_instr, instr_of};
use flat_code::{Instr, Location, Op};
use std::alloc::AllocError;

/// Publishes the words of the value at a location from this shared word on, the low one first.
pub fn publish(draft: &mut Draft, location: Location, word: u32) -> Result<(), AllocError>
    ensures publishes { OnOk result (Publishes draft.old draft.new word location) }
    ensures segment { OnOk result (Segment draft.old draft.new (location_slots location) [] 0) }
{
    let low = publication(location.low, word);
    if location.width <= 64 {
        return add_instr(draft, low);
    }
    let Some(next) = word.checked_add(1) else {
        return Err(AllocError);
    };
    let high = publication(location.high, next);
    add_instr(draft, low)?;
    add_instr(draft, high)
}

/// The instruction that publishes a slot as a shared word.
fn publication(slot: u32, word: u32) -> Instr
    ensures op { result.op ≡ Publish }
    ensures first { result.first ≡ slot }
    ensures second { result.second ≡ word }
{
    Instr {
        second: word,
        ..instr_of(Op::Publish, slot)
    }
}
