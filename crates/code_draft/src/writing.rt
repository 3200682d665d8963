//! Publishing by a port.

ghost use Rattle.std.specs.Prelude.{◌≡◌, [], ◌∷◌, length, OnOk, IfOk};
ghost use Rattle.flat_code.specs.Fine.{slots_of};
ghost use Rattle.code_draft.specs.Segments.{Segment};
ghost use Rattle.code_draft.specs.Writing.{with_port, PublishesBy};

use crate::draft::Draft;
use crate::steps::{add_instr, instr_of};
use flat_code::{Op, Port};
use std::alloc::AllocError;

/// Publishes what a port writes: the words of its source at the element of its address, where all of its conditions are 1.
pub fn publish_by(draft: &mut Draft, port: Port) -> Result<(), AllocError>
    ensures publishes { OnOk result (PublishesBy draft.old draft.new port) }
    ensures segment { OnOk result (Segment draft.old draft.new (slots_of (port.address ∷ port.source ∷ port.conditions)) [] 0) }
{
    let number = add_port(draft, port)?;
    add_instr(draft, instr_of(Op::PublishAt, number))
}

/// Adds a port, and gives its number. Where ports have no more numbers of 32 bits it is want of memory.
fn add_port(draft: &mut Draft, port: Port) -> Result<u32, AllocError>
    ensures draft { OnOk result (draft.new ≡ with_port draft.old port) }
    ensures number { IfOk result (λ k. k ≡ length draft.old.ports) }
{
    let Ok(number) = u32::try_from(draft.ports.len()) else {
        return Err(AllocError);
    };
    draft.ports.push(port)?;
    Ok(number)
}
