//! Ways in which a word is made of words in slots.

ghost use Rattle.std.specs.Prelude.{◌≡◌, ◌≤◌, ◌+◌, List as TheList, All, IfOk, OnOk};
ghost use Rattle.flat_code.specs.declared.instr.Location.{Location as TheLocation};
ghost use Rattle.flat_code.specs.Meaning.{location_shape};
ghost use Rattle.flat_code.specs.Fine.{location_slots, slots_of};
ghost use Rattle.ground_net.specs.Shapes.{shaped};
ghost use Rattle.code_draft.specs.Drafts.{IsDraft, Stands, Makes};
ghost use Rattle.code_draft.specs.Segments.{Step};
ghost use Rattle.code_emit.specs.Working.{working, from_slot, at_one_slot};
ghost use Rattle.code_emit.specs.Ways.{Given, IsMade, IsWay};

use bit_words::Kind;
use code_draft::{Draft, computed};
use flat_code::{Instr, Location, Op};
use std::alloc::AllocError;

/// A kind and a width of at most 128.
#[derive(Clone, Copy)]
pub struct Measure {
    pub kind: Kind,
    pub width: u8,
    ghost narrow: { width ≤ 128 },
}

/// How a word is made.
#[derive(Clone, Copy)]
pub(crate) enum Way {
    /// It stands in this slot.
    Same(u32),
    /// One instruction computes it.
    Word(Instr),
    /// The second instruction computes it of the word that the first one gives, in its first slot.
    Twice(Instr, Instr),
}

/// The value of a kind and a width of at most 64 bits, whose word is made in this way.
pub(crate) fn made(draft: &mut Draft, way: Way, measure: Measure) -> Result<Location, AllocError>
    requires { measure.width ≤ 64 }
    ensures shape { IfOk result (λ s. location_shape s ≡ shaped measure.kind measure.width) }
    ensures makes { IfOk result (λ s. (locations : TheList TheLocation) (R : Given) → IsWay way locations R → IsDraft draft.old → All (Stands draft.old) locations → Makes draft.old draft.new s (IsMade R locations (shaped measure.kind measure.width))) }
    ensures slots { OnOk result (draft.new.slots ≤ draft.old.slots + 2) }
    ensures step { IfOk result (λ s. (locations : TheList TheLocation) (R : Given) → IsWay way locations R → Step draft.old draft.new (slots_of locations) (location_slots s) 2) }
{
    match way {
        Way::Same(slot) => Ok(at_slot(slot, measure)),
        Way::Word(work) => {
            let slot = computed(draft, work)?;
            Ok(at_slot(slot, measure))
        }
        Way::Twice(work, next) => {
            let slot = computed(draft, work)?;
            let last = computed(draft, after(next, slot))?;
            Ok(at_slot(last, measure))
        }
    }
}

/// The location of one slot.
pub(crate) fn at_slot(slot: u32, measure: Measure) -> Location
    ensures { at_one_slot measure.kind measure.width slot result }
{
    Location {
        kind: measure.kind,
        width: measure.width,
        low: slot,
        high: slot,
    }
}

/// The instruction with another first slot.
fn after(next: Instr, slot: u32) -> Instr
    ensures { result ≡ from_slot slot next }
{
    Instr {
        op: next.op,
        shift: next.shift,
        first: slot,
        second: next.second,
        third: next.third,
        target: next.target,
        mask: next.mask,
    }
}

/// An instruction on the word of one operand.
pub(crate) fn of_one(op: Op, x: Location, shift: u8, mask: u64) -> Instr
    ensures { result ≡ working op shift x.low 0 0 mask }
{
    Instr {
        op,
        shift,
        first: x.low,
        second: 0,
        third: 0,
        target: 0,
        mask,
    }
}

/// An instruction on the words of two operands.
pub(crate) fn of_two(op: Op, x: Location, y: Location, mask: u64) -> Instr
    ensures { result ≡ working op 0 x.low y.low 0 mask }
{
    Instr {
        op,
        shift: 0,
        first: x.low,
        second: y.low,
        third: 0,
        target: 0,
        mask,
    }
}
