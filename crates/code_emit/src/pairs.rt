//! Words that are made of the words of two operands.

ghost use Rattle.std.specs.Prelude.{◌≡◌, ◌≤◌, ◌+◌, List as TheList, All, IfOk, OnOk};
ghost use Rattle.flat_code.specs.declared.instr.Op.TheVariants.{Not};
ghost use Rattle.flat_code.specs.declared.instr.Location.{Location as TheLocation};
ghost use Rattle.flat_code.specs.Meaning.{location_shape};
ghost use Rattle.flat_code.specs.Fine.{location_slots, slots_of};
ghost use Rattle.ground_net.specs.Shapes.{shaped};
ghost use Rattle.code_draft.specs.Drafts.{IsDraft, Stands, Makes};
ghost use Rattle.code_draft.specs.Segments.{Segment};
ghost use Rattle.code_emit.specs.Working.{working, from_slots};
ghost use Rattle.code_emit.specs.Ways.{Given, IsMade, IsPair};

use crate::ways::{Measure, at_slot};
use code_draft::{Draft, computed};
use flat_code::{Instr, Location, Op};
use std::alloc::AllocError;

/// How a word is made of two others.
#[derive(Clone, Copy)]
pub(crate) struct Pair {
    /// Gives a word.
    pub first: Instr,
    /// Gives another one.
    pub second: Instr,
    /// Computes of both, in its first two slots.
    pub last: Instr,
    /// Whether that is a bit which is turned round.
    pub turned: bool,
}

/// The value of a kind and a width of at most 64 bits, whose word is made so.
pub(crate) fn paired(
    draft: &mut Draft,
    pair: Pair,
    measure: Measure,
) -> Result<Location, AllocError>
    requires { measure.width ≤ 64 }
    ensures shape { IfOk result (λ s. location_shape s ≡ shaped measure.kind measure.width) }
    ensures makes { IfOk result (λ s. (locations : TheList TheLocation) (R : Given) → IsPair pair locations R → IsDraft draft.old → All (Stands draft.old) locations → Makes draft.old draft.new s (IsMade R locations (shaped measure.kind measure.width))) }
    ensures slots { OnOk result (draft.new.slots ≤ draft.old.slots + 4) }
    ensures segment { IfOk result (λ s. (locations : TheList TheLocation) (R : Given) → IsPair pair locations R → Segment draft.old draft.new (slots_of locations) (location_slots s) 2) }
{
    let one = computed(draft, pair.first)?;
    let other = computed(draft, pair.second)?;
    let slot = computed(draft, of_both(pair.last, one, other))?;
    if pair.turned {
        let last = computed(draft, turning(slot))?;
        Ok(at_slot(last, measure))
    } else {
        Ok(at_slot(slot, measure))
    }
}

/// The instruction with other first and second slots.
fn of_both(last: Instr, one: u32, other: u32) -> Instr
    ensures { result ≡ from_slots one other last }
{
    Instr {
        op: last.op,
        shift: last.shift,
        first: one,
        second: other,
        third: last.third,
        target: last.target,
        mask: last.mask,
    }
}

/// The other bit.
fn turning(slot: u32) -> Instr
    ensures { result ≡ working Not 0 slot 0 0 1 }
{
    Instr {
        op: Op::Not,
        shift: 0,
        first: slot,
        second: 0,
        third: 0,
        target: 0,
        mask: 1,
    }
}
