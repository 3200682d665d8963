//! Single steps of growing.

ghost use Rattle.std.specs.Prelude.{◌≡◌, ◌≤◌, ◌<◌, ◌+◌, ◌++◌, [], ◌∷◌, ◌^◌, length, IfOk, OnOk};
ghost use Rattle.flat_code.specs.Fine.{further_words};
ghost use Rattle.code_draft.specs.Drafts.{with_instr, with_wide, with_slots, location_from};

use crate::draft::Draft;
use bit_words::{Kind, List};
use flat_code::{Instr, Location, Op, Wide};
use std::alloc::{AllocError, Global};

/// No code yet, over this many shared words.
pub fn empty(alloc: Global, words: u32) -> Draft
    ensures instrs { result.instrs ≡ [] }
    ensures ports { result.ports ≡ [] }
    ensures wides { result.wides ≡ [] }
    ensures slots { result.slots ≡ 0 }
    ensures words { result.words ≡ words }
{
    Draft {
        instrs: List::new(alloc),
        ports: List::new(alloc),
        wides: List::new(alloc),
        slots: 0,
        words,
    }
}

/// Adds an instruction.
pub fn add_instr(draft: &mut Draft, instr: Instr) -> Result<(), AllocError>
    ensures { OnOk result (draft.new ≡ with_instr draft.old instr) }
{
    draft.instrs.push(instr)
}

/// The instruction of this kind with this first operand, and 0 for all else.
pub fn instr_of(op: Op, first: u32) -> Instr
    ensures op { result.op ≡ op }
    ensures shift { result.shift ≡ 0 }
    ensures first { result.first ≡ first }
    ensures second { result.second ≡ 0 }
    ensures third { result.third ≡ 0 }
    ensures target { result.target ≡ 0 }
    ensures mask { result.mask ≡ 0 }
{
    Instr {
        op,
        shift: 0,
        first,
        second: 0,
        third: 0,
        target: 0,
        mask: 0,
    }
}

/// Adds a wide value, and gives its number.
pub(crate) fn add_wide(draft: &mut Draft, wide: Wide) -> Result<u32, AllocError>
    ensures draft { OnOk result (draft.new ≡ with_wide draft.old wide) }
    ensures number { IfOk result (λ k. k ≡ length draft.old.wides) }
{
    let Ok(number) = u32::try_from(draft.wides.len()) else {
        return Err(AllocError);
    };
    draft.wides.push(wide)?;
    Ok(number)
}

/// Takes the next slots for a value of this kind and width. Where slots have no more numbers of 32 bits it is want of memory.
pub(crate) fn new_location(draft: &mut Draft, kind: Kind, width: u8) -> Result<Location, AllocError>
    requires { width ≤ 128 }
    ensures draft { OnOk result (draft.new ≡ with_slots draft.old (further_words width + 1)) }
    ensures location { IfOk result (λ s. location_from draft.old.slots kind width s) }
{
    let further = if width > 64 { 1 } else { 0 };
    let low = draft.slots;
    let Some(high) = low.checked_add(further) else {
        return Err(AllocError);
    };
    let Some(slots) = high.checked_add(1) else {
        return Err(AllocError);
    };
    draft.slots = slots;
    Ok(Location {
        kind,
        width,
        low,
        high,
    })
}
