//! Words that are computed from words in slots.

ghost use Rattle.std.specs.Prelude.{◌≡◌, ◌+◌, IfOk, OnOk};
ghost use Rattle.code_draft.specs.Drafts.{IsDraft, Computes, Works, at_slot, with_instr, with_slots};

use crate::draft::Draft;
use crate::steps::add_instr;
use flat_code::Instr;
use std::alloc::AllocError;

/// Adds an instruction that computes a word, and gives the new slot where it stands. The instruction's own target doesn't count.
/// Where slots have no more numbers of 32 bits it is want of memory.
pub fn computed(draft: &mut Draft, work: Instr) -> Result<u32, AllocError>
    ensures works { IfOk result (λ k. IsDraft draft.old → Computes draft.old work → Works draft.old draft.new work k) }
    ensures slots { OnOk result (draft.new.slots ≡ draft.old.slots + 1) }
    ensures code { OnOk result (draft.new ≡ with_instr (with_slots draft.old 1) (at_slot draft.old.slots work)) }
    ensures place { IfOk result (λ k. k ≡ draft.old.slots) }
{
    let slot = draft.slots;
    let Some(slots) = slot.checked_add(1) else {
        return Err(AllocError);
    };
    draft.slots = slots;
    add_instr(draft, with_target(work, slot))?;
    Ok(slot)
}

/// The instruction with another target.
fn with_target(work: Instr, target: u32) -> Instr
    ensures { result ≡ at_slot target work }
{
    Instr { target, ..work }
}
