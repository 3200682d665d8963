//! Values that are fetched: constants, shared words and inputs.

ghost use Rattle.std.specs.Prelude.{◌≡◌, ◌≤◌, ◌<◌, ◌+◌, ◌^◌, ◌-◌, [], IfOk, OnOk};
ghost use Rattle.flat_code.specs.Fine.{further_words, location_slots};
ghost use Rattle.ground_net.specs.Shapes.{shaped};
ghost use Rattle.code_draft.specs.Drafts.{IsDraft, Makes, IsConstant, IsWord, IsInput, with_instr};
ghost use Rattle.code_draft.specs.Segments.{Step};

use crate::draft::Draft;
use crate::steps::{add_instr, instr_of, new_location};
use bit_words::{Kind, Value, high_word, low_word};
use flat_code::{Instr, Location, Op};
use std::alloc::AllocError;

/// A constant.
pub fn constant(draft: &mut Draft, value: Value) -> Result<Location, AllocError>
    ensures shape { IfOk result (λ s. s.kind ≡ value.kind) }
    ensures width { IfOk result (λ s. s.width ≡ value.width) }
    ensures slots { OnOk result (draft.new.slots ≤ draft.old.slots + 2) }
    ensures makes { IfOk result (λ s. IsDraft draft.old → Makes draft.old draft.new s (IsConstant value)) }
    ensures step { IfOk result (λ s. Step draft.old draft.new [] (location_slots s) 2) }
{
    let location = new_location(draft, value.kind, value.width)?;
    let low = fetch(Op::Constant, 0, location.low, low_word(value));
    if value.width <= 64 {
        add_instr(draft, low)?;
        return Ok(location);
    }
    let high = fetch(Op::Constant, 0, location.high, high_word(value));
    add_instr(draft, low)?;
    add_instr(draft, high)?;
    Ok(location)
}

/// The value of a kind and a width, at most 128, that stands in the shared words from this one on.
pub fn load(draft: &mut Draft, kind: Kind, width: u8, word: u32) -> Result<Location, AllocError>
    requires { width ≤ 128 }
    ensures shape { IfOk result (λ s. s.kind ≡ kind) }
    ensures width { IfOk result (λ s. s.width ≡ width) }
    ensures slots { OnOk result (draft.new.slots ≤ draft.old.slots + 2) }
    ensures makes { IfOk result (λ s. IsDraft draft.old → word + further_words width < draft.old.words → Makes draft.old draft.new s (IsWord (shaped kind width) word)) }
    ensures step { IfOk result (λ s. Step draft.old draft.new [] (location_slots s) 2) }
{
    let location = new_location(draft, kind, width)?;
    let low = fetch(Op::Load, word, location.low, low_mask(width));
    if width <= 64 {
        add_instr(draft, low)?;
        return Ok(location);
    }
    let Some(next) = word.checked_add(1) else {
        return Err(AllocError);
    };
    let high = fetch(Op::Load, next, location.high, high_mask(width));
    add_instr(draft, low)?;
    add_instr(draft, high)?;
    Ok(location)
}

/// The input of this number, fitted to a kind and a width of at most 128.
pub fn input(draft: &mut Draft, kind: Kind, width: u8, number: u32) -> Result<Location, AllocError>
    requires { width ≤ 128 }
    ensures shape { IfOk result (λ s. s.kind ≡ kind) }
    ensures width { IfOk result (λ s. s.width ≡ width) }
    ensures slots { OnOk result (draft.new.slots ≤ draft.old.slots + 2) }
    ensures makes { IfOk result (λ s. IsDraft draft.old → Makes draft.old draft.new s (IsInput (shaped kind width) number)) }
    ensures step { IfOk result (λ s. Step draft.old draft.new [] (location_slots s) 2) }
{
    let location = new_location(draft, kind, width)?;
    let low = fetch(Op::Input, number, location.low, low_mask(width));
    if width <= 64 {
        add_instr(draft, low)?;
        return Ok(location);
    }
    let high = fetch(Op::InputHigh, number, location.high, high_mask(width));
    add_instr(draft, low)?;
    add_instr(draft, high)?;
    Ok(location)
}

/// An instruction that reads no slot.
fn fetch(op: Op, first: u32, target: u32, mask: u64) -> Instr
    ensures op { result.op ≡ op }
    ensures first { result.first ≡ first }
    ensures target { result.target ≡ target }
    ensures mask { result.mask ≡ mask }
{
    Instr {
        target,
        mask,
        ..instr_of(op, first)
    }
}

/// The bits of the low word of a width.
pub fn low_mask(width: u8) -> u64
    ensures wide { 64 ≤ width → result ≡ 2 ^ 64 - 1 }
    ensures narrow { width ≤ 64 → result ≡ 2 ^ width - 1 }
{
    if width >= 64 {
        u64::MAX
    } else {
        (1 << width) - 1
    }
}

/// The bits of the high word of a width above 64.
fn high_mask(width: u8) -> u64
    requires { 64 < width }
    ensures { width ≤ 128 → result ≡ 2 ^ (width - 64) - 1 }
{
    low_mask(width - 64)
}
