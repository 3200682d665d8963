//! Codes of instructions that are written by hand.

ghost use Rattle.std.specs.Prelude.{◌≡◌, true, All, IfSome, IfOk};
ghost use Rattle.flat_code.specs.Fine.{IsFine, IsWide, AreFine};
ghost use Rattle.code_place.specs.Live.{IsSingle};

use bit_words::List;
use code_order::writes_once;
use flat_code::{Code, Instr, Op, Wide};
use std::alloc::{AllocError, Global};

/// An operation with its first and second number and its target. The mask is 255.
pub type Row = (Op, u32, u32, u32);

/// The code of these rows over so many slots and shared words, which shows nothing. None where they may not stand in a code or a slot is
/// written twice.
pub fn code_of(alloc: Global, slots: u32, words: u32, rows: &[Row]) -> Option<Code>
    ensures { IfSome result IsSingle }
{
    match instrs_of(alloc, rows) {
        Ok(instrs) => code_with(alloc, slots, words, instrs),
        Err(_) => None,
    }
}

/// The same of instructions.
pub fn code_with(alloc: Global, slots: u32, words: u32, instrs: List<Instr>) -> Option<Code>
    ensures { IfSome result IsSingle }
{
    wide_code_with(alloc, slots, words, instrs, List::new(alloc))
}

/// The same of instructions and wide values.
pub fn wide_code_with(
    alloc: Global,
    slots: u32,
    words: u32,
    instrs: List<Instr>,
    wides: List<Wide>,
) -> Option<Code>
    requires { All (IsWide slots words) wides }
    ensures { IfSome result IsSingle }
{
    match made_of(alloc, slots, words, instrs, wides) {
        Ok(made) => made,
        Err(_) => None,
    }
}

fn made_of(
    alloc: Global,
    slots: u32,
    words: u32,
    instrs: List<Instr>,
    wides: List<Wide>,
) -> Result<Option<Code>, AllocError>
    requires { All (IsWide slots words) wides }
    ensures { IfOk result (λ made. IfSome made IsSingle) }
{
    if instrs.len() > 1_000_000 || !are_fine(instrs.as_slice(), slots, words, wides.len()) {
        return Ok(None);
    }
    if !writes_once(alloc, &[], wides.as_slice(), instrs.as_slice(), slots)? {
        return Ok(None);
    }
    let most = instrs.len() * 2;
    Ok(Some(Code {
        instrs,
        runs: List::new(alloc),
        ports: List::new(alloc),
        wides,
        shown: List::new(alloc),
        positions: List::new(alloc),
        owned: List::new(alloc),
        slots,
        words,
        once: 0,
        most,
    }))
}

/// The instructions of these rows.
pub fn instrs_of(alloc: Global, rows: &[Row]) -> Result<List<Instr>, AllocError> {
    let mut instrs = List::new(alloc);
    for (op, first, second, target) in rows {
        instrs.push(Instr {
            op: *op,
            shift: 0,
            first: *first,
            second: *second,
            third: 0,
            target: *target,
            mask: 255,
        })?;
    }
    Ok(instrs)
}

/// Whether all of these are instructions over so many slots, shared words and wide values.
fn are_fine(instrs: &[Instr], slots: u32, words: u32, wides: usize) -> bool
    ensures { result ≡ true → AreFine slots words 0 wides instrs.now }
{
    for instr in instrs {
        if !is_fine(*instr, slots, words, wides) {
            return false;
        }
    }
    true
}

/// Whether it is an instruction over so many slots, shared words and wide values.
fn is_fine(instr: Instr, slots: u32, words: u32, wides: usize) -> bool
    ensures { result ≡ true → IsFine slots words 0 wides instr }
{
    match instr.op {
        Op::Constant => instr.target < slots,
        Op::Load => instr.target < slots && instr.first < words,
        Op::Publish => instr.first < slots && instr.second < words,
        Op::Wide => (instr.first as usize) < wides,
        Op::Not | Op::IsMask | Op::Parity => instr.target < slots && instr.first < slots,
        Op::Left => instr.target < slots && instr.first < slots && instr.shift < 64,
        Op::Add
        | Op::Mul
        | Op::Quotient
        | Op::Remainder
        | Op::Below
        | Op::RightBy
        | Op::RightSigned
        | Op::LeftBy => instr.target < slots && instr.first < slots && instr.second < slots,
        _ => false,
    }
}
