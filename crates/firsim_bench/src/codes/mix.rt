//! Code over a mix of all operations. A block has 18 instructions on words, a publication, the write of a port and a wide value.

ghost use Rattle.std.specs.Prelude.{◌≡◌, ℕ, ◌+◌, ◌*◌, ◌<◌, ◌≤◌, List as Listed, length, All, IfOk, IfSome, [], ◌∷◌};
ghost use Rattle.bit_words.specs.declared.value.Kind.TheVariants.{Unsigned as unsigned};
ghost use Rattle.flat_code.specs.Fine.{IsFine, AreFine, IsLocation, IsWide, IsPort};
ghost use Rattle.code_place.specs.Live.{IsSingle};

use bit_words::{Kind, List};
use code_order::writes_once;
use flat_code::{Code, Form, Instr, Location, Op, Port, Region, Wide};
use prim_ops::Prim;
use std::alloc::{AllocError, Global};

/// Where elements stand that are loaded and written.
const ELEMENTS: Region = Region {
    base: 128,
    stride: 2,
    depth: 16,
};

/// Three slots.
#[derive(Clone, Copy)]
struct Trio {
    first: u32,
    second: u32,
    third: u32,
}

/// The code of so many blocks. None where it isn't in order, which doesn't come.
pub fn mixed(alloc: Global, blocks: u32) -> Result<Option<Code>, AllocError>
    requires some { 0 < blocks }
    requires few { blocks ≤ 1000000 }
    ensures { IfOk result (λ o. IfSome o IsSingle) }
{
    let ports = ports_of(alloc, blocks)?;
    let wides = wides_of(alloc, blocks)?;
    let instrs = instrs_of(alloc, blocks)?;
    let slots = 20 * blocks;
    let most = 2 * instrs.len();
    if !writes_once(
        alloc,
        ports.as_slice(),
        wides.as_slice(),
        instrs.as_slice(),
        slots,
    )? {
        return Ok(None);
    }
    Ok(Some(Code {
        instrs,
        runs: List::new(alloc),
        ports,
        wides,
        shown: List::new(alloc),
        positions: List::new(alloc),
        owned: List::new(alloc),
        slots,
        words: 4096,
        once: 0,
        most,
    }))
}

/// The port of each block.
fn ports_of(alloc: Global, blocks: u32) -> Result<List<Port>, AllocError>
    requires few { blocks ≤ 1000000 }
    ensures count { IfOk result (λ all. length all ≡ blocks) }
    ensures fine { IfOk result (λ all. All (IsPort (20 * blocks) 4096) all) }
{
    let mut all = List::new(alloc);
    for block in 0..blocks {
        all.push(port_of(alloc, block, blocks)?)?;
    }
    Ok(all)
}

/// The wide value of each block.
fn wides_of(alloc: Global, blocks: u32) -> Result<List<Wide>, AllocError>
    requires few { blocks ≤ 1000000 }
    ensures count { IfOk result (λ all. length all ≡ blocks) }
    ensures fine { IfOk result (λ all. All (IsWide (20 * blocks) 4096) all) }
{
    let mut all = List::new(alloc);
    for block in 0..blocks {
        all.push(wide_of(alloc, block, blocks)?)?;
    }
    Ok(all)
}

/// The instructions of all blocks.
fn instrs_of(alloc: Global, blocks: u32) -> Result<List<Instr>, AllocError>
    requires few { blocks ≤ 1000000 }
    ensures count { IfOk result (λ all. length all ≡ 21 * blocks) }
    ensures fine { IfOk result (λ all. AreFine (20 * blocks) 4096 blocks blocks all) }
{
    let mut all = List::new(alloc);
    for number in 0..21 * blocks {
        all.push(instr_of(number / 21, number % 21, blocks))?;
    }
    Ok(all)
}

/// An instruction of a block.
fn instr_of(block: u32, at: u32, blocks: u32) -> Instr
    requires within { block < blocks }
    requires place { at < 21 }
    requires few { blocks ≤ 1000000 }
    ensures { IsFine (20 * blocks) 4096 blocks blocks result }
{
    let seed = mixed_up(u64::from(block) * 21 + u64::from(at));
    let behind = 18 * block + at.min(18);
    if behind == 0 {
        return plain(Op::Constant, same(0), 2 * blocks, seed);
    }
    let reads = Trio {
        first: slot_before(seed, behind, blocks),
        second: slot_before(mixed_up(seed), behind, blocks),
        third: slot_before(mixed_up(seed ^ 1), behind, blocks),
    };
    match at {
        18 => Instr {
            op: Op::Publish,
            second: word_of(seed),
            ..plain(Op::Keep, reads, 0, seed)
        },
        19 => plain(Op::PublishAt, same(block), 0, seed),
        20 => plain(Op::Wide, same(block), 0, seed),
        _ => narrow(reads, 2 * blocks + behind, seed, blocks),
    }
}

/// An instruction on words.
fn narrow(reads: Trio, target: u32, seed: u64, blocks: u32) -> Instr
    requires first { reads.first < 20 * blocks }
    requires second { reads.second < 20 * blocks }
    requires third { reads.third < 20 * blocks }
    requires target { target < 20 * blocks }
    requires few { blocks ≤ 1000000 }
    ensures { IsFine (20 * blocks) 4096 blocks blocks result }
{
    let word = Trio {
        first: word_of(seed),
        second: 1,
        third: 1,
    };
    match (seed >> 40) % 18 {
        0 => plain(Op::Constant, reads, target, seed),
        1 => plain(Op::Input, word, target, seed),
        2 => plain(Op::InputHigh, word, target, seed),
        3 => plain(Op::Load, word, target, seed),
        4 => Instr {
            mask: 4000,
            ..plain(
                Op::LoadAt,
                Trio {
                    first: reads.first,
                    ..word
                },
                target,
                seed,
            )
        },
        5 => plain(Op::Right, reads, target, seed),
        6 => plain(Op::Keep, reads, target, seed),
        7 => plain(Op::Extend, reads, target, seed),
        8 => plain(Op::Join, reads, target, seed),
        9 => plain(Op::Not, reads, target, seed),
        10 => plain(Op::Add, reads, target, seed),
        11 => plain(Op::Sub, reads, target, seed),
        12 => plain(Op::Equal, reads, target, seed),
        13 => plain(Op::Less, reads, target, seed),
        14 => plain(Op::And, reads, target, seed),
        15 => plain(Op::Or, reads, target, seed),
        16 => plain(Op::Xor, reads, target, seed),
        _ => plain(Op::Mux, reads, target, seed),
    }
}

/// An instruction on these slots.
fn plain(op: Op, reads: Trio, target: u32, seed: u64) -> Instr
    ensures op { result.op ≡ op }
    ensures shift { result.shift ≡ 3 }
    ensures first { result.first ≡ reads.first }
    ensures second { result.second ≡ reads.second }
    ensures third { result.third ≡ reads.third }
    ensures target { result.target ≡ target }
{
    Instr {
        op,
        shift: 3,
        first: reads.first,
        second: reads.second,
        third: reads.third,
        target,
        mask: u64::MAX >> (seed % 64),
    }
}

/// What a block writes into an element.
fn port_of(alloc: Global, block: u32, blocks: u32) -> Result<Port, AllocError>
    requires within { block < blocks }
    requires few { blocks ≤ 1000000 }
    ensures { IfOk result (IsPort (20 * blocks) 4096) }
{
    let mut conditions = List::new(alloc);
    conditions.push(operand(block, 0, 1, blocks))?;
    Ok(Port {
        region: ELEMENTS,
        conditions,
        address: operand(block, 1, 4, blocks),
        source: operand(block, 2, 100, blocks),
    })
}

/// The wide value of a block: each form in turn.
fn wide_of(alloc: Global, block: u32, blocks: u32) -> Result<Wide, AllocError>
    requires within { block < blocks }
    requires few { blocks ≤ 1000000 }
    ensures { IfOk result (IsWide (20 * blocks) 4096) }
{
    let condition = operand(block, 3, 1, blocks);
    let first = operand(block, 4, 100, blocks);
    let second = operand(block, 5, 100, blocks);
    let target = Location {
        kind: Kind::Unsigned,
        width: 100,
        low: 2 * block,
        high: 2 * block + 1,
    };
    let mut operands = List::new(alloc);
    let form = match block % 6 {
        0 => {
            operands.push(first)?;
            operands.push(second)?;
            Form::Apply(Prim::Xor, List::new(alloc))
        }
        1 => {
            operands.push(condition)?;
            operands.push(first)?;
            operands.push(second)?;
            Form::Choose
        }
        2 => {
            operands.push(condition)?;
            operands.push(first)?;
            operands.push(second)?;
            Form::Select
        }
        3 => {
            operands.push(operand(block, 6, 4, blocks))?;
            operands.push(condition)?;
            Form::Load(ELEMENTS)
        }
        4 => {
            operands.push(operand(block, 7, 128, blocks))?;
            Form::Fit
        }
        _ => {
            operands.push(first)?;
            operands.push(second)?;
            operands.push(condition)?;
            Form::Gate
        }
    };
    Ok(Wide {
        form,
        operands,
        target,
    })
}

/// A value of this width in two slots that are written by the end of a block.
fn operand(block: u32, number: u64, width: u8, blocks: u32) -> Location
    requires within { block < blocks }
    requires few { blocks ≤ 1000000 }
    requires narrow { width ≤ 128 }
    requires small { number < 8 }
    ensures location { IsLocation (20 * blocks) result }
    ensures kind { result.kind ≡ unsigned }
    ensures width { result.width ≡ width }
{
    let seed = mixed_up(u64::from(block) * 8 + number);
    Location {
        kind: Kind::Unsigned,
        width,
        low: slot_before(seed, 18 * block + 18, blocks),
        high: slot_before(mixed_up(seed), 18 * block + 18, blocks),
    }
}

/// One of the last 1,000 slots before the one of this number behind those of the wide values.
fn slot_before(seed: u64, behind: u32, blocks: u32) -> u32
    requires some { 0 < behind }
    requires within { behind ≤ 18 * blocks }
    requires few { blocks ≤ 1000000 }
    ensures { result < 20 * blocks }
{
    let back = 1 + ((seed >> 33) % u64::from(behind.min(1000))) as u32;
    2 * blocks + (behind - back)
}

/// The number of a shared word.
fn word_of(seed: u64) -> u32
    ensures { result < 64 }
{
    ((seed >> 20) % 64) as u32
}

/// One slot three times.
fn same(slot: u32) -> Trio
    ensures first { result.first ≡ slot }
{
    Trio {
        first: slot,
        second: slot,
        third: slot,
    }
}

/// A number with bits at all places, another for each number.
fn mixed_up(number: u64) -> u64 {
    let once = (number ^ (number >> 30)).wrapping_mul(0xbf58_476d_1ce4_e5b9);
    let twice = (once ^ (once >> 27)).wrapping_mul(0x94d0_49bb_1331_11eb);
    (twice ^ (twice >> 31)).wrapping_add(0x9e37_79b9_7f4a_7c15)
}
