//! Operations on two words: what each publishes.

ghost use Rattle.std.specs.Prelude.{IfSome};
ghost use Rattle.code_place.specs.Live.{IsSingle};

use super::codes::code_with;
use super::steps::published;
use super::telling::expect;
use bit_words::List;
use code_order::arrange;
use flat_code::{Code, Instr, Op};
use std::alloc::{AllocError, Global};

/// All bits.
const ALL: u64 = u64::MAX;
/// The bit of the sign.
const SIGN: u64 = 1 << 63;

/// An operation with its shift and its mask, the words that it works on, and what is published.
type Case = (Op, u8, u64, u64, u64, &'static str);

const CASES: &[Case] = &[
    // (2^32 + 1)^2 is 2^64 + 2^33 + 1
    (
        Op::Mul,
        0,
        ALL,
        4_294_967_297,
        4_294_967_297,
        "2 8589934593;",
    ),
    (Op::Quotient, 0, ALL, ALL, 2, "2 9223372036854775807;"),
    (Op::Quotient, 0, ALL, 7, 0, "2 0;"),
    (Op::Remainder, 0, ALL, ALL, 10, "2 5;"),
    (Op::Remainder, 0, ALL, 7, 0, "2 0;"),
    (Op::IsMask, 0, 255, 255, 0, "2 1;"),
    (Op::IsMask, 0, 255, 511, 0, "2 0;"),
    // -1 and 0, and the least and the greatest number with a sign
    (Op::Below, 0, 1, ALL, 0, "2 1;"),
    (Op::Below, 0, 1, 0, ALL, "2 0;"),
    (Op::Below, 0, 1, SIGN, SIGN - 1, "2 1;"),
    (Op::Parity, 0, 1, 7, 0, "2 1;"),
    (Op::Parity, 0, 1, ALL, 0, "2 0;"),
    (Op::RightBy, 0, ALL, SIGN, 63, "2 1;"),
    (Op::RightBy, 0, ALL, SIGN, 64, "2 0;"),
    (Op::RightSigned, 0, ALL, SIGN, 1, "2 13835058055282163712;"),
    (Op::RightSigned, 0, ALL, SIGN, 64, "2 18446744073709551615;"),
    (Op::RightSigned, 0, 255, SIGN, ALL, "2 255;"),
    (Op::RightSigned, 0, ALL, SIGN - 1, 64, "2 0;"),
    (Op::Left, 63, ALL, 3, 0, "2 9223372036854775808;"),
    (Op::LeftBy, 0, ALL, 3, 63, "2 9223372036854775808;"),
    (Op::LeftBy, 0, ALL, 3, 64, "2 0;"),
];

/// The words 0 and 1 are loaded, and what an operation gives on them is published as the word 2.
fn on_two(alloc: Global, work: Instr) -> Result<List<Instr>, AllocError> {
    let mut instrs = List::new(alloc);
    instrs.push(loading(0))?;
    instrs.push(loading(1))?;
    instrs.push(work)?;
    instrs.push(Instr {
        op: Op::Publish,
        first: 2,
        second: 2,
        ..work
    })?;
    Ok(instrs)
}

/// Loads a word into the slot of its number.
fn loading(word: u32) -> Instr {
    Instr {
        op: Op::Load,
        shift: 0,
        first: word,
        second: 0,
        third: 0,
        target: word,
        mask: ALL,
    }
}

/// The code of a case.
fn code_of_case(alloc: Global, case: &Case) -> Option<Code>
    ensures { IfSome result IsSingle }
{
    let (op, shift, mask, ..) = *case;
    let work = Instr {
        op,
        shift,
        first: 0,
        second: 1,
        third: 0,
        target: 2,
        mask,
    };
    match on_two(alloc, work) {
        Ok(instrs) => code_with(alloc, 3, 3, instrs),
        Err(_) => None,
    }
}

/// What a case publishes.
fn plain(alloc: Global, case: &Case) -> Option<Vec<u8>> {
    published(alloc, &code_of_case(alloc, case)?, &[case.3, case.4, 0])
}

/// What it publishes in another order and in few slots.
fn arranged(alloc: Global, case: &Case) -> Option<Vec<u8>> {
    let few = arrange(alloc, code_of_case(alloc, case)?, 3).ok()?;
    published(alloc, &few, &[case.3, case.4, 0])
}

#[test]
fn an_operation_publishes_its_word(rt: HostRuntime) {
    for case in CASES {
        expect(&rt, plain(rt.alloc(), case), "the rows", case.5);
        expect(&rt, arranged(rt.alloc(), case), "few slots", case.5);
    }
}
