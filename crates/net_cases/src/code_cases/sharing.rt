//! Codes whose equal instructions stand once.

ghost use Rattle.std.specs.Prelude.{◌≡◌, ◌+◌, ◌<◌, ◌≤◌, All, IfOk};
ghost use Rattle.flat_code.specs.Fine.{IsWide};

use super::arranging::APART;
use super::codes::{Row, code_of, instrs_of, wide_code_with};
use super::steps::published;
use super::telling::{expect, told_code};
use bit_words::{Kind, List};
use code_share::share;
use flat_code::{Code, Form, Location, Op, Wide};
use std::alloc::{AllocError, Global};

/// A word is loaded and complemented, and again when it was published; and the sum of both.
const TWICE: &[Row] = &[
    (Op::Load, 0, 0, 0),
    (Op::Not, 0, 0, 1),
    (Op::Publish, 1, 0, 0),
    (Op::Load, 0, 0, 2),
    (Op::Not, 2, 0, 3),
    (Op::Publish, 3, 1, 0),
    (Op::Add, 1, 3, 4),
    (Op::Publish, 4, 2, 0),
];

/// A loaded word is made wide twice, into slots of its own each time, and each time published.
const WIDE_TWICE: &[Row] = &[
    (Op::Load, 0, 0, 0),
    (Op::Wide, 0, 0, 0),
    (Op::Publish, 1, 0, 0),
    (Op::Publish, 2, 1, 0),
    (Op::Wide, 1, 0, 0),
    (Op::Publish, 3, 2, 0),
    (Op::Publish, 4, 3, 0),
];

/// The code of these rows over seven slots and four words with equal instructions once.
fn shared(alloc: Global, rows: &[Row]) -> Option<Code> {
    share(alloc, &code_of(alloc, 7, 4, rows)?).ok()
}

/// The word in slot 0, made as wide as this, in a slot and the next one.
fn widened(alloc: Global, width: u8, low: u32) -> Result<Wide, AllocError>
    requires narrow { width ≤ 128 }
    requires within { low + 1 < 7 }
    ensures { IfOk result (IsWide 7 4) }
{
    let word = Location {
        kind: Kind::Signed,
        width: 64,
        low: 0,
        high: 0,
    };
    Ok(Wide {
        form: Form::Fit,
        operands: List::from_slice(alloc, &[word])?,
        target: Location {
            kind: Kind::Signed,
            width,
            low,
            high: low + 1,
        },
    })
}

/// The word made wide in slots 1 and 2, and in slots 3 and 4.
fn both_widened(alloc: Global, first: u8, second: u8) -> Result<List<Wide>, AllocError>
    requires first { first ≤ 128 }
    requires second { second ≤ 128 }
    ensures { IfOk result (All (IsWide 7 4)) }
{
    let mut wides = List::new(alloc);
    wides.push(widened(alloc, first, 1)?)?;
    wides.push(widened(alloc, second, 3)?)?;
    Ok(wides)
}

/// The code that makes the word as wide as this and as that, with equal instructions once.
fn shared_wides(alloc: Global, first: u8, second: u8) -> Option<Code>
    requires first { first ≤ 128 }
    requires second { second ≤ 128 }
{
    let wides = both_widened(alloc, first, second).ok()?;
    let instrs = instrs_of(alloc, WIDE_TWICE).ok()?;
    share(alloc, &wide_code_with(alloc, 7, 4, instrs, wides)?).ok()
}

#[test]
fn equal_instructions_stand_once(rt: HostRuntime) {
    for (case, rows, wanted) in [
        (
            "all but one twice",
            TWICE,
            "7: Load 0 0 0; Not 0 0 1; Publish 1 0 0; Publish 1 1 0; Add 1 1 4; Publish 4 2 0;",
        ),
        (
            "all once",
            APART,
            "7: Load 0 0 0; Not 0 0 1; Publish 1 2 0; Load 1 0 2; Not 2 0 3; Publish 3 3 0;",
        ),
    ] {
        let told = match shared(rt.alloc(), rows) {
            Some(code) => told_code(rt.alloc(), &code),
            None => None,
        };
        expect(&rt, told, case, wanted);
    }
}

#[test]
fn equal_wide_values_stand_once(rt: HostRuntime) {
    let once = match shared_wides(rt.alloc(), 100, 100) {
        Some(code) => told_code(rt.alloc(), &code),
        None => None,
    };
    expect(
        &rt,
        once,
        "the same width",
        "7: Load 0 0 0; Wide 0 0 0; Publish 1 0 0; Publish 2 1 0; Publish 1 2 0; Publish 2 3 0;",
    );
    let twice = match shared_wides(rt.alloc(), 100, 101) {
        Some(code) => told_code(rt.alloc(), &code),
        None => None,
    };
    expect(
        &rt,
        twice,
        "another width",
        "7: Load 0 0 0; Wide 0 0 0; Publish 1 0 0; Publish 2 1 0; Wide 1 0 0; Publish 3 2 0; Publish 4 3 0;",
    );
}

#[test]
fn a_load_behind_a_publication_has_the_old_word(rt: HostRuntime) {
    let told = match shared(rt.alloc(), TWICE) {
        Some(code) => published(rt.alloc(), &code, &[15, 51, 0, 0]),
        None => None,
    };
    // 255 - 15, and twice that mod 256
    expect(&rt, told, "complements and their sum", "0 240;1 240;2 224;");
}
