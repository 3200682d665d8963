//! Codes in another order and in few slots.

use super::codes::{Row, code_of};
use super::telling::{expect, told_code};
use bit_words::List;
use code_order::{arrange, exchange, faster, reorder};
use code_place::{move_to, place, places_of};
use flat_code::{Code, Op};
use std::alloc::Global;

/// A word is loaded, complemented and published, and then another.
pub const APART: &[Row] = &[
    (Op::Load, 0, 0, 0),
    (Op::Not, 0, 0, 1),
    (Op::Publish, 1, 2, 0),
    (Op::Load, 1, 0, 2),
    (Op::Not, 2, 0, 3),
    (Op::Publish, 3, 3, 0),
];

/// Three slots are written before one is read.
pub const MIXED: &[Row] = &[
    (Op::Load, 0, 0, 0),
    (Op::Constant, 0, 0, 1),
    (Op::Load, 1, 0, 2),
    (Op::Add, 0, 1, 3),
    (Op::Not, 2, 0, 4),
    (Op::Publish, 3, 2, 0),
    (Op::Publish, 4, 3, 0),
];

/// The code of these rows over seven slots and four words, in another order.
pub fn reordered(alloc: Global, rows: &[Row], window: usize) -> Option<Code> {
    reorder(alloc, code_of(alloc, 7, 4, rows)?, window).ok()
}

/// The code of these rows over seven slots and four words, arranged in at most so many slots where it needs no more.
pub fn arranged(alloc: Global, rows: &[Row], most: u32) -> Option<Code> {
    arrange(alloc, code_of(alloc, 7, 4, rows)?, most).ok()
}

/// The code of these rows, in an order in which at most so many slots are live at once, if it is one that tells.
fn within(alloc: Global, rows: &[Row], most: u32) -> Option<Vec<u8>> {
    let code = code_of(alloc, 7, 4, rows)?;
    let instrs = faster(alloc, &code, 8, most).ok()??;
    let (code, _) = exchange(code, List::from_vec(instrs));
    told_code(alloc, &code)
}

/// The code of these rows in few slots, in its order.
fn placed(alloc: Global, rows: &[Row]) -> Option<Vec<u8>> {
    let code = place(alloc, code_of(alloc, 7, 4, rows)?).ok()?;
    told_code(alloc, &code)
}

/// The same in two steps.
fn moved(alloc: Global, rows: &[Row]) -> Option<Vec<u8>> {
    let code = code_of(alloc, 7, 4, rows)?;
    let table = places_of(alloc, &code).ok()?;
    let code = move_to(alloc, code, &table).ok()?;
    told_code(alloc, &code)
}

#[test]
fn equal_operations_stand_side_by_side(rt: HostRuntime) {
    for (case, window, wanted) in [
        (
            "one window",
            8,
            "7: Load 0 0 0; Load 1 0 2; Not 0 0 1; Not 2 0 3; Publish 1 2 0; Publish 3 3 0;",
        ),
        (
            "two windows",
            3,
            "7: Load 0 0 0; Not 0 0 1; Publish 1 2 0; Load 1 0 2; Not 2 0 3; Publish 3 3 0;",
        ),
        (
            "one instruction",
            1,
            "7: Load 0 0 0; Not 0 0 1; Publish 1 2 0; Load 1 0 2; Not 2 0 3; Publish 3 3 0;",
        ),
    ] {
        let told = match reordered(rt.alloc(), APART, window) {
            Some(code) => told_code(rt.alloc(), &code),
            None => None,
        };
        expect(&rt, told, case, wanted);
    }
}

#[test]
fn an_order_keeps_few_slots_live(rt: HostRuntime) {
    for (case, most, wanted) in [
        (
            "two slots",
            2,
            "7: Load 0 0 0; Load 1 0 2; Not 0 0 1; Not 2 0 3; Publish 1 2 0; Publish 3 3 0;",
        ),
        (
            "one slot",
            1,
            "7: Load 0 0 0; Not 0 0 1; Publish 1 2 0; Load 1 0 2; Not 2 0 3; Publish 3 3 0;",
        ),
    ] {
        let told = within(rt.alloc(), APART, most);
        expect(&rt, told, case, wanted);
    }
}

#[test]
fn slots_are_placed_again(rt: HostRuntime) {
    for (case, rows, wanted) in [
        (
            "one after the other",
            APART,
            "1: Load 0 0 0; Not 0 0 0; Publish 0 2 0; Load 1 0 0; Not 0 0 0; Publish 0 3 0;",
        ),
        (
            "three at once",
            MIXED,
            "3: Load 0 0 1; Constant 0 0 2; Load 1 0 0; Add 1 2 1; Not 0 0 0; Publish 1 2 0; Publish 0 3 0;",
        ),
    ] {
        expect(&rt, placed(rt.alloc(), rows), case, wanted);
        expect(&rt, moved(rt.alloc(), rows), case, wanted);
    }
}

#[test]
fn an_arranged_code_has_few_slots(rt: HostRuntime) {
    for (case, rows, most, wanted) in [
        (
            "its own order",
            APART,
            0,
            "1: Load 0 0 0; Not 0 0 0; Publish 0 2 0; Load 1 0 0; Not 0 0 0; Publish 0 3 0;",
        ),
        (
            "a faster order in more slots",
            APART,
            2,
            "2: Load 0 0 1; Load 1 0 0; Not 1 0 1; Not 0 0 0; Publish 1 2 0; Publish 0 3 0;",
        ),
        (
            "a faster order in as many",
            MIXED,
            0,
            "3: Constant 0 0 2; Load 0 0 1; Load 1 0 0; Not 0 0 0; Add 1 2 1; Publish 1 2 0; Publish 0 3 0;",
        ),
    ] {
        let told = match arranged(rt.alloc(), rows, most) {
            Some(code) => told_code(rt.alloc(), &code),
            None => None,
        };
        expect(&rt, told, case, wanted);
    }
}
