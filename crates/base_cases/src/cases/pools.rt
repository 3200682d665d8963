//! Slots that are taken and given back, and a block that is cut into frames.

use super::telling::expect;
use std::alloc::Global;
use std::process::Abort;
use std::test::Fail;
use word_pool::{PoolFault, Region, Slots};

/// What is taken once the first one taken was given back, and how many were live at once; the answers before it are told here.
fn taken_again(rt: &impl Abort, slots: &mut Slots) -> Result<(u32, u32), PoolFault> {
    let first = slots.take()?;
    expect(rt, "the first", first, 0);
    expect(rt, "the second", slots.take(), Ok(1));
    expect(rt, "one more", slots.take(), Err(PoolFault::Full(2)));
    slots.give(first);
    Ok((slots.take()?, slots.high()))
}

#[test]
fn the_least_slot_is_taken(rt: HostRuntime) {
    let mut slots = Slots::new(rt.alloc(), 2);
    expect(&rt, "none", slots.high(), 0);
    let again = taken_again(&rt, &mut slots);
    expect(&rt, "the first again", again, Ok((0, 2)));
}

#[test]
fn no_slot_is_below_zero(rt: HostRuntime) {
    let mut slots = Slots::new(rt.alloc(), 0);
    expect(&rt, "none", slots.take(), Err(PoolFault::Full(0)));
    expect(&rt, "none taken", slots.high(), 0);
}

#[test]
fn reserved_slots_are_taken_from_zero(rt: HostRuntime) -> Result<(), Fail> {
    let mut slots = Slots::new(rt.alloc(), 4);
    slots.reserve(3)?;
    for wanted in 0..3 {
        expect(&rt, "a slot", slots.take(), Ok(wanted));
    }
    expect(&rt, "all taken", slots.high(), 3);
    Ok(())
}

/// Writes its number, from 1, in all words of each frame of these lengths, and tells the frames.
fn told_frames(alloc: Global, region: &mut Region, lengths: &[usize]) -> Option<String> {
    match region.frames(lengths) {
        Ok(mut frames) => {
            for (number, frame) in (1_u64..).zip(frames.iter_mut()) {
                for word in frame.iter_mut() {
                    *word = number;
                }
            }
            format!(in alloc; "{frames:?}").ok()
        }
        Err(fault) => format!(in alloc; "{fault:?}").ok(),
    }
}

#[test]
fn frames_are_cut_from_the_front(rt: HostRuntime) -> Result<(), Fail> {
    let mut region = Region::reserve(rt.alloc(), 5)?;
    for (lengths, wanted) in [
        ([2, 3].as_slice(), "[[1, 1], [2, 2, 2]]"),
        ([3, 3].as_slice(), "Full(5)"),
        ([].as_slice(), "[]"),
        ([0, 5, 0].as_slice(), "[[], [2, 2, 2, 2, 2], []]"),
        ([6].as_slice(), "Full(5)"),
        ([usize::MAX, 1].as_slice(), "Full(5)"),
    ] {
        let told = told_frames(rt.alloc(), &mut region, lengths);
        expect(&rt, lengths, told.as_deref(), Some(wanted));
    }
    Ok(())
}
