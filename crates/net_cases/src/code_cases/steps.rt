//! Steps of codes: what they publish.

use super::arranging::{APART, MIXED, arranged, reordered};
use super::codes::{Row, code_of};
use super::telling::expect;
use base_cases::{WordList, repeated};
use bit_words::List;
use flat_code::{Code, step};
use std::alloc::Global;
use std::io::Write;

/// The word and the value of each publication of a step in a frame of ones.
pub fn published(alloc: Global, code: &Code, words: &[u64]) -> Option<Vec<u8>> {
    if words.len() != code.words as usize {
        return None;
    }
    let mut frame = repeated(alloc, 1, code.frame_length()).ok()?;
    let mut effects = code.effects(alloc).ok()?;
    let mut loads = WordList { items: words };
    let inputs = List::new(alloc);
    let slots = frame.as_mut_slice();
    step(code, slots, &mut loads, &inputs, &mut effects);
    let mut text = Vec::new(alloc);
    for publication in effects.publications.as_slice() {
        write!(text, "{} {};", publication.word, publication.value).ok()?;
    }
    Some(text)
}

/// What a code publishes, and what it publishes in another order and in few slots.
fn published_thrice(alloc: Global, rows: &[Row], words: &[u64]) -> Option<Vec<u8>> {
    let count = 7;
    let plain = code_of(alloc, count, 4, rows)?;
    let mut text = published(alloc, &plain, words)?;
    let other = published(alloc, &reordered(alloc, rows, 8)?, words)?;
    text.extend_from_slice(other.as_slice()).ok()?;
    let few = published(alloc, &arranged(alloc, rows, 7)?, words)?;
    text.extend_from_slice(few.as_slice()).ok()?;
    Some(text)
}

#[test]
fn a_step_publishes_the_same_in_any_order(rt: HostRuntime) {
    for (case, rows, wanted) in [
        // 255 - 15 and 255 - 51
        (
            "two complements",
            APART,
            "2 240;3 204;2 240;3 204;2 240;3 204;",
        ),
        // (15 + 255) mod 256, and 255 - 51
        (
            "a sum and a complement",
            MIXED,
            "2 14;3 204;2 14;3 204;2 14;3 204;",
        ),
    ] {
        let told = published_thrice(rt.alloc(), rows, &[15, 51, 0, 0]);
        expect(&rt, told, case, wanted);
    }
}
