//! Cycles of a code.

ghost use Rattle.std.specs.Prelude.{◌≡◌, length};

use base_cases::{WordList, repeated};
use bit_words::{Kind, List, Row, from_words};
use flat_code::{Code, step};
use phase_core::Publication;
use std::alloc::{AllocError, Global};

/// Runs so many cycles, and answers a word that all publications go into.
pub fn cycles(alloc: Global, code: &Code, count: u64) -> Option<u64> {
    let mut words = repeated(alloc, 0, code.words as usize).ok()?;
    let mut frame = repeated(alloc, 0, code.frame_length()).ok()?;
    let mut effects = code.effects(alloc).ok()?;
    let inputs = row(alloc).ok()?;
    let mut mark = 0;
    for _cycle in 0..count {
        let mut loads = WordList {
            items: words.as_slice(),
        };
        step(
            code,
            frame.as_mut_slice(),
            &mut loads,
            &inputs,
            &mut effects,
        );
        mark = publish(effects.publications.as_slice(), words.as_mut_slice(), mark);
    }
    Some(mark)
}

/// Inputs of 100 bits.
fn row(alloc: Global) -> Result<Row, AllocError> {
    let mut inputs = List::new(alloc);
    for number in 0..64u64 {
        inputs.push(from_words(Kind::Unsigned, 100, number + 1, number * 3))?;
    }
    Ok(inputs)
}

/// Puts publications into the words, and mixes them into a mark.
fn publish(publications: &[Publication], words: &mut [u64], mark: u64) -> u64
    ensures { length words.new ≡ length words.old }
{
    let mut mark = mark;
    for publication in publications {
        if let Some(at) = words.get_mut(publication.word as usize) {
            *at = publication.value;
        }
        mark = (mark ^ publication.value).wrapping_mul(31);
        mark = mark.wrapping_add(u64::from(publication.word));
    }
    mark
}
