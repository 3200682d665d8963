//! Regions.

ghost use Rattle.std.specs.Prelude.{◌≡◌, ◌↔◌, ℕ, ◌<◌, ◌≤◌, length, map, take, sum, IsTrue, IfOk, OnOk, Err};
ghost use Rattle.std.specs.List.{flat_map};
ghost use Rattle.word_pool.specs.declared.fault.PoolFault.TheVariants.{Full};
ghost use Rattle.word_pool.specs.Regions.{words_of};

use crate::fault::PoolFault;
use std::alloc::{AllocError, Global};

/// One block of words.
#[derive(Drop)]
pub struct Region {
    words: Vec<u64>,
}

impl Region {
    /// A block of this many words.
    pub fn reserve(alloc: Global, words: usize) -> Result<Region, AllocError>
        ensures { IfOk result (λ region. length (words_of region) ≡ words) }
    {
        Ok(Region {
            words: vec![in alloc; 0; words]?,
        })
    }

    /// Frames of these lengths, cut from the front of the block in order, so that no word is in two.
    ///
    /// `Full` with the number of the block's words exactly where the lengths add up to more.
    pub fn frames(&mut self, lengths: &[usize]) -> Result<Vec<&mut [u64]>, PoolFault>
        ensures lengths { IfOk result (λ frames. map (λ frame. length frame.now) frames.items ≡ lengths.now) }
        ensures words { IfOk result (λ frames. flat_map (λ frame. frame.now) frames.items ≡ take (sum lengths.now) (words_of self.old)) }
        ensures fits { OnOk result (sum lengths.now ≤ length (words_of self.old)) }
        ensures full { (n : ℕ) → result ≡ Err (Full n) → (length (words_of self.old) < sum lengths.now) × (n ≡ length (words_of self.old)) }
        ensures refuses { length (words_of self.old) < sum lengths.now → result ≡ Err (Full (length (words_of self.old))) }
    {
        let words = self.words.len();
        if !fit(words, lengths) {
            return Err(PoolFault::Full(words as u64));
        }
        let mut frames = Vec::new(*self.words.allocator());
        let mut rest = self.words.as_mut_slice();
        for length in lengths {
            let (frame, behind) = rest.split_at_mut(*length);
            if frames.push(frame).is_err() {
                return Err(PoolFault::NoMemory);
            }
            rest = behind;
        }
        Ok(frames)
    }
}

/// Whether lengths add up to at most this many words.
fn fit(words: usize, lengths: &[usize]) -> bool
    ensures { IsTrue result ↔ (sum lengths.now ≤ words) }
{
    let mut left = words;
    for length in lengths {
        if *length > left {
            return false;
        }
        left -= *length;
    }
    true
}
