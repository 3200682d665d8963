//! What codes need that are made by hand: shared words in a list, and words to begin with.
ghost use Rattle.std.specs.Prelude.{◌≡◌, length, IfOk};
ghost use Rattle.std.proofs.Common.{refl, ◌∙◌};

use flat_code::Loads;
use std::alloc::{AllocError, Global};

/// Shared words in a list.
#[derive(Drop)]
pub struct WordList<'a> {
    pub items: &'a [u64],
}

impl<'a> Loads for WordList<'a> {
    ghost words = { λ l. l.items.now };

    ghost ready = { λ l. Unit {0} };

    ghost same = { λ a b. b.items.now ≡ a.items.now };

    fn load(&mut self, word: u32) -> u64 {
        self.items[word as usize]
    }

    ghost same_words = { λ a b h. h };

    ghost same_ready = { λ a b h r. r };

    ghost same_self = { λ a. refl };

    ghost same_on = { λ a b c h k. k ∙ h };
}

/// The same word so many times.
pub fn repeated(alloc: Global, word: u64, count: usize) -> Result<Vec<u64>, AllocError>
    ensures { IfOk result (λ all. length all.items ≡ count) }
{
    let mut all = Vec::new(alloc);
    all.resize(count, word)?;
    Ok(all)
}
