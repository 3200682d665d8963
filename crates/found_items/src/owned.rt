//! The items of each module.

ghost use Rattle.std.specs.Prelude.{◌≡◌, ℕ, ◌<◌, [], ◌∷◌, ◌++◌, length, get_or, slice_set, IfOk, OnOk};
ghost use Rattle.found_items.specs.Tables.{AreOwn};

use bit_words::List;
use fir_tree::PrintItem;
use std::alloc::{AllocError, Global};

/// For each module below a number the numbers of its items.
pub fn owned(
    alloc: Global,
    count: usize,
    prints: &[PrintItem],
) -> Result<Vec<List<usize>>, AllocError>
    ensures { IfOk result (λ own. AreOwn count prints.now own.items) }
{
    let mut own = none_owned(alloc, count)?;
    for at in 0..prints.len() {
        let holder = prints[at].module as usize;
        if holder < count {
            put(&mut own, holder, at)?;
        }
    }
    Ok(own)
}

/// So many modules without an item.
fn none_owned(alloc: Global, count: usize) -> Result<Vec<List<usize>>, AllocError>
    ensures counted { IfOk result (λ own. length own.items ≡ count) }
    ensures none { IfOk result (λ own. (k : ℕ) → get_or own.items k [] ≡ []) }
{
    let mut own = Vec::new(alloc);
    for _ in 0..count {
        own.push(List::new(alloc))?;
    }
    Ok(own)
}

/// Adds an item to a module.
fn put(own: &mut Vec<List<usize>>, holder: usize, number: usize) -> Result<(), AllocError>
    requires { holder < length own.old.items }
    ensures { OnOk result (own.new.items ≡ slice_set own.old.items holder (get_or own.old.items holder [] ++ number ∷ [])) }
{
    own[holder].push(number)?;
    Ok(())
}
