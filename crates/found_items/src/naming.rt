//! The numbers of names by their texts.

ghost use Rattle.std.specs.Prelude.{◌≡◌, ℕ, ◌<◌, Some, None, List as Listed, IfOk, OnOk, is_some, if◌then◌else◌};
ghost use Rattle.std.specs.Str.{bytes_eq};
ghost use Rattle.std.specs.BTreeMap.{get_by};
ghost use Rattle.std.specs.Cmp.Lexicographic.{slice_cmp};
ghost use Rattle.std.specs.Ordering.{nat_cmp};
ghost use Rattle.item_lines.specs.Items.{number_in};
ghost use Rattle.found_items.specs.Finding.{Has};

use fir_tree::Names;
use std::alloc::{AllocError, Global};
use std::collections::BTreeMap;

/// A `u32` holds the numbers below this.
const NUMBERS: u64 = 4_294_967_296;

/// The numbers of names by their texts, of each text the first. A name whose number a `u32` doesn't hold isn't noted.
pub fn numbers_of<'a>(
    alloc: Global,
    names: &'a Names,
) -> Result<BTreeMap<&'a [u8], u32>, AllocError>
    ensures { IfOk result (λ numbers. (text : Listed ℕ) → Has names.now text → number_in names.now text < 4294967296 → get_by (λ k. slice_cmp nat_cmp text k.now) numbers ≡ Some (number_in names.now text)) }
{
    let mut numbers = BTreeMap::new(alloc);
    for number in 0..NUMBERS {
        let id = number as u32;
        let Some(text) = names.get(id) else {
            return Ok(numbers);
        };
        note(&mut numbers, text.as_bytes(), id)?;
    }
    Ok(numbers)
}

/// Notes the number of a text, unless it has one.
fn note<'a>(
    numbers: &mut BTreeMap<&'a [u8], u32>,
    text: &'a [u8],
    id: u32,
) -> Result<(), AllocError>
    ensures { OnOk result ((other : Listed ℕ) → get_by (λ k. slice_cmp nat_cmp other k.now) numbers.new
        ≡ (if is_some (get_by (λ k. slice_cmp nat_cmp other k.now) numbers.old) then get_by (λ k. slice_cmp nat_cmp other k.now) numbers.old else if bytes_eq text.now other then Some id else None)) }
{
    if numbers.get(text).is_none() {
        numbers.insert(text, id)?;
    }
    Ok(())
}
