//! Loads of elements of a row.

ghost use Rattle.std.specs.Prelude.{◌≡◌, ◌<◌, ◌≤◌, ◌+◌, [], ◌∷◌, true, All, IfOk, OnOk};
ghost use Rattle.bit_words.specs.declared.value.Kind.TheVariants.{Unsigned};
ghost use Rattle.flat_code.specs.Meaning.{location_shape};
ghost use Rattle.ground_net.specs.Grounds.{element_count};
ghost use Rattle.ground_net.specs.Shapes.{are_index_shapes};
ghost use Rattle.flat_code.specs.Fine.{location_shapes, location_slots, slots_of};
ghost use Rattle.code_draft.specs.Segments.{Segment};
ghost use Rattle.code_draft.specs.Sources.{elements_shape};
ghost use Rattle.code_draft.specs.Rows.{MakesPicked, KeepsOf, MakesElement, LoadsWord, reaching, keeping};
ghost use Rattle.code_draft.specs.Places.{Adds};

use crate::computing::computed;
use crate::draft::Draft;
use crate::fetching::low_mask;
use crate::places::place_of;
use crate::sources::Elements;
use bit_words::Kind;
use flat_code::{Instr, Location, Op, Region};
use std::alloc::AllocError;

/// A read of an element: its number stands at the address.
#[derive(Clone, Copy)]
pub struct Reading {
    pub address: Location,
    pub elements: Elements,
}

/// The element that these indices pick of vectors of these lengths in one another, row by row, and 0 where one isn't below its length:
/// indices of at most 64 bits.
pub fn load_row(
    draft: &mut Draft,
    indices: &[Location],
    lengths: &[u128],
    elements: Elements,
) -> Result<Location, AllocError>
    requires shape { are_index_shapes (location_shapes indices.now) lengths.now ≡ true }
    requires words { All (λ s. s.width ≤ 64) indices.now }
    requires counted { element_count lengths.now ≡ elements.region.depth }
    requires some { 0 < elements.region.depth }
    ensures shape { IfOk result (λ s. location_shape s ≡ elements_shape elements) }
    ensures makes { IfOk result (MakesPicked elements indices.now lengths.now draft.old draft.new) }
    ensures segment { IfOk result (KeepsOf indices.now draft.old draft.new) }
{
    if indices.len() == 1 {
        let address = indices[0];
        return load_at(draft, Reading { address, elements });
    }
    let slot = place_of(draft, indices, lengths, u64::from(elements.region.depth))?;
    let address = word_at(slot);
    load_at(draft, Reading { address, elements })
}

/// The location of a word.
fn word_at(slot: u32) -> Location
    ensures kind { result.kind ≡ Unsigned }
    ensures width { result.width ≡ 64 }
    ensures low { result.low ≡ slot }
    ensures high { result.high ≡ slot }
{
    Location {
        kind: Kind::Unsigned,
        width: 64,
        low: slot,
        high: slot,
    }
}

/// The element whose number stands at the address, and 0 past the last one: an address of at most 64 bits.
fn load_at(draft: &mut Draft, reading: Reading) -> Result<Location, AllocError>
    requires address { reading.address.width ≤ 64 }
    requires some { 0 < reading.elements.region.depth }
    ensures shape { IfOk result (λ s. location_shape s ≡ elements_shape reading.elements) }
    ensures makes { IfOk result (MakesElement reading draft.old draft.new) }
    ensures slots { OnOk result (draft.new.slots ≤ draft.old.slots + 4) }
    ensures segment { IfOk result (λ s. Segment draft.old draft.new (location_slots reading.address) (location_slots s) 4) }
{
    let Elements {
        kind,
        width,
        region,
    } = reading.elements;
    let address = reading.address.low;
    let low = load_word(draft, address, region, low_mask(width))?;
    if width <= 64 {
        return Ok(Location {
            kind,
            width,
            low,
            high: low,
        });
    }
    let Some(base) = region.base.checked_add(1) else {
        return Err(AllocError);
    };
    let next = Region { base, ..region };
    let high = load_word(draft, address, next, low_mask(width - 64))?;
    Ok(Location {
        kind,
        width,
        low,
        high,
    })
}

/// The word of a region whose number stands at the address, cut by a mask, and 0 past the last one.
fn load_word(draft: &mut Draft, address: u32, region: Region, mask: u64) -> Result<u32, AllocError>
    ensures loads { IfOk result (LoadsWord address region mask draft.old draft.new) }
    ensures adds { IfOk result (λ k. Adds draft.old draft.new (address ∷ [])) }
    ensures slots { OnOk result (draft.new.slots ≤ draft.old.slots + 2) }
    ensures later { IfOk result (λ k. draft.old.slots ≤ k) }
    ensures within { IfOk result (λ k. k < draft.new.slots) }
{
    let word = computed(draft, fetched(address, region))?;
    if mask == u64::MAX {
        return Ok(word);
    }
    computed(draft, cut(word, mask))
}

/// The load of a word.
fn fetched(address: u32, region: Region) -> Instr
    ensures { result ≡ reaching address region }
{
    Instr {
        op: Op::LoadAt,
        shift: 0,
        first: address,
        second: region.base,
        third: region.stride,
        target: 0,
        mask: u64::from(region.depth),
    }
}

/// The word of a slot, cut by a mask.
fn cut(slot: u32, mask: u64) -> Instr
    ensures { result ≡ keeping slot mask }
{
    Instr {
        op: Op::Keep,
        shift: 0,
        first: slot,
        second: 0,
        third: 0,
        target: 0,
        mask,
    }
}
