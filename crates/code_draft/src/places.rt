//! The place of an element by its indices.

ghost use Rattle.std.specs.Prelude.{◌≡◌, ◌<◌, ◌≤◌, ◌+◌, ◌-◌, ◌*◌, ◌^◌, [], ◌∷◌, true, length, All, IfOk, OnOk};
ghost use Rattle.flat_code.specs.declared.instr.Op.TheVariants.{Constant as ConstantOf};
ghost use Rattle.ground_net.specs.Grounds.{element_count};
ghost use Rattle.ground_net.specs.Shapes.{are_index_shapes};
ghost use Rattle.flat_code.specs.Fine.{location_shapes, slots_of};
ghost use Rattle.code_draft.specs.Drafts.{IsDraft, Stands};
ghost use Rattle.code_draft.specs.Places.{on_slots, GivesFrom, AddsIndex, Adds, Finds, offset_word, guarded_word};

use crate::computing::computed;
use crate::draft::Draft;
use flat_code::{Instr, Location, Op};
use std::alloc::AllocError;

/// An index, among how many elements it picks, how many stand inside each of these, and how many there are in all.
#[derive(Clone, Copy)]
pub struct Level {
    pub index: Location,
    pub length: u64,
    pub inner: u64,
    pub all: u64,
}

/// Computes the place of the element that these indices pick of vectors of these lengths in one another, row by row. Where one isn't below
/// its length, it is at least the number of all elements.
pub(crate) fn place_of(
    draft: &mut Draft,
    indices: &[Location],
    lengths: &[u128],
    all: u64,
) -> Result<u32, AllocError>
    requires shape { are_index_shapes (location_shapes indices.now) lengths.now ≡ true }
    requires words { All (λ s. s.width ≤ 64) indices.now }
    requires counted { element_count lengths.now ≡ all }
    requires some { 0 < all }
    requires few { all < 2 ^ 32 }
    ensures finds { IfOk result (λ k. IsDraft draft.old → All (Stands draft.old) indices.now → Finds draft.old draft.new indices.now lengths.now all k) }
    ensures adds { IfOk result (λ k. Adds draft.old draft.new (slots_of indices.now)) }
    ensures slots { OnOk result (draft.new.slots ≤ draft.old.slots + (7 * length indices.now + 1)) }
    ensures later { IfOk result (λ k. draft.old.slots ≤ k) }
    ensures within { IfOk result (λ k. k < draft.new.slots) }
{
    let mut place = computed(draft, constant(0))?;
    let mut inner = 1;
    let mut at = indices.len();
    while at > 0 {
        at -= 1;
        let level = Level {
            index: indices[at],
            length: lengths[at] as u64,
            inner,
            all,
        };
        place = pick(draft, level, place)?;
        inner *= level.length;
    }
    Ok(place)
}

/// Adds an index to the place inside the element that it picks.
fn pick(draft: &mut Draft, level: Level, rest: u32) -> Result<u32, AllocError>
    requires { level.index.width ≤ 64 }
    ensures gives { IfOk result (AddsIndex level rest draft.old draft.new) }
    ensures adds { IfOk result (λ k. Adds draft.old draft.new (level.index.low ∷ rest ∷ [])) }
    ensures slots { OnOk result (draft.new.slots ≤ draft.old.slots + 7) }
    ensures later { IfOk result (λ k. draft.old.slots ≤ k) }
    ensures within { IfOk result (λ k. k < draft.new.slots) }
{
    let sum = offset(draft, level, rest)?;
    if level.index.width < 64 && 1 << level.index.width <= level.length {
        return Ok(sum);
    }
    guarded(draft, level, sum)
}

/// The index times the elements inside, and the place inside.
fn offset(draft: &mut Draft, level: Level, rest: u32) -> Result<u32, AllocError>
    ensures gives { IfOk result (GivesFrom level rest offset_word draft.old draft.new) }
    ensures adds { IfOk result (λ k. Adds draft.old draft.new (level.index.low ∷ rest ∷ [])) }
    ensures slots { OnOk result (draft.new.slots ≡ draft.old.slots + 3) }
    ensures later { IfOk result (λ k. draft.old.slots ≤ k) }
    ensures within { IfOk result (λ k. k < draft.new.slots) }
{
    let inner = computed(draft, constant(level.inner))?;
    let product = computed(draft, on(Op::Mul, level.index.low, inner, 0))?;
    computed(draft, on(Op::Add, product, rest, 0))
}

/// The sum, where the index is below its length, and else the number of all elements.
fn guarded(draft: &mut Draft, level: Level, sum: u32) -> Result<u32, AllocError>
    ensures gives { IfOk result (GivesFrom level sum guarded_word draft.old draft.new) }
    ensures adds { IfOk result (λ k. Adds draft.old draft.new (level.index.low ∷ sum ∷ [])) }
    ensures slots { OnOk result (draft.new.slots ≡ draft.old.slots + 4) }
    ensures later { IfOk result (λ k. draft.old.slots ≤ k) }
    ensures within { IfOk result (λ k. k < draft.new.slots) }
{
    let length = computed(draft, constant(level.length))?;
    let below = computed(draft, on(Op::Less, level.index.low, length, 0))?;
    let all = computed(draft, constant(level.all))?;
    computed(draft, on(Op::Mux, below, sum, all))
}

/// A constant.
fn constant(word: u64) -> Instr
    ensures { result ≡ on_slots ConstantOf 0 0 0 word }
{
    Instr {
        op: Op::Constant,
        shift: 0,
        first: 0,
        second: 0,
        third: 0,
        target: 0,
        mask: word,
    }
}

/// An operation on slots.
fn on(op: Op, first: u32, second: u32, third: u32) -> Instr
    ensures { result ≡ on_slots op first second third (2 ^ 64 - 1) }
{
    Instr {
        op,
        shift: 0,
        first,
        second,
        third,
        target: 0,
        mask: u64::MAX,
    }
}
