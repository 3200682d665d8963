//! Choices between two values.

ghost use Rattle.std.specs.Prelude.{◌≡◌, ◌≤◌, ◌+◌, ◌∷◌, [], true, Some, None, Ok, IfOk, OnOk, IfSome, All};
ghost use Rattle.flat_code.specs.Meaning.{location_shape};
ghost use Rattle.flat_code.specs.Fine.{location_slots, slots_of};
ghost use Rattle.ground_net.specs.Grounds.{chosen};
ghost use Rattle.ground_net.specs.Shapes.{shaped};
ghost use Rattle.code_draft.specs.Drafts.{IsDraft, Stands, Makes};
ghost use Rattle.code_draft.specs.Segments.{Step};
ghost use Rattle.flat_code.specs.declared.instr.Op.TheVariants.{Mux};
ghost use Rattle.code_emit.specs.Working.{working};
ghost use Rattle.code_emit.specs.Ways.{IsMade, IsWay};

use crate::ways::{Measure, Way, made};
use bit_words::Kind;
use code_draft::Draft;
use flat_code::{Instr, Location, Op};
use std::alloc::AllocError;

/// The second item where the first one is 1, and else the third, where they are three and words suffice for it; else none, and the
/// code stays as it is.
pub fn choice_word(
    draft: &mut Draft,
    items: &[Location],
    measure: Measure,
) -> Result<Option<Location>, AllocError>
    ensures shape { IfOk result (λ o. IfSome o (λ s. location_shape s ≡ shaped measure.kind measure.width)) }
    ensures makes { IfOk result (λ o. IfSome o (λ s. IsDraft draft.old → All (Stands draft.old) items.now → Makes draft.old draft.new s (IsMade chosen items.now (shaped measure.kind measure.width)))) }
    ensures none { result ≡ Ok None → draft.new ≡ draft.old }
    ensures slots { OnOk result (draft.new.slots ≤ draft.old.slots + 2) }
    ensures step { IfOk result (λ o. IfSome o (λ s. Step draft.old draft.new (slots_of items.now) (location_slots s) 2)) }
{
    if measure.width > 64 {
        return Ok(None);
    }
    match items {
        [condition, first, second] => {
            match choice_way(*condition, *first, *second) {
                Some(way) => Ok(Some(made(draft, way, measure)?)),
                None => Ok(None),
            }
        }
        _ => Ok(None),
    }
}

/// The way of a choice of two values of at most 64 bits.
fn choice_way(condition: Location, first: Location, second: Location) -> Option<Way>
    ensures { IfSome result (λ way. IsWay way (condition ∷ first ∷ second ∷ []) chosen) }
{
    if condition.width > 64 {
        return None;
    }
    if first.width > 64 {
        return None;
    }
    if second.width > 64 {
        return None;
    }
    match condition.kind {
        Kind::Unsigned => Some(Way::Word(choosing(condition, first, second))),
        Kind::Signed => None,
    }
}

/// The first word where the condition is 1, and else the second.
fn choosing(condition: Location, first: Location, second: Location) -> Instr
    ensures { result ≡ working Mux 0 condition.low first.low second.low 0 }
{
    Instr {
        op: Op::Mux,
        shift: 0,
        first: condition.low,
        second: first.low,
        third: second.low,
        target: 0,
        mask: 0,
    }
}
