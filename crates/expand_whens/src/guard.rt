//! The condition under which a connect is made.

ghost use Rattle.std.specs.Prelude.{◌≡◌, ◌<◌, ◌==◌, [], Some, ◌&&◌, ◌∷◌, ◌++◌, IfOk, OnOk, map, reverse, true};
ghost use Rattle.std.specs.List.{list_all};
ghost use Rattle.bit_words.specs.declared.value.Kind.TheVariants.{Unsigned};
ghost use Rattle.prim_ops.specs.Values.{is_one};
ghost use Rattle.ground_net.specs.Grounds.{Instant, value, mentions, joined};
ghost use Rattle.ground_net.specs.Statements.{all_hold};
ghost use Rattle.ground_net.specs.Shapes.{Table, shaped, shape as shape_in};
ghost use Rattle.ground_net.specs.StatementShapes.{is_condition};
ghost use Rattle.expand_whens.specs.Ways.{guard_holds, guard_mentions, guard_fits, asked_mentions, asked_fits, is_met, meets, crossed, crossed_mentions, none_hold, part_holds, part_mentions, part_fits, IsGuard, IsPart, IsBit};

use bit_words::{Kind, List, Value};
use ground_net::{Ground, copied};
use std::alloc::{AllocError, Global};

/// A condition of a `when` around the statements, and the number of leaves that are declared before that `when`.
#[derive(Drop)]
pub struct Asked {
    pub first: u32,
    pub condition: Ground,
    /// It is to hold, or it is not to.
    pub holds: bool,
}

/// A connect of a leaf: the condition under which it is made, where there is one, and its source.
#[derive(Drop)]
pub struct Way {
    pub guard: Option<Ground>,
    pub source: Ground,
}

/// A guard that is being put together: conditions that are not to hold, and conditions that are to.
#[derive(Drop)]
pub struct Part {
    pub refused: Vec<Ground>,
    pub accepted: Vec<Ground>,
}

/// The condition of a connect of this leaf, which stands under these conditions, and has conditions of its own.
pub fn guard_of(
    alloc: Global,
    leaf: u32,
    asked: &[Asked],
    conditions: &[Ground],
) -> Result<Option<Ground>, AllocError>
    ensures guard { IfOk result (λ guard. IsGuard (λ instant. crossed instant leaf asked.now && all_hold instant conditions.now)
        (crossed_mentions leaf asked.now ++ joined (map mentions conditions.now)) guard) }
    ensures fits { IfOk result (λ guard. (table : Table) → list_all (asked_fits table) asked.now ≡ true → list_all (is_condition table) conditions.now ≡ true → guard_fits table guard ≡ true) }
{
    let mut part = Part {
        refused: Vec::new(alloc),
        accepted: Vec::new(alloc),
    };
    for one in asked {
        part = with_asked(alloc, part, leaf, one)?;
    }
    for condition in conditions {
        part = with_one(part, copied(alloc, condition)?, true)?;
    }
    let guard = closed(alloc, part)?;
    Ok(guard)
}

/// The guard so far, and what is asked of the leaf.
fn with_asked(alloc: Global, part: Part, leaf: u32, one: &Asked) -> Result<Part, AllocError>
    ensures part { IfOk result (λ next. IsPart (λ instant. part_holds instant part && is_met instant leaf one.now) (part_mentions part ++ asked_mentions leaf one.now) next) }
    ensures fits { IfOk result (λ next. (table : Table) → part_fits table part ≡ true → asked_fits table one.now ≡ true → part_fits table next ≡ true) }
{
    if leaf < one.first {
        let condition = copied(alloc, &one.condition)?;
        let next = with_one(part, condition, one.holds)?;
        return Ok(next);
    }
    Ok(part)
}

/// The guard so far, and that the condition holds, or doesn't.
fn with_one(mut part: Part, condition: Ground, holds: bool) -> Result<Part, AllocError>
    ensures part { IfOk result (λ next. IsPart (λ instant. part_holds instant part && meets instant holds condition) (part_mentions part ++ mentions condition) next) }
    ensures fits { IfOk result (λ next. (table : Table) → part_fits table part ≡ true → is_condition table condition ≡ true → part_fits table next ≡ true) }
{
    if holds {
        part.accepted.push(condition)?;
        return Ok(part);
    }
    part.refused.push(condition)?;
    Ok(part)
}

/// The guard so far as one: nothing, the only condition, or a bit.
fn closed(alloc: Global, part: Part) -> Result<Option<Ground>, AllocError>
    ensures guard { IfOk result (λ guard. IsGuard (λ instant. part_holds instant part) (part_mentions part) guard) }
    ensures fits { IfOk result (λ guard. (table : Table) → part_fits table part ≡ true → guard_fits table guard ≡ true) }
{
    let Part {
        refused,
        mut accepted,
    } = part;
    if refused.is_empty() {
        if accepted.is_empty() {
            return Ok(None);
        }
        if accepted.len() == 1 {
            return Ok(accepted.pop());
        }
    }
    let mut guard = none_of(alloc, refused)?;
    while let Some(condition) = accepted.pop() {
        guard = choice(alloc, condition, guard)?;
    }
    Ok(Some(guard))
}

/// That none of the conditions holds: a choice of 0 behind each of them, and of 1.
fn none_of(alloc: Global, mut refused: Vec<Ground>) -> Result<Ground, AllocError>
    ensures { IfOk result (λ guard. IsBit (λ instant. none_hold instant refused.items) (joined (map mentions refused.items)) (λ table. list_all (is_condition table) refused.items) guard) }
{
    if refused.is_empty() {
        return Ok(bit(1));
    }
    let mut items = vec![in alloc; bit(1)]?;
    while let Some(condition) = refused.pop() {
        push_pair(&mut items, condition, bit(0))?;
    }
    items.reverse();
    Ok(Ground::Mux(List::from_vec(items)))
}

/// A condition that holds where the guard does.
pub fn guard_item(guard: Option<Ground>) -> Ground
    ensures holds { (instant : Instant) → is_one (value result instant) ≡ guard_holds instant guard }
    ensures mentions { mentions result ≡ guard_mentions guard }
    ensures fits { (table : Table) → guard_fits table guard ≡ true → is_condition table result ≡ true }
{
    match guard {
        None => bit(1),
        Some(guard) => guard,
    }
}

/// A value, and the condition that stands before it once the items are turned round.
pub fn push_pair(
    items: &mut Vec<Ground>,
    condition: Ground,
    chosen: Ground,
) -> Result<(), AllocError>
    ensures { OnOk result (reverse items.new.items ≡ condition ∷ chosen ∷ reverse items.old.items) }
{
    items.push(chosen)?;
    items.push(condition)?;
    Ok(())
}

/// That the condition holds, and the guard.
fn choice(alloc: Global, condition: Ground, guard: Ground) -> Result<Ground, AllocError>
    ensures value { IfOk result (λ choice. (instant : Instant) → is_one (value choice instant) ≡ (is_one (value condition instant) && is_one (value guard instant))) }
    ensures mentions { IfOk result (λ choice. mentions choice ≡ mentions condition ++ mentions guard) }
    ensures shape { IfOk result (λ choice. (table : Table) → is_condition table condition ≡ true → shape_in guard table ≡ Some (shaped Unsigned 1) → shape_in choice table ≡ Some (shaped Unsigned 1)) }
{
    let items = vec![in alloc; condition, guard, bit(0)]?;
    Ok(Ground::Mux(List::from_vec(items)))
}

/// A bit.
pub fn bit(bits: u128) -> Ground
    requires { bits < 2 }
    ensures value { (instant : Instant) → is_one (value result instant) ≡ (bits == 1) }
    ensures mentions { mentions result ≡ [] }
    ensures shape { (table : Table) → shape_in result table ≡ Some (shaped Unsigned 1) }
{
    Ground::Const(Value {
        kind: Kind::Unsigned,
        width: 1,
        bits,
    })
}
