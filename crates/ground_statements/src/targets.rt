//! The leaves that a leaf of a part may be.

ghost use Rattle.std.specs.Prelude.{◌≡◌, ◌++◌, [], ◌∷◌, map, slice_get, IfOk, OnOk};
ghost use Rattle.ground_statements.specs.Targets.{equals, under_condition, targets, is_allowed, set_each};

use bit_words::{Kind, List, Number};
use ground_exprs::Pick;
use ground_exprs::constants::constant;
use ground_exprs::reading::{as_number, element_leaf, lead_nowhere};
use ground_net::{Ground, GroundStmt, copied};
use prim_ops::Prim;
use std::alloc::{AllocError, Global};

/// A leaf that a statement may set, and the conditions under which it does.
#[derive(Drop)]
pub struct Target {
    pub leaf: u32,
    pub conditions: List<Ground>,
}

/// Each leaf that a leaf of a part may be, by its number in the elements with the number 0, with a condition for each index.
pub fn targets_of(alloc: Global, picks: &[Pick], leaf: u32) -> Result<List<Target>, AllocError>
    ensures { IfOk result (λ listed. listed ≡ targets picks.now leaf) }
{
    if lead_nowhere(picks) {
        return Ok(List::new(alloc));
    }
    let listed = every_target(alloc, picks, leaf)?;
    Ok(listed)
}

fn every_target(alloc: Global, picks: &[Pick], leaf: u32) -> Result<List<Target>, AllocError>
    ensures { IfOk result (λ listed. listed ≡ targets picks.now leaf) }
{
    let Some((pick, rest)) = picks.split_first() else {
        let conditions = List::new(alloc);
        let listed = vec![in alloc; Target { leaf, conditions }]?;
        return Ok(List::from_vec(listed));
    };
    let mut listed = List::new(alloc);
    for number in 0..as_number(pick.length)? {
        let inner = every_target(alloc, rest, element_leaf(leaf, number, pick.stride)?)?;
        push_picked(alloc, &pick.index, number, inner, &mut listed)?;
    }
    Ok(listed)
}

/// Adds the leaves of an element, under the condition that the index picks it.
fn push_picked(
    alloc: Global,
    index: &Ground,
    number: u32,
    inner: List<Target>,
    listed: &mut List<Target>,
) -> Result<(), AllocError>
    ensures { OnOk result (listed.new ≡ listed.old ++ map (under_condition (equals index.now number)) inner) }
{
    for target in inner.into_vec() {
        let target = with_condition(target, equals(alloc, index, number)?)?;
        listed.push(target)?;
    }
    Ok(())
}

fn with_condition(target: Target, condition: Ground) -> Result<Target, AllocError>
    ensures { IfOk result (λ after. after ≡ under_condition condition target) }
{
    let mut conditions = target.conditions;
    conditions.push(condition)?;
    Ok(Target {
        leaf: target.leaf,
        conditions,
    })
}

/// The index is this number.
fn equals(alloc: Global, index: &Ground, number: u32) -> Result<Ground, AllocError>
    ensures { IfOk result (λ test. test ≡ equals index.now number) }
{
    let number = constant(
        Kind::Unsigned,
        32,
        Number {
            negative: false,
            magnitude: u128::from(number),
        },
    );
    let operands = vec![in alloc; copied(alloc, index)?, Ground::Const(number)]?;
    Ok(Ground::Op(Prim::Eq, List::from_vec(operands), List::new(alloc)))
}

/// Adds a connect of each of these leaves that may be set.
pub fn push_each(
    alloc: Global,
    settable: &[bool],
    listed: List<Target>,
    source: &Ground,
    made: &mut List<GroundStmt>,
) -> Result<(), AllocError>
    ensures { OnOk result (made.new ≡ made.old ++ set_each settable.now source.now listed) }
{
    for target in listed.into_vec() {
        push_one(alloc, settable, target, source, made)?;
    }
    Ok(())
}

/// Adds a connect of this leaf, if it may be set.
fn push_one(
    alloc: Global,
    settable: &[bool],
    target: Target,
    source: &Ground,
    made: &mut List<GroundStmt>,
) -> Result<(), AllocError>
    ensures { OnOk result (made.new ≡ made.old ++ set_each settable.now source.now (target ∷ [])) }
{
    if !is_allowed(settable, target.leaf) {
        return Ok(());
    }
    let source = copied(alloc, source)?;
    made.push(GroundStmt::Connect(target.leaf, target.conditions, source))?;
    Ok(())
}

/// The leaf may be set.
fn is_allowed(settable: &[bool], leaf: u32) -> bool
    ensures { result ≡ is_allowed (slice_get settable.now leaf) }
{
    match settable.get(leaf as usize) {
        Some(flag) => *flag,
        None => false,
    }
}
