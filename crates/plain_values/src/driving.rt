//! What statements leave in a leaf (FIRRTL specification 3.0, "Conditionals" and "Last Connect Semantics").

ghost use Rattle.std.specs.Prelude.{◌≡◌, ◌<◌, true, map, length, IfOk, IfSome, option_map};
ghost use Rattle.bit_words.specs.Values.{integer_of};
ghost use Rattle.fir_meaning.specs.Drives.{drives, effect, in_turn};
ghost use Rattle.fir_meaning.specs.WellTyped.{are_typed, is_typed_stmt};
ghost use Rattle.drive_check.specs.Keys.{leaf_of_key};
ghost use Rattle.plain_values.specs.Sites.{AreNarrow, known_of_view, scene_of_view};
ghost use Rattle.plain_values.specs.Choosing.{are_conditions, IsFirstHolding};

use crate::evaluating::evaluate;
use crate::fitting::holds;
use crate::operating::first;
use crate::setting::{set_by_connect, set_by_invalidate};
use crate::site::View;
use bit_words::Value;
use drive_check::leaf_set::LeafKey;
use fir_tree::{Arm, Stmt};
use std::alloc::{AllocError, Global};

/// What the statements of a block leave in a leaf: the last value that they set, or none. Of a `when` only the first arm whose condition
/// is 1 is taken, or else the `else`.
///
/// The statements are well typed where the components have these types. Takes time in proportion to the block, for each leaf that its
/// connects set.
pub fn left_in_leaf(
    alloc: Global,
    view: &View<'_>,
    leaf: &LeafKey,
    block: &[Stmt],
) -> Result<Option<Value>, AllocError>
    requires narrow { AreNarrow view.now.sites.now }
    requires typed { are_typed (known_of_view view.now) block.now ≡ true }
    ensures { IfOk result (λ left. option_map integer_of left ≡ drives (scene_of_view view.now) (leaf_of_key leaf.now) block.now) }
{
    let left = after_block(alloc, view, leaf, None, block)?;
    Ok(left)
}

/// What a leaf has after the statements of a block, in text order.
#[cycle(drive)]
fn after_block(
    alloc: Global,
    view: &View<'_>,
    leaf: &LeafKey,
    before: Option<Value>,
    block: &[Stmt],
) -> Result<Option<Value>, AllocError>
    requires narrow { AreNarrow view.now.sites.now }
    requires typed { are_typed (known_of_view view.now) block.now ≡ true }
    ensures { IfOk result (λ last. option_map integer_of last ≡ in_turn (map (effect (scene_of_view view.now) (leaf_of_key leaf.now)) block.now) (option_map integer_of before)) }
{
    let mut last = before;
    for statement in block {
        last = after_statement(alloc, view, leaf, last, statement)?;
    }
    Ok(last)
}

/// What a leaf has after a statement.
#[cycle(drive)]
fn after_statement(
    alloc: Global,
    view: &View<'_>,
    leaf: &LeafKey,
    before: Option<Value>,
    statement: &Stmt,
) -> Result<Option<Value>, AllocError>
    requires narrow { AreNarrow view.now.sites.now }
    requires typed { is_typed_stmt (known_of_view view.now) statement.now ≡ true }
    ensures { IfOk result (λ last. option_map integer_of last ≡ effect (scene_of_view view.now) (leaf_of_key leaf.now) statement.now (option_map integer_of before)) }
{
    match statement {
        Stmt::Connect(left, right) => {
            let set = set_by_connect(alloc, view, leaf, left, right)?;
            Ok(set.or(before))
        }
        Stmt::Invalidate(target) => {
            let set = set_by_invalidate(alloc, view, leaf, target)?;
            Ok(set.or(before))
        }
        Stmt::When(arms, other) => {
            let arms = arms.as_slice();
            let Some(number) = holding(alloc, view, arms)? else {
                let last = after_block(alloc, view, leaf, before, other.as_slice())?;
                return Ok(last);
            };
            let last = after_block(alloc, view, leaf, before, arms[number].body.as_slice())?;
            Ok(last)
        }
        Stmt::Wire(_, _)
        | Stmt::Reg(_, _, _)
        | Stmt::RegReset(_, _, _, _, _)
        | Stmt::Mem(_)
        | Stmt::Inst(_, _)
        | Stmt::Node(_, _)
        | Stmt::Skip(_) => Ok(before),
    }
}

/// The number of the first arm whose condition is 1.
fn holding(alloc: Global, view: &View<'_>, arms: &[Arm]) -> Result<Option<usize>, AllocError>
    requires narrow { AreNarrow view.now.sites.now }
    requires typed { are_conditions (known_of_view view.now) arms.now ≡ true }
    ensures first { IfOk result (λ number. IsFirstHolding (scene_of_view view.now) arms.now number) }
    ensures within { IfOk result (λ number. IfSome number (λ n. n < length arms.now)) }
{
    for number in 0..arms.len() {
        let condition = evaluate(alloc, view, &arms[number].condition)?;
        if holds(first(condition.as_slice())) {
            return Ok(Some(number));
        }
    }
    Ok(None)
}
