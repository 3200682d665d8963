//! What registers hold next (FIRRTL specification 3.0, "Registers").

ghost use Rattle.std.specs.Prelude.{◌≡◌, true, false, None, Some, IfOk, IsSome, option_map};
ghost use Rattle.bit_words.specs.Values.{integer_of};
ghost use Rattle.fir_tree.specs.declared.expr.Expr.{Expr as TheExpr};
ghost use Rattle.fir_meaning.specs.Components.{Component};
ghost use Rattle.fir_meaning.specs.Values.{value, is_one, whole};
ghost use Rattle.fir_meaning.specs.Drives.{set_at, left_in};
ghost use Rattle.fir_meaning.specs.States.{next_of_register};
ghost use Rattle.fir_meaning.specs.WellTyped.{typed, are_typed};
ghost use Rattle.drive_check.specs.Keys.{leaf_of_key};
ghost use Rattle.plain_values.specs.Sites.{AreNarrow, known_of_view, scene_of_view};
ghost use Rattle.plain_values.specs.Registers.{is_typed_reset, sort_of, set_next as next_set};

use crate::driving::left_in_leaf;
use crate::evaluating::evaluate;
use crate::fitting::holds;
use crate::operating::first;
use crate::setting::set_at;
use crate::sights::site_at;
use crate::site::View;
use crate::spot::HeldSpot;
use bit_words::{List, Value};
use drive_check::leaf_set::LeafKey;
use fir_tree::{Expr, Stmt};
use fir_types::copy;
use std::alloc::{AllocError, Global};

/// The reset of a register: the signal, and the value after it.
#[derive(Clone, Copy)]
pub struct Reset<'a> {
    pub test: &'a Expr,
    pub init: &'a Expr,
}

/// A register: the statements of the block that it stands in, and its reset, where it has one.
#[derive(Clone, Copy)]
pub struct Register<'a> {
    pub block: &'a [Stmt],
    pub reset: Option<Reset<'a>>,
}

/// What a register holds next in a leaf: `init`, where it has a reset that is 1; else what the statements leave in the leaf; else what it
/// holds.
pub fn next_of_register(
    alloc: Global,
    view: &View<'_>,
    leaf: &LeafKey,
    register: &Register<'_>,
    held: Value,
) -> Result<Value, AllocError>
    requires narrow { AreNarrow view.now.sites.now }
    requires typed { are_typed (known_of_view view.now) register.now.block.now ≡ true }
    requires reset { is_typed_reset (known_of_view view.now) register.now.reset ≡ true }
    ensures { IfOk result (λ next. (c : Component) (clock : TheExpr) → c.declaration.name ≡ leaf.now.component → c.declaration.block ≡ register.now.block.now → integer_of next ≡ next_of_register (scene_of_view view.now) c (sort_of clock register.now) (leaf_of_key leaf.now).way (integer_of held)) }
{
    let next = set_next(alloc, view, leaf, register)?;
    Ok(next.unwrap_or(held))
}

/// What is set in a register's leaf at the end of the cycle.
fn set_next(
    alloc: Global,
    view: &View<'_>,
    leaf: &LeafKey,
    register: &Register<'_>,
) -> Result<Option<Value>, AllocError>
    requires narrow { AreNarrow view.now.sites.now }
    requires typed { are_typed (known_of_view view.now) register.now.block.now ≡ true }
    requires reset { is_typed_reset (known_of_view view.now) register.now.reset ≡ true }
    ensures { IfOk result (λ next. option_map integer_of next ≡ next_set (scene_of_view view.now) (leaf_of_key leaf.now) register.now.block.now register.now.reset) }
{
    if let Some(reset) = &register.reset {
        let test = evaluate(alloc, view, reset.test)?;
        if holds(first(test.as_slice())) {
            let initial = set_by_init(alloc, view, leaf, reset.init)?;
            return Ok(initial);
        }
    }
    let left = left_in_leaf(alloc, view, leaf, register.block)?;
    Ok(left)
}

/// What a reset sets in a leaf of its register: the value of `init` beside it.
pub fn set_by_init(
    alloc: Global,
    view: &View<'_>,
    leaf: &LeafKey,
    init: &Expr,
) -> Result<Option<Value>, AllocError>
    requires narrow { AreNarrow view.now.sites.now }
    requires typed { IsSome (typed init.now (known_of_view view.now)) }
    ensures { IfOk result (λ set. option_map integer_of set ≡ left_in (leaf_of_key leaf.now) None (set_at false (Some (whole (scene_of_view view.now) leaf.now.component)) (value init.now (scene_of_view view.now)))) }
{
    let Some(site) = site_at(view.sites, view.path, leaf.component) else {
        return Ok(None);
    };
    let typ = copy(&site.typ)?;
    let whole = HeldSpot {
        component: leaf.component,
        typ,
        way: Some(List::new(alloc)),
    };
    let values = evaluate(alloc, view, init)?;
    let set = set_at(alloc, leaf, false, &Some(whole), values.as_slice())?;
    Ok(set)
}
