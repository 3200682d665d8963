//! What connects and invalidates set in a leaf (FIRRTL specification 3.0, "Connects" and "Invalidates").

ghost use Rattle.std.specs.Prelude.{◌≡◌, ◌&&◌, None, IfOk, IsSome, option_map, get_or, []};
ghost use Rattle.bit_words.specs.Values.{integer_of};
ghost use Rattle.fir_meaning.specs.Drives.{same_leaf, is_turned, set_at, set_by_connect, set_by_invalidate, left_in};
ghost use Rattle.fir_meaning.specs.Values.{lone};
ghost use Rattle.fir_meaning.specs.WellTyped.{typed};
ghost use Rattle.drive_check.specs.Keys.{leaf_of_key};
ghost use Rattle.plain_values.specs.Sites.{AreNarrow, known_of_view, scene_of_view};
ghost use Rattle.plain_values.specs.Finding.{spot_of_held};

use crate::evaluating::{evaluate, spot_of};
use crate::fitting::{fitted_value, zero};
use crate::site::View;
use crate::spot::HeldSpot;
use bit_words::{Kind, Value};
use drive_check::leaf_set::{LeafKey, key_of};
use drive_check::listing::list_leaves;
use fir_tree::Expr;
use fir_types::TypeLeaf;
use std::alloc::{AllocError, Global};

/// What a connect sets in a leaf: the leaves of the left side that aren't flipped are set from the right, and those of the right side that
/// are from the left.
pub fn set_by_connect(
    alloc: Global,
    view: &View<'_>,
    leaf: &LeafKey,
    left: &Expr,
    right: &Expr,
) -> Result<Option<Value>, AllocError>
    requires narrow { AreNarrow view.now.sites.now }
    requires left { IsSome (typed left.now (known_of_view view.now)) }
    requires right { IsSome (typed right.now (known_of_view view.now)) }
    ensures { IfOk result (λ set. option_map integer_of set ≡ left_in (leaf_of_key leaf.now) None (set_by_connect (scene_of_view view.now) left.now right.now)) }
{
    let left_spot = spot_of(alloc, view, left)?;
    let right_spot = spot_of(alloc, view, right)?;
    let from_left = evaluate(alloc, view, left)?;
    let from_right = evaluate(alloc, view, right)?;
    let plain = set_at(alloc, leaf, false, &left_spot, from_right.as_slice())?;
    let turned = set_at(alloc, leaf, true, &right_spot, from_left.as_slice())?;
    Ok(turned.or(plain))
}

/// What an `invalidate` sets in a leaf: 0, where the leaf is one of its reference.
pub fn set_by_invalidate(
    alloc: Global,
    view: &View<'_>,
    leaf: &LeafKey,
    target: &Expr,
) -> Result<Option<Value>, AllocError>
    requires narrow { AreNarrow view.now.sites.now }
    requires typed { IsSome (typed target.now (known_of_view view.now)) }
    ensures { IfOk result (λ set. option_map integer_of set ≡ left_in (leaf_of_key leaf.now) None (set_by_invalidate (scene_of_view view.now) target.now)) }
{
    let spot = spot_of(alloc, view, target)?;
    let plain = set_at(alloc, leaf, false, &spot, &[])?;
    let turned = set_at(alloc, leaf, true, &spot, &[])?;
    Ok(turned.or(plain))
}

/// What is set in a leaf where the leaves of one orientation at a spot are set, each to the value beside it.
pub fn set_at(
    alloc: Global,
    leaf: &LeafKey,
    flip: bool,
    spot: &Option<HeldSpot>,
    values: &[Value],
) -> Result<Option<Value>, AllocError>
    ensures { IfOk result (λ set. option_map integer_of set ≡ left_in (leaf_of_key leaf.now) None (set_at flip (option_map spot_of_held spot.now) values.now)) }
{
    let Some(place) = spot else {
        return Ok(None);
    };
    let Some(way) = &place.way else {
        return Ok(None);
    };
    let listed = list_leaves(alloc, &place.typ)?;
    let parts = listed.as_slice();
    let mut set = None;
    for at in 0..parts.len() {
        let part = &parts[at];
        let key = key_of(alloc, place.component, way.as_slice(), part.path.as_slice())?;
        if sets(part, flip, &key, leaf) {
            set = Some(fitted_value(part, Some(value_or_zero(values, at))));
        }
    }
    Ok(set)
}

/// Whether a leaf of a type is of this orientation and stands where the other one does.
fn sets(part: &TypeLeaf, flip: bool, key: &LeafKey, leaf: &LeafKey) -> bool
    ensures { result ≡ (is_turned flip part.now && same_leaf (leaf_of_key key.now) (leaf_of_key leaf.now)) }
{
    is_turned(part, flip) && is_same(key, leaf)
}

fn is_turned(part: &TypeLeaf, flip: bool) -> bool
    ensures { result ≡ is_turned flip part.now }
{
    if flip { part.flip } else { !part.flip }
}

fn is_same(key: &LeafKey, leaf: &LeafKey) -> bool
    ensures { result ≡ same_leaf (leaf_of_key key.now) (leaf_of_key leaf.now) }
{
    *key == *leaf
}

/// The value at a place, and 0 of no bits past the last.
pub fn value_or_zero(values: &[Value], at: usize) -> Value
    ensures { result ≡ get_or values.now at (lone []) }
{
    if at < values.len() {
        values[at]
    } else {
        zero(Kind::Unsigned, 0)
    }
}
