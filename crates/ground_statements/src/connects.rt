//! Connects and invalidates.

ghost use Rattle.std.specs.Prelude.{◌≡◌, ◌++◌, true, IfOk};
ghost use Rattle.fir_meaning.specs.WellTyped.{is_typed, named_type, both_match};
ghost use Rattle.ground_exprs.specs.Sources.{known_of, AreNarrow};
ghost use Rattle.ground_statements.specs.Connects.{IsConnect, IsInvalidate};
ghost use Rattle.ground_statements.specs.Sides.{IsHalf};

use crate::sides::{Side, set_side};
use bit_words::List;
use fir_tree::{Expr, Form};
use ground_exprs::exprs::follow;
use ground_exprs::{Component, Source, lower_expr};
use ground_net::GroundStmt;
use indexmap::IndexMap;
use std::alloc::{AllocError, Global};

/// What statements know of a module: its components, by the numbers of their names, and which leaves may be set.
#[derive(Clone, Copy)]
struct View<'a> {
    known: &'a IndexMap<u32, Component>,
    settable: &'a [bool],
}

/// A connect: the leaves of the left side that aren't flipped are set from the right, and then the flipped ones of the right side from the
/// left (FIRRTL specification 3.0, "Connects").
pub fn connect(
    alloc: Global,
    known: &IndexMap<u32, Component>,
    settable: &[bool],
    left: &Expr,
    right: &Expr,
) -> Result<List<GroundStmt>, AllocError>
    requires narrow { AreNarrow known.now.entries }
    requires left { is_typed (known_of known.now.entries) left.now ≡ true }
    requires right { is_typed (known_of known.now.entries) right.now ≡ true }
    requires alike { both_match (named_type (known_of known.now.entries) left.now) (named_type (known_of known.now.entries) right.now) ≡ true }
    ensures { IfOk result (λ made. IsConnect known.now.entries settable.now left.now right.now made) }
{
    let view = View { known, settable };
    let from_left = lower_expr(alloc, known, left)?;
    let from_right = lower_expr(alloc, known, right)?;
    let first = half(alloc, view, false, left, from_right)?;
    let second = half(alloc, view, true, right, from_left)?;
    let made = behind(first, second)?;
    Ok(made)
}

/// An `invalidate` sets each leaf to 0 (FIRRTL specification 3.0, "Invalidates").
pub fn invalidate(
    alloc: Global,
    known: &IndexMap<u32, Component>,
    settable: &[bool],
    target: &Expr,
) -> Result<List<GroundStmt>, AllocError>
    requires narrow { AreNarrow known.now.entries }
    requires typed { is_typed (known_of known.now.entries) target.now ≡ true }
    ensures { IfOk result (λ made. IsInvalidate known.now.entries settable.now target.now made) }
{
    let view = View { known, settable };
    let first = half(alloc, view, false, target, List::new(alloc))?;
    let second = half(alloc, view, true, target, List::new(alloc))?;
    let made = behind(first, second)?;
    Ok(made)
}

/// Sets the leaves of one orientation of what an expression names, and nothing where it is no reference.
fn half(
    alloc: Global,
    view: View,
    flip: bool,
    target: &Expr,
    sources: List<Source>,
) -> Result<List<GroundStmt>, AllocError>
    requires narrow { AreNarrow view.known.now.entries }
    requires typed { is_typed (known_of view.known.now.entries) target.now ≡ true }
    ensures { IfOk result (λ made. IsHalf view.entry.known.now.entries view.entry.settable.now flip target.now sources made) }
{
    let Form::Ref(name, suffixes) = &target.form else {
        return Ok(List::new(alloc));
    };
    let named = follow(alloc, view.known, *name, suffixes.as_slice())?;
    let side = Side {
        settable: view.settable,
        flip,
        typ: named.at.typ,
        part: &named.part,
    };
    let made = set_side(alloc, side, sources)?;
    Ok(made)
}

/// The second statements behind the first ones.
fn behind(first: List<GroundStmt>, second: List<GroundStmt>) -> Result<List<GroundStmt>, AllocError>
    ensures { IfOk result (λ made. made ≡ first ++ second) }
{
    let mut made = first;
    for statement in second.into_vec() {
        made.push(statement)?;
    }
    Ok(made)
}
