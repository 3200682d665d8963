//! What expressions come to.

ghost use Rattle.std.specs.Prelude.{◌≡◌, ◌∷◌, [], map, nat_eq, option_map, Some, IfOk};
ghost use Rattle.std.specs.Map.{lookup};
ghost use Rattle.prim_ops.specs.Kinds.{row_kind};
ghost use Rattle.reset_search.specs.declared.spot.Spot.TheVariants.{Cast as The_cast};
ghost use Rattle.reset_search.specs.Feeds.{along, reached_by, signs_of, choice, reach, result as result_of};
ghost use Rattle.reset_resolution.specs.Layers.{suffix_step, reached_as, sign_in};

use crate::component::Indexed;
use crate::grounds::are_alike;
use crate::steps::walk_steps;
use bit_words::{Kind, List};
use fir_tree::kinds::ground;
use fir_tree::{Expr, Form, Names, Suffix};
use fir_types::{FirType, Shape};
use indexmap::IndexMap;
use place_text::Place;
use prim_ops::{Prim, arity, kind_of};
use reset_search::Spot;
use reset_search::sources::is_cast;
use std::alloc::{AllocError, Global};
use type_index::KnownType;

/// What an expression stands among: the texts of names, the components that are declared before it, and the place of a cast alone.
#[derive(Clone, Copy)]
pub struct Scope<'a> {
    pub names: &'a Names,
    pub known: &'a IndexMap<u32, Indexed>,
    pub cast: &'a [Spot],
    ghost casts: { cast.now ≡ The_cast ∷ [] },
}

/// What an expression comes to: its type, and the places of it.
#[derive(Drop)]
pub struct Reached<'a> {
    pub known: KnownType,
    pub spots: &'a [Spot],
}

/// What an expression comes to, if it has a type where Reset, AsyncReset and UInt are one type.
#[cycle(reach)]
pub fn reach_expr<'a>(
    alloc: Global,
    scope: Scope<'a>,
    expr: &Expr,
) -> Result<Option<Reached<'a>>, AllocError>
    ensures { IfOk result (λ found. option_map reached_as found ≡ reached_by expr.now scope.entry.known.now.entries) }
{
    match &expr.form {
        Form::Ref(name, suffixes) => reach_part(scope, name.id, suffixes.as_slice()),
        Form::Literal(kind, width, _) => {
            reach_number(alloc, scope, ground(expr.place, *kind, *width))
        }
        Form::Prim(prim, operands, _) => {
            let Some(kinds) = kinds_of(alloc, scope, operands.as_slice())? else {
                return Ok(None);
            };
            let Some(kind) = row_of(*prim, kinds.as_slice()) else {
                return Ok(None);
            };
            reach_result(alloc, scope, *prim, expr.place, kind)
        }
        Form::Mux(operands) => reach_choice(alloc, scope, operands.as_slice()),
    }
}

/// The kinds of operands, where each has one.
#[cycle(reach)]
fn kinds_of(
    alloc: Global,
    scope: Scope<'_>,
    operands: &[Expr],
) -> Result<Option<List<Kind>>, AllocError>
    ensures { IfOk result (λ kinds. kinds ≡ signs_of (map (λ e. reached_by e scope.entry.known.now.entries) operands.now)) }
{
    let mut kinds = List::new(alloc);
    for operand in operands {
        let Some(reached) = reach_expr(alloc, scope, operand)? else {
            return Ok(None);
        };
        let Some(kind) = sign_in(&reached.known.typ) else {
            return Ok(None);
        };
        kinds.push(kind)?;
    }
    Ok(Some(kinds))
}

/// A choice between the second and the third operand.
#[cycle(reach)]
fn reach_choice<'a>(
    alloc: Global,
    scope: Scope<'a>,
    operands: &[Expr],
) -> Result<Option<Reached<'a>>, AllocError>
    ensures { IfOk result (λ found. option_map reached_as found ≡ choice (map (λ e. reached_by e scope.entry.known.now.entries) operands.now)) }
{
    let [condition, first, second] = operands else {
        return Ok(None);
    };
    let Some(_) = reach_expr(alloc, scope, condition)? else {
        return Ok(None);
    };
    let Some(one) = reach_expr(alloc, scope, first)? else {
        return Ok(None);
    };
    let Some(other) = reach_expr(alloc, scope, second)? else {
        return Ok(None);
    };
    if !are_alike(&one.known.typ, &other.known.typ) {
        return Ok(None);
    }
    Ok(Some(Reached {
        known: one.known,
        spots: no_spots(scope),
    }))
}

fn no_spots<'a>(scope: Scope<'a>) -> &'a [Spot]
    ensures { result.now ≡ [] }
{
    let (none, _) = scope.cast.split_at(0);
    none
}

/// The part that a reference names.
fn reach_part<'a>(
    scope: Scope<'a>,
    name: u32,
    suffixes: &[Suffix],
) -> Result<Option<Reached<'a>>, AllocError>
    ensures { IfOk result (λ found. option_map reached_as found ≡ along (map suffix_step suffixes.now) (lookup (nat_eq name) scope.entry.known.now.entries)) }
{
    let Some(component) = scope.known.get(&name) else {
        return Ok(None);
    };
    let Some(view) = walk_steps(component, suffixes) else {
        return Ok(None);
    };
    Ok(Some(Reached {
        known: KnownType::of(view.known)?,
        spots: view.spots,
    }))
}

/// A number of this type, which has no places.
fn reach_number<'a>(
    alloc: Global,
    scope: Scope<'a>,
    typ: FirType,
) -> Result<Option<Reached<'a>>, AllocError>
    ensures { IfOk result (λ found. option_map reached_as found ≡ Some (reach typ [])) }
{
    Ok(Some(Reached {
        known: KnownType::new(alloc, scope.names, typ)?,
        spots: no_spots(scope),
    }))
}

/// The result of an operation: that of a cast is an AsyncReset leaf.
fn reach_result<'a>(
    alloc: Global,
    scope: Scope<'a>,
    prim: Prim,
    place: Place,
    kind: Kind,
) -> Result<Option<Reached<'a>>, AllocError>
    ensures { IfOk result (λ found. option_map reached_as found ≡ Some (result_of prim place kind)) }
{
    if !is_cast(prim) {
        return reach_number(alloc, scope, ground(place, kind, None));
    }
    let typ = FirType {
        place,
        shape: Shape::AsyncReset,
    };
    Ok(Some(Reached {
        known: KnownType::new(alloc, scope.names, typ)?,
        spots: scope.cast,
    }))
}

/// The kind of an operand, where Reset, AsyncReset and UInt are one type.
fn sign_in(typ: &FirType) -> Option<Kind>
    ensures { result ≡ sign_in typ.now }
{
    match &typ.shape {
        Shape::Unsigned(_) | Shape::Reset | Shape::AsyncReset => Some(Kind::Unsigned),
        Shape::Signed(_) => Some(Kind::Signed),
        Shape::Clock | Shape::Bundle(_) | Shape::Vector(_, _) => None,
    }
}

/// The kind of an operation's result, where it takes operands of these kinds.
fn row_of(prim: Prim, kinds: &[Kind]) -> Option<Kind>
    ensures { result ≡ row_kind prim kinds.now }
{
    if kinds.len() == arity(prim).0 as usize {
        kind_of(prim, kinds)
    } else {
        None
    }
}
