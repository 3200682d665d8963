//! What is known of expressions that are components or parts of them, so that a type isn't walked once more.

ghost use Rattle.std.specs.Prelude.{◌≡◌, Some, IfSome};
ghost use Rattle.fir_types.specs.declared.fir_type.FirType.{FirType as AType};
ghost use Rattle.type_check.specs.Expressions.{found_of};
ghost use Rattle.module_table.specs.Leading.{Leads};
ghost use Rattle.type_check.specs.Judging.{Agrees};
ghost use Rattle.type_check.specs.Parts.{Known as TheKnown};
ghost use Rattle.fir_tree.specs.declared.part.Part.{Part as APart};
ghost use Rattle.type_check.specs.Texts.{has_signal, is_passive, are_equivalent};

use crate::texts::{are_equivalent, is_passive};
use fir_tree::{Expr, Form, Part};
use fir_types::has_signal;
use module_table::{Components, Reference, reference_of};
use type_index::Known;

/// Whether a leaf of the type of an expression that is this part is a `Clock` or an `AsyncReset`.
pub fn has_signal_at(known: &Components<'_>, expr: &Expr, part: &Part) -> bool
    requires { (found_of known.now.parts expr.now).part ≡ Some part.now }
    ensures { result ≡ has_signal part.now.typ }
{
    match part_at(known, expr) {
        Some(there) => there.index.signals,
        None => has_signal(&part.typ),
    }
}

/// Whether no `flip` stands in the type of an expression that is this part.
pub fn is_passive_at(known: &Components<'_>, expr: &Expr, part: &Part) -> bool
    requires { (found_of known.now.parts expr.now).part ≡ Some part.now }
    ensures { result ≡ is_passive part.now.typ }
{
    match part_at(known, expr) {
        Some(there) => there.index.passive,
        None => is_passive(&part.typ),
    }
}

/// What the reference that an expression is comes to by its steps alone, or the one that a choice chooses first.
fn part_at<'a>(known: &'a Components<'_>, expr: &Expr) -> Option<Known<'a>>
    ensures { IfSome result (λ there. Agrees there.typ.now (found_of known.now.parts expr.now).part) }
{
    known.part(reference_at(expr)?)
}

/// The reference that an expression is, or the one that a choice chooses first.
pub fn reference_at(expr: &Expr) -> Option<Reference<'_>>
    ensures { IfSome result (λ reference. (known : TheKnown) (typ : AType) → Leads known reference.name reference.suffixes.now typ → Agrees typ (found_of known expr.now).part) }
{
    reference_of(first_chosen(expr))
}

/// Whether two expressions have equivalent types, where both are components or parts of them whose types have numbers. Takes time in
/// proportion to the steps.
fn are_known_equivalent(known: &Components<'_>, one: &Expr, other: &Expr) -> Option<bool>
    ensures { IfSome result (λ answer. (left right : APart) → (found_of known.now.parts one.now).part ≡ Some left → (found_of known.now.parts other.now).part ≡ Some right → answer ≡ are_equivalent left.typ right.typ) }
{
    let first = reference_at(one)?;
    let second = reference_at(other)?;
    known.same_class(first, second)
}

/// Whether two expressions that are these parts have equivalent types.
pub fn are_equivalent_at(
    known: &Components<'_>,
    one: &Expr,
    other: &Expr,
    left: &Part,
    right: &Part,
) -> bool
    requires left { (found_of known.now.parts one.now).part ≡ Some left.now }
    requires right { (found_of known.now.parts other.now).part ≡ Some right.now }
    ensures { result ≡ are_equivalent left.now.typ right.now.typ }
{
    match are_known_equivalent(known, one, other) {
        Some(answer) => answer,
        None => are_equivalent(&left.typ, &right.typ),
    }
}

/// Of a choice the first of what it chooses from, which gives the choice its type; of choices in one another the innermost. Of
/// another expression itself.
fn first_chosen(expr: &Expr) -> &Expr
    ensures { (known : TheKnown) (typ : AType) → Agrees typ (found_of known result.now).part → Agrees typ (found_of known expr.now).part }
{
    let mut inside = expr;
    loop {
        let Form::Mux(operands) = &inside.form else {
            return inside;
        };
        let [_, first, _] = operands.as_slice() else {
            return inside;
        };
        inside = first;
    }
}
