//! The conditions on literals, operations and choices (FIRRTL specification 3.0, "Primitive Operations" and "Multiplexers").

ghost use Rattle.std.specs.Prelude.{◌≡◌, ◌++◌, [], All, None, map, IfOk, OnOk};
ghost use Rattle.bit_words.specs.Numbers.{integer_of_number};
ghost use Rattle.prim_ops.specs.Kinds.{row_kind};
ghost use Rattle.type_check.specs.declared.fault.TypeFault.TheVariants.{LiteralFit};
ghost use Rattle.type_check.specs.Parts.{unless};
ghost use Rattle.fir_tree.specs.Parts.{source_of};
ghost use Rattle.type_check.specs.Expressions.{fits_literal, node, row_of, signs_of, sign_for, takes_async, result_type, operation, choice};
ghost use Rattle.fir_tree.specs.Kinds.{ground};
ghost use Rattle.type_check.specs.Judging.{operand_of, IsFound};

use crate::fault::TypeFault;
use crate::texts::{fits_literal, push_unless};
use crate::whole::{are_equivalent_at, has_signal_at, is_passive_at};
use bit_words::{Kind as Sign, Number};
use fir_tree::kinds::{ground, is_async, is_unsigned, sign_of};
use fir_tree::steps::source;
use fir_tree::{Expr, Part};
use fir_types::{FirType, Shape, copy};
use module_table::Components;
use place_text::Place;
use prim_ops::{Prim, arity, kind_of};
use std::alloc::AllocError;

/// An operand that has a type.
#[derive(Drop)]
pub struct Operand<'a> {
    pub expr: &'a Expr,
    pub part: Part,
}

/// A literal, which its width has to hold.
pub fn judge_literal(
    faults: &mut Vec<TypeFault>,
    place: Place,
    sign: Sign,
    width: Option<u128>,
    number: Number,
) -> Result<Option<Part>, AllocError>
    ensures part { IfOk result (λ part. part ≡ (node place (unless (fits_literal sign width (integer_of_number number)) (LiteralFit place)) (ground place sign width) []).part) }
    ensures faults { OnOk result (faults.new.items ≡ faults.old.items ++ unless (fits_literal sign width (integer_of_number number)) (LiteralFit place)) }
{
    if !fits_literal(sign, width, number) {
        faults.push(TypeFault::LiteralFit(place))?;
        return Ok(None);
    }
    Ok(Some(source(ground(place, sign, width))))
}

/// An operation, which has to take operands of these kinds.
pub fn judge_operation(
    faults: &mut Vec<TypeFault>,
    op: Prim,
    place: Place,
    operands: &[Operand<'_>],
) -> Result<Option<Part>, AllocError>
    ensures part { IfOk result (λ part. part ≡ (operation op place [] (map operand_of operands.now)).part) }
    ensures faults { OnOk result (faults.new.items ≡ faults.old.items ++ (operation op place [] (map operand_of operands.now)).faults) }
{
    let Some(sign) = row(op, operands) else {
        faults.push(TypeFault::OperandKind(place))?;
        return Ok(None);
    };
    Ok(Some(source(result_type(op, place, sign))))
}

/// The kind of the result, where the operation takes operands of these kinds.
fn row(op: Prim, operands: &[Operand<'_>]) -> Option<Sign>
    ensures { result ≡ row_of op (signs_of op (map operand_of operands.now)) }
{
    match operands {
        [operand] => row_of_kinds(op, &[kind_for(op, &operand.part.typ)?]),
        [first, second] => {
            row_of_kinds(
                op,
                &[
                    kind_for(op, &first.part.typ)?,
                    kind_for(op, &second.part.typ)?,
                ],
            )
        }
        _ => None,
    }
}

/// The kind of an operand of this type, where the operation takes it. A cast takes an `AsyncReset` as one bit.
fn kind_for(op: Prim, typ: &FirType) -> Option<Sign>
    ensures { result ≡ sign_for op typ.now }
{
    if takes_async(op) && is_async(typ) {
        return Some(Sign::Unsigned);
    }
    sign_of(typ)
}

/// Whether an operation takes an `AsyncReset`.
fn takes_async(op: Prim) -> bool
    ensures { result ≡ takes_async op }
{
    matches!(op, Prim::AsUInt | Prim::AsSInt | Prim::AsAsyncReset)
}

/// The type of a result of this kind.
fn result_type(op: Prim, place: Place, sign: Sign) -> FirType
    ensures { result ≡ result_type op place sign }
{
    match op {
        Prim::AsAsyncReset => FirType {
            place,
            shape: Shape::AsyncReset,
        },
        _ => ground(place, sign, None),
    }
}

/// The kind of the result, where the operation takes as many operands of these kinds.
fn row_of_kinds(op: Prim, kinds: &[Sign]) -> Option<Sign>
    ensures { result ≡ row_kind op kinds.now }
{
    if kinds.len() != arity(op).0 as usize {
        return None;
    }
    kind_of(op, kinds)
}

/// A choice between the second operand and the third. Its faults: over what is no condition, over signals, over types with a `flip`,
/// and over two types that aren't equivalent.
pub fn judge_choice(
    known: &Components<'_>,
    faults: &mut Vec<TypeFault>,
    place: Place,
    operands: &[Operand<'_>],
) -> Result<Option<Part>, AllocError>
    requires { All (IsFound known.now.parts) operands.now }
    ensures part { IfOk result (λ part. part ≡ (choice place [] (map operand_of operands.now)).part) }
    ensures faults { OnOk result (faults.new.items ≡ faults.old.items ++ (choice place [] (map operand_of operands.now)).faults) }
{
    let [condition, first, second] = operands else {
        return Ok(None);
    };
    let before = faults.len();
    let fault = TypeFault::ConditionKind(condition.expr.place);
    push_unless(faults, is_unsigned(&condition.part.typ), fault)?;
    let signals = has_signal_at(known, first.expr, &first.part)
        || has_signal_at(known, second.expr, &second.part);
    push_unless(faults, !signals, TypeFault::OperandKind(place))?;
    let passive = is_passive_at(known, first.expr, &first.part);
    push_unless(faults, passive, TypeFault::NotPassive(first.expr.place))?;
    let passive = is_passive_at(known, second.expr, &second.part);
    push_unless(faults, passive, TypeFault::NotPassive(second.expr.place))?;
    let equivalent = are_equivalent_at(known, first.expr, second.expr, &first.part, &second.part);
    let fault = TypeFault::NotEquivalent(second.expr.place);
    push_unless(faults, equivalent, fault)?;
    if faults.len() > before {
        return Ok(None);
    }
    Ok(Some(source(copy(&first.part.typ)?)))
}
