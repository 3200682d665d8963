//! The widths of expressions.

ghost use Rattle.std.specs.Prelude.{◌≡◌, ◌++◌, ◌∷◌, [], map, zip, false, None, OnOk, IfOk};
ghost use Rattle.bit_words.specs.Numbers.{integer_of_number};
ghost use Rattle.prim_ops.specs.Kinds.{row_kind};
ghost use Rattle.fir_tree.specs.Parts.{source_of, no_part};
ghost use Rattle.fir_tree.specs.Kinds.{sign_of, sign_or_unsigned};
ghost use Rattle.width_rules.specs.Places.{capped};
ghost use Rattle.width_rules.specs.Sources.{component, component_or_none, named, measured, measured_reference, suffix_step, formula_of, literal_bits, lone, kind_of, result_type, greater_of, choice};
ghost use Rattle.width_rules.specs.Parts.{measured_by, formula_over, viewed};
ghost use Rattle.width_rules.specs.Pieces.{slots_in};
ghost use Rattle.width_rules.specs.Targets.{has_target};

use crate::indexed::{Indexed, has_variable};
use crate::pieces::{Slots, first_piece, listed};
use crate::rule::Formula;
use crate::sizes::{CHOICE_UNITS, MOST_UNITS};
use crate::slot::{Slot, capped};
use crate::steps::{View, walk_steps};
use bit_words::literal::least_width;
use bit_words::{Kind, List, Number, Shared};
use fir_tree::kinds::ground;
use fir_tree::steps::no_part;
use fir_tree::{Expr, Flow, Form, Names, Suffix};
use fir_types::{FirType, Shape};
use indexmap::IndexMap;
use place_text::Place;
use prim_ops::{Prim, arity};
use std::alloc::{AllocError, Global};
use type_index::{KnownType, TypeIndex};

/// What an expression stands among: the texts of names, and the components that are declared before it.
#[derive(Clone, Copy)]
pub struct Scope<'a> {
    pub names: &'a Names,
    pub known: &'a IndexMap<u32, Indexed>,
}

/// Formulas of places, and what each of them takes besides itself, in units of 40 bytes: each the same, as it is made of the same
/// choices. What stands but once in the text doesn't count.
#[derive(Drop)]
pub struct Formulas {
    pub list: List<Formula>,
    pub units: usize,
}

/// An expression: its type with its flow, and a formula for the width of each of its type's places.
#[derive(Drop)]
pub struct Measure {
    pub known: KnownType,
    pub flow: Flow,
    pub formulas: Formulas,
}

/// The widths of an expression.
#[cycle(measure)]
pub fn measure_expr(alloc: Global, scope: Scope<'_>, expr: &Expr) -> Result<Measure, AllocError>
    ensures { IfOk result (λ m. measured_by m ≡ measured expr.now scope.entry.known.now.entries) }
{
    match &expr.form {
        Form::Ref(name, suffixes) => reference(alloc, scope.known, name.id, suffixes.as_slice()),
        Form::Literal(kind, width, number) => {
            let formula = Formula::Fixed(capped(width_of(*kind, *width, *number)));
            single(
                alloc,
                scope.names,
                ground(expr.place, *kind, *width),
                formula,
            )
        }
        Form::Prim(prim, operands, params) => {
            let mut kinds = List::new(alloc);
            let mut formulas = List::new(alloc);
            measure_operands(alloc, scope, operands.as_slice(), &mut kinds, &mut formulas)?;
            let params = List::from_slice(alloc, params.as_slice())?;
            let typ = operation_type(*prim, expr.place, kinds.as_slice());
            let formula = operation_formula(alloc, *prim, kinds, formulas, params)?;
            single(alloc, scope.names, typ, formula)
        }
        Form::Mux(operands) => measure_choice(alloc, scope, operands.as_slice()),
    }
}

/// Adds the kinds and the widths of operands.
#[cycle(measure)]
fn measure_operands(
    alloc: Global,
    scope: Scope<'_>,
    operands: &[Expr],
    kinds: &mut List<Kind>,
    formulas: &mut List<Formula>,
) -> Result<(), AllocError>
    ensures kinds { OnOk result (kinds.new ≡ kinds.old ++ map (λ e. kind_of (measured e scope.entry.known.now.entries)) operands.now) }
    ensures formulas { OnOk result (formulas.new ≡ formulas.old ++ map (λ e. lone (measured e scope.entry.known.now.entries).formulas) operands.now) }
{
    for operand in operands {
        let measured = measure_expr(alloc, scope, operand)?;
        kinds.push(kind(&measured.known.typ))?;
        formulas.push(first_of(measured.formulas.list))?;
    }
    Ok(())
}

/// A choice between the second and the third operand.
#[cycle(measure)]
fn measure_choice(alloc: Global, scope: Scope<'_>, operands: &[Expr]) -> Result<Measure, AllocError>
    ensures { IfOk result (λ m. measured_by m ≡ choice (map (λ e. measured e scope.entry.known.now.entries) operands.now)) }
{
    let [_, first, second] = operands else {
        return Ok(Measure {
            known: no_type(alloc)?,
            flow: Flow::Source,
            formulas: in_text(List::new(alloc)),
        });
    };
    let first = measure_expr(alloc, scope, first)?;
    let second = measure_expr(alloc, scope, second)?;
    Ok(Measure {
        known: first.known,
        flow: Flow::Source,
        formulas: greater_of(alloc, first.formulas, second.formulas)?,
    })
}

/// Formulas that take nothing besides themselves but what stands in the text.
pub fn in_text(list: List<Formula>) -> Formulas
    ensures { result.list ≡ list }
{
    Formulas { list, units: 0 }
}

/// Place by place the greater of two widths. Too many are a want of memory.
fn greater_of(alloc: Global, first: Formulas, second: Formulas) -> Result<Formulas, AllocError>
    ensures { IfOk result (λ greater. greater.list ≡ map greater_of (zip first.list second.list)) }
{
    let parts = first.units.saturating_add(second.units);
    let units = parts.saturating_add(CHOICE_UNITS);
    if units.saturating_mul(first.list.len()) > MOST_UNITS {
        return Err(AllocError);
    }
    let list = greater_formulas(alloc, first.list, second.list)?;
    Ok(Formulas { list, units })
}

fn greater_formulas(
    alloc: Global,
    first: List<Formula>,
    second: List<Formula>,
) -> Result<List<Formula>, AllocError>
    ensures { IfOk result (λ greater. greater ≡ map greater_of (zip first second)) }
{
    let mut greater = List::new(alloc);
    let mut others = second.into_vec().into_iter();
    for formula in first.into_vec() {
        let Some(other) = others.next() else {
            break;
        };
        greater.push(pair(alloc, formula, other)?)?;
    }
    Ok(greater)
}

fn pair(alloc: Global, first: Formula, second: Formula) -> Result<Formula, AllocError>
    ensures { IfOk result (λ greater. greater ≡ greater_of (first, second)) }
{
    let mut both = Vec::with_capacity(alloc, 2)?;
    both.push(first)?;
    both.push(second)?;
    Ok(Formula::Greatest(Shared::new(alloc, List::from_vec(both))?))
}

fn reference(
    alloc: Global,
    known: &IndexMap<u32, Indexed>,
    name: u32,
    suffixes: &[Suffix],
) -> Result<Measure, AllocError>
    ensures { IfOk result (λ m. measured_by m ≡ measured_reference (named (map suffix_step suffixes.now) (component known.now.entries name))) }
{
    let nothing = no_component(alloc)?;
    let component = look_up(known, name, &nothing);
    let view = walk_steps(component, suffixes);
    Ok(Measure {
        known: KnownType::of(view.known)?,
        flow: view.flow,
        formulas: in_text(formulas_in(alloc, view.slots)?),
    })
}

/// Whether a width of the expression may be a variable, as only a reference's can. Takes constant time where its component has no
/// variable, and else no more than the places of the part that it names, and no memory.
pub fn may_have_target(known: &IndexMap<u32, Indexed>, expr: &Expr) -> bool
    ensures { result ≡ false → has_target (measured expr.now known.now.entries).formulas ≡ false }
{
    match &expr.form {
        Form::Ref(name, suffixes) => varies(known, name.id, suffixes.as_slice()),
        Form::Literal(_, _, _) => false,
        Form::Prim(_, _, _) => false,
        Form::Mux(_) => false,
    }
}

fn varies(known: &IndexMap<u32, Indexed>, name: u32, suffixes: &[Suffix]) -> bool
    ensures { result ≡ false → has_target (measured_reference (named (map suffix_step suffixes.now) (component known.now.entries name))).formulas ≡ false }
{
    match known.get(&name) {
        Some(component) => component_varies(component, suffixes),
        None => false,
    }
}

fn component_varies(component: &Indexed, suffixes: &[Suffix]) -> bool
    ensures { result ≡ false → has_target (measured_reference (named (map suffix_step suffixes.now) component.now)).formulas ≡ false }
{
    if component.is_open() {
        part_varies(walk_steps(component, suffixes))
    } else {
        false
    }
}

/// Whether a place has a variable.
fn part_varies(view: View<'_>) -> bool
    ensures { result ≡ has_target (measured_reference (viewed view.entry)).formulas }
{
    let mut rest = view.slots;
    while let Some((piece, behind)) = first_piece(rest) {
        if has_variable(piece) {
            return true;
        }
        rest = behind;
    }
    false
}

/// The component of a name, or the other one.
pub fn look_up<'a>(
    known: &'a IndexMap<u32, Indexed>,
    name: u32,
    nothing: &'a Indexed,
) -> &'a Indexed
    requires { nothing.now ≡ component_or_none None }
    ensures { result.now ≡ component known.now.entries name }
{
    match known.get(&name) {
        Some(component) => component,
        None => nothing,
    }
}

/// What stands for a component that isn't known.
pub fn no_component(alloc: Global) -> Result<Indexed, AllocError>
    ensures { IfOk result (λ nothing. nothing ≡ component_or_none None) }
{
    let known = no_type(alloc)?;
    Indexed::of(alloc, known, Flow::Source, List::new(alloc))
}

/// What is known of the type of what isn't known.
fn no_type(alloc: Global) -> Result<KnownType, AllocError>
    ensures { IfOk result (λ known. source_of known.typ ≡ no_part) }
{
    let nothing = no_part(alloc)?;
    let index = TypeIndex::of_nothing(alloc)?;
    Ok(KnownType {
        typ: nothing.typ,
        index,
    })
}

/// Widths of a component as formulas.
fn formulas_in(alloc: Global, slots: Slots<'_>) -> Result<List<Formula>, AllocError>
    ensures { IfOk result (λ formulas. formulas ≡ map formula_of (slots_in slots.entry)) }
{
    match slots {
        Slots::Listed(list) => formulas_of(alloc, list),
        Slots::Between(_, _, _) => {
            let own = listed(alloc, slots)?;
            formulas_of(alloc, own.as_slice())
        }
    }
}

/// Widths as formulas.
pub fn formulas_of(alloc: Global, slots: &[Slot]) -> Result<List<Formula>, AllocError>
    ensures { IfOk result (λ formulas. formulas ≡ map formula_of slots.now) }
{
    let mut formulas = Vec::with_capacity(alloc, slots.len())?;
    for slot in slots {
        formulas.push(formula_of(*slot))?;
    }
    Ok(List::from_vec(formulas))
}

pub fn formula_of(slot: Slot) -> Formula
    ensures { result ≡ formula_of slot }
{
    match slot {
        Slot::Fixed(width) => Formula::Fixed(width),
        Slot::Var(variable) => Formula::Var(variable),
    }
}

/// A number of this type and this width.
fn single(
    alloc: Global,
    names: &Names,
    typ: FirType,
    formula: Formula,
) -> Result<Measure, AllocError>
    ensures { IfOk result (λ m. measured_by m ≡ record { part = source_of typ; formulas = formula ∷ [] }) }
{
    let known = KnownType::new(alloc, names, typ)?;
    let mut list = List::new(alloc);
    list.push(formula)?;
    Ok(Measure {
        known,
        flow: Flow::Source,
        formulas: in_text(list),
    })
}

/// The width that a literal gives, or the least that holds it, at most 129. It is 129 for a negative `UInt`, which no
/// circuit without a fault has.
pub fn width_of(kind: Kind, width: Option<u128>, number: Number) -> u128
    ensures { result ≡ literal_bits kind (integer_of_number number) width }
{
    match width {
        Some(width) => width,
        None => least_width(kind, number).unwrap_or(129).min(129),
    }
}

/// The type of an operation's result over operands of these kinds.
fn operation_type(prim: Prim, place: Place, kinds: &[Kind]) -> FirType
    ensures { result ≡ result_type prim place (sign_or_unsigned (row_kind prim kinds.now)) }
{
    let row = row_of(prim, kinds).unwrap_or(Kind::Unsigned);
    result_type(prim, place, row)
}

/// The type of an operation's result of this kind: that of a cast to AsyncReset is one.
pub fn result_type(prim: Prim, place: Place, kind: Kind) -> FirType
    ensures { result ≡ result_type prim place kind }
{
    match prim {
        Prim::AsAsyncReset => FirType {
            place,
            shape: Shape::AsyncReset,
        },
        _ => ground(place, kind, None),
    }
}

fn operation_formula(
    alloc: Global,
    prim: Prim,
    kinds: List<Kind>,
    formulas: List<Formula>,
    params: List<u128>,
) -> Result<Formula, AllocError>
    ensures { IfOk result (λ formula. formula ≡ formula_over prim kinds formulas params) }
{
    let takes = params.len() == arity(prim).1 as usize;
    if row_of(prim, kinds.as_slice()).is_none() || !takes {
        return Ok(Formula::Fixed(0));
    }
    let kinds = Shared::new(alloc, kinds)?;
    let formulas = Shared::new(alloc, formulas)?;
    let params = Shared::new(alloc, params)?;
    Ok(Formula::Op(prim, kinds, formulas, params))
}

/// The kind of an operation's result, where it takes operands of these kinds.
pub fn row_of(prim: Prim, kinds: &[Kind]) -> Option<Kind>
    ensures { result ≡ row_kind prim kinds.now }
{
    if kinds.len() == arity(prim).0 as usize {
        prim_ops::kind_of(prim, kinds)
    } else {
        None
    }
}

/// The kind of a number's type.
pub fn kind(typ: &FirType) -> Kind
    ensures { result ≡ sign_or_unsigned (sign_of typ.now) }
{
    match &typ.shape {
        Shape::Signed(_) => Kind::Signed,
        _ => Kind::Unsigned,
    }
}

fn first_of(formulas: List<Formula>) -> Formula
    ensures { result ≡ lone formulas }
{
    match formulas.into_vec().into_iter().next() {
        Some(formula) => formula,
        None => Formula::Fixed(0),
    }
}
