//! Expressions, leaf by leaf.

ghost use Rattle.std.specs.Prelude.{◌≡◌, map, length, true, None, IfOk, IsSome};
ghost use Rattle.std.specs.List.{list_all};
ghost use Rattle.fir_tree.specs.declared.expr.Form.TheOpen.{Form-F};
ghost use Rattle.fir_meaning.specs.WellTyped.{typed, of_form as typed_form};
ghost use Rattle.fir_meaning.specs.Values.{value, suffix_step, of_form as value_form};
ghost use Rattle.fir_meaning.specs.Mentions.{mentions, suffix_onward, of_form as mentions_form};
ghost use Rattle.ground_exprs.specs.Sources.{Entries, known_of, AreNarrow, Lowers, IsLowered, AreOperands, is_lone, typed_step, Steps, Leads};

use crate::choice::chosen;
use crate::component::Component;
use crate::constants::{constant, width_of};
use crate::inside::to_elements;
use crate::operation::{lone, operation};
use crate::part::Pick;
use crate::part_sources::sources_of;
use crate::source::Source;
use crate::stepping::{indexed, whole};
use crate::views::{View, enter_element, enter_field};
use bit_words::{Kind, List, Number};
use fir_tree::{Expr, Form, Suffix};
use fir_types::Name;
use ground_net::Ground;
use indexmap::IndexMap;
use std::alloc::{AllocError, Global};

/// What the leaves of an expression have (FIRRTL specification 3.0, "Expressions"), where these are the components.
///
/// Takes time and memory in proportion to the expression, times the number of leaves of its types.
#[cycle(lower)]
pub fn lower_expr(
    alloc: Global,
    known: &IndexMap<u32, Component>,
    expr: &Expr,
) -> Result<List<Source>, AllocError>
    requires narrow { AreNarrow known.now.entries }
    requires typed { IsSome (typed expr.now (known_of known.now.entries)) }
    ensures { IfOk result (λ sources. IsLowered known.now.entries expr.now sources) }
{
    match &expr.form {
        Form::Ref(name, suffixes) => {
            let view = follow(alloc, known, *name, suffixes.as_slice())?;
            let sources = sources_of(alloc, view.at.typ, &view.part)?;
            Ok(sources)
        }
        Form::Literal(kind, width, number) => {
            let sources = literal(alloc, *kind, *width, *number)?;
            Ok(sources)
        }
        Form::Prim(prim, operands, params) => {
            let operands = lower_operands(alloc, known, operands.as_slice())?;
            let source = operation(alloc, *prim, operands, params.as_slice())?;
            let sources = vec![in alloc; source]?;
            Ok(List::from_vec(sources))
        }
        Form::Mux(operands) => {
            let sources = lower_choice(alloc, known, operands.as_slice())?;
            Ok(sources)
        }
    }
}

/// What the operands of an operation have.
#[cycle(lower)]
fn lower_operands(
    alloc: Global,
    known: &IndexMap<u32, Component>,
    operands: &[Expr],
) -> Result<List<Source>, AllocError>
    requires narrow { AreNarrow known.now.entries }
    requires typed { list_all (is_lone (known_of known.now.entries)) operands.now ≡ true }
    ensures { IfOk result (λ sources. AreOperands known.now.entries operands.now (length operands.now) sources) }
{
    let mut sources = List::new(alloc);
    for operand in operands {
        let source = lone(lower_expr(alloc, known, operand)?);
        sources.push(source)?;
    }
    Ok(sources)
}

/// A choice of the second or the third operand.
#[cycle(lower)]
fn lower_choice(
    alloc: Global,
    known: &IndexMap<u32, Component>,
    operands: &[Expr],
) -> Result<List<Source>, AllocError>
    requires narrow { AreNarrow known.now.entries }
    requires typed { IsSome (typed_form (Form-F.Mux (map typed operands.now)) (known_of known.now.entries)) }
    ensures { IfOk result (λ sources. Lowers known.now.entries (typed_form (Form-F.Mux (map typed operands.now)) (known_of known.now.entries)) (value_form (Form-F.Mux (map value operands.now))) (mentions_form (Form-F.Mux (map mentions operands.now))) sources) }
{
    let [condition, first, second] = operands else {
        unreachable!();
    };
    let condition = lone(lower_expr(alloc, known, condition)?);
    let first = lower_expr(alloc, known, first)?;
    let second = lower_expr(alloc, known, second)?;
    let sources = chosen(alloc, condition, first, second)?;
    Ok(sources)
}

/// The part that a reference names (FIRRTL specification 3.0, "References").
#[cycle(lower)]
pub fn follow<'a>(
    alloc: Global,
    known: &'a IndexMap<u32, Component>,
    name: Name,
    suffixes: &[Suffix],
) -> Result<View<'a>, AllocError>
    requires narrow { AreNarrow known.now.entries }
    requires typed { IsSome (typed_form (Form-F.Ref name (map typed_step suffixes.now)) (known_of known.now.entries)) }
    ensures { IfOk result (λ view. Leads known.now.entries name.id suffixes.now view.at.typ.now view.part) }
{
    let Some(component) = known.get(&name.id) else {
        unreachable!();
    };
    let mut view = View {
        at: component.typ.tabled(),
        part: whole(alloc, component.first),
    };
    for suffix in suffixes {
        view = step(alloc, known, suffix, view)?;
    }
    Ok(view)
}

/// A step of a reference.
#[cycle(lower)]
fn step<'a>(
    alloc: Global,
    known: &IndexMap<u32, Component>,
    suffix: &Suffix,
    view: View<'a>,
) -> Result<View<'a>, AllocError>
    requires narrow { AreNarrow known.now.entries }
    requires typed { IsSome (typed_step suffix.now (known_of known.now.entries) view.at.typ.now) }
    ensures { IfOk result (λ next. Steps known.now.entries suffix.now view.entry.at.typ.now view.entry.part next.at.typ.now next.part) }
{
    match suffix {
        Suffix::Field(name) => {
            let next = enter_field(view.at, view.part, name.id)?;
            Ok(next)
        }
        Suffix::At(_, _, number) => {
            let next = enter_element(view.at, view.part, *number)?;
            Ok(next)
        }
        Suffix::Index(_, index) => {
            let elements = to_elements(view.at)?;
            let source = lone(lower_expr(alloc, known, index)?);
            let pick = Pick {
                index: source.expr,
                length: elements.length,
                stride: elements.stride,
            };
            let part = indexed(view.part, pick)?;
            Ok(View {
                at: elements.at,
                part,
            })
        }
    }
}

/// A literal of at most 128 bits.
fn literal(
    alloc: Global,
    kind: Kind,
    width: Option<u128>,
    number: Number,
) -> Result<List<Source>, AllocError>
    requires { IsSome (typed_form (Form-F.Literal kind width number) (λ name. None)) }
    ensures { (known : Entries) → IfOk result (λ sources. Lowers known (typed_form (Form-F.Literal kind width number) (known_of known)) (value_form (Form-F.Literal kind width number)) (mentions_form (Form-F.Literal kind width number)) sources) }
{
    let width = width_of(kind, width, number) as u8;
    let sources = vec![in alloc;
        Source {
            expr: Ground::Const(constant(kind, width, number)),
            kind,
            width,
        },
    ]?;
    Ok(List::from_vec(sources))
}
