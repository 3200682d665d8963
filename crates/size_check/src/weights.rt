//! The nodes of expressions, and the leaves of their types.

ghost use Rattle.std.specs.Prelude.{◌≡◌, ◌+◌, max, map, sum, IfOk};
ghost use Rattle.fir_meaning.specs.Values.{field_type, element_type};
ghost use Rattle.size_check.specs.Caps.{cap};
ghost use Rattle.fir_tree.specs.LeafNames.{Texts};
ghost use Rattle.size_check.specs.Kept.{AreMeasured};
ghost use Rattle.size_check.specs.Reaching.{types_in, weight_of, capped_weight, HasPart};
ghost use Rattle.size_check.specs.Weights.{nodes, suffix_nodes, weight, suffix_step, along, whole, reach, most_of, of_choice, one_bit};

use crate::known::Known;
use crate::reached::Reached;
use fir_tree::{Expr, Form, Suffix};
use std::alloc::AllocError;
use type_index::Known as Part;

/// How many nodes an expression has. More than fit the number are a want of memory.
#[cycle(nodes)]
pub fn nodes(expr: &Expr) -> Result<u128, AllocError>
    ensures { IfOk result (λ count. count ≡ nodes expr.now) }
{
    match &expr.form {
        Form::Ref(_, suffixes) => more(1, nodes_of_suffixes(suffixes.as_slice())?),
        Form::Literal(_, _, _) => Ok(1),
        Form::Prim(_, operands, _) | Form::Mux(operands) => {
            more(1, nodes_of_all(operands.as_slice())?)
        }
    }
}

#[cycle(nodes)]
fn nodes_of_all(exprs: &[Expr]) -> Result<u128, AllocError>
    ensures { IfOk result (λ count. count ≡ sum (map nodes exprs.now)) }
{
    let mut count = 0;
    for expr in exprs {
        count = more(count, nodes(expr)?)?;
    }
    Ok(count)
}

#[cycle(nodes)]
fn nodes_of_suffixes(suffixes: &[Suffix]) -> Result<u128, AllocError>
    ensures { IfOk result (λ count. count ≡ sum (map suffix_nodes suffixes.now)) }
{
    let mut count = 0;
    for suffix in suffixes {
        count = more(count, nodes_of_suffix(suffix)?)?;
    }
    Ok(count)
}

#[cycle(nodes)]
fn nodes_of_suffix(suffix: &Suffix) -> Result<u128, AllocError>
    ensures { IfOk result (λ count. count ≡ suffix_nodes suffix.now) }
{
    match suffix {
        Suffix::Field(_) | Suffix::At(_, _, _) => Ok(1),
        Suffix::Index(_, index) => more(1, nodes(index)?),
    }
}

/// The sum of two numbers of nodes. One that doesn't fit is a want of memory.
pub fn more(count: u128, other: u128) -> Result<u128, AllocError>
    ensures { IfOk result (λ all. all ≡ count + other) }
{
    match count.checked_add(other) {
        Some(all) => Ok(all),
        None => Err(AllocError),
    }
}

/// An expression among the components that are known.
#[cycle(weigh)]
pub fn weigh<'a>(known: &'a Known, expr: &Expr) -> Reached<'a>
    ensures weight { weight_of result ≡ capped_weight (weight expr.now (types_in known.now)) }
    ensures ways { (texts : Texts) → AreMeasured texts known.now.types.entries → HasPart texts result.part }
{
    match &expr.form {
        Form::Ref(name, suffixes) => follow(known, name.id, suffixes.as_slice()),
        Form::Literal(_, _, _) => one_leaf(known),
        Form::Prim(_, operands, _) => operation(known, most_in(known, operands.as_slice())),
        Form::Mux(operands) => choose(known, operands.as_slice()),
    }
}

/// The greatest number of leaves that a node of these expressions has.
#[cycle(weigh)]
fn most_in(known: &Known, exprs: &[Expr]) -> u128
    ensures { result ≡ cap (most_of (map (λ e. weight e (types_in known.now)) exprs.now)) }
{
    let mut most = 0;
    for expr in exprs {
        most = weigh(known, expr).most.max(most);
    }
    most
}

#[cycle(weigh)]
fn choose<'a>(known: &'a Known, operands: &[Expr]) -> Reached<'a>
    ensures weight { weight_of result ≡ capped_weight (of_choice (map (λ e. weight e (types_in known.now)) operands.now)) }
    ensures ways { (texts : Texts) → AreMeasured texts known.now.types.entries → HasPart texts result.part }
{
    let [condition, first, rest @ ..] = operands else {
        return Reached {
            part: known.none.known(),
            most: most_in(known, operands),
        };
    };
    let asked = weigh(known, condition).most;
    let reached = weigh(known, first);
    Reached {
        part: reached.part,
        most: asked.max(reached.most.max(most_in(known, rest))),
    }
}

/// The result of an operation, of whose operands a node has at most so many leaves.
fn operation(known: &Known, most: u128) -> Reached<'_>
    ensures typ { result.part.typ.now ≡ one_bit }
    ensures most { result.most ≡ max most 1 }
    ensures ways { (texts : Texts) → HasPart texts result.part }
{
    Reached {
        part: known.bit.known(),
        most: most.max(1),
    }
}

/// What the suffixes lead to from a component.
#[cycle(weigh)]
fn follow<'a>(known: &'a Known, name: u32, suffixes: &[Suffix]) -> Reached<'a>
    ensures weight { weight_of result ≡ capped_weight (along (types_in known.now) name (map suffix_step suffixes.now)) }
    ensures ways { (texts : Texts) → AreMeasured texts known.now.types.entries → HasPart texts result.part }
{
    let mut reached = start(known, name);
    for suffix in suffixes {
        reached = take_step(known, reached, suffix);
    }
    reached
}

#[cycle(weigh)]
fn take_step<'a>(known: &'a Known, before: Reached<'a>, suffix: &Suffix) -> Reached<'a>
    ensures weight { weight_of result ≡ capped_weight (suffix_step suffix.now (types_in known.now) (weight_of before.entry)) }
    ensures ways { (texts : Texts) → HasPart texts before.entry.part → HasPart texts result.part }
{
    match suffix {
        Suffix::Field(name) => to_part(before, field_of(before.part, name.id), 0),
        Suffix::At(_, _, _) => to_part(before, element_of(before.part), 0),
        Suffix::Index(_, index) => {
            let most = weigh(known, index).most;
            to_part(before, element_of(before.part), most)
        }
    }
}

/// A component as a whole.
fn start(known: &Known, name: u32) -> Reached<'_>
    ensures weight { weight_of result ≡ capped_weight (whole (types_in known.now name)) }
    ensures ways { (texts : Texts) → AreMeasured texts known.now.types.entries → HasPart texts result.part }
{
    let part = known.of(name);
    Reached {
        part,
        most: part.index.leaves,
    }
}

/// What is one leaf.
fn one_leaf(known: &Known) -> Reached<'_>
    ensures weight { weight_of result ≡ capped_weight (whole one_bit) }
    ensures ways { (texts : Texts) → HasPart texts result.part }
{
    Reached {
        part: known.bit.known(),
        most: 1,
    }
}

/// A part, beside which an index stands.
fn to_part<'a>(before: Reached<'a>, part: Part<'a>, index: u128) -> Reached<'a>
    ensures weight { weight_of result ≡ capped_weight (reach part.entry.typ.now index (weight_of before.entry)) }
    ensures part { (texts : Texts) → HasPart texts part.entry → HasPart texts result.part }
{
    let most = before.most.max(index);
    Reached {
        part,
        most: most.max(part.index.leaves),
    }
}

/// A bundle's first field of a name. What has no such field stays.
fn field_of(before: Part<'_>, id: u32) -> Part<'_>
    ensures typ { result.typ.now ≡ field_type id before.entry.typ.now }
    ensures ways { (texts : Texts) → HasPart texts before.entry → HasPart texts result }
{
    match before.field(id) {
        Some(field) => field.known(),
        None => before,
    }
}

/// An element. What is no vector stays.
fn element_of(before: Part<'_>) -> Part<'_>
    ensures typ { result.typ.now ≡ element_type before.entry.typ.now }
    ensures ways { (texts : Texts) → HasPart texts before.entry → HasPart texts result }
{
    match before.element() {
        Some(part) => part,
        None => before,
    }
}
