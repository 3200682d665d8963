//! The code of expressions.

ghost use Rattle.std.specs.Prelude.{◌≡◌, Some, IsSome, IfOk, All, map};
ghost use Rattle.flat_code.specs.Meaning.{location_shape};
ghost use Rattle.flat_code.specs.Fine.{location_shapes, location_slots};
ghost use Rattle.ground_net.specs.Shapes.{shape, all_of};
ghost use Rattle.code_draft.specs.Drafts.{IsDraft, Makes};
ghost use Rattle.code_draft.specs.Segments.{Step};
ghost use Rattle.ground_net.specs.declared.ground.Ground.TheVariants.{Leaf as Leaf_of};
ghost use Rattle.code_emit.specs.Emits.{as_leaves, sources_table, source_shape, Emits, EmitsAll, AreShaped, shapes_in, Fits, IsOf, leaf_source, element_source};
ghost use Rattle.code_emit.specs.Spans.{Spans, SpansAll, StandsThere, source_slots};
ghost use Rattle.code_draft.specs.declared.sources.Source.TheVariants.{Frame as A_frame};
ghost use Rattle.flat_code.specs.declared.instr.Location.{Location as TheLocation};

use crate::chains::emit_choice;
use crate::forms::{items_measure, joined};
use crate::nested::{Row, emit_nested, inner_of};
use crate::values::{emit_fit, emit_operation};
use bit_words::List;
use code_draft::{
    Draft, Elements, Source, Sources, constant, input, load, load_row, row_of, wide_value,
};
use flat_code::{Form, Location};
use ground_net::{Ground, Numbers};
use std::alloc::{AllocError, Global};

/// Adds code for the value of an expression, and gives the location of the value.
#[cycle(emit)]
pub fn emit(
    alloc: Global,
    draft: &mut Draft,
    sources: &Sources,
    ground: &Ground,
) -> Result<Location, AllocError>
    requires { IsSome (shape ground.now (sources_table sources.now)) }
    ensures shape { IfOk result (λ s. shape ground.now (sources_table sources.now) ≡ Some (location_shape s)) }
    ensures emits { IfOk result (λ s. Emits sources.now ground.now draft.old draft.new s) }
    ensures spans { IfOk result (λ s. Spans sources.now ground.now draft.old draft.new s) }
    ensures stands { IfOk result (λ s. StandsThere sources.now ground.now draft.old draft.new s) }
{
    match ground {
        Ground::Const(value) => constant(draft, *value),
        Ground::Leaf(leaf) => fetch(draft, source_of(sources, *leaf)),
        Ground::Op(prim, operands, params) => match inner_of(operands.as_slice()) {
            Some(inner) => {
                let outer = Row {
                    prim: *prim,
                    params: params.as_slice(),
                };
                let locations = emit_all(alloc, draft, sources, inner.operands)?;
                emit_nested(alloc, draft, locations, inner.row, outer)
            }
            None => {
                let locations = emit_all(alloc, draft, sources, operands.as_slice())?;
                emit_operation(alloc, draft, *prim, locations, params.as_slice())
            }
        },
        Ground::Mux(items) => {
            let locations = emit_all(alloc, draft, sources, items.as_slice())?;
            emit_choice(alloc, draft, locations)
        }
        Ground::Select(index, items) => {
            let front = emit_all(alloc, draft, sources, index.as_slice())?;
            let back = emit_all(alloc, draft, sources, items.as_slice())?;
            let measure = items_measure(back.as_slice());
            let locations = joined(front, back.as_slice())?;
            wide_value(draft, Form::Select, locations, measure.kind, measure.width)
        }
        Ground::Indexed(numbers, indices, lengths) => {
            let front = emit_all(alloc, draft, sources, indices.as_slice())?;
            if let Some(row) = row_of(alloc, sources, numbers, front.as_slice())? {
                return load_row(draft, front.as_slice(), lengths.as_slice(), row);
            }
            let back = emit_leaves(alloc, draft, sources, numbers)?;
            let measure = items_measure(back.as_slice());
            let locations = joined(front, back.as_slice())?;
            let lengths = List::from_slice(alloc, lengths.as_slice())?;
            wide_value(
                draft,
                Form::Pick(lengths),
                locations,
                measure.kind,
                measure.width,
            )
        }
        Ground::Load(memory, leaf, items) => {
            let locations = emit_all(alloc, draft, sources, items.as_slice())?;
            let elements = elements_of(sources, *memory, *leaf);
            wide_value(
                draft,
                Form::Load(elements.region),
                locations,
                elements.kind,
                elements.width,
            )
        }
        Ground::Fit(kind, width, items) => {
            let locations = emit_all(alloc, draft, sources, items.as_slice())?;
            emit_fit(draft, locations, *kind, *width)
        }
    }
}

/// Adds code for the values of expressions, in order.
#[cycle(emit)]
fn emit_all(
    alloc: Global,
    draft: &mut Draft,
    sources: &Sources,
    grounds: &[Ground],
) -> Result<List<Location>, AllocError>
    requires { AreShaped (sources_table sources.now) grounds.now }
    ensures shapes { IfOk result (λ ss. all_of (shapes_in (sources_table sources.now) grounds.now) ≡ Some (location_shapes ss)) }
    ensures emits { IfOk result (λ ss. EmitsAll sources.now grounds.now draft.old draft.new ss) }
    ensures spans { IfOk result (λ ss. SpansAll sources.now grounds.now draft.old draft.new ss) }
{
    let mut locations = List::new(alloc);
    for ground in grounds {
        locations.push(emit(alloc, draft, sources, ground)?)?;
    }
    Ok(locations)
}

/// Adds code for the values of leaves, in order.
fn emit_leaves(
    alloc: Global,
    draft: &mut Draft,
    sources: &Sources,
    numbers: &Numbers,
) -> Result<List<Location>, AllocError>
    requires { AreShaped (sources_table sources.now) (as_leaves numbers.now) }
    ensures shapes { IfOk result (λ ss. all_of (shapes_in (sources_table sources.now) (as_leaves numbers.now)) ≡ Some (location_shapes ss)) }
    ensures emits { IfOk result (λ ss. EmitsAll sources.now (as_leaves numbers.now) draft.old draft.new ss) }
    ensures spans { IfOk result (λ ss. SpansAll sources.now (as_leaves numbers.now) draft.old draft.new ss) }
{
    let mut row = Vec::new(alloc);
    numbers.push_to(&mut row)?;
    let locations = fetch_all(alloc, draft, sources, row.as_slice())?;
    Ok(locations)
}

/// The same, of leaves that are listed.
fn fetch_all(
    alloc: Global,
    draft: &mut Draft,
    sources: &Sources,
    leaves: &[u32],
) -> Result<List<Location>, AllocError>
    requires { AreShaped (sources_table sources.now) (as_leaves leaves.now) }
    ensures shapes { IfOk result (λ ss. all_of (shapes_in (sources_table sources.now) (as_leaves leaves.now)) ≡ Some (location_shapes ss)) }
    ensures emits { IfOk result (λ ss. EmitsAll sources.now (as_leaves leaves.now) draft.old draft.new ss) }
    ensures spans { IfOk result (λ ss. SpansAll sources.now (as_leaves leaves.now) draft.old draft.new ss) }
{
    let mut locations = List::new(alloc);
    for leaf in leaves {
        locations.push(emit_leaf(draft, sources, *leaf)?)?;
    }
    Ok(locations)
}

/// Adds code for the value of a leaf.
fn emit_leaf(draft: &mut Draft, sources: &Sources, leaf: u32) -> Result<Location, AllocError>
    requires { IsSome (shape (Leaf_of leaf) (sources_table sources.now)) }
    ensures shape { IfOk result (λ s. shape (Leaf_of leaf) (sources_table sources.now) ≡ Some (location_shape s)) }
    ensures emits { IfOk result (λ s. Emits sources.now (Leaf_of leaf) draft.old draft.new s) }
    ensures spans { IfOk result (λ s. Spans sources.now (Leaf_of leaf) draft.old draft.new s) }
{
    fetch(draft, source_of(sources, leaf))
}

/// Adds code for the value of a source, where it isn't in the frame.
fn fetch(draft: &mut Draft, source: Source) -> Result<Location, AllocError>
    ensures shape { IfOk result (λ s. location_shape s ≡ source_shape source) }
    ensures makes { IfOk result (λ s. IsDraft draft.old → Fits draft.old source → Makes draft.old draft.new s (IsOf source)) }
    ensures step { IfOk result (λ s. Step draft.old draft.new (source_slots source) (location_slots s) 2) }
    ensures stands { IfOk result (λ s. (t : TheLocation) → source ≡ A_frame t → (s ≡ t) × (draft.new ≡ draft.old)) }
{
    match source {
        Source::Word(kept) => load(draft, kept.kind, kept.width, kept.number),
        Source::Input(kept) => input(draft, kept.kind, kept.width, kept.number),
        Source::Frame(location) => Ok(location),
        Source::Constant(value) => constant(draft, value),
    }
}

/// The source of a leaf.
fn source_of(sources: &Sources, leaf: u32) -> Source
    requires { IsSome (leaf_source sources.now leaf) }
    ensures { leaf_source sources.now leaf ≡ Some result }
{
    let Some(there) = sources.leaves.get(leaf as usize) else {
        unreachable!();
    };
    match *there {
        Some(source) => source,
        None => unreachable!(),
    }
}

/// The source of a leaf of the elements of a memory.
fn elements_of(sources: &Sources, memory: u32, leaf: u32) -> Elements
    requires { IsSome (element_source sources.now memory leaf) }
    ensures { element_source sources.now memory leaf ≡ Some result }
{
    let Some(elements) = sources.memories.get(memory as usize) else {
        unreachable!();
    };
    match elements.get(leaf as usize) {
        Some(element) => *element,
        None => unreachable!(),
    }
}
