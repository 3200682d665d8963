//! What memories hold after the writes of a cycle, and what their ports have read (FIRRTL specification 3.0, "Memories").

ghost use Rattle.std.specs.Prelude.{◌≡◌, List as Listed, filter_map, IfOk};
ghost use Rattle.fir_types.specs.Memories.{first_or, under_in};
ghost use Rattle.fir_types.specs.declared.leaf.TypeLeaf.{TypeLeaf as ALeaf};
ghost use Rattle.fir_types.specs.declared.memory.Under.TheVariants.{Undefined};
ghost use Rattle.fir_meaning.specs.States.{taken};
ghost use Rattle.plain_values.specs.Contents.{contents_of, leaves_of_seen};
ghost use Rattle.plain_cycle.specs.Layouts.{Located};
ghost use Rattle.plain_cycle.specs.Runs.{IsRun, IsPart, design_in, state_at, values_at};
ghost use Rattle.plain_cycle.specs.Edges.{Beside, IsReadFrom, AreWritten, AreRead};

use crate::declarations::Sort;
use crate::finding::nothing;
use crate::run::{Moment, Part, Run};
use crate::sweep_memories::elements_on;
use bit_words::{List, Value};
use fir_types::{MemLine, PathStep, TypeLeaf, Under};
use plain_values::tree_drives::leaves_of_elements_are_stored;
use plain_values::{SeenMemory, View, read_by, stored_leaves, write};
use std::alloc::{AllocError, Global};

/// What is held of a memory after a cycle.
#[derive(Drop)]
pub struct MemoryNext {
    /// The elements that hold something, from the first one on: a value for each leaf of an element.
    pub elements: List<List<Value>>,
    /// A value for each leaf of the memory: what its ports have read there.
    pub read: List<Value>,
}

/// What is held of a memory after the cycle; nothing of another component.
pub fn next_of_memory(
    alloc: Global,
    run: &Run<'_>,
    moment: &Moment<'_>,
    part: &Part<'_>,
) -> Result<MemoryNext, AllocError>
    requires run { IsRun run.now }
    requires part { (x : Located) × IsPart (design_in run.now) x part.now }
    ensures written { IfOk result (λ next. (x : Located) → IsPart (design_in run.now) x part.now → AreWritten (state_at run.now moment.now) (values_at run.now moment.now) x next.elements) }
    ensures read { IfOk result (λ next. (x : Located) → IsPart (design_in run.now) x part.now → AreRead (state_at run.now moment.now) (values_at run.now moment.now) x next.read) }
{
    leaves_of_elements_are_stored();
    let Sort::Memory(memory) = part.declaration.sort else {
        return Ok(MemoryNext {
            elements: List::new(alloc),
            read: List::new(alloc),
        });
    };
    let path = part.site.path.as_slice();
    let contents = moment.held.contents.as_slice();
    let before = elements_on(run.sites, contents, path, part.site.name);
    let leaves = stored_leaves(alloc, part.site.leaves.as_slice())?;
    let view = View {
        sites: run.sites,
        values: moment.values,
        path,
    };
    let seen = SeenMemory {
        view,
        memory,
        leaves: leaves.as_slice(),
    };
    let mut elements = copied(alloc, before)?;
    write(alloc, &seen, &mut elements)?;
    let from = taken(memory.lines.as_slice(), before, elements.as_slice());
    let read = read_leaves(alloc, &seen, from, part.site.leaves.as_slice())?;
    Ok(MemoryNext { elements, read })
}

/// The elements with their values, in memory of their own.
fn copied(alloc: Global, elements: &[List<Value>]) -> Result<List<List<Value>>, AllocError>
    ensures { IfOk result (λ copy. copy ≡ elements.now) }
{
    let mut copy = List::new(alloc);
    for values in elements {
        copy.push(List::from_slice(alloc, values.as_slice())?)?;
    }
    Ok(copy)
}

/// The elements that a read of the cycle takes: those after the writes where a read under a write gives what is new, and else those
/// before them.
fn taken<'a>(
    lines: &[MemLine],
    before: &'a [List<Value>],
    after: &'a [List<Value>],
) -> &'a [List<Value>]
    ensures { (leaves : Listed ALeaf) → contents_of leaves result.now ≡ taken (first_or Undefined (filter_map under_in lines.now)) (contents_of leaves before.now) (contents_of leaves after.now) }
{
    match under_of(lines) {
        Under::New => after,
        Under::Old | Under::Undefined => before,
    }
}

/// What a read gives in the cycle of a write, by the first line that says it.
fn under_of(lines: &[MemLine]) -> Under
    ensures { result ≡ first_or Undefined (filter_map under_in lines.now) }
{
    for line in lines {
        if let MemLine::ReadUnder(_, under) = line {
            return *under;
        }
    }
    Under::Undefined
}

/// What the ports of a memory read from these elements, leaf by leaf.
fn read_leaves(
    alloc: Global,
    memory: &SeenMemory<'_>,
    elements: &[List<Value>],
    leaves: &[TypeLeaf],
) -> Result<List<Value>, AllocError>
    ensures { IfOk result (λ values. Beside (IsReadFrom memory.now.memory.now (leaves_of_seen memory.now) (contents_of memory.now.leaves.now elements.now)) leaves.now values) }
{
    let mut values = List::new(alloc);
    for leaf in leaves {
        values.push(read_leaf(alloc, memory, elements, leaf)?)?;
    }
    Ok(values)
}

/// What a leaf of a memory shows of these elements: nothing where it isn't read.
fn read_leaf(
    alloc: Global,
    memory: &SeenMemory<'_>,
    elements: &[List<Value>],
    leaf: &TypeLeaf,
) -> Result<Value, AllocError>
    ensures { IfOk result (λ v. IsReadFrom memory.now.memory.now (leaves_of_seen memory.now) (contents_of memory.now.leaves.now elements.now) leaf.now v) }
{
    if leaf.flip {
        return Ok(nothing());
    }
    match leaf.path.as_slice() {
        [PathStep::Field(port), PathStep::Field(_), way @ ..] => {
            read_by(alloc, memory, elements, *port, way)
        }
        _ => Ok(nothing()),
    }
}
