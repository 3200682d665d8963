//! What the ports of memories read (FIRRTL specification 3.0, "Memories").

ghost use Rattle.std.specs.Prelude.{◌≡◌, [], get_or, IfOk};
ghost use Rattle.bit_words.specs.Values.{integer_of};
ghost use Rattle.fir_meaning.specs.MemoryPorts.{read_by};
ghost use Rattle.plain_values.specs.Sites.{beside_leaf, integer_or_zero};
ghost use Rattle.plain_values.specs.Contents.{contents_of, leaves_of_seen};

use crate::fitting::zero;
use crate::memory::{SeenMemory, address, asks_to_read, port_named};
use crate::sights::value_beside;
use bit_words::{Kind, List, Value};
use drive_check::leaf_set::key_of;
use fir_types::{PathStep, TypeLeaf, depth_of};
use std::alloc::{AllocError, Global};

/// What the port of a name reads from these contents in a leaf of an element: 0 where it isn't set to read, and past the depth.
pub fn read_by(
    alloc: Global,
    memory: &SeenMemory<'_>,
    elements: &[List<Value>],
    port: u32,
    way: &[PathStep],
) -> Result<Value, AllocError>
    ensures { IfOk result (λ read. integer_of read ≡ read_by memory.now.memory.now (leaves_of_seen memory.now) (contents_of memory.now.leaves.now elements.now) port way.now) }
{
    let Some(port) = port_named(memory.memory, port) else {
        return Ok(zero(Kind::Unsigned, 0));
    };
    let reads = asks_to_read(alloc, memory, port)?;
    let at = address(alloc, memory, port)?;
    if reads && at < depth_of(memory.memory.lines.as_slice()) {
        let held = held_in(alloc, memory.leaves, element_at(elements, at), way)?;
        Ok(held)
    } else {
        Ok(zero(Kind::Unsigned, 0))
    }
}

/// The values of an element; none past the last.
pub fn element_at(elements: &[List<Value>], at: u128) -> &[Value]
    ensures { result.now ≡ get_or elements.now at [] }
{
    if at < elements.len() as u128 {
        elements[at as usize].as_slice()
    } else {
        &[]
    }
}

/// What an element holds in a leaf.
fn held_in(
    alloc: Global,
    leaves: &[TypeLeaf],
    values: &[Value],
    way: &[PathStep],
) -> Result<Value, AllocError>
    ensures { IfOk result (λ v. integer_of v ≡ integer_or_zero (beside_leaf way.now leaves.now values.now)) }
{
    let key = key_of(alloc, 0, &[], way)?;
    let value = value_beside(leaves, values, key.way.as_slice());
    Ok(value.unwrap_or(zero(Kind::Unsigned, 0)))
}
