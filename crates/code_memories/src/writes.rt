//! Writes of a memory.

ghost use Rattle.std.specs.Prelude.{◌≡◌, Some, IsSome, IfSome, IfOk, OnOk, slice_get};
ghost use Rattle.ground_net.specs.declared.net.NetMemory.{NetMemory as TheMemory};
ghost use Rattle.ground_net.specs.declared.net.NetPort.{NetPort as ThePort};
ghost use Rattle.ground_net.specs.declared.net.ElementLeaf.{ElementLeaf as TheLeaf};
ghost use Rattle.ground_net.specs.Nets.{IsNet, element_shape};
ghost use Rattle.ground_net.specs.Cycles.{shown};
ghost use Rattle.code_emit.specs.Emits.{element_source};
ghost use Rattle.partition_code.specs.Effects.{leaf_told, port_told, writes_told};
ghost use Rattle.code_memories.specs.Memories.{HasMemory};
ghost use Rattle.code_memories.specs.SinkGroups.{EvaluatesOnly};
ghost use Rattle.code_memories.specs.Writes.{IsPortAt, WritesAt, PublishesLeft, conditions_of as conditions_in};
ghost use Rattle.code_memories.specs.WriteGroups.{IsWriteGroup};

use crate::leaves::publish_target;
use crate::places::{MemoryAt, PortAt, PortLeaf, Target, memory_of, port_of};
use bit_words::List;
use code_draft::Draft;
use flat_code::Region;
use ground_net::NetPort;
use std::alloc::{AllocError, Global};

/// Adds code that publishes what the ports of a memory write, port by port and leaf by leaf.
pub fn publish_writes(alloc: Global, draft: &mut Draft, at: MemoryAt<'_>) -> Result<(), AllocError>
    requires net { IsNet at.net.now }
    requires memory { HasMemory at.net.now at.sources.now at.number }
    ensures left { OnOk result ((memory : TheMemory) → slice_get at.entry.net.now.memories at.entry.number ≡ Some memory → PublishesLeft at.entry.net.now at.entry.sources.now (λ st instant. writes_told at.entry.net.now instant at.entry.number memory) draft.old draft.new) }
    ensures evaluates { OnOk result (EvaluatesOnly at.entry.sources.now (IsWriteGroup at.entry.net.now at.entry.number) draft.old draft.new) }
{
    for port in 0..memory_of(at).ports.len() {
        publish_port(alloc, draft, PortAt { memory: at, port })?;
    }
    Ok(())
}

/// Adds code that publishes what a port writes.
fn publish_port(alloc: Global, draft: &mut Draft, at: PortAt<'_>) -> Result<(), AllocError>
    requires net { IsNet at.memory.net.now }
    requires memory { HasMemory at.memory.net.now at.memory.sources.now at.memory.number }
    requires there { IsPortAt at.memory.net.now at.memory.number at.port }
    ensures left { OnOk result ((memory : TheMemory) (port : ThePort) → slice_get at.entry.memory.net.now.memories at.entry.memory.number ≡ Some memory → slice_get memory.ports at.entry.port ≡ Some port → PublishesLeft at.entry.memory.net.now at.entry.memory.sources.now (λ st instant. port_told at.entry.memory.net.now instant at.entry.memory.number memory port) draft.old draft.new) }
    ensures evaluates { OnOk result (EvaluatesOnly at.entry.memory.sources.now (IsWriteGroup at.entry.memory.net.now at.entry.memory.number) draft.old draft.new) }
{
    let memory = memory_of(at.memory);
    let port = port_of(memory, at.port);
    if port.write.is_none() {
        return Ok(());
    }
    for leaf in 0..memory.elements.len() {
        let place = PortLeaf {
            memory: at.memory,
            port: at.port,
            leaf,
        };
        publish_leaf(alloc, draft, place)?;
    }
    Ok(())
}

/// Adds code that publishes what a port writes into a leaf of an element.
fn publish_leaf(alloc: Global, draft: &mut Draft, at: PortLeaf<'_>) -> Result<(), AllocError>
    requires net { IsNet at.memory.net.now }
    requires memory { HasMemory at.memory.net.now at.memory.sources.now at.memory.number }
    requires there { WritesAt at.memory.net.now at.memory.number at.port at.leaf }
    ensures left { OnOk result ((memory : TheMemory) (port : ThePort) (leaf : TheLeaf) → slice_get at.entry.memory.net.now.memories at.entry.memory.number ≡ Some memory → slice_get memory.ports at.entry.port ≡ Some port → slice_get memory.elements at.entry.leaf ≡ Some leaf → PublishesLeft at.entry.memory.net.now at.entry.memory.sources.now (λ st instant. leaf_told at.entry.memory.net.now at.entry.memory.number memory (shown instant port) (at.entry.leaf, element_shape leaf)) draft.old draft.new) }
    ensures evaluates { OnOk result (EvaluatesOnly at.entry.memory.sources.now (IsWriteGroup at.entry.memory.net.now at.entry.memory.number) draft.old draft.new) }
{
    let port = port_of(memory_of(at.memory), at.port);
    let Some(write) = &port.write else {
        unreachable!();
    };
    let Some(mask) = write.masks.get(at.leaf) else {
        unreachable!();
    };
    let Some(source) = write.leaves.get(at.leaf) else {
        unreachable!();
    };
    let target = Target {
        address: port.addr,
        source: *source,
        region: region_of(at.memory, at.leaf),
    };
    let conditions = conditions_of(alloc, port, *mask)?;
    publish_target(
        alloc,
        draft,
        at.memory.sources,
        target,
        conditions.as_slice(),
    )
}

/// The leaves that are conditions of a write: the enable, the mode of a readwriter, and the mask.
fn conditions_of(alloc: Global, port: &NetPort, mask: u32) -> Result<List<u32>, AllocError>
    ensures { IfOk result (λ leaves. leaves ≡ conditions_in port.now mask) }
{
    let mut leaves = List::new(alloc);
    leaves.push(port.en)?;
    if let Some(mode) = port.mode {
        leaves.push(mode)?;
    }
    leaves.push(mask)?;
    Ok(leaves)
}

/// Where the words of a leaf of the elements of a memory stand.
fn region_of(memory: MemoryAt<'_>, leaf: usize) -> Region
    requires { IsSome (element_source memory.sources.now memory.number leaf) }
    ensures { IfSome (element_source memory.entry.sources.now memory.entry.number leaf) (λ e. result ≡ e.region) }
{
    let Some(elements) = memory.sources.memories.get(memory.number as usize) else {
        unreachable!();
    };
    match elements.get(leaf) {
        Some(element) => element.region,
        None => unreachable!(),
    }
}
