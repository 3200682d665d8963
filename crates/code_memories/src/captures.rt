//! Captured reads of memories.

ghost use Rattle.std.specs.Prelude.{◌≡◌, ◌<◌, ◌^◌, ℕ, Some, OnOk, slice_get, flat_map};
ghost use Rattle.ground_net.specs.declared.net.NetMemory.{NetMemory as TheMemory};
ghost use Rattle.ground_net.specs.declared.net.NetPort.{NetPort as ThePort};
ghost use Rattle.ground_net.specs.declared.net.NetRead.{NetRead as TheRead};
ghost use Rattle.ground_net.specs.Nets.{IsNet};
ghost use Rattle.ground_net.specs.Cycles.{captured_by};
ghost use Rattle.ground_net.specs.Words.{state_words};
ghost use Rattle.code_emit.specs.Emits.{leaf_source};
ghost use Rattle.code_memories.specs.Memories.{HasMemory, word_of as word_in, capture_of, capture_left};
ghost use Rattle.code_memories.specs.Writes.{IsPortAt, PublishesLeft};
ghost use Rattle.code_memories.specs.SinkGroups.{EvaluatesOnly};
ghost use Rattle.code_memories.specs.Captures.{ReadsAt, IsKept};
ghost use Rattle.code_memories.specs.Groups.{IsCaptureGroup};

use crate::leaf::MemoryLeaf;
use crate::next_reads::captured_ground;
use crate::places::{MemoryAt, PortAt, PortLeaf, memory_of, port_of};
use code_draft::{Draft, Source, Sources, publish};
use code_emit::emit;
use std::alloc::{AllocError, Global};

/// Adds code that publishes what the captured reads of a memory show next, port by port and leaf by leaf.
pub(crate) fn publish_captures(
    alloc: Global,
    draft: &mut Draft,
    at: MemoryAt<'_>,
) -> Result<(), AllocError>
    requires net { IsNet at.net.now }
    requires few { state_words at.net.now < 2 ^ 32 }
    requires memory { HasMemory at.net.now at.sources.now at.number }
    ensures left { OnOk result ((memory : TheMemory) → slice_get at.entry.net.now.memories at.entry.number ≡ Some memory → PublishesLeft at.entry.net.now at.entry.sources.now (λ st instant. flat_map (λ port. flat_map (capture_left at.entry.net.now at.entry.sources.now st instant at.entry.number) (captured_by at.entry.number memory port port.read)) memory.ports) draft.old draft.new) }
    ensures evaluates { OnOk result (EvaluatesOnly at.entry.sources.now (IsCaptureGroup at.entry.net.now at.entry.number) draft.old draft.new) }
{
    for port in 0..memory_of(at).ports.len() {
        publish_reads(alloc, draft, PortAt { memory: at, port })?;
    }
    Ok(())
}

/// Adds code that publishes what the captured reads of a port show next.
fn publish_reads(alloc: Global, draft: &mut Draft, at: PortAt<'_>) -> Result<(), AllocError>
    requires net { IsNet at.memory.net.now }
    requires few { state_words at.memory.net.now < 2 ^ 32 }
    requires memory { HasMemory at.memory.net.now at.memory.sources.now at.memory.number }
    requires there { IsPortAt at.memory.net.now at.memory.number at.port }
    ensures left { OnOk result ((memory : TheMemory) (port : ThePort) → slice_get at.entry.memory.net.now.memories at.entry.memory.number ≡ Some memory → slice_get memory.ports at.entry.port ≡ Some port → PublishesLeft at.entry.memory.net.now at.entry.memory.sources.now (λ st instant. flat_map (capture_left at.entry.memory.net.now at.entry.memory.sources.now st instant at.entry.memory.number) (captured_by at.entry.memory.number memory port port.read)) draft.old draft.new) }
    ensures evaluates { OnOk result (EvaluatesOnly at.entry.memory.sources.now (IsCaptureGroup at.entry.memory.net.now at.entry.memory.number) draft.old draft.new) }
{
    let Some(read) = &port_of(memory_of(at.memory), at.port).read else {
        return Ok(());
    };
    if !read.captured {
        return Ok(());
    }
    for leaf in 0..read.leaves.len() {
        let place = PortLeaf {
            memory: at.memory,
            port: at.port,
            leaf,
        };
        publish_capture(alloc, draft, place)?;
    }
    Ok(())
}

/// Adds code that publishes what the captured read of a leaf of an element shows next.
fn publish_capture(alloc: Global, draft: &mut Draft, at: PortLeaf<'_>) -> Result<(), AllocError>
    requires net { IsNet at.memory.net.now }
    requires few { state_words at.memory.net.now < 2 ^ 32 }
    requires memory { HasMemory at.memory.net.now at.memory.sources.now at.memory.number }
    requires there { ReadsAt at.memory.net.now at.memory.number at.port at.leaf }
    ensures left { OnOk result ((memory : TheMemory) (port : ThePort) (read : TheRead) (shown : ℕ) → slice_get at.entry.memory.net.now.memories at.entry.memory.number ≡ Some memory → slice_get memory.ports at.entry.port ≡ Some port → port.read ≡ Some read → slice_get read.leaves at.entry.leaf ≡ Some shown → PublishesLeft at.entry.memory.net.now at.entry.memory.sources.now (λ st instant. capture_left at.entry.memory.net.now at.entry.memory.sources.now st instant at.entry.memory.number (capture_of at.entry.memory.number memory port read (at.entry.leaf, shown))) draft.old draft.new) }
    ensures evaluates { OnOk result (EvaluatesOnly at.entry.memory.sources.now (IsCaptureGroup at.entry.memory.net.now at.entry.memory.number) draft.old draft.new) }
{
    let memory = memory_of(at.memory);
    let port = port_of(memory, at.port);
    let Some(read) = &port.read else {
        unreachable!();
    };
    let Some(shown) = read.leaves.get(at.leaf) else {
        unreachable!();
    };
    let Some(element) = memory.elements.get(at.leaf) else {
        unreachable!();
    };
    let of = MemoryLeaf {
        memory: at.memory.number,
        number: at.leaf as u32,
        kind: element.kind,
        width: element.width,
    };
    let word = word_of(at.memory.sources, *shown);
    let next = captured_ground(alloc, memory, port, of, read.after)?;
    let location = emit(alloc, draft, at.memory.sources, &next)?;
    publish(draft, location, word)
}

/// The word from which on a leaf stands.
fn word_of(sources: &Sources, leaf: u32) -> u32
    requires { IsKept sources.now leaf }
    ensures { result ≡ word_in (leaf_source sources.now leaf) }
{
    let Some(there) = sources.leaves.get(leaf as usize) else {
        unreachable!();
    };
    match *there {
        Some(Source::Word(kept)) => kept.number,
        _ => unreachable!(),
    }
}
