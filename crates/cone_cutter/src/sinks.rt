//! The sinks of a net, in order.

ghost use Rattle.std.specs.Prelude.{◌≡◌, ◌<◌, ◌++◌, ◌^◌, length, map, IfOk, OnOk};
ghost use Rattle.ground_net.specs.Cones.{sinks, A_watched, A_memory, A_register};
ghost use Rattle.cone_cutter.specs.Rows.{sink_of};

use crate::buckets::buckets;
use bit_words::List;
use ground_net::Net;
use std::alloc::{AllocError, Global};

/// A sink of a net: a watched leaf by its number, a register or a memory by its place in the net.
#[derive(Clone, Copy)]
pub enum SinkAt {
    Watched(u32),
    Register(usize),
    Memory(usize),
}

/// The sinks: the watched leaves in watch order, and then, in flat order, each register's leaf and each memory.
pub fn sinks_of(alloc: Global, net: &Net, watch: &[u32]) -> Result<Vec<SinkAt>, AllocError>
    requires { length net.now.leaves < 2 ^ 32 }
    ensures { IfOk result (λ found. map sink_of found.items ≡ sinks net.now watch.now) }
{
    let count = net.leaves.len() + 1;
    let memories = buckets(alloc, befores_of(alloc, net)?.as_slice(), count)?;
    let registers = buckets(alloc, leaves_of(alloc, net)?.as_slice(), count)?;
    let mut found = watched_sinks(alloc, watch)?;
    for leaf in 0..count {
        push_memories(&mut found, memories[leaf].as_slice())?;
        push_registers(&mut found, registers[leaf].as_slice())?;
    }
    Ok(found)
}

/// For each memory how many leaves stand before it.
fn befores_of(alloc: Global, net: &Net) -> Result<Vec<u32>, AllocError>
    ensures { IfOk result (λ numbers. numbers.items ≡ map (λ memory. memory.before) net.now.memories) }
{
    let mut numbers = Vec::new(alloc);
    for memory in net.memories.as_slice() {
        numbers.push(memory.before)?;
    }
    Ok(numbers)
}

/// For each register its leaf.
fn leaves_of(alloc: Global, net: &Net) -> Result<Vec<u32>, AllocError>
    ensures { IfOk result (λ numbers. numbers.items ≡ map (λ register. register.leaf) net.now.registers) }
{
    let mut numbers = Vec::new(alloc);
    for register in net.registers.as_slice() {
        numbers.push(register.leaf)?;
    }
    Ok(numbers)
}

/// The watched leaves.
fn watched_sinks(alloc: Global, watch: &[u32]) -> Result<Vec<SinkAt>, AllocError>
    ensures { IfOk result (λ found. map sink_of found.items ≡ map (λ x. A_watched x) watch.now) }
{
    let mut found = Vec::new(alloc);
    for leaf in watch {
        found.push(SinkAt::Watched(*leaf))?;
    }
    Ok(found)
}

/// Adds the memories of these places.
fn push_memories(found: &mut Vec<SinkAt>, places: &[usize]) -> Result<(), AllocError>
    ensures { OnOk result (map sink_of found.new.items ≡ map sink_of found.old.items ++ map (λ m. A_memory m) places.now) }
{
    for place in places {
        found.push(SinkAt::Memory(*place))?;
    }
    Ok(())
}

/// Adds the registers of these places.
fn push_registers(found: &mut Vec<SinkAt>, places: &[usize]) -> Result<(), AllocError>
    ensures { OnOk result (map sink_of found.new.items ≡ map sink_of found.old.items ++ map (λ k. A_register k) places.now) }
{
    for place in places {
        found.push(SinkAt::Register(*place))?;
    }
    Ok(())
}
