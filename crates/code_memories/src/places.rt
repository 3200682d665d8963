//! Places in a net.

ghost use Rattle.std.specs.Prelude.{◌≡◌, Some, IsSome, slice_get};
ghost use Rattle.code_memories.specs.Memories.{HasMemory};

use code_draft::Sources;
use flat_code::Region;
use ground_net::{Net, NetMemory, NetPort};

/// A memory of a net, by its number, and the sources that show the net's leaves.
#[derive(Clone, Copy)]
pub struct MemoryAt<'a> {
    pub net: &'a Net,
    pub sources: &'a Sources,
    pub number: u32,
}

/// A port of a memory, by its number.
#[derive(Clone, Copy)]
pub struct PortAt<'a> {
    pub memory: MemoryAt<'a>,
    pub port: usize,
}

/// A leaf of the elements of a memory, as a port of it writes or reads.
#[derive(Clone, Copy)]
pub struct PortLeaf<'a> {
    pub memory: MemoryAt<'a>,
    pub port: usize,
    pub leaf: usize,
}

/// What is written into a leaf: the leaves that show the address and the data, and where the words stand.
#[derive(Clone, Copy)]
pub struct Target {
    pub address: u32,
    pub source: u32,
    pub region: Region,
}

/// The memory of this number.
pub fn memory_of(at: MemoryAt<'_>) -> &NetMemory
    requires { HasMemory at.net.now at.sources.now at.number }
    ensures { slice_get at.entry.net.now.memories at.entry.number ≡ Some result.now }
{
    let Some(memory) = at.net.memories.get(at.number as usize) else {
        unreachable!();
    };
    memory
}

/// The port of this number.
pub fn port_of(memory: &NetMemory, number: usize) -> &NetPort
    requires { IsSome (slice_get memory.now.ports number) }
    ensures { slice_get memory.now.ports number ≡ Some result.now }
{
    let Some(port) = memory.ports.get(number) else {
        unreachable!();
    };
    port
}
