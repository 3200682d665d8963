//! What the ports of memories write (FIRRTL specification 3.0, "Memories").

ghost use Rattle.std.specs.Prelude.{◌≡◌, ◌==◌, ℕ, List as Listed, [], map, get_or, Contains, IfOk, OnOk, if◌then◌else◌};
ghost use Rattle.bit_words.specs.Values.{integer_of};
ghost use Rattle.fir_types.specs.declared.leaf.TypeLeaf.{TypeLeaf as ALeaf};
ghost use Rattle.fir_meaning.specs.Values.{beside, lone};
ghost use Rattle.fir_meaning.specs.MemoryPorts.{after_port, after_writes, shown, written_field, mask_field};
ghost use Rattle.plain_values.specs.Contents.{contents_of, leaves_of_seen, port_of_held};
ghost use Rattle.plain_values.specs.Writing.{over};

use crate::memory::{DATA, HeldPort, SeenMemory, WDATA, address, asks_to_write, field, is_set};
use crate::reading::element_at;
use crate::setting::value_or_zero;
use bit_words::{List, Value};
use fir_types::{MemLine, PortMode, TypeLeaf, depth_of};
use std::alloc::{AllocError, Global};

/// The number of the name of the mask of a port's data.
const MASK: u32 = 4;

/// The number of the name of the mask of a readwriter's data.
const WMASK: u32 = 8;

/// Writes what the ports of a memory write in a cycle, port by port in declared order. Where memory is wanted some may be written.
pub fn write(
    alloc: Global,
    memory: &SeenMemory<'_>,
    elements: &mut List<List<Value>>,
) -> Result<(), AllocError>
    ensures { OnOk result ((element : ℕ) (leaf : ALeaf) → Contains memory.now.leaves.now leaf → contents_of memory.now.leaves.now elements.new element leaf.path ≡ after_writes memory.now.memory.now (leaves_of_seen memory.now) (contents_of memory.now.leaves.now elements.old) element leaf.path) }
{
    let lines = memory.memory.lines.as_slice();
    for at in 0..lines.len() {
        let line = &lines[at];
        if let MemLine::MemPort(_, mode, name) = line {
            let port = HeldPort {
                name: *name,
                mode: *mode,
            };
            write_port(alloc, memory, elements, port)?;
        }
    }
    Ok(())
}

/// Writes what a port writes.
fn write_port(
    alloc: Global,
    memory: &SeenMemory<'_>,
    elements: &mut List<List<Value>>,
    port: HeldPort,
) -> Result<(), AllocError>
    ensures { OnOk result ((element : ℕ) (leaf : ALeaf) → Contains memory.now.leaves.now leaf → contents_of memory.now.leaves.now elements.new element leaf.path ≡ after_port memory.now.memory.now (leaves_of_seen memory.now) (contents_of memory.now.leaves.now elements.old) (port_of_held port) element leaf.path) }
{
    let writes = asks_to_write(alloc, memory, port)?;
    let at = address(alloc, memory, port)?;
    if writes && at < depth_of(memory.memory.lines.as_slice()) {
        let element = written(alloc, memory, port, element_at(elements.as_slice(), at))?;
        put(alloc, elements, at, element)?;
    }
    Ok(())
}

/// The values of an element after a write: in each leaf what the port writes, where its mask is 1, and else what it held.
fn written(
    alloc: Global,
    memory: &SeenMemory<'_>,
    port: HeldPort,
    before: &[Value],
) -> Result<List<Value>, AllocError>
    ensures { IfOk result (λ after. map integer_of after ≡ map (over (shown (leaves_of_seen memory.now) (port_of_held port))) (beside (lone []) memory.now.leaves.now before.now)) }
{
    let mut after = List::new(alloc);
    for at in 0..memory.leaves.len() {
        let way = memory.leaves[at].path.as_slice();
        let masked = is_set(alloc, memory, port.name.id, mask_field(port.mode), way)?;
        let value = if masked {
            field(alloc, memory, port.name.id, written_field(port.mode), way)?
        } else {
            value_or_zero(before, at)
        };
        after.push(value)?;
    }
    Ok(after)
}

/// The field with the data that a port writes.
fn written_field(mode: PortMode) -> u32
    ensures { result ≡ written_field mode }
{
    match mode {
        PortMode::ReadWriter => WDATA,
        PortMode::Reader | PortMode::Writer => DATA,
    }
}

/// The field with their mask.
fn mask_field(mode: PortMode) -> u32
    ensures { result ≡ mask_field mode }
{
    match mode {
        PortMode::ReadWriter => WMASK,
        PortMode::Reader | PortMode::Writer => MASK,
    }
}

/// Puts an element in its place, from 0. Elements before it that aren't held yet have no values.
fn put(
    alloc: Global,
    elements: &mut List<List<Value>>,
    at: u128,
    element: List<Value>,
) -> Result<(), AllocError>
    ensures { OnOk result ((k : ℕ) → get_or elements.new k [] ≡ (if at == k then element else get_or elements.old k [])) }
{
    let Ok(at) = usize::try_from(at) else {
        return Err(AllocError);
    };
    while elements.len() <= at {
        elements.push(List::new(alloc))?;
    }
    elements.set(at, element);
    Ok(())
}
