//! What the ports of memories write.

ghost use Rattle.std.specs.Prelude.{◌≡◌, ◌+◌, ◌*◌, IfOk, length, slice_get};
ghost use Rattle.net_run.specs.Keeping.{put_driven};
ghost use Rattle.net_run.specs.Writing.{written_value, put_leaves, is_set_to_write as is_set, over_port, over_ports, contents_over};

use crate::evaluating::holds;
use crate::seen::value_at;
use bit_words::{List, Value};
use ground_net::{Net, NetMemory, NetPort, NetWrite};
use std::alloc::{AllocError, Global};

/// What the memories hold after the writes.
pub fn contents_after(
    alloc: Global,
    net: &Net,
    values: &[Value],
    contents: List<List<Value>>,
) -> Result<List<List<Value>>, AllocError>
    ensures { IfOk result (λ after. after ≡ contents_over net.now.memories values.now contents) }
{
    let mut after = Vec::new(alloc);
    let mut rest = contents.into_vec().into_iter();
    for memory in net.memories.as_slice() {
        let Some(held) = rest.next() else {
            break;
        };
        after.push(memory_after(memory, values, held))?;
    }
    Ok(List::from_vec(after))
}

/// What a memory holds after the writes.
fn memory_after(memory: &NetMemory, values: &[Value], held: List<Value>) -> List<Value>
    ensures { result ≡ over_ports memory.now values.now memory.now.ports held }
{
    let mut held = held.into_vec();
    write_ports(memory, values, &mut held);
    List::from_vec(held)
}

/// Writes what the ports of a memory write, in declared order.
fn write_ports(memory: &NetMemory, values: &[Value], held: &mut Vec<Value>)
    ensures { held.new.items ≡ over_ports memory.now values.now memory.now.ports held.old.items }
{
    for port in memory.ports.as_slice() {
        write_port(memory, values, port, held);
    }
}

/// Writes what a port writes.
fn write_port(memory: &NetMemory, values: &[Value], port: &NetPort, held: &mut Vec<Value>)
    ensures { held.new.items ≡ over_port memory.now values.now held.old.items port.now }
{
    let Some(write) = &port.write else {
        return;
    };
    let address = value_at(values, port.addr).bits;
    if is_set_to_write(port, values) && address < memory.depth {
        write_element(memory, values, write, address, held);
    }
}

/// Whether a port is set to write.
fn is_set_to_write(port: &NetPort, values: &[Value]) -> bool
    ensures { result ≡ is_set values.now port.now }
{
    let enabled = holds(value_at(values, port.en));
    match port.mode {
        Some(mode) => enabled && holds(value_at(values, mode)),
        None => enabled,
    }
}

/// Writes into the element at an address.
fn write_element(
    memory: &NetMemory,
    values: &[Value],
    write: &NetWrite,
    address: u128,
    held: &mut Vec<Value>,
)
    ensures { held.new.items ≡ put_leaves values.now write.now address (length memory.now.elements) (length memory.now.elements) held.old.items }
{
    let leaves = memory.elements.len();
    for leaf in 0..leaves {
        put(held, address, leaves, leaf, written(write, leaf, values));
    }
}

/// What goes into a leaf of an element: the data where the mask is 1.
fn written(write: &NetWrite, leaf: usize, values: &[Value]) -> Option<Value>
    ensures { result ≡ written_value values.now (slice_get write.now.masks leaf) (slice_get write.now.leaves leaf) }
{
    let Some(mask) = write.masks.get(leaf) else {
        return None;
    };
    let Some(source) = write.leaves.get(leaf) else {
        return None;
    };
    if holds(value_at(values, *mask)) {
        Some(value_at(values, *source))
    } else {
        None
    }
}

/// Puts a value, if there is one, into a leaf of the element at an address.
fn put(held: &mut Vec<Value>, address: u128, leaves: usize, leaf: usize, value: Option<Value>)
    ensures { held.new.items ≡ put_driven value (address * leaves + leaf) held.old.items }
{
    let Some(value) = value else {
        return;
    };
    let Some(before) = address.checked_mul(leaves as u128) else {
        return;
    };
    let Some(at) = before.checked_add(leaf as u128) else {
        return;
    };
    if at < held.len() as u128 {
        held[at as usize] = value;
    }
}
