//! What is kept before the first cycle.

ghost use Rattle.std.specs.Prelude.{◌≡◌, ◌++◌, IfOk, OnOk, slice_get, length};
ghost use Rattle.ground_net.specs.Cycles.{first_state};
ghost use Rattle.net_run.specs.Keeping.{IsKept, zero_of, zeros_at, captured_of, zeros_of_ports, zero_element, first_registers as zero_registers, first_captured as zero_captured, AreZeros, AreZeroMemories};

use crate::kept::Kept;
use crate::seen::zero;
use bit_words::{Kind, List, Value};
use ground_net::{Net, NetMemory, NetPort};
use std::alloc::{AllocError, Global};

/// What is kept before the first cycle: all is 0.
pub fn begin(alloc: Global, net: &Net) -> Result<Kept, AllocError>
    ensures { IfOk result (λ kept. IsKept net.now first_state kept) }
{
    let registers = first_registers(alloc, net)?;
    let contents = first_contents(alloc, net)?;
    let captured = first_captured(alloc, net)?;
    Ok(Kept {
        registers,
        contents,
        captured,
    })
}

/// 0 of a leaf.
fn zero_at(net: &Net, leaf: u32) -> Value
    ensures { result ≡ zero_of (slice_get net.now.leaves leaf) }
{
    match net.leaves.get(leaf as usize) {
        Some(leaf) => zero(leaf.kind, leaf.width),
        None => zero(Kind::Unsigned, 0),
    }
}

/// What the registers hold at first.
fn first_registers(alloc: Global, net: &Net) -> Result<List<Value>, AllocError>
    ensures { IfOk result (λ values. values ≡ zero_registers net.now) }
{
    let mut values = Vec::new(alloc);
    for register in net.registers.as_slice() {
        values.push(zero_at(net, register.leaf))?;
    }
    Ok(List::from_vec(values))
}

/// What the captured reads show at first.
fn first_captured(alloc: Global, net: &Net) -> Result<List<Value>, AllocError>
    ensures { IfOk result (λ values. values ≡ zero_captured net.now) }
{
    let mut values = Vec::new(alloc);
    for memory in net.memories.as_slice() {
        push_ports(net, memory.ports.as_slice(), &mut values)?;
    }
    Ok(List::from_vec(values))
}

/// Adds what the captured reads of ports show at first.
fn push_ports(net: &Net, ports: &[NetPort], values: &mut Vec<Value>) -> Result<(), AllocError>
    ensures { OnOk result (values.new.items ≡ values.old.items ++ zeros_of_ports net.now ports.now) }
{
    for port in ports {
        push_port(net, port, values)?;
    }
    Ok(())
}

/// Adds what the captured reads of a port show at first.
fn push_port(net: &Net, port: &NetPort, values: &mut Vec<Value>) -> Result<(), AllocError>
    ensures { OnOk result (values.new.items ≡ values.old.items ++ zeros_at net.now (captured_of port.now.read)) }
{
    match &port.read {
        Some(read) if read.captured => push_zeros(net, read.leaves.as_slice(), values),
        _ => Ok(()),
    }
}

/// Adds 0 for each of these leaves.
fn push_zeros(net: &Net, leaves: &[u32], values: &mut Vec<Value>) -> Result<(), AllocError>
    ensures { OnOk result (values.new.items ≡ values.old.items ++ zeros_at net.now leaves.now) }
{
    for leaf in leaves {
        values.push(zero_at(net, *leaf))?;
    }
    Ok(())
}

/// What the memories hold at first.
fn first_contents(alloc: Global, net: &Net) -> Result<List<List<Value>>, AllocError>
    ensures { IfOk result (λ contents. AreZeroMemories net.now.memories (length net.now.memories) contents) }
{
    let mut contents = Vec::new(alloc);
    for memory in net.memories.as_slice() {
        contents.push(first_held(alloc, memory)?)?;
    }
    Ok(List::from_vec(contents))
}

/// What a memory holds at first.
fn first_held(alloc: Global, memory: &NetMemory) -> Result<List<Value>, AllocError>
    ensures { IfOk result (λ held. AreZeros memory.now memory.now.depth held) }
{
    let mut held = Vec::new(alloc);
    for _ in 0..memory.depth {
        push_element(memory, &mut held)?;
    }
    Ok(List::from_vec(held))
}

/// Adds an element of 0.
fn push_element(memory: &NetMemory, held: &mut Vec<Value>) -> Result<(), AllocError>
    ensures { OnOk result (held.new.items ≡ held.old.items ++ zero_element memory.now) }
{
    for leaf in memory.elements.as_slice() {
        held.push(zero(leaf.kind, leaf.width))?;
    }
    Ok(())
}
