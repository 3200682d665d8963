//! What captured reads take.

ghost use Rattle.std.specs.Prelude.{◌≡◌, ◌++◌, [], IfOk, OnOk, get_or, length, slice_get, Some, None, if◌then◌else◌};
ghost use Rattle.net_run.specs.Seeing.{value_at as value_of};
ghost use Rattle.net_run.specs.Capturing.{is_reading as reading, read_leaf as read_of, when_taken as taken_when, leaves_taken, read_taken, ports_taken, memories_taken, one_taken as taken_one, all_taken};

use crate::evaluating::{holds, value_in};
use crate::seen::{value_at, zero};
use bit_words::{Kind, List, Value};
use ground_net::{Net, NetMemory, NetPort, NetRead};
use std::alloc::{AllocError, Global};

/// A memory with what it holds before the writes of a cycle or, late, after them, and the values of the leaves.
#[derive(Clone, Copy)]
struct Taking<'a> {
    memory: &'a NetMemory,
    held: &'a [Value],
    values: &'a [Value],
    late: bool,
}

/// What the captured reads take from these contents: after the writes, or before them.
pub fn taken(
    alloc: Global,
    net: &Net,
    values: &[Value],
    contents: &[List<Value>],
    late: bool,
) -> Result<List<Option<Value>>, AllocError>
    ensures { IfOk result (λ all. all ≡ memories_taken late net.now.memories values.now contents.now (length net.now.memories)) }
{
    let mut all = Vec::new(alloc);
    let memories = net.memories.as_slice();
    for number in 0..memories.len() {
        let taking = Taking {
            memory: &memories[number],
            held: held_by(contents, number),
            values,
            late,
        };
        push_ports(&taking, &mut all)?;
    }
    Ok(List::from_vec(all))
}

/// What a memory holds.
fn held_by<'a>(contents: &'a [List<Value>], number: usize) -> &'a [Value]
    ensures { result.now ≡ get_or contents.now number [] }
{
    match contents.get(number) {
        Some(held) => held.as_slice(),
        None => &[],
    }
}

/// Adds what the ports of a memory take.
fn push_ports(taking: &Taking<'_>, all: &mut Vec<Option<Value>>) -> Result<(), AllocError>
    ensures { OnOk result (all.new.items ≡ all.old.items ++ ports_taken taking.now.late taking.now.memory.now taking.now.values.now taking.now.held.now taking.now.memory.now.ports) }
{
    for port in taking.memory.ports.as_slice() {
        push_port(taking, port, all)?;
    }
    Ok(())
}

/// Adds what a port takes.
fn push_port(
    taking: &Taking<'_>,
    port: &NetPort,
    all: &mut Vec<Option<Value>>,
) -> Result<(), AllocError>
    ensures { OnOk result (all.new.items ≡ all.old.items ++ read_taken taking.now.late taking.now.memory.now taking.now.held.now (reading taking.now.memory.now taking.now.values.now port.now) (value_of taking.now.values.now port.now.addr).bits port.now.read) }
{
    match &port.read {
        Some(read) if read.captured => {
            let address = value_at(taking.values, port.addr).bits;
            push_leaves(taking, is_reading(taking, port), address, read, all)
        }
        _ => Ok(()),
    }
}

/// Whether a port reads an element.
fn is_reading(taking: &Taking<'_>, port: &NetPort) -> bool
    ensures { result ≡ reading taking.now.memory.now taking.now.values.now port.now }
{
    let enabled = holds(value_at(taking.values, port.en));
    let set = match port.mode {
        Some(mode) => enabled && !holds(value_at(taking.values, mode)),
        None => enabled,
    };
    set && value_at(taking.values, port.addr).bits < taking.memory.depth
}

/// Adds what a port takes of the element at an address.
fn push_leaves(
    taking: &Taking<'_>,
    reading: bool,
    address: u128,
    read: &NetRead,
    all: &mut Vec<Option<Value>>,
) -> Result<(), AllocError>
    ensures { OnOk result (all.new.items ≡ all.old.items ++ leaves_taken taking.now.late read.now.after taking.now.memory.now taking.now.held.now reading address (length read.now.leaves)) }
{
    for leaf in 0..read.leaves.len() {
        let value = read_leaf(taking, reading, address, leaf);
        all.push(when_taken(taking.late, read.after, value))?;
    }
    Ok(())
}

/// What is taken after the writes, or what is taken before them.
fn when_taken(late: bool, after: bool, value: Value) -> Option<Value>
    ensures { result ≡ taken_when late after value }
{
    match (late, after) {
        (true, true) | (false, false) => Some(value),
        _ => None,
    }
}

/// A leaf of the element at an address, and 0 where the port doesn't read.
fn read_leaf(taking: &Taking<'_>, reading: bool, address: u128, leaf: usize) -> Value
    ensures { result ≡ read_of taking.now.memory.now taking.now.held.now reading address leaf }
{
    let elements = taking.memory.elements.as_slice();
    let Some(part) = elements.get(leaf) else {
        return zero(Kind::Unsigned, 0);
    };
    if reading {
        value_in(taking.held, address, elements.len(), leaf as u128)
    } else {
        zero(part.kind, part.width)
    }
}

/// The values that were taken after the writes, and where there is none those that were taken before them.
pub fn both_taken(
    alloc: Global,
    old: &[Option<Value>],
    new: &[Option<Value>],
) -> Result<List<Value>, AllocError>
    ensures { IfOk result (λ values. values ≡ all_taken old.now new.now (length new.now)) }
{
    let mut values = Vec::new(alloc);
    for number in 0..new.len() {
        values.push(one_taken(item(old, number), item(new, number)))?;
    }
    Ok(List::from_vec(values))
}

/// What was taken at a place.
fn item(all: &[Option<Value>], number: usize) -> Option<Value>
    ensures { result ≡ get_or all.now number None }
{
    match all.get(number) {
        Some(value) => *value,
        None => None,
    }
}

/// A value taken after the writes, else one taken before them.
fn one_taken(old: Option<Value>, new: Option<Value>) -> Value
    ensures { result ≡ taken_one old new }
{
    match (old, new) {
        (_, Some(value)) | (Some(value), None) => value,
        (None, None) => zero(Kind::Unsigned, 0),
    }
}
