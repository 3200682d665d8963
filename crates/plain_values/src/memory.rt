//! Memories as their module sees them (FIRRTL specification 3.0, "Memories").

ghost use Rattle.std.specs.Prelude.{◌≡◌, ◌≤◌, ◌+◌, ◌^◌, ◌∷◌, [], pos, drop, IfOk, option_map, unsigned_abs};
ghost use Rattle.std.specs.Ordering.{int_eq};
ghost use Rattle.bit_words.specs.Values.{integer_of};
ghost use Rattle.fir_types.specs.declared.leaf.PathStep.TheVariants as step;
ghost use Rattle.fir_meaning.specs.MemoryPorts.{asks_to_write, asks_to_read, address, port_named};
ghost use Rattle.plain_values.specs.Contents.{leaves_of_seen, takes_data, is_stored, stored_leaves, port_of_held};

use crate::fitting::{holds, zero};
use crate::sights::seen;
use crate::site::View;
use bit_words::{Kind, List, Value};
use drive_check::leaf_set::{Step, key_of};
use fir_types::{MemLine, Memory, Name, PathStep, PortMode, TypeLeaf, copy};
use std::alloc::{AllocError, Global};

/// The number of the name of a port's address.
const ADDR: u32 = 0;

/// The number of the name of what enables a port.
const EN: u32 = 1;

/// The number of the name of a port's data.
pub const DATA: u32 = 3;

/// The number of the name of what turns a readwriter to writing.
const WMODE: u32 = 6;

/// The number of the name of the data that a readwriter writes.
pub const WDATA: u32 = 7;

/// A memory as its module sees it.
#[derive(Clone, Copy)]
pub struct SeenMemory<'a> {
    pub view: View<'a>,
    pub memory: &'a Memory,
    /// The leaves of an element, in order: the paths are the ways within an element.
    pub leaves: &'a [TypeLeaf],
}

/// A port of a memory.
#[derive(Clone, Copy)]
pub struct HeldPort {
    pub name: Name,
    pub mode: PortMode,
}

/// The leaves of a memory that show what elements hold, and those of the data that its ports write, by their ways within an element.
pub fn stored_leaves(alloc: Global, leaves: &[TypeLeaf]) -> Result<List<TypeLeaf>, AllocError>
    ensures { IfOk result (λ stored. stored ≡ stored_leaves leaves.now) }
{
    let mut stored = List::new(alloc);
    for leaf in leaves {
        if is_stored(leaf) {
            let path = List::from_slice(alloc, behind_two(leaf.path.as_slice()))?;
            let typ = copy(&leaf.typ)?;
            stored.push(TypeLeaf {
                path,
                flip: leaf.flip,
                typ,
            })?;
        }
    }
    Ok(stored)
}

/// Whether a leaf shows what elements hold, or is one of the data that a port writes.
fn is_stored(leaf: &TypeLeaf) -> bool
    ensures { result ≡ is_stored leaf.now }
{
    !leaf.flip || takes_data(leaf.path.as_slice())
}

/// Whether this is the way to a leaf of the data that a port writes.
fn takes_data(path: &[PathStep]) -> bool
    ensures { result ≡ takes_data path.now }
{
    match path {
        [PathStep::Field(_), PathStep::Field(field), ..] => *field == DATA || *field == WDATA,
        _ => false,
    }
}

/// The steps behind the first two: within the field of a port.
fn behind_two(path: &[PathStep]) -> &[PathStep]
    ensures { result.now ≡ drop 2 path.now }
{
    if path.len() < 2 { &[] } else { &path[2..] }
}

/// The first port of a name.
pub fn port_named(memory: &Memory, name: u32) -> Option<HeldPort>
    ensures { option_map port_of_held result ≡ port_named memory.now name }
{
    for line in memory.lines.as_slice() {
        if let MemLine::MemPort(_, mode, port) = line {
            if port.id == name {
                return Some(HeldPort {
                    name: *port,
                    mode: *mode,
                });
            }
        }
    }
    None
}

/// What a leaf of a port's field has, and 0 where no value stands beside it.
pub fn field(
    alloc: Global,
    memory: &SeenMemory<'_>,
    port: u32,
    name: u32,
    way: &[PathStep],
) -> Result<Value, AllocError>
    ensures { IfOk result (λ v. integer_of v ≡ leaves_of_seen memory.now (step.Field port ∷ step.Field name ∷ way.now)) }
{
    let steps = [Step::Field(port), Step::Field(name)];
    let key = key_of(alloc, memory.memory.name.id, &steps, way)?;
    let value = seen(alloc, &memory.view, key.component, key.way.as_slice())?;
    Ok(value.unwrap_or(zero(Kind::Unsigned, 0)))
}

/// Whether a leaf of a port's field is 1.
pub fn is_set(
    alloc: Global,
    memory: &SeenMemory<'_>,
    port: u32,
    name: u32,
    way: &[PathStep],
) -> Result<bool, AllocError>
    ensures { IfOk result (λ set. set ≡ int_eq (leaves_of_seen memory.now (step.Field port ∷ step.Field name ∷ way.now)) (pos 1)) }
{
    let value = field(alloc, memory, port, name, way)?;
    Ok(holds(value))
}

/// Whether a port is set to write.
pub fn asks_to_write(
    alloc: Global,
    memory: &SeenMemory<'_>,
    port: HeldPort,
) -> Result<bool, AllocError>
    ensures { IfOk result (λ asks. asks ≡ asks_to_write (leaves_of_seen memory.now) (port_of_held port) port.mode) }
{
    match port.mode {
        PortMode::Reader => Ok(false),
        PortMode::Writer => is_set(alloc, memory, port.name.id, EN, &[]),
        PortMode::ReadWriter => {
            let enabled = is_set(alloc, memory, port.name.id, EN, &[])?;
            let writes = is_set(alloc, memory, port.name.id, WMODE, &[])?;
            Ok(enabled && writes)
        }
    }
}

/// Whether a port is set to read.
pub fn asks_to_read(
    alloc: Global,
    memory: &SeenMemory<'_>,
    port: HeldPort,
) -> Result<bool, AllocError>
    ensures { IfOk result (λ asks. asks ≡ asks_to_read (leaves_of_seen memory.now) (port_of_held port) port.mode) }
{
    match port.mode {
        PortMode::Reader => is_set(alloc, memory, port.name.id, EN, &[]),
        PortMode::Writer => Ok(false),
        PortMode::ReadWriter => {
            let enabled = is_set(alloc, memory, port.name.id, EN, &[])?;
            let writes = is_set(alloc, memory, port.name.id, WMODE, &[])?;
            Ok(enabled && !writes)
        }
    }
}

/// The number of the element that a port speaks of.
pub fn address(alloc: Global, memory: &SeenMemory<'_>, port: HeldPort) -> Result<u128, AllocError>
    ensures { IfOk result (λ at. at ≡ address (leaves_of_seen memory.now) (port_of_held port)) }
{
    let value = field(alloc, memory, port.name.id, ADDR, &[])?;
    Ok(magnitude(value))
}

/// The integer of a value without its sign.
fn magnitude(value: Value) -> u128
    ensures { result ≡ unsigned_abs (integer_of value) }
{
    match value.kind {
        Kind::Unsigned => value.bits,
        Kind::Signed => {
            let rest = greatest(value.width) - value.bits;
            if rest < value.bits {
                rest + 1
            } else {
                value.bits
            }
        }
    }
}

/// The greatest number of this width.
fn greatest(width: u8) -> u128
    requires { width ≤ 128 }
    ensures { result + 1 ≡ 2 ^ width }
{
    if width == 128 {
        u128::MAX
    } else {
        (1 << width) - 1
    }
}
