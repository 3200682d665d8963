//! Memories (FIRRTL specification 3.0, "Memories"), with the numbers of their ports' leaves.

ghost use Rattle.std.specs.Prelude.{◌≡◌, ◌+◌, ◌++◌, map, filter_map, drop, length, option_to_list, option_copied, IfOk, OnOk};
ghost use Rattle.std.specs.List.{range_with_len};
ghost use Rattle.fir_types.specs.Leaves.{leaves};
ghost use Rattle.fir_types.specs.Memories.{read_latency_in, under_in, first_or};
ghost use Rattle.fir_types.specs.declared.memory.Under.TheVariants.{Undefined};
ghost use Rattle.fir_meaning.specs.MemoryPorts.{port_in, memory_ports};
ghost use Rattle.fir_tree.specs.LeafNames.{text_of};
ghost use Rattle.lower_aggregates.specs.Held.{held_part};
ghost use Rattle.lower_aggregates.specs.Elements.{element_row, row_at, own_row, way_behind, rows_while};
ghost use Rattle.lower_aggregates.specs.Memories.{reading_of, port_numbers, ports_from, port_leaves, size_of_line, first_mode_of, shown_field, stored, memory_row, memory_by, memory_in, memories_in};

use crate::declarations::Sort;
use crate::pieces::Piece;
use bit_words::{List, Shared, Text};
use fir_tree::{Names, push_name, push_way};
use fir_types::bundles::{depth_of, element_of};
use fir_types::{FirType, MemLine, Memory, PathStep, PortMode, Shape, TypeLeaf, Under};
use ground_exprs::part_sources::{kind_of, leaves_of, width_of};
use ground_exprs::reading::sum_of;
use ground_net::GroundMemory;
use ground_net::net::{ElementLeaf, NetPort, NetRead, NetWrite};
use place_text::Place;
use std::alloc::{AllocError, Global};

/// So many numbers from one on.
fn numbers_from(alloc: Global, first: u32, count: u32) -> Result<List<u32>, AllocError>
    ensures { IfOk result (λ numbers. numbers ≡ range_with_len first count) }
{
    let mut numbers = List::new(alloc);
    for step in 0..count {
        numbers.push(sum_of(first, step)?)?;
    }
    Ok(numbers)
}

/// How the ports of a memory read: whether a cycle later, and then whether after the writes.
#[derive(Clone, Copy)]
pub struct HowRead {
    pub captured: bool,
    pub after: bool,
}

/// The latency of reads, by the first line that gives it, or 0 where there is none.
fn latency_of(lines: &[MemLine]) -> u128
    ensures { result ≡ first_or 0 (filter_map read_latency_in lines.now) }
{
    for line in lines {
        if let MemLine::ReadLatency(_, latency) = line {
            return *latency;
        }
    }
    0
}

/// What a read gives in the cycle of a write, by the first line that says it.
fn under_of(lines: &[MemLine]) -> Under
    ensures { result ≡ first_or Undefined (filter_map under_in lines.now) }
{
    for line in lines {
        if let MemLine::ReadUnder(_, under) = line {
            return *under;
        }
    }
    Under::Undefined
}

fn how_read(memory: &Memory) -> HowRead
    ensures { result ≡ reading_of memory.now }
{
    HowRead {
        captured: latency_of(memory.lines.as_slice()) != 0,
        after: matches!(under_of(memory.lines.as_slice()), Under::New),
    }
}

/// How many leaves a port has, where an element has so many.
fn port_size(mode: PortMode, count: u32) -> Result<u32, AllocError>
    ensures { IfOk result (λ n. n ≡ port_leaves mode count) }
{
    match mode {
        PortMode::Reader => sum_of(3, count),
        PortMode::Writer => {
            let twice = sum_of(count, count)?;
            sum_of(3, twice)
        }
        PortMode::ReadWriter => {
            let twice = sum_of(count, count)?;
            let thrice = sum_of(count, twice)?;
            sum_of(4, thrice)
        }
    }
}

/// A port whose first leaf has this number, of a memory whose elements have so many leaves.
fn port_at(
    alloc: Global,
    first: u32,
    count: u32,
    mode: PortMode,
    how: HowRead,
) -> Result<NetPort, AllocError>
    ensures { IfOk result (λ port. port ≡ port_numbers first count mode how) }
{
    let data = sum_of(first, 3)?;
    let behind = sum_of(data, count)?;
    let further = sum_of(behind, 1)?;
    let last = sum_of(further, count)?;
    let read = NetRead {
        leaves: numbers_from(alloc, data, count)?,
        captured: how.captured,
        after: how.after,
    };
    match mode {
        PortMode::Reader => Ok(NetPort {
            addr: first,
            en: sum_of(first, 1)?,
            mode: None,
            write: None,
            read: Some(read),
        }),
        PortMode::Writer => Ok(NetPort {
            addr: first,
            en: sum_of(first, 1)?,
            mode: None,
            write: Some(NetWrite {
                leaves: numbers_from(alloc, data, count)?,
                masks: numbers_from(alloc, behind, count)?,
            }),
            read: None,
        }),
        PortMode::ReadWriter => Ok(NetPort {
            addr: first,
            en: sum_of(first, 1)?,
            mode: Some(behind),
            write: Some(NetWrite {
                leaves: numbers_from(alloc, further, count)?,
                masks: numbers_from(alloc, last, count)?,
            }),
            read: Some(read),
        }),
    }
}

/// The ports of a memory in declared order, the first leaf of which has this number.
fn ports_of(
    alloc: Global,
    memory: &Memory,
    first: u32,
    count: u32,
) -> Result<List<NetPort>, AllocError>
    ensures { IfOk result (λ ports. ports ≡ ports_from first count (reading_of memory.now) (memory_ports memory.now)) }
{
    let how = how_read(memory);
    let lines = memory.lines.as_slice();
    let mut ports = List::new(alloc);
    let mut number = first;
    for line in lines {
        number = push_port(alloc, &mut ports, line, (number, count), how)?;
    }
    Ok(ports)
}

/// Adds the port that a line declares, where it declares one, and says with which number the next one begins.
fn push_port(
    alloc: Global,
    ports: &mut List<NetPort>,
    line: &MemLine,
    place: (u32, u32),
    how: HowRead,
) -> Result<u32, AllocError>
    ensures ports { OnOk result (ports.new ≡ ports.old ++ ports_from place.0 place.1 how (option_to_list (port_in line.now))) }
    ensures next { IfOk result (λ next. next ≡ place.0 + size_of_line place.1 line.now) }
{
    match line {
        MemLine::MemPort(_, mode, _) => {
            ports.push(port_at(alloc, place.0, place.1, *mode, how)?)?;
            let size = port_size(*mode, place.1)?;
            sum_of(place.0, size)
        }
        _ => Ok(place.0),
    }
}

/// The mode of the first port.
fn first_mode(lines: &[MemLine]) -> Option<PortMode>
    ensures { result ≡ first_mode_of lines.now }
{
    for line in lines {
        if let MemLine::MemPort(_, mode, _) = line {
            return Some(*mode);
        }
    }
    None
}

/// A leaf of an element, at this way.
fn element_leaf(
    alloc: Global,
    names: &Names,
    way: &[PathStep],
    leaf: &TypeLeaf,
) -> Result<ElementLeaf, AllocError>
    ensures { IfOk result (λ made. element_row made ≡ row_at names.now way.now leaf.now) }
{
    let mut path = Vec::new(alloc);
    push_way(&mut path, names, way)?;
    Ok(ElementLeaf {
        path: List::from_vec(path),
        kind: kind_of(&leaf.typ),
        width: width_of(&leaf.typ),
    })
}

/// The leaves of an element, where no port shows them.
fn plain_elements(
    alloc: Global,
    names: &Names,
    listed: &[TypeLeaf],
) -> Result<List<ElementLeaf>, AllocError>
    ensures { IfOk result (λ elements. map element_row elements ≡ map (own_row names.now) listed.now) }
{
    let mut elements = List::new(alloc);
    for leaf in listed {
        elements.push(element_leaf(alloc, names, leaf.path.as_slice(), leaf)?)?;
    }
    Ok(elements)
}

/// The way behind a field of a port, where the leaf is one of that field.
fn behind_field<'a>(leaf: &'a TypeLeaf, field: u32) -> Option<&'a [PathStep]>
    ensures { option_copied result ≡ way_behind field leaf.now.path }
{
    match leaf.path.as_slice() {
        [_, PathStep::Field(id), rest @ ..] if *id == field => Some(rest),
        _ => None,
    }
}

/// The leaves of an element as the first ones of these leaves show them, which are those of this field of a port.
fn shown_elements(
    alloc: Global,
    names: &Names,
    listed: &[TypeLeaf],
    field: u32,
) -> Result<List<ElementLeaf>, AllocError>
    ensures { IfOk result (λ elements. map element_row elements ≡ rows_while names.now field listed.now) }
{
    let mut elements = List::new(alloc);
    for leaf in listed {
        let Some(way) = behind_field(leaf, field) else {
            return Ok(elements);
        };
        elements.push(element_leaf(alloc, names, way, leaf)?)?;
    }
    Ok(elements)
}

/// What is behind the first ones.
fn behind(listed: &[TypeLeaf], count: usize) -> &[TypeLeaf]
    ensures { result.now ≡ drop count listed.now }
{
    if count <= listed.len() {
        &listed[count..]
    } else {
        &[]
    }
}

/// The field of a port of this mode that shows an element first: behind `addr`, `en` and `clk`.
fn field_of(mode: PortMode) -> u32
    ensures { result ≡ shown_field mode }
{
    match mode {
        PortMode::Reader | PortMode::Writer => 3,
        PortMode::ReadWriter => 5,
    }
}

/// The leaves of a memory's elements: its first port shows them, and where it has none, its text gives them.
fn elements_of(
    alloc: Global,
    names: &Names,
    memory: &Memory,
    listed: &[TypeLeaf],
) -> Result<List<ElementLeaf>, AllocError>
    ensures { IfOk result (λ elements. map element_row elements ≡ stored names.now memory.now listed.now) }
{
    let lines = memory.lines.as_slice();
    match first_mode(lines) {
        Some(mode) => shown_elements(alloc, names, behind(listed, 3), field_of(mode)),
        None => {
            let empty = FirType {
                place: Place { line: 1, column: 1 },
                shape: Shape::Bundle(Shared::new(alloc, List::new(alloc))?),
            };
            let own = leaves_of(alloc, element_of(lines, &empty))?;
            plain_elements(alloc, names, own.as_slice())
        }
    }
}

fn number_of(count: usize) -> Result<u32, AllocError>
    ensures { IfOk result (λ n. n ≡ count) }
{
    match u32::try_from(count) {
        Ok(number) => Ok(number),
        Err(_) => Err(AllocError),
    }
}

/// The text of a name.
pub fn text_of_name(alloc: Global, names: &Names, id: u32) -> Result<Text, AllocError>
    ensures { IfOk result (λ text. text ≡ text_of names.now id) }
{
    let mut text = Vec::new(alloc);
    push_name(&mut text, names, id)?;
    Ok(List::from_vec(text))
}

fn memory_of(
    alloc: Global,
    names: &Names,
    piece: &Piece<'_>,
    memory: &Memory,
) -> Result<GroundMemory, AllocError>
    ensures { IfOk result (λ made. memory_row made ≡ memory_by names.now (held_part piece.now) memory.now) }
{
    let listed = leaves_of(alloc, piece.typ)?;
    let elements = elements_of(alloc, names, memory, listed.as_slice())?;
    let count = number_of(elements.len())?;
    let ports = ports_of(alloc, memory, piece.first, count)?;
    let name = text_of_name(alloc, names, piece.name.id)?;
    Ok(GroundMemory {
        name,
        first: piece.first,
        depth: depth_of(memory.lines.as_slice()),
        elements,
        ports,
    })
}

/// The memories of a module in text order.
pub fn memories_of(
    alloc: Global,
    names: &Names,
    pieces: &[Piece<'_>],
) -> Result<List<GroundMemory>, AllocError>
    ensures { IfOk result (λ memories. map memory_row memories ≡ memories_in names.now (map held_part pieces.now)) }
{
    let mut memories = List::new(alloc);
    for piece in pieces {
        push_memory(alloc, &mut memories, names, piece)?;
    }
    Ok(memories)
}

fn push_memory(
    alloc: Global,
    memories: &mut List<GroundMemory>,
    names: &Names,
    piece: &Piece<'_>,
) -> Result<(), AllocError>
    ensures { OnOk result (map memory_row memories.new ≡ map memory_row memories.old ++ option_to_list (memory_in names.now (held_part piece.now))) }
{
    match piece.sort {
        Sort::Memory(memory) => {
            memories.push(memory_of(alloc, names, piece, memory)?)?;
            Ok(())
        }
        _ => Ok(()),
    }
}
