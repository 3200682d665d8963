//! The numbers of the types of memories, whose ports share those of their data and of their masks.

ghost use Rattle.std.specs.Prelude.{◌≡◌, ◌++◌, [], ℕ, List, true, filter_map, option_to_list, IfOk, IfSome, OnOk};
ghost use Rattle.fir_types.specs.declared.fir_type.FirType.{FirType as AType};
ghost use Rattle.fir_types.specs.declared.fir_type.Shape.TheVariants as shape;
ghost use Rattle.fir_types.specs.declared.fir_type.Field.{Field as AField};
ghost use Rattle.place_text.specs.declared.place.Place.{Place as APlace};
ghost use Rattle.fir_types.specs.Bundles.{memory_of, port_field};
ghost use Rattle.type_index.specs.Memories.{AreElements, port_fields, data_parts};
ghost use Rattle.type_index.specs.Numbers.{Table, HasNumber};
ghost use Rattle.type_index.specs.Parts.{AreParts};
ghost use Rattle.type_index.specs.Sights.{table_of, Grows};

use crate::classes::{CLOCK, Classes, UNSIGNED};
use crate::keys::FieldPart;
use crate::noting::{note_parts, note_type};
use crate::numbering::number_parts;
use bit_words::{List, Shared};
use fir_types::{FirType, MemLine, Memory, PortMode, Shape, element_of};
use place_text::Place;
use std::alloc::{AllocError, Global};

/// The numbers that the names of a port's fields have in every circuit.
const ADDR: u32 = 0;

const EN: u32 = 1;

const CLK: u32 = 2;

const DATA: u32 = 3;

const MASK: u32 = 4;

const RDATA: u32 = 5;

const WMODE: u32 = 6;

const WDATA: u32 = 7;

const WMASK: u32 = 8;

/// The numbers of the types of a memory's elements and of their masks.
#[derive(Clone, Copy)]
pub struct Elements {
    element: u32,
    mask: u32,
}

impl Classes {
    /// The number of the type of a memory, where the table has all its parts. Takes time and memory in proportion to the type of an
    /// element and to the number of ports.
    pub fn number_memory(&self, alloc: Global, memory: &Memory) -> Result<Option<u32>, AllocError>
        ensures { IfOk result (λ number. IfSome number (HasNumber (table_of self.now) (memory_of memory.now))) }
    {
        let lines = memory.lines.as_slice();
        let empty = empty_type(alloc)?;
        let typ = element_of(lines, &empty);
        let Some(element) = self.number(alloc, false, typ)? else {
            return Ok(None);
        };
        let Some(mask) = self.number(alloc, true, typ)? else {
            return Ok(None);
        };
        let Some(ports) = ports_of(alloc, self, lines, Elements { element, mask })? else {
            return Ok(None);
        };
        Ok(number_parts(self, &ports))
    }
}

/// What stands for the type of the elements where no line says it.
fn empty_type(alloc: Global) -> Result<FirType, AllocError>
    ensures { IfOk result (λ typ. typ ≡ record { place = record { line = 1; column = 1 }; shape = shape.Bundle [] }) }
{
    Ok(FirType {
        place: Place { line: 1, column: 1 },
        shape: Shape::Bundle(Shared::new(alloc, List::new(alloc))?),
    })
}

/// The ports with their numbers, where each has one.
fn ports_of(
    alloc: Global,
    classes: &Classes,
    lines: &[MemLine],
    elements: Elements,
) -> Result<Option<Vec<FieldPart>>, AllocError>
    ensures { IfOk result (λ ports. IfSome ports (λ ports. (element : AType) (depth : ℕ) → AreElements (table_of classes.now) element elements → AreParts (table_of classes.now) (filter_map (port_field element depth) lines.now) ports.items)) }
{
    let mut ports = Vec::new(alloc);
    for line in lines {
        if !push_port(alloc, classes, &mut ports, line, elements)? {
            return Ok(None);
        }
    }
    Ok(Some(ports))
}

/// Adds a port with its number, where the line declares one, and answers whether it has one.
fn push_port(
    alloc: Global,
    classes: &Classes,
    ports: &mut Vec<FieldPart>,
    line: &MemLine,
    elements: Elements,
) -> Result<bool, AllocError>
    ensures { IfOk result (λ known. known ≡ true → (element : AType) (depth : ℕ) (fields : List AField) → AreElements (table_of classes.now) element elements → AreParts (table_of classes.now) fields ports.old.items → AreParts (table_of classes.now) (fields ++ option_to_list (port_field element depth line.now)) ports.new.items) }
{
    let MemLine::MemPort(_, mode, name) = line else {
        return Ok(true);
    };
    let parts = port_parts(alloc, *mode, elements)?;
    let Some(class) = number_parts(classes, &parts) else {
        return Ok(false);
    };
    ports.push(FieldPart {
        name: name.id,
        flip: true,
        class,
    })?;
    Ok(true)
}

/// The fields of a port with their numbers.
fn port_parts(
    alloc: Global,
    mode: PortMode,
    elements: Elements,
) -> Result<Vec<FieldPart>, AllocError>
    ensures { IfOk result (λ parts. (table : Table) (element : AType) (depth : ℕ) (place : APlace) → AreElements table element elements → AreParts table (port_fields element depth mode place) parts.items) }
{
    let mut parts = Vec::new(alloc);
    parts.push(part(ADDR, false, UNSIGNED))?;
    parts.push(part(EN, false, UNSIGNED))?;
    parts.push(part(CLK, false, CLOCK))?;
    push_data(&mut parts, mode, elements)?;
    Ok(parts)
}

/// Adds the fields that are of the port's own kind.
fn push_data(
    parts: &mut Vec<FieldPart>,
    mode: PortMode,
    elements: Elements,
) -> Result<(), AllocError>
    ensures { OnOk result (parts.new.items ≡ parts.old.items ++ data_parts mode elements) }
{
    match mode {
        PortMode::Reader => parts.push(part(DATA, true, elements.element))?,
        PortMode::Writer => {
            parts.push(part(DATA, false, elements.element))?;
            parts.push(part(MASK, false, elements.mask))?;
        }
        PortMode::ReadWriter => {
            parts.push(part(RDATA, true, elements.element))?;
            parts.push(part(WMODE, false, UNSIGNED))?;
            parts.push(part(WDATA, false, elements.element))?;
            parts.push(part(WMASK, false, elements.mask))?;
        }
    }
    Ok(())
}

fn part(name: u32, flip: bool, class: u32) -> FieldPart
    ensures { result ≡ record { name = name; flip = flip; class = class } }
{
    FieldPart { name, flip, class }
}

/// Gives numbers to the type of a memory and to all its parts, where they have none. Takes time and memory in proportion to the type
/// of an element and to the number of ports.
pub fn note_memory(alloc: Global, classes: &mut Classes, memory: &Memory) -> Result<u32, AllocError>
    ensures { Grows classes.old classes.new }
{
    let lines = memory.lines.as_slice();
    let empty = empty_type(alloc)?;
    let typ = element_of(lines, &empty);
    let element = note_type(alloc, classes, false, typ)?;
    let mask = note_type(alloc, classes, true, typ)?;
    let ports = ports_noted(alloc, classes, lines, Elements { element, mask })?;
    note_parts(alloc, classes, &ports)
}

/// Gives numbers to the types of the ports.
fn ports_noted(
    alloc: Global,
    classes: &mut Classes,
    lines: &[MemLine],
    elements: Elements,
) -> Result<Vec<FieldPart>, AllocError>
    ensures { Grows classes.old classes.new }
{
    let mut ports = Vec::new(alloc);
    for line in lines {
        if let MemLine::MemPort(_, mode, name) = line {
            let parts = port_parts(alloc, *mode, elements)?;
            let class = note_parts(alloc, classes, &parts)?;
            ports.push(FieldPart {
                name: name.id,
                flip: true,
                class,
            })?;
        }
    }
    Ok(ports)
}
