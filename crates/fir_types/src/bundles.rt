//! The bundles of instances and memories (FIRRTL specification 3.0, "Instances" and "Memories").

ghost use Rattle.std.specs.Prelude.{◌≡◌, ◌++◌, filter_map, map, option_to_list, IfOk, OnOk};
ghost use Rattle.fir_types.specs.Bundles.{instance_of, memory_of, mask_of, mask_of_shape, mask_of_field, address_bits, port_type, port_field, fields_of_mode, plain_field, flipped_field, uint_at, clock_at};
ghost use Rattle.fir_types.specs.Memories.{element_in, depth_in, first_or};
ghost use Rattle.fir_types.specs.Runs.{within};

use crate::copying::copy;
use crate::fir_type::{Field, FirType, Shape};
use crate::memory::{MemLine, Memory, PortMode};
use crate::name::Name;
use crate::port::Port;
use bit_words::{List, Shared};
use place_text::Place;
use std::alloc::{AllocError, Global};

/// The place of what stands nowhere in a text.
const NOWHERE: Place = Place { line: 1, column: 1 };

/// The numbers that the names of a port's fields have in every circuit.
const ADDR: u32 = 0;

const EN: u32 = 1;

const CLK: u32 = 2;

const DATA: u32 = 3;

const MASK: u32 = 4;

const RDATA: u32 = 5;

const WMODE: u32 = 6;

const WDATA: u32 = 7;

const WMASK: u32 = 8;

/// The type of an instance of a module with these ports: the bundle of them in order, with the inputs flipped.
pub fn instance_type(alloc: Global, ports: &[Port]) -> Result<FirType, AllocError>
    ensures { IfOk result (λ typ. typ ≡ instance_of ports.now) }
{
    let mut fields = List::new(alloc);
    for port in ports {
        fields.push(Field {
            flip: !port.output,
            name: port.name,
            typ: copy(&port.typ)?,
        })?;
    }
    Ok(FirType {
        place: NOWHERE,
        shape: Shape::Bundle(Shared::new(alloc, fields)?),
    })
}

/// The type of a memory: the bundle of its ports in order, all flipped. Where a line is missing or stands twice, the first
/// one counts, and a memory without a `data-type` or a `depth` has the empty bundle or 1 in its place.
pub fn memory_type(alloc: Global, memory: &Memory) -> Result<FirType, AllocError>
    ensures { IfOk result (λ typ. typ ≡ memory_of memory.now) }
{
    let lines = memory.lines.as_slice();
    let empty = FirType {
        place: NOWHERE,
        shape: Shape::Bundle(Shared::new(alloc, List::new(alloc))?),
    };
    let element = element_of(lines, &empty);
    let mask = mask(alloc, element)?;
    let elements = Elements {
        typ: element,
        mask: &mask,
        depth: depth_of(lines),
    };
    let fields = port_fields(alloc, lines, elements)?;
    Ok(FirType {
        place: NOWHERE,
        shape: Shape::Bundle(Shared::new(alloc, fields)?),
    })
}

/// The type of a memory's elements, by the first line that gives it, or the other one where there is none (FIRRTL
/// specification 3.0, "Memories").
pub fn element_of<'a>(lines: &'a [MemLine], other: &'a FirType) -> &'a FirType
    ensures { result.now ≡ first_or other.now (filter_map element_in lines.now) }
{
    for line in lines {
        if let MemLine::Element(_, typ) = line {
            return typ;
        }
    }
    other
}

/// The number of a memory's elements, by the first line that gives it, or 1 where there is none (FIRRTL specification 3.0,
/// "Memories").
pub fn depth_of(lines: &[MemLine]) -> u128
    ensures { result ≡ first_or 1 (filter_map depth_in lines.now) }
{
    for line in lines {
        if let MemLine::Depth(_, depth) = line {
            return *depth;
        }
    }
    1
}

/// What the ports of a memory share: the type of its elements, the mask of that type, and how many elements there are.
#[derive(Clone, Copy)]
struct Elements<'a> {
    typ: &'a FirType,
    mask: &'a FirType,
    depth: u128,
}

fn port_fields(
    alloc: Global,
    lines: &[MemLine],
    elements: Elements<'_>,
) -> Result<List<Field>, AllocError>
    requires { elements.mask.now ≡ mask_of elements.typ.now }
    ensures { IfOk result (λ fields. fields ≡ filter_map (port_field elements.entry.typ.now elements.entry.depth) lines.now) }
{
    let mut fields = List::new(alloc);
    for line in lines {
        push_port_field(alloc, &mut fields, line, elements)?;
    }
    Ok(fields)
}

/// Adds the field of a port, where the line declares one.
fn push_port_field(
    alloc: Global,
    fields: &mut List<Field>,
    line: &MemLine,
    elements: Elements<'_>,
) -> Result<(), AllocError>
    requires { elements.mask.now ≡ mask_of elements.typ.now }
    ensures { OnOk result (fields.new ≡ fields.old ++ option_to_list (port_field elements.entry.typ.now elements.entry.depth line.now)) }
{
    if let MemLine::MemPort(_, mode, name) = line {
        fields.push(Field {
            flip: true,
            name: *name,
            typ: port_bundle(alloc, elements, *mode, name.place)?,
        })?;
    }
    Ok(())
}

/// The bundle of a port of a memory, whose name stands at this place.
fn port_bundle(
    alloc: Global,
    elements: Elements<'_>,
    mode: PortMode,
    place: Place,
) -> Result<FirType, AllocError>
    requires { elements.mask.now ≡ mask_of elements.typ.now }
    ensures { IfOk result (λ typ. typ ≡ port_type elements.entry.typ.now elements.entry.depth mode place) }
{
    let mut fields = List::new(alloc);
    fields.push(plain(place, ADDR, uint(place, address_width(elements.depth))))?;
    fields.push(plain(place, EN, uint(place, 1)))?;
    fields.push(plain(place, CLK, clock(place)))?;
    push_mode_fields(&mut fields, elements, mode, place)?;
    Ok(FirType {
        place,
        shape: Shape::Bundle(Shared::new(alloc, fields)?),
    })
}

fn push_mode_fields(
    fields: &mut List<Field>,
    elements: Elements<'_>,
    mode: PortMode,
    place: Place,
) -> Result<(), AllocError>
    requires { elements.mask.now ≡ mask_of elements.typ.now }
    ensures { OnOk result (fields.new ≡ fields.old ++ fields_of_mode place elements.entry.typ.now mode) }
{
    match mode {
        PortMode::Reader => fields.push(flipped(place, DATA, copy(elements.typ)?))?,
        PortMode::Writer => {
            fields.push(plain(place, DATA, copy(elements.typ)?))?;
            fields.push(plain(place, MASK, copy(elements.mask)?))?;
        }
        PortMode::ReadWriter => {
            fields.push(flipped(place, RDATA, copy(elements.typ)?))?;
            fields.push(plain(place, WMODE, uint(place, 1)))?;
            fields.push(plain(place, WDATA, copy(elements.typ)?))?;
            fields.push(plain(place, WMASK, copy(elements.mask)?))?;
        }
    }
    Ok(())
}

fn plain(place: Place, id: u32, typ: FirType) -> Field
    ensures { result ≡ plain_field place id typ }
{
    Field {
        flip: false,
        name: Name { id, place },
        typ,
    }
}

fn flipped(place: Place, id: u32, typ: FirType) -> Field
    ensures { result ≡ flipped_field place id typ }
{
    Field {
        flip: true,
        name: Name { id, place },
        typ,
    }
}

fn uint(place: Place, width: u128) -> FirType
    ensures { result ≡ uint_at place width }
{
    FirType {
        place,
        shape: Shape::Unsigned(Some(width)),
    }
}

fn clock(place: Place) -> FirType
    ensures { result ≡ clock_at place }
{
    FirType {
        place,
        shape: Shape::Clock,
    }
}

/// The bits of an address below a memory's depth, at least one (FIRRTL specification 3.0, "Memories").
pub fn address_width(depth: u128) -> u128
    ensures { result ≡ address_bits depth }
{
    if depth <= 2 {
        1
    } else {
        u128::from((depth - 1).ilog2()) + 1
    }
}

/// A type of the shape of another, with `UInt<1>` in place of each leaf.
#[cycle(mask)]
fn mask(alloc: Global, typ: &FirType) -> Result<FirType, AllocError>
    ensures { IfOk result (λ mask. mask ≡ mask_of typ.now) }
{
    let mut lengths = Vec::new(alloc);
    let mut inside = typ;
    while let Shape::Vector(element, length) = &inside.shape {
        lengths.push((inside.place, *length))?;
        inside = element.get();
    }
    let shape = mask_shape(alloc, &inside.shape)?;
    let innermost = FirType {
        place: inside.place,
        shape,
    };
    put_within(alloc, lengths, innermost)
}

#[cycle(mask)]
fn mask_shape(alloc: Global, shape: &Shape) -> Result<Shape, AllocError>
    ensures { IfOk result (λ mask. mask ≡ mask_of_shape shape.now) }
{
    match shape {
        Shape::Unsigned(_) | Shape::Signed(_) | Shape::Clock | Shape::Reset | Shape::AsyncReset => {
            Ok(Shape::Unsigned(Some(1)))
        }
        Shape::Bundle(fields) => {
            let masks = mask_fields(alloc, fields.as_slice())?;
            Ok(Shape::Bundle(Shared::new(alloc, masks)?))
        }
        Shape::Vector(element, length) => {
            let masked = mask(alloc, element.get())?;
            Ok(Shape::Vector(Shared::new(alloc, masked)?, *length))
        }
    }
}

/// A type with these lengths around it, the outermost first.
#[tactic(auto, using(crate::proofs::Runs::within_last))]
fn put_within(
    alloc: Global,
    lengths: Vec<(Place, u128)>,
    typ: FirType,
) -> Result<FirType, AllocError>
    ensures { IfOk result (λ whole. whole ≡ within lengths.items typ) }
{
    let mut whole = typ;
    let mut left = lengths;
    while let Some((place, length)) = left.pop() {
        whole = FirType {
            place,
            shape: Shape::Vector(Shared::new(alloc, whole)?, length),
        };
    }
    Ok(whole)
}

#[cycle(mask)]
fn mask_fields(alloc: Global, fields: &[Field]) -> Result<List<Field>, AllocError>
    ensures { IfOk result (λ masks. masks ≡ map mask_of_field fields.now) }
{
    let mut masks = List::new(alloc);
    for field in fields {
        masks.push(Field {
            flip: field.flip,
            name: field.name,
            typ: mask(alloc, &field.typ)?,
        })?;
    }
    Ok(masks)
}
