//! Components and their parts as references go along them, lent from the circuit. Takes no memory.

ghost use Rattle.std.specs.Prelude.{◌≡◌, ◌==◌, ◌<◌, find, map};
ghost use Rattle.std.specs.Option.{option_copied};
ghost use Rattle.place_text.specs.declared.place.Place.{Place as APlace};
ghost use Rattle.fir_types.specs.declared.memory.PortMode.TheVariants.{Reader as A_reader, Writer as A_writer, ReadWriter as A_read_writer};
ghost use Rattle.fir_types.specs.Bundles.{instance_of, memory_of, mask_of};
ghost use Rattle.fir_types.specs.Memories.{element_of};
ghost use Rattle.fir_tree.specs.declared.part.Part.{Part as APart};
ghost use Rattle.fir_tree.specs.Parts.{flow_through, turned, part_of, source_of, field_part, element_part};
ghost use Rattle.reference_flow.specs.Flows.{suffix_step, named};
ghost use Rattle.reference_flow.specs.Reached.{Means, lent, port_part};

use fir_tree::steps::through;
use fir_tree::{Flow, Suffix};
use fir_types::{FirType, MemLine, Memory, Port, PortMode, Shape, field_of};

// The numbers that the names of a port's fields have in every circuit. Those of `addr`, `en` and `clk` are the first.

const CLK: u32 = 2;

const DATA: u32 = 3;

const MASK: u32 = 4;

const RDATA: u32 = 5;

const WMODE: u32 = 6;

const WDATA: u32 = 7;

const WMASK: u32 = 8;

/// A part of a component, whose type is lent.
#[derive(Clone, Copy)]
pub struct PartRef<'a> {
    pub typ: &'a FirType,
    pub flow: Flow,
}

/// What a reference has come to: a component, or a part of one.
#[derive(Clone, Copy)]
pub enum Reached<'a> {
    /// What has a type of the circuit, or a mask, which has the parts of such a type.
    Typed(PartRef<'a>),
    /// An instance of a module with these ports.
    Instance(&'a [Port]),
    Memory(&'a Memory),
    /// A port of a memory.
    MemoryPort(&'a Memory, PortMode),
    /// What has no parts.
    Plain(Flow),
}

/// The flow of the part to which suffixes lead.
pub fn flow_along(start: Reached, suffixes: &[Suffix]) -> Flow
    ensures { (part : APart) → Means start.entry part → result ≡ (named (map suffix_step suffixes.now) part).flow }
{
    let mut reached = start;
    for suffix in suffixes {
        reached = step(reached, suffix);
    }
    flow(reached)
}

/// What one suffix leads to.
fn step<'a>(reached: Reached<'a>, suffix: &Suffix) -> Reached<'a>
    ensures { (part : APart) → Means reached.entry part → Means result ((suffix_step suffix.now).to part) }
{
    match suffix {
        Suffix::Field(name) => field(reached, name.id),
        Suffix::At(_, _, _) | Suffix::Index(_, _) => element(reached),
    }
}

fn flow(reached: Reached) -> Flow
    ensures { (part : APart) → Means reached.entry part → result ≡ part.flow }
{
    match reached {
        Reached::Typed(part) => part.flow,
        Reached::Instance(_) | Reached::Memory(_) => Flow::Source,
        Reached::MemoryPort(_, _) => Flow::Sink,
        Reached::Plain(flow) => flow,
    }
}

fn field<'a>(reached: Reached<'a>, id: u32) -> Reached<'a>
    ensures { (part : APart) → Means reached.entry part → Means result (field_part id part) }
{
    match reached {
        Reached::Typed(part) => Reached::Typed(field_in(part, id)),
        Reached::Instance(ports) => field_of_instance(ports, id),
        Reached::Memory(memory) => field_of_memory(memory, id),
        Reached::MemoryPort(memory, mode) => field_of_port(memory, mode, id),
        Reached::Plain(flow) => Reached::Plain(flow),
    }
}

fn element<'a>(reached: Reached<'a>) -> Reached<'a>
    ensures { (part : APart) → Means reached.entry part → Means result (element_part part) }
{
    match reached {
        Reached::Typed(part) => Reached::Typed(element_in(part)),
        _ => reached,
    }
}

/// A field of a bundle. What has no such field stays.
fn field_in<'a>(part: PartRef<'a>, id: u32) -> PartRef<'a>
    ensures { lent result ≡ field_part id (lent part.entry) }
{
    let Shape::Bundle(fields) = &part.typ.shape else {
        return part;
    };
    match field_of(fields.as_slice(), id) {
        Some(field) => PartRef {
            typ: &field.typ,
            flow: through(field.flip, part.flow),
        },
        None => part,
    }
}

/// An element of a vector. What is no vector stays.
fn element_in<'a>(part: PartRef<'a>) -> PartRef<'a>
    ensures { lent result ≡ element_part (lent part.entry) }
{
    match &part.typ.shape {
        Shape::Vector(element, _) => PartRef {
            typ: element.get(),
            flow: part.flow,
        },
        _ => part,
    }
}

/// A port of an instance, where an input is flipped.
fn field_of_instance<'a>(ports: &'a [Port], id: u32) -> Reached<'a>
    ensures { Means result (field_part id (source_of (instance_of ports.now))) }
{
    match port_named(ports, id) {
        Some(port) => Reached::Typed(PartRef {
            typ: &port.typ,
            flow: through(!port.output, Flow::Source),
        }),
        None => Reached::Instance(ports),
    }
}

/// The first port of a name.
pub fn port_named(ports: &[Port], id: u32) -> Option<&Port>
    ensures { option_copied result ≡ find (λ port. port.name.id == id) ports.now }
{
    ports.iter().find(|port| port.name.id == id)
}

/// A port of a memory, which is flipped.
fn field_of_memory<'a>(memory: &'a Memory, id: u32) -> Reached<'a>
    ensures { Means result (field_part id (source_of (memory_of memory.now))) }
{
    for line in memory.lines.as_slice() {
        if let MemLine::MemPort(_, mode, name) = line {
            if name.id == id {
                return Reached::MemoryPort(memory, *mode);
            }
        }
    }
    Reached::Memory(memory)
}

/// A field of a port of a memory. What has no such field stays.
fn field_of_port<'a>(memory: &'a Memory, mode: PortMode, id: u32) -> Reached<'a>
    ensures { (place : APlace) → Means result (field_part id (port_part memory.now mode place)) }
{
    if id <= CLK {
        return Reached::Plain(Flow::Sink);
    }
    match mode {
        PortMode::Reader => field_of_reader(memory, id),
        PortMode::Writer => field_of_writer(memory, id),
        PortMode::ReadWriter => field_of_read_writer(memory, id),
    }
}

fn field_of_reader<'a>(memory: &'a Memory, id: u32) -> Reached<'a>
    requires { 2 < id }
    ensures { (place : APlace) → Means result (field_part id (port_part memory.now A_reader place)) }
{
    match id {
        DATA => stored(memory, Flow::Source),
        _ => Reached::MemoryPort(memory, PortMode::Reader),
    }
}

fn field_of_writer<'a>(memory: &'a Memory, id: u32) -> Reached<'a>
    requires { 2 < id }
    ensures { (place : APlace) → Means result (field_part id (port_part memory.now A_writer place)) }
{
    match id {
        DATA | MASK => stored(memory, Flow::Sink),
        _ => Reached::MemoryPort(memory, PortMode::Writer),
    }
}

fn field_of_read_writer<'a>(memory: &'a Memory, id: u32) -> Reached<'a>
    requires { 2 < id }
    ensures { (place : APlace) → Means result (field_part id (port_part memory.now A_read_writer place)) }
{
    match id {
        RDATA => stored(memory, Flow::Source),
        WMODE => Reached::Plain(Flow::Sink),
        WDATA | WMASK => stored(memory, Flow::Sink),
        _ => Reached::MemoryPort(memory, PortMode::ReadWriter),
    }
}

/// An element of a memory, or a mask of one, by the first line that gives its type.
fn stored<'a>(memory: &'a Memory, flow: Flow) -> Reached<'a>
    ensures element { Means result (part_of (element_of memory.now) flow) }
    ensures mask { Means result (part_of (mask_of (element_of memory.now)) flow) }
{
    for line in memory.lines.as_slice() {
        if let MemLine::Element(_, typ) = line {
            return Reached::Typed(PartRef { typ, flow });
        }
    }
    Reached::Plain(flow)
}
