//! The lines of a memory.

ghost use Rattle.std.specs.Prelude.{◌≡◌, ◌++◌, ◌∷◌, [], List as Listed, flat_map, IfOk, OnOk};
ghost use Rattle.fir_types.specs.declared.memory.MemLine.{MemLine as Line};
ghost use Rattle.type_check.specs.declared.fault.TypeFault.TheVariants.{MemoryField};
ghost use Rattle.type_check.specs.Memories.{line_faults, is_said, place_of, again_behind, missing, memory_faults};
ghost use Rattle.type_check.specs.Noted.{Notes};
ghost use Rattle.type_check.specs.Parts.{unless};

use crate::fault::TypeFault;
use crate::texts::{push_stored, push_unless};
use fir_types::{MemLine, Memory};
use indexmap::IndexSet;
use place_text::Place;
use std::alloc::{AllocError, Global};
use std::mem;

/// Which lines of a memory stand so far.
#[derive(Drop)]
struct Said {
    element: bool,
    depth: bool,
    read_latency: bool,
    write_latency: bool,
    under: bool,
    /// The numbers of the ports' names.
    ports: IndexSet<u32>,
}

/// Adds the faults of a memory's lines. Takes time in proportion to them, also with many ports.
pub fn push_memory(
    alloc: Global,
    faults: &mut Vec<TypeFault>,
    memory: &Memory,
) -> Result<(), AllocError>
    ensures { OnOk result (faults.new.items ≡ faults.old.items ++ memory_faults memory.now) }
{
    let lines = memory.lines.as_slice();
    push_lines(alloc, faults, lines)?;
    let said = push_again(alloc, faults, lines)?;
    push_missing(faults, &said, memory.name.place)
}

/// Adds what each line says by itself.
fn push_lines(
    alloc: Global,
    faults: &mut Vec<TypeFault>,
    lines: &[MemLine],
) -> Result<(), AllocError>
    ensures { OnOk result (faults.new.items ≡ faults.old.items ++ flat_map line_faults lines.now) }
{
    for line in lines {
        push_line(alloc, faults, line)?;
    }
    Ok(())
}

fn push_line(alloc: Global, faults: &mut Vec<TypeFault>, line: &MemLine) -> Result<(), AllocError>
    ensures { OnOk result (faults.new.items ≡ faults.old.items ++ line_faults line.now) }
{
    match line {
        MemLine::Element(_, typ) => push_stored(alloc, faults, typ),
        MemLine::Depth(at, depth) => push_wrong(faults, *depth >= 1, *at),
        MemLine::ReadLatency(at, cycles) => push_wrong(faults, *cycles <= 1, *at),
        MemLine::WriteLatency(at, cycles) => push_wrong(faults, *cycles == 1, *at),
        MemLine::ReadUnder(_, _) | MemLine::MemPort(_, _, _) => Ok(()),
    }
}

/// Adds the lines that say again what one before them says. Answers which lines stand.
fn push_again(
    alloc: Global,
    faults: &mut Vec<TypeFault>,
    lines: &[MemLine],
) -> Result<Said, AllocError>
    ensures faults { OnOk result (faults.new.items ≡ faults.old.items ++ again_behind [] lines.now) }
    ensures said { IfOk result (Notes lines.now) }
{
    let mut said = nothing_said(alloc);
    for line in lines {
        let again = note(&mut said, line)?;
        push_wrong(faults, !again, place_of(line))?;
    }
    Ok(said)
}

fn nothing_said(alloc: Global) -> Said
    ensures { Notes [] result }
{
    Said {
        element: false,
        depth: false,
        read_latency: false,
        write_latency: false,
        under: false,
        ports: IndexSet::new(alloc),
    }
}

/// Notes a line. Answers whether one before it says the same.
fn note(said: &mut Said, line: &MemLine) -> Result<bool, AllocError>
    ensures again { (lines : Listed Line) → Notes lines said.old → IfOk result (λ again. again ≡ is_said lines line.now) }
    ensures noted { (lines : Listed Line) → Notes lines said.old → OnOk result (Notes (lines ++ line.now ∷ []) said.new) }
{
    match line {
        MemLine::Element(_, _) => Ok(mem::replace(&mut said.element, true)),
        MemLine::Depth(_, _) => Ok(mem::replace(&mut said.depth, true)),
        MemLine::ReadLatency(_, _) => Ok(mem::replace(&mut said.read_latency, true)),
        MemLine::WriteLatency(_, _) => Ok(mem::replace(&mut said.write_latency, true)),
        MemLine::ReadUnder(_, _) => Ok(mem::replace(&mut said.under, true)),
        MemLine::MemPort(_, _, name) => {
            let (_index, added) = said.ports.insert_full(name.id)?;
            Ok(!added)
        }
    }
}

/// The place of a line's first word, and of a port its name.
fn place_of(line: &MemLine) -> Place
    ensures { result ≡ place_of line.now }
{
    match line {
        MemLine::Element(at, _)
        | MemLine::Depth(at, _)
        | MemLine::ReadLatency(at, _)
        | MemLine::WriteLatency(at, _)
        | MemLine::ReadUnder(at, _) => *at,
        MemLine::MemPort(_, _, name) => name.place,
    }
}

/// Adds the lines that are missing, each at this place.
fn push_missing(faults: &mut Vec<TypeFault>, said: &Said, at: Place) -> Result<(), AllocError>
    ensures { (lines : Listed Line) → Notes lines said.now → OnOk result (faults.new.items ≡ faults.old.items ++ missing at lines) }
{
    push_wrong(faults, said.element, at)?;
    push_wrong(faults, said.depth, at)?;
    push_wrong(faults, said.read_latency, at)?;
    push_wrong(faults, said.write_latency, at)?;
    push_wrong(faults, said.under, at)
}

/// Adds a wrong line at a place, where the condition isn't met.
fn push_wrong(faults: &mut Vec<TypeFault>, fine: bool, at: Place) -> Result<(), AllocError>
    ensures { OnOk result (faults.new.items ≡ faults.old.items ++ unless fine (MemoryField at)) }
{
    push_unless(faults, fine, TypeFault::MemoryField(at))
}
