//! The circuit in which each `Reset` that is reached is an `AsyncReset`.

ghost use Rattle.std.specs.Prelude.{◌≡◌, ◌+◌, map, IfOk, OnOk};
ghost use Rattle.fir_types.specs.Spots.{size};
ghost use Rattle.reset_search.specs.Feeds.{memory_count, lines_count, line_count, own_count, ports_count, all_ports};
ghost use Rattle.reset_search.specs.Resolved.{resolved, resolved_circuit, resolved_modules, resolved_ports, resolved_memory, with_element, becomes_stmt, all_from, in_all};
ghost use Rattle.reset_search.specs.Rows.{marked};
ghost use Rattle.reset_search.specs.Layers.{arm_becomes, module_from};

use crate::copies::{copy_expr, copy_prints};
use crate::masks::mask_places;
use crate::search::Marks;
use crate::types::{resolved_type, skip};
use bit_words::List;
use fir_tree::steps::no_part;
use fir_tree::{Arm, Circuit, Module, Stmt};
use fir_types::{FirType, MemLine, Memory, Port, PortMode, element_of, size};
use std::alloc::{AllocError, Global};

/// The circuit in which each `Reset` whose place is marked is an `AsyncReset`. Takes time and memory in proportion to the circuit.
pub fn resolved_tree(alloc: Global, marks: &Marks, circuit: &Circuit) -> Result<Circuit, AllocError>
    ensures { IfOk result (λ tree. tree ≡ resolved_circuit (marked marks.now.keys.keys) circuit.now) }
{
    let mut next = 0;
    skip_ports(&mut next, circuit.modules.as_slice())?;
    Ok(Circuit {
        names: circuit.names.copy()?,
        main: circuit.main,
        modules: resolve_modules(alloc, marks, next, circuit.modules.as_slice())?,
        prints: copy_prints(alloc, circuit.prints.as_slice())?,
    })
}

/// The number behind the ports of modules.
fn skip_ports(next: &mut u32, modules: &[Module]) -> Result<(), AllocError>
    ensures { OnOk result (next.new ≡ next.old + all_ports modules.now) }
{
    for holder in modules {
        skip_own(next, holder.ports.as_slice())?;
    }
    Ok(())
}

fn skip_own(next: &mut u32, ports: &[Port]) -> Result<(), AllocError>
    ensures { OnOk result (next.new ≡ next.old + ports_count ports.now) }
{
    for port in ports {
        skip_type(next, &port.typ)?;
    }
    Ok(())
}

/// The number behind the places of a type.
fn skip_type(next: &mut u32, typ: &FirType) -> Result<(), AllocError>
    ensures { OnOk result (next.new ≡ next.old + size typ.now) }
{
    let count = size(typ);
    if count > u32::MAX as usize {
        return Err(AllocError);
    }
    skip(next, count)
}

/// The number behind the places of a memory.
fn skip_memory(alloc: Global, next: &mut u32, memory: &Memory) -> Result<(), AllocError>
    ensures { OnOk result (next.new ≡ next.old + memory_count memory.now) }
{
    let empty = no_part(alloc)?.typ;
    let lines = memory.lines.as_slice();
    let element = element_of(lines, &empty);
    skip_type(next, element)?;
    let mask = mask_places(element)?;
    skip_lines(next, mask, lines)
}

fn skip_lines(next: &mut u32, mask: usize, lines: &[MemLine]) -> Result<(), AllocError>
    ensures { OnOk result (next.new ≡ next.old + lines_count mask lines.now) }
{
    for line in lines {
        skip_line(next, mask, line)?;
    }
    Ok(())
}

fn skip_line(next: &mut u32, mask: usize, line: &MemLine) -> Result<(), AllocError>
    ensures { OnOk result (next.new ≡ next.old + line_count mask line.now) }
{
    match line {
        MemLine::MemPort(_, mode, _) => skip_port(next, mask, *mode),
        _ => Ok(()),
    }
}

fn skip_port(next: &mut u32, mask: usize, mode: PortMode) -> Result<(), AllocError>
    ensures { OnOk result (next.new ≡ next.old + own_count mask mode) }
{
    match mode {
        PortMode::Reader => skip(next, 2),
        PortMode::Writer => {
            skip(next, 2)?;
            skip(next, mask)
        }
        PortMode::ReadWriter => {
            skip(next, 3)?;
            skip(next, mask)
        }
    }
}

/// The numbers of the next places of ports, and of the next ones of bodies.
#[derive(Clone, Copy)]
struct Counters {
    ports: u32,
    next: u32,
}

/// The modules, where the places of their bodies have the numbers from this one on.
fn resolve_modules(
    alloc: Global,
    marks: &Marks,
    first: u32,
    modules: &[Module],
) -> Result<List<Module>, AllocError>
    ensures { IfOk result (λ made. made ≡ resolved_modules (marked marks.now.keys.keys) 0 first modules.now) }
{
    let mut counters = Counters {
        ports: 0,
        next: first,
    };
    let mut made = List::new(alloc);
    for holder in modules {
        made.push(resolve_module(alloc, marks, &mut counters, holder)?)?;
    }
    Ok(made)
}

fn resolve_module(
    alloc: Global,
    marks: &Marks,
    counters: &mut Counters,
    holder: &Module,
) -> Result<Module, AllocError>
    ensures made { IfOk result (λ made. made ≡ module_from (marked marks.now.keys.keys) counters.old.ports counters.old.next holder.now) }
    ensures ports { OnOk result (counters.new.ports ≡ counters.old.ports + ports_count holder.now.ports) }
    ensures next { OnOk result (counters.new.next ≡ counters.old.next + in_all (map (becomes_stmt (marked marks.now.keys.keys)) holder.now.body)) }
{
    let ports = resolve_ports(alloc, marks, &mut counters.ports, holder.ports.as_slice())?;
    let body = resolve_body(alloc, marks, &mut counters.next, holder.body.as_slice())?;
    Ok(Module {
        name: holder.name,
        ports,
        body,
    })
}

fn resolve_ports(
    alloc: Global,
    marks: &Marks,
    next: &mut u32,
    ports: &[Port],
) -> Result<List<Port>, AllocError>
    ensures ports { IfOk result (λ made. made ≡ resolved_ports (marked marks.now.keys.keys) next.old ports.now) }
    ensures next { OnOk result (next.new ≡ next.old + ports_count ports.now) }
{
    let mut made = List::new(alloc);
    for port in ports {
        let typ = take_type(alloc, marks, next, &port.typ)?;
        made.push(Port {
            output: port.output,
            name: port.name,
            typ,
        })?;
    }
    Ok(made)
}

/// The type of which the next places are.
fn take_type(
    alloc: Global,
    marks: &Marks,
    next: &mut u32,
    typ: &FirType,
) -> Result<FirType, AllocError>
    ensures typ { IfOk result (λ made. made ≡ resolved (marked marks.now.keys.keys) next.old typ.now) }
    ensures next { OnOk result (next.new ≡ next.old + size typ.now) }
{
    let first = *next;
    skip_type(next, typ)?;
    resolved_type(alloc, marks, first, typ)
}

#[cycle(body)]
fn resolve_body(
    alloc: Global,
    marks: &Marks,
    next: &mut u32,
    statements: &[Stmt],
) -> Result<List<Stmt>, AllocError>
    ensures body { IfOk result (λ made. made ≡ all_from (map (becomes_stmt (marked marks.now.keys.keys)) statements.now) next.old) }
    ensures next { OnOk result (next.new ≡ next.old + in_all (map (becomes_stmt (marked marks.now.keys.keys)) statements.now)) }
{
    let mut made = List::new(alloc);
    for statement in statements {
        made.push(resolve_statement(alloc, marks, next, statement)?)?;
    }
    Ok(made)
}

#[cycle(body)]
fn resolve_statement(
    alloc: Global,
    marks: &Marks,
    next: &mut u32,
    statement: &Stmt,
) -> Result<Stmt, AllocError>
    ensures made { IfOk result (λ made. made ≡ (becomes_stmt (marked marks.now.keys.keys) statement.now).1 next.old) }
    ensures next { OnOk result (next.new ≡ next.old + (becomes_stmt (marked marks.now.keys.keys) statement.now).0) }
{
    match statement {
        Stmt::Wire(name, typ) => {
            let typ = take_type(alloc, marks, next, typ)?;
            Ok(Stmt::Wire(*name, typ))
        }
        Stmt::Reg(name, typ, clock) => {
            let typ = take_type(alloc, marks, next, typ)?;
            Ok(Stmt::Reg(*name, typ, copy_expr(alloc, clock)?))
        }
        Stmt::RegReset(name, typ, clock, reset, init) => {
            let typ = take_type(alloc, marks, next, typ)?;
            let clock = copy_expr(alloc, clock)?;
            let reset = copy_expr(alloc, reset)?;
            let init = copy_expr(alloc, init)?;
            Ok(Stmt::RegReset(*name, typ, clock, reset, init))
        }
        Stmt::Mem(memory) => Ok(Stmt::Mem(resolve_memory(alloc, marks, next, memory)?)),
        Stmt::Inst(name, target) => Ok(Stmt::Inst(*name, *target)),
        Stmt::Node(name, expr) => Ok(Stmt::Node(*name, copy_expr(alloc, expr)?)),
        Stmt::Connect(left, right) => {
            let left = copy_expr(alloc, left)?;
            let right = copy_expr(alloc, right)?;
            Ok(Stmt::Connect(left, right))
        }
        Stmt::Invalidate(target) => Ok(Stmt::Invalidate(copy_expr(alloc, target)?)),
        Stmt::When(arms, other) => {
            let arms = resolve_arms(alloc, marks, next, arms.as_slice())?;
            let other = resolve_body(alloc, marks, next, other.as_slice())?;
            Ok(Stmt::When(arms, other))
        }
        Stmt::Skip(place) => Ok(Stmt::Skip(*place)),
    }
}

#[cycle(body)]
fn resolve_arms(
    alloc: Global,
    marks: &Marks,
    next: &mut u32,
    arms: &[Arm],
) -> Result<List<Arm>, AllocError>
    ensures arms { IfOk result (λ made. made ≡ all_from (map (arm_becomes (marked marks.now.keys.keys)) arms.now) next.old) }
    ensures next { OnOk result (next.new ≡ next.old + in_all (map (arm_becomes (marked marks.now.keys.keys)) arms.now)) }
{
    let mut made = List::new(alloc);
    for arm in arms {
        let condition = copy_expr(alloc, &arm.condition)?;
        let body = resolve_body(alloc, marks, next, arm.body.as_slice())?;
        made.push(Arm { condition, body })?;
    }
    Ok(made)
}

fn resolve_memory(
    alloc: Global,
    marks: &Marks,
    next: &mut u32,
    memory: &Memory,
) -> Result<Memory, AllocError>
    ensures made { IfOk result (λ made. made ≡ resolved_memory (marked marks.now.keys.keys) next.old memory.now) }
    ensures next { OnOk result (next.new ≡ next.old + memory_count memory.now) }
{
    let first = *next;
    skip_memory(alloc, next, memory)?;
    Ok(Memory {
        name: memory.name,
        lines: resolve_lines(alloc, marks, first, memory.lines.as_slice())?,
    })
}

fn resolve_lines(
    alloc: Global,
    marks: &Marks,
    first: u32,
    lines: &[MemLine],
) -> Result<List<MemLine>, AllocError>
    ensures { IfOk result (λ made. made ≡ map (with_element (marked marks.now.keys.keys) first) lines.now) }
{
    let mut made = List::new(alloc);
    for line in lines {
        made.push(resolve_line(alloc, marks, first, line)?)?;
    }
    Ok(made)
}

fn resolve_line(
    alloc: Global,
    marks: &Marks,
    first: u32,
    line: &MemLine,
) -> Result<MemLine, AllocError>
    ensures { IfOk result (λ made. made ≡ with_element (marked marks.now.keys.keys) first line.now) }
{
    match line {
        MemLine::Element(place, typ) => {
            Ok(MemLine::Element(*place, resolved_type(alloc, marks, first, typ)?))
        }
        MemLine::Depth(place, depth) => Ok(MemLine::Depth(*place, *depth)),
        MemLine::ReadLatency(place, latency) => Ok(MemLine::ReadLatency(*place, *latency)),
        MemLine::WriteLatency(place, latency) => Ok(MemLine::WriteLatency(*place, *latency)),
        MemLine::ReadUnder(place, under) => Ok(MemLine::ReadUnder(*place, *under)),
        MemLine::MemPort(place, mode, name) => Ok(MemLine::MemPort(*place, *mode, *name)),
    }
}
