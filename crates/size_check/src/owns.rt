//! What a module has of its own, without the modules of its instances.

ghost use Rattle.std.specs.Prelude.{◌≡◌, map, filter_map, sum, IfOk};
ghost use Rattle.fir_types.specs.Leaves.{count};
ghost use Rattle.fir_types.specs.Memories.{read_latency_in, first_or};
ghost use Rattle.size_check.specs.Weights.{nodes, weight};
ghost use Rattle.size_check.specs.Caps.{cap, capped};
ghost use Rattle.size_check.specs.Kept.{AreMeasured};
ghost use Rattle.size_check.specs.Measures.{plus, together, greatest};
ghost use Rattle.size_check.specs.Reaching.{types_in};
ghost use Rattle.size_check.specs.Owns.{sized, flat, stored, celled, vector_of, kept_leaves, reads_in, all_own, arms_own, stmt_own, arm_own, port_own, module_own, of_memory};

use crate::known::{Known, known_of};
use crate::sums::Sums;
use crate::weights::{more, nodes, weigh};
use bit_words::Shared;
use fir_tree::{Arm, Module, Names, Stmt, Ways, names_by, names_of};
use fir_types::{
    FirType, MemLine, Memory, Name, Port, PortMode, Shape, copy, depth_of, element_of, leaf_count,
};
use module_table::Modules;
use place_text::Place;
use std::alloc::{AllocError, Global};

/// What a module has of its own, where these are all modules.
pub fn module_own(
    alloc: Global,
    names: &Names,
    modules: &Modules<'_>,
    holder: &Module,
) -> Result<Sums, AllocError>
    requires { modules.now.names.now ≡ names.now }
    ensures { IfOk result (λ own. own ≡ capped (module_own names.now modules.now.all.now holder.now)) }
{
    let known = known_of(alloc, modules, holder)?;
    let ports = ports_own(names, holder.ports.as_slice())?;
    let body = block_own(alloc, names, &known, holder.body.as_slice(), 0)?;
    Ok(ports.plus(body))
}

fn ports_own(names: &Names, ports: &[Port]) -> Result<Sums, AllocError>
    ensures { IfOk result (λ own. own ≡ capped (together (map (port_own names.now) ports.now))) }
{
    let mut total = Sums::none();
    for port in ports {
        let leaves = flat(names, port.name, &port.typ);
        let size = sized(0, leaves.leaves, 0)?;
        total = total.plus(size.plus(leaves));
    }
    Ok(total)
}

/// What the statements of a block have, which stands under conditions with so many nodes.
#[cycle(own)]
fn block_own(
    alloc: Global,
    names: &Names,
    known: &Known,
    statements: &[Stmt],
    around: u128,
) -> Result<Sums, AllocError>
    requires { AreMeasured names.now known.now.types.entries }
    ensures { IfOk result (λ own. own ≡ capped (all_own (map (stmt_own names.now (types_in known.now)) statements.now) around)) }
{
    let mut total = Sums::none();
    for statement in statements {
        let own = statement_own(alloc, names, known, statement, around)?;
        total = total.plus(own);
    }
    Ok(total)
}

#[cycle(own)]
fn statement_own(
    alloc: Global,
    names: &Names,
    known: &Known,
    statement: &Stmt,
    around: u128,
) -> Result<Sums, AllocError>
    requires { AreMeasured names.now known.now.types.entries }
    ensures { IfOk result (λ own. own ≡ capped (stmt_own names.now (types_in known.now) statement.now around)) }
{
    match statement {
        Stmt::Wire(name, typ) => {
            let leaves = flat(names, *name, typ);
            let size = sized(0, leaves.leaves, around)?;
            Ok(size.plus(leaves))
        }
        Stmt::Reg(name, typ, clock) => {
            let kept = register(names, *name, typ);
            let most = kept.leaves.max(weigh(known, clock).most);
            let size = sized(nodes(clock)?, most, around)?;
            Ok(size.plus(kept))
        }
        Stmt::RegReset(name, typ, clock, reset, init) => {
            let kept = register(names, *name, typ);
            let first = kept.leaves.max(weigh(known, clock).most);
            let second = weigh(known, reset).most.max(weigh(known, init).most);
            let own = more(more(nodes(clock)?, nodes(reset)?)?, nodes(init)?)?;
            let size = sized(own, first.max(second), around)?;
            Ok(size.plus(kept))
        }
        Stmt::Mem(memory) => memory_own(alloc, names, known, memory, around),
        Stmt::Inst(name, _) => sized(0, known.leaves(name.id), around),
        Stmt::Node(name, expr) => {
            let leaves = component_leaves(names, known, *name);
            let most = leaves.leaves.max(weigh(known, expr).most);
            let size = sized(nodes(expr)?, most, around)?;
            Ok(size.plus(leaves))
        }
        Stmt::Connect(left, right) => {
            let most = weigh(known, left).most.max(weigh(known, right).most);
            sized(more(nodes(left)?, nodes(right)?)?, most, around)
        }
        Stmt::Invalidate(target) => sized(nodes(target)?, weigh(known, target).most, around),
        Stmt::When(arms, other) => {
            let most = most_in_conditions(known, arms.as_slice());
            let own = nodes_of_conditions(arms.as_slice())?;
            let size = sized(own, most, around)?;
            let inside = arms_own(alloc, names, known, arms.as_slice(), around)?;
            let last = block_own(alloc, names, known, other.as_slice(), more(around, own)?)?;
            Ok(size.plus(inside.plus(last)))
        }
        Stmt::Skip(_) => sized(0, 0, around),
    }
}

/// What the arms of a `when` have. An arm stands under its own condition and those of the arms before it.
#[cycle(own)]
fn arms_own(
    alloc: Global,
    names: &Names,
    known: &Known,
    arms: &[Arm],
    around: u128,
) -> Result<Sums, AllocError>
    requires { AreMeasured names.now known.now.types.entries }
    ensures { IfOk result (λ own. own ≡ capped (arms_own (map (arm_own names.now (types_in known.now)) arms.now) around)) }
{
    let mut total = Sums::none();
    let mut conditions = around;
    for arm in arms {
        let count = nodes(&arm.condition)?;
        conditions = more(conditions, count)?;
        let own = block_own(alloc, names, known, arm.body.as_slice(), conditions)?;
        total = total.plus(own);
    }
    Ok(total)
}

fn nodes_of_conditions(arms: &[Arm]) -> Result<u128, AllocError>
    ensures { IfOk result (λ count. count ≡ sum (map (λ arm. nodes arm.condition) arms.now)) }
{
    let mut count = 0;
    for arm in arms {
        count = more(count, nodes(&arm.condition)?)?;
    }
    Ok(count)
}

fn most_in_conditions(known: &Known, arms: &[Arm]) -> u128
    ensures { result ≡ cap (greatest (map (λ arm. (weight arm.condition (types_in known.now)).most) arms.now)) }
{
    let mut most = 0;
    for arm in arms {
        most = weigh(known, &arm.condition).most.max(most);
    }
    most
}

/// What a memory has: its ports' leaves, its elements, and what its ports keep.
fn memory_own(
    alloc: Global,
    names: &Names,
    known: &Known,
    memory: &Memory,
    around: u128,
) -> Result<Sums, AllocError>
    requires { AreMeasured names.now known.now.types.entries }
    ensures { IfOk result (λ own. own ≡ capped (of_memory names.now (types_in known.now) memory.now around)) }
{
    let ports = component_leaves(names, known, memory.name);
    let size = sized(0, ports.leaves, around)?;
    let lines = memory.lines.as_slice();
    let element = element_of(lines, &known.none.typ);
    let vector = vector_of(alloc, element, depth_of(lines))?;
    let elements = celled(names, memory.name, &vector);
    let kept = stored(captured(lines, element));
    Ok(size.plus(ports.plus(elements.plus(kept))))
}

/// The size of a statement with so many nodes, under conditions with so many, whose types have at most so many leaves.
fn sized(own: u128, most: u128, around: u128) -> Result<Sums, AllocError>
    ensures { IfOk result (λ size. size ≡ capped (sized own most around)) }
{
    let count = more(more(1, own)?, around)?;
    Ok(Sums {
        size: count.saturating_mul(most.max(1)),
        leaves: 0,
        names: 0,
        bytes: 0,
        words: 0,
    })
}

/// The leaves of a component of a type, each with a flat name.
fn flat(names: &Names, name: Name, typ: &FirType) -> Sums
    ensures { result ≡ capped (flat names.now name.id typ.now) }
{
    flat_leaves(names_of(names, name.id, typ))
}

/// The leaves of a known component. Takes constant time.
fn component_leaves(names: &Names, known: &Known, name: Name) -> Sums
    requires { AreMeasured names.now known.now.types.entries }
    ensures { result ≡ capped (flat names.now name.id (types_in known.now name.id)) }
{
    let ways = known.ways(name.id);
    flat_leaves(names_by(names, name.id, ways))
}

/// Leaves, each with a flat name of its own, where these are the bytes of the names.
fn flat_leaves(named: Ways) -> Sums
    ensures { result ≡ record { size = 0; leaves = named.leaves; names = named.leaves; bytes = named.bytes; words = 0 } }
{
    Sums {
        size: 0,
        leaves: named.leaves,
        names: named.leaves,
        bytes: named.bytes,
        words: 0,
    }
}

/// The leaves of a register, which are kept.
fn register(names: &Names, name: Name, typ: &FirType) -> Sums
    ensures { result ≡ capped (plus (flat names.now name.id typ.now) (stored (count typ.now))) }
{
    let leaves = flat(names, name, typ);
    leaves.plus(stored(leaves.leaves))
}

/// The words of so many leaves of the state, whatever their width.
fn stored(count: u128) -> Sums
    ensures { result ≡ capped (stored count) }
{
    Sums {
        size: 0,
        leaves: 0,
        names: 0,
        bytes: 0,
        words: count.saturating_mul(2),
    }
}

/// The names and words of a memory's elements, given as a vector.
fn celled(names: &Names, name: Name, typ: &FirType) -> Sums
    ensures { result ≡ capped (celled names.now name.id typ.now) }
{
    let named = names_of(names, name.id, typ);
    Sums {
        size: 0,
        leaves: 0,
        names: named.leaves,
        bytes: named.bytes,
        words: named.leaves.saturating_mul(2),
    }
}

/// A vector of elements.
fn vector_of(alloc: Global, element: &FirType, depth: u128) -> Result<FirType, AllocError>
    ensures { IfOk result (λ typ. typ ≡ vector_of element.now depth) }
{
    Ok(FirType {
        place: Place { line: 1, column: 1 },
        shape: Shape::Vector(Shared::new(alloc, copy(element)?)?, depth),
    })
}

/// The leaves that the ports of a memory of these lines keep for the next cycle, where its elements have this type.
fn captured(lines: &[MemLine], element: &FirType) -> u128
    ensures { result ≡ cap (kept_leaves lines.now element.now) }
{
    if read_latency_of(lines) != 1 {
        return 0;
    }
    reads_of(lines).saturating_mul(leaf_count(element))
}

/// The read latency of a memory, by the first line that gives it, or 0 where there is none.
fn read_latency_of(lines: &[MemLine]) -> u128
    ensures { result ≡ first_or 0 (filter_map read_latency_in lines.now) }
{
    for line in lines {
        if let MemLine::ReadLatency(_, latency) = line {
            return *latency;
        }
    }
    0
}

/// How many ports read.
fn reads_of(lines: &[MemLine]) -> u128
    ensures { result ≡ cap (sum (map reads_in lines.now)) }
{
    let mut count: u128 = 0;
    for line in lines {
        count = count.saturating_add(reads_in(line));
    }
    count
}

/// Whether a line declares a port that reads: 1, or 0 where it doesn't.
fn reads_in(line: &MemLine) -> u128
    ensures { result ≡ reads_in line.now }
{
    match line {
        MemLine::MemPort(_, PortMode::Reader | PortMode::ReadWriter, _) => 1,
        _ => 0,
    }
}
