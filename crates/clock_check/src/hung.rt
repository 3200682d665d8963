//! The registers and memory ports of a module.

ghost use Rattle.std.specs.Prelude.{◌≡◌, ◌++◌, [], ◌∷◌, flat_map, IfOk, OnOk};
ghost use Rattle.drive_check.specs.HeldTypes.{types_in};
ghost use Rattle.drive_check.specs.Keys.{leaf_of_key};
ghost use Rattle.clock_check.specs.Clocked.{clock_leaf};
ghost use Rattle.clock_check.specs.Hung.{hung_of, line_hung, register_hung, stmt_hung, arm_hung, module_hung};

use crate::drivers::copied;
use crate::reach::named;
use drive_check::leaf_set::{LeafKey, Step};
use drive_check::module_types::ModuleTypes;
use fir_tree::{Arm, Expr, Module, Stmt};
use fir_types::{MemLine, Memory};
use place_text::Place;
use std::alloc::{AllocError, Global};

/// The number of the name `clk`.
const CLK: u32 = 2;

/// The place of a register or a memory's port, and the leaf that is its clock, where it names one.
#[derive(Drop)]
pub struct Hung {
    pub place: Place,
    pub clock: Option<LeafKey>,
}

/// The registers and memory ports of a module, in text order.
pub fn hung_in(
    alloc: Global,
    types: &ModuleTypes<'_>,
    holder: &Module,
) -> Result<Vec<Hung>, AllocError>
    ensures { IfOk result (λ hung. hung_of hung.items ≡ module_hung (types_in types.now) holder.now) }
{
    let mut hung = Vec::new(alloc);
    push_block(alloc, types, &mut hung, holder.body.as_slice())?;
    Ok(hung)
}

#[cycle(hung)]
fn push_block(
    alloc: Global,
    types: &ModuleTypes<'_>,
    hung: &mut Vec<Hung>,
    statements: &[Stmt],
) -> Result<(), AllocError>
    ensures { OnOk result (hung_of hung.new.items ≡ hung_of hung.old.items ++ flat_map (stmt_hung (types_in types.now)) statements.now) }
{
    for statement in statements {
        push_statement(alloc, types, hung, statement)?;
    }
    Ok(())
}

#[cycle(hung)]
fn push_statement(
    alloc: Global,
    types: &ModuleTypes<'_>,
    hung: &mut Vec<Hung>,
    statement: &Stmt,
) -> Result<(), AllocError>
    ensures { OnOk result (hung_of hung.new.items ≡ hung_of hung.old.items ++ stmt_hung (types_in types.now) statement.now) }
{
    match statement {
        Stmt::Reg(name, _, clock) | Stmt::RegReset(name, _, clock, _, _) => {
            push_register(alloc, types, hung, name.place, clock)
        }
        Stmt::Mem(memory) => push_ports(alloc, hung, memory),
        Stmt::When(arms, other) => {
            push_arms(alloc, types, hung, arms.as_slice())?;
            push_block(alloc, types, hung, other.as_slice())
        }
        Stmt::Wire(_, _)
        | Stmt::Inst(_, _)
        | Stmt::Node(_, _)
        | Stmt::Connect(_, _)
        | Stmt::Invalidate(_)
        | Stmt::Skip(_) => Ok(()),
    }
}

#[cycle(hung)]
fn push_arms(
    alloc: Global,
    types: &ModuleTypes<'_>,
    hung: &mut Vec<Hung>,
    arms: &[Arm],
) -> Result<(), AllocError>
    ensures { OnOk result (hung_of hung.new.items ≡ hung_of hung.old.items ++ flat_map (arm_hung (types_in types.now)) arms.now) }
{
    for arm in arms {
        push_block(alloc, types, hung, arm.body.as_slice())?;
    }
    Ok(())
}

/// Adds a register with the first leaf that its clock names.
fn push_register(
    alloc: Global,
    types: &ModuleTypes<'_>,
    hung: &mut Vec<Hung>,
    place: Place,
    clock: &Expr,
) -> Result<(), AllocError>
    ensures { OnOk result (hung_of hung.new.items ≡ hung_of hung.old.items ++ register_hung (types_in types.now) place clock.now ∷ []) }
{
    let keys = named(alloc, types, clock)?;
    let clock = match keys.first() {
        Some(key) => Some(copied(alloc, key)?),
        None => None,
    };
    hung.push(Hung { place, clock })?;
    Ok(())
}

/// Adds the ports of a memory.
fn push_ports(alloc: Global, hung: &mut Vec<Hung>, memory: &Memory) -> Result<(), AllocError>
    ensures { OnOk result (hung_of hung.new.items ≡ hung_of hung.old.items ++ flat_map (line_hung memory.now.name.id) memory.now.lines) }
{
    for line in memory.lines.as_slice() {
        push_line(alloc, hung, memory.name.id, line)?;
    }
    Ok(())
}

fn push_line(
    alloc: Global,
    hung: &mut Vec<Hung>,
    memory: u32,
    line: &MemLine,
) -> Result<(), AllocError>
    ensures { OnOk result (hung_of hung.new.items ≡ hung_of hung.old.items ++ line_hung memory line.now) }
{
    let MemLine::MemPort(_, _, name) = line else {
        return Ok(());
    };
    let clock = clock_key(alloc, memory, name.id)?;
    hung.push(Hung {
        place: name.place,
        clock: Some(clock),
    })?;
    Ok(())
}

/// The leaf of a memory that is the clock of its port of this name.
fn clock_key(alloc: Global, memory: u32, port: u32) -> Result<LeafKey, AllocError>
    ensures { IfOk result (λ key. leaf_of_key key ≡ clock_leaf memory port) }
{
    let mut way = Vec::new(alloc);
    way.push(Step::Field(port))?;
    way.push(Step::Field(CLK))?;
    Ok(LeafKey {
        component: memory,
        way,
    })
}
