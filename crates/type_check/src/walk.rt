//! The walk through a module, statement by statement, which keeps what is declared.

ghost use Rattle.std.specs.Prelude.{◌≡◌, ◌++◌, [], map, OnOk};
ghost use Rattle.type_check.specs.Statements.{module_walk, port_walk, stmt_walk, arm_walk, in_turn};
ghost use Rattle.type_check.specs.Walks.{Walks};

use crate::conditions::{connect, expect_condition, invalidate};
use crate::declarations::{
    declare_instance, declare_memory, declare_node, declare_port, declare_register,
    declare_reset_register, declare_wire,
};
use crate::found::Findings;
use fir_tree::{Arm, Module, Stmt};
use fir_types::Port;
use module_table::{Components, Modules};
use std::alloc::{AllocError, Global};

/// What a walk through a module has come to.
#[derive(Drop)]
pub struct Walk<'a> {
    /// The components that are declared so far and have types.
    pub known: Components<'a>,
    pub found: Findings,
}

/// Adds the types and the faults of a module, where these are all modules.
pub fn walk_module(
    alloc: Global,
    modules: &Modules<'_>,
    holder: &Module,
    found: &mut Findings,
) -> Result<(), AllocError>
    ensures types { OnOk result (found.new.types.items ≡ found.old.types.items ++ (module_walk modules.now.all.now holder.now []).nodes) }
    ensures faults { OnOk result (found.new.faults.items ≡ found.old.faults.items ++ (module_walk modules.now.all.now holder.now []).faults) }
{
    let mut walk = Walk {
        known: Components::new(alloc, modules),
        found: Findings {
            types: Vec::new(alloc),
            faults: Vec::new(alloc),
        },
    };
    walk_ports(alloc, &mut walk, holder.ports.as_slice())?;
    walk_statements(alloc, &mut walk, holder.body.as_slice())?;
    found.types.append(&mut walk.found.types)?;
    found.faults.append(&mut walk.found.faults)
}

fn walk_ports(alloc: Global, walk: &mut Walk<'_>, ports: &[Port]) -> Result<(), AllocError>
    ensures { OnOk result (Walks (in_turn (map port_walk ports.now)) walk.old walk.new) }
{
    for port in ports {
        declare_port(alloc, walk, port)?;
    }
    Ok(())
}

#[cycle(walk)]
fn walk_statements(
    alloc: Global,
    walk: &mut Walk<'_>,
    statements: &[Stmt],
) -> Result<(), AllocError>
    ensures { OnOk result (Walks (in_turn (map (stmt_walk walk.old.known.modules) statements.now)) walk.old walk.new) }
{
    for statement in statements {
        walk_statement(alloc, walk, statement)?;
    }
    Ok(())
}

#[cycle(walk)]
fn walk_statement(alloc: Global, walk: &mut Walk<'_>, statement: &Stmt) -> Result<(), AllocError>
    ensures { OnOk result (Walks (stmt_walk walk.old.known.modules statement.now) walk.old walk.new) }
{
    match statement {
        Stmt::Wire(name, typ) => declare_wire(alloc, walk, *name, typ),
        Stmt::Reg(name, typ, clock) => declare_register(alloc, walk, *name, typ, clock),
        Stmt::RegReset(name, typ, clock, reset, init) => {
            declare_reset_register(alloc, walk, *name, typ, clock, reset, init)
        }
        Stmt::Mem(memory) => declare_memory(alloc, walk, memory),
        Stmt::Inst(name, target) => declare_instance(walk, *name, *target),
        Stmt::Node(name, expr) => declare_node(alloc, walk, *name, expr),
        Stmt::Connect(left, right) => connect(alloc, walk, left, right),
        Stmt::Invalidate(target) => invalidate(alloc, walk, target),
        Stmt::When(arms, other) => {
            walk_arms(alloc, walk, arms.as_slice())?;
            walk_statements(alloc, walk, other.as_slice())
        }
        Stmt::Skip(_) => Ok(()),
    }
}

#[cycle(walk)]
fn walk_arms(alloc: Global, walk: &mut Walk<'_>, arms: &[Arm]) -> Result<(), AllocError>
    ensures { OnOk result (Walks (in_turn (map (arm_walk walk.old.known.modules) arms.now)) walk.old walk.new) }
{
    for arm in arms {
        walk_arm(alloc, walk, arm)?;
    }
    Ok(())
}

#[cycle(walk)]
fn walk_arm(alloc: Global, walk: &mut Walk<'_>, arm: &Arm) -> Result<(), AllocError>
    ensures { OnOk result (Walks (arm_walk walk.old.known.modules arm.now) walk.old walk.new) }
{
    expect_condition(alloc, walk, &arm.condition)?;
    walk_statements(alloc, walk, arm.body.as_slice())
}
