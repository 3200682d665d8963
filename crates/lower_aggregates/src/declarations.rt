//! The declarations of a module (FIRRTL specification 3.0, "Circuits and Modules" and "Statements").

ghost use Rattle.std.specs.Prelude.{◌≡◌, ◌++◌, ◌∷◌, [], map, flat_map, IfOk, OnOk};
ghost use Rattle.lower_aggregates.specs.Headings.{headings_of, stmt_headings, arm_headings, port_heading, heading};
ghost use Rattle.lower_aggregates.specs.Held.{held_heading, held_sort};

use fir_tree::{Arm, Expr, Module, Stmt};
use fir_types::{Memory, Name, Port};
use std::alloc::{AllocError, Global};

/// What a declaration makes.
#[derive(Clone, Copy)]
pub enum Sort<'a> {
    Input,
    Output,
    Wire,
    /// A register with its clock.
    Register(&'a Expr),
    /// A register with its clock, its reset and its value after a reset.
    ResetRegister(&'a Expr, &'a Expr, &'a Expr),
    Memory(&'a Memory),
    /// An instance of the module of this name.
    Instance(u32),
    Node(&'a Expr),
}

/// A declaration: its name, and what it makes.
#[derive(Clone, Copy)]
pub struct Declaration<'a> {
    pub name: Name,
    pub sort: Sort<'a>,
}

/// The declarations of a module in text order, ports first.
pub fn declarations_of<'a>(
    alloc: Global,
    holder: &'a Module,
) -> Result<Vec<Declaration<'a>>, AllocError>
    ensures { IfOk result (λ all. map held_heading all.items ≡ headings_of holder.now) }
{
    let mut all = Vec::new(alloc);
    for port in holder.ports.as_slice() {
        push_port(&mut all, port)?;
    }
    push_statements(&mut all, holder.body.as_slice())?;
    Ok(all)
}

fn push_port<'a>(all: &mut Vec<Declaration<'a>>, port: &Port) -> Result<(), AllocError>
    ensures { OnOk result (map held_heading all.new.items ≡ map held_heading all.old.items ++ port_heading port.now ∷ []) }
{
    if port.output {
        push(all, port.name, Sort::Output)
    } else {
        push(all, port.name, Sort::Input)
    }
}

/// Adds a declaration.
fn push<'a>(all: &mut Vec<Declaration<'a>>, name: Name, sort: Sort<'a>) -> Result<(), AllocError>
    ensures { OnOk result (map held_heading all.new.items ≡ map held_heading all.old.items ++ heading name (held_sort sort.entry) ∷ []) }
{
    all.push(Declaration { name, sort })?;
    Ok(())
}

/// Adds what statements declare.
#[cycle(walk)]
fn push_statements<'a>(
    all: &mut Vec<Declaration<'a>>,
    statements: &'a [Stmt],
) -> Result<(), AllocError>
    ensures { OnOk result (map held_heading all.new.items ≡ map held_heading all.old.items ++ flat_map stmt_headings statements.now) }
{
    for statement in statements {
        push_statement(all, statement)?;
    }
    Ok(())
}

#[cycle(walk)]
fn push_statement<'a>(all: &mut Vec<Declaration<'a>>, statement: &'a Stmt) -> Result<(), AllocError>
    ensures { OnOk result (map held_heading all.new.items ≡ map held_heading all.old.items ++ stmt_headings statement.now) }
{
    match statement {
        Stmt::Wire(name, _) => push(all, *name, Sort::Wire),
        Stmt::Reg(name, _, clock) => push(all, *name, Sort::Register(clock)),
        Stmt::RegReset(name, _, clock, reset, init) => {
            push(all, *name, Sort::ResetRegister(clock, reset, init))
        }
        Stmt::Mem(memory) => push(all, memory.name, Sort::Memory(memory)),
        Stmt::Inst(name, target) => push(all, *name, Sort::Instance(target.id)),
        Stmt::Node(name, expr) => push(all, *name, Sort::Node(expr)),
        Stmt::When(arms, other) => {
            push_arms(all, arms.as_slice())?;
            push_statements(all, other.as_slice())
        }
        Stmt::Connect(_, _) | Stmt::Invalidate(_) | Stmt::Skip(_) => Ok(()),
    }
}

#[cycle(walk)]
fn push_arms<'a>(all: &mut Vec<Declaration<'a>>, arms: &'a [Arm]) -> Result<(), AllocError>
    ensures { OnOk result (map held_heading all.new.items ≡ map held_heading all.old.items ++ flat_map arm_headings arms.now) }
{
    for arm in arms {
        push_statements(all, arm.body.as_slice())?;
    }
    Ok(())
}
