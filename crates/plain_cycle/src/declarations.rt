//! The declarations of a module, each with the statements of its block (FIRRTL specification 3.0, "Circuits and Modules" and
//! "Statements").

ghost use Rattle.std.specs.Prelude.{◌≡◌, ◌++◌, ◌∷◌, [], List as Listed, map, flat_map, IfOk, OnOk};
ghost use Rattle.fir_tree.specs.declared.stmt.Stmt.{Stmt as TheStmt};
ghost use Rattle.fir_meaning.specs.Components.{told, declared_in_block, declarations_of, declared_by_port};
ghost use Rattle.plain_cycle.specs.Held.{kept_of, held, held_sort, kept, declared_in_arm};

use fir_tree::{Arm, Expr, Module, Stmt};
use fir_types::{Memory, Port};
use std::alloc::{AllocError, Global};

/// What a declaration makes.
#[derive(Clone, Copy)]
pub enum Sort<'a> {
    Input,
    Output,
    Wire,
    /// A register with its clock.
    Register(&'a Expr),
    /// A register with its clock, its reset and its value after a reset.
    ResetRegister(&'a Expr, &'a Expr, &'a Expr),
    Memory(&'a Memory),
    /// An instance of the module of this name.
    Instance(u32),
    Node(&'a Expr),
}

/// A declaration: its name, what it makes, and the statements of its block.
#[derive(Clone, Copy)]
pub struct Declaration<'a> {
    pub name: u32,
    pub sort: Sort<'a>,
    pub block: &'a [Stmt],
}

/// The declarations of a module in text order, ports first.
pub fn declarations_of<'a>(
    alloc: Global,
    holder: &'a Module,
) -> Result<Vec<Declaration<'a>>, AllocError>
    ensures { IfOk result (λ all. map held all.items ≡ map kept_of (declarations_of holder.now)) }
{
    let mut all = Vec::new(alloc);
    let body = holder.body.as_slice();
    for port in holder.ports.as_slice() {
        push_port(&mut all, port, body)?;
    }
    push_block(&mut all, body)?;
    Ok(all)
}

/// Adds the declaration of a port of a module with this body.
fn push_port<'a>(
    all: &mut Vec<Declaration<'a>>,
    port: &Port,
    body: &'a [Stmt],
) -> Result<(), AllocError>
    ensures { OnOk result (map held all.new.items ≡ map held all.old.items ++ kept_of (declared_by_port body.now port.now) ∷ []) }
{
    let sort = if port.output {
        Sort::Output
    } else {
        Sort::Input
    };
    push(all, port.name.id, sort, body)
}

/// Adds a declaration.
fn push<'a>(
    all: &mut Vec<Declaration<'a>>,
    name: u32,
    sort: Sort<'a>,
    block: &'a [Stmt],
) -> Result<(), AllocError>
    ensures { OnOk result (map held all.new.items ≡ map held all.old.items ++ kept name (held_sort sort.entry) block.now ∷ []) }
{
    all.push(Declaration { name, sort, block })?;
    Ok(())
}

/// Adds what the statements of a block declare.
#[cycle(walk)]
fn push_block<'a>(all: &mut Vec<Declaration<'a>>, block: &'a [Stmt]) -> Result<(), AllocError>
    ensures { OnOk result (map held all.new.items ≡ map held all.old.items ++ map kept_of (declared_in_block (map told block.now))) }
{
    for statement in block {
        push_statement(all, statement, block)?;
    }
    Ok(())
}

/// Adds what a statement of a block declares.
#[cycle(walk)]
fn push_statement<'a>(
    all: &mut Vec<Declaration<'a>>,
    statement: &'a Stmt,
    block: &'a [Stmt],
) -> Result<(), AllocError>
    ensures { OnOk result ((behind : Listed TheStmt) → map held all.new.items ≡ map held all.old.items ++ map kept_of ((told statement.now).declares block.now behind)) }
{
    match statement {
        Stmt::Wire(name, _) => push(all, name.id, Sort::Wire, block),
        Stmt::Reg(name, _, clock) => push(all, name.id, Sort::Register(clock), block),
        Stmt::RegReset(name, _, clock, reset, init) => {
            push(all, name.id, Sort::ResetRegister(clock, reset, init), block)
        }
        Stmt::Mem(memory) => push(all, memory.name.id, Sort::Memory(memory), block),
        Stmt::Inst(name, target) => push(all, name.id, Sort::Instance(target.id), block),
        Stmt::Node(name, expr) => push(all, name.id, Sort::Node(expr), block),
        Stmt::When(arms, other) => {
            push_arms(all, arms.as_slice())?;
            push_block(all, other.as_slice())
        }
        Stmt::Connect(_, _) | Stmt::Invalidate(_) | Stmt::Skip(_) => Ok(()),
    }
}

/// Adds what the arms of a `when` declare.
#[cycle(walk)]
fn push_arms<'a>(all: &mut Vec<Declaration<'a>>, arms: &'a [Arm]) -> Result<(), AllocError>
    ensures { OnOk result (map held all.new.items ≡ map held all.old.items ++ flat_map declared_in_arm arms.now) }
{
    for arm in arms {
        push_block(all, arm.body.as_slice())?;
    }
    Ok(())
}
