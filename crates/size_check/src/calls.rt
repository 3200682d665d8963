//! The instances of a module.

ghost use Rattle.std.specs.Prelude.{◌≡◌, ◌++◌, flat_map, IfOk, OnOk};
ghost use Rattle.size_check.specs.Standings.{stmt_calls, arm_calls, calls_in};

use fir_tree::{Arm, Module, Stmt};
use std::alloc::{AllocError, Global};

/// An `inst`.
#[derive(Clone, Copy)]
pub struct Call {
    /// The number of its name.
    pub name: u32,
    /// The number of the name of its module.
    pub target: u32,
}

/// The instances of a module in text order, those in the blocks of conditions included.
pub fn calls_of(alloc: Global, holder: &Module) -> Result<Vec<Call>, AllocError>
    ensures { IfOk result (λ calls. calls.items ≡ calls_in holder.now) }
{
    let mut calls = Vec::new(alloc);
    push_calls(&mut calls, holder.body.as_slice())?;
    Ok(calls)
}

#[cycle(calls)]
fn push_calls(calls: &mut Vec<Call>, statements: &[Stmt]) -> Result<(), AllocError>
    ensures { OnOk result (calls.new.items ≡ calls.old.items ++ flat_map stmt_calls statements.now) }
{
    for statement in statements {
        push_call(calls, statement)?;
    }
    Ok(())
}

#[cycle(calls)]
fn push_call(calls: &mut Vec<Call>, statement: &Stmt) -> Result<(), AllocError>
    ensures { OnOk result (calls.new.items ≡ calls.old.items ++ stmt_calls statement.now) }
{
    match statement {
        Stmt::Inst(name, target) => {
            calls.push(Call {
                name: name.id,
                target: target.id,
            })?;
            Ok(())
        }
        Stmt::When(arms, other) => {
            push_arm_calls(calls, arms.as_slice())?;
            push_calls(calls, other.as_slice())
        }
        Stmt::Wire(_, _)
        | Stmt::Reg(_, _, _)
        | Stmt::RegReset(_, _, _, _, _)
        | Stmt::Mem(_)
        | Stmt::Node(_, _)
        | Stmt::Connect(_, _)
        | Stmt::Invalidate(_)
        | Stmt::Skip(_) => Ok(()),
    }
}

#[cycle(calls)]
fn push_arm_calls(calls: &mut Vec<Call>, arms: &[Arm]) -> Result<(), AllocError>
    ensures { OnOk result (calls.new.items ≡ calls.old.items ++ flat_map arm_calls arms.now) }
{
    for arm in arms {
        push_calls(calls, arm.body.as_slice())?;
    }
    Ok(())
}
