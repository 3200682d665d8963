//! The names that a module declares.

ghost use Rattle.std.specs.Prelude.{◌≡◌, ◌++◌, flat_map, IfOk, OnOk};
ghost use Rattle.drive_check.specs.Sites.{stmt_names, arm_names, names_of};

use fir_tree::{Arm, Module, Stmt};
use fir_types::Name;
use std::alloc::{AllocError, Global};

/// The names that a module declares, in text order, ports first.
pub fn names_of(alloc: Global, holder: &Module) -> Result<Vec<Name>, AllocError>
    ensures { IfOk result (λ names. names.items ≡ names_of holder.now) }
{
    let mut names = Vec::new(alloc);
    for port in holder.ports.as_slice() {
        names.push(port.name)?;
    }
    push_names(&mut names, holder.body.as_slice())?;
    Ok(names)
}

/// Adds the names that statements declare.
#[cycle(names)]
fn push_names(names: &mut Vec<Name>, statements: &[Stmt]) -> Result<(), AllocError>
    ensures { OnOk result (names.new.items ≡ names.old.items ++ flat_map stmt_names statements.now) }
{
    for statement in statements {
        push_declared(names, statement)?;
    }
    Ok(())
}

#[cycle(names)]
fn push_declared(names: &mut Vec<Name>, statement: &Stmt) -> Result<(), AllocError>
    ensures { OnOk result (names.new.items ≡ names.old.items ++ stmt_names statement.now) }
{
    match statement {
        Stmt::Wire(name, _)
        | Stmt::Reg(name, _, _)
        | Stmt::RegReset(name, _, _, _, _)
        | Stmt::Inst(name, _)
        | Stmt::Node(name, _) => {
            names.push(*name)?;
            Ok(())
        }
        Stmt::Mem(memory) => {
            names.push(memory.name)?;
            Ok(())
        }
        Stmt::When(arms, other) => {
            push_arm_names(names, arms.as_slice())?;
            push_names(names, other.as_slice())
        }
        Stmt::Connect(_, _) | Stmt::Invalidate(_) | Stmt::Skip(_) => Ok(()),
    }
}

#[cycle(names)]
fn push_arm_names(names: &mut Vec<Name>, arms: &[Arm]) -> Result<(), AllocError>
    ensures { OnOk result (names.new.items ≡ names.old.items ++ flat_map arm_names arms.now) }
{
    for arm in arms {
        push_names(names, arm.body.as_slice())?;
    }
    Ok(())
}
