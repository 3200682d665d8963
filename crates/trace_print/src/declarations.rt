//! The declarations of a circuit in text order.

ghost use Rattle.std.specs.Prelude.{◌≡◌, ◌++◌, ◌∷◌, [], flat_map, IfOk, OnOk};
ghost use Rattle.trace_print.specs.Components.{components_of, module_declared, stmt_declared};

use crate::component::Component;
use fir_tree::{Checked, Module, Stmt};
use fir_types::{Name, Port};
use std::alloc::{AllocError, Global};

/// The declarations of all modules in text order, ports first in each. There are as many as the fitted circuit has declared
/// types.
pub fn components(alloc: Global, checked: &Checked) -> Result<Vec<Component>, AllocError>
    ensures { IfOk result (λ all. all.items ≡ components_of checked.now.resolved.modules checked.now.scope.reached) }
{
    let mut all = Vec::new(alloc);
    let mut rest = checked.scope.reached.as_slice();
    for module in checked.resolved.get().modules.as_slice() {
        let (reached, others) = rest.split_first().unwrap_or((&false, &[]));
        push_module(&mut all, module, *reached)?;
        rest = others;
    }
    Ok(all)
}

fn push_module(all: &mut Vec<Component>, holder: &Module, reached: bool) -> Result<(), AllocError>
    ensures { OnOk result (all.new.items ≡ all.old.items ++ module_declared holder.now reached) }
{
    for port in holder.ports.as_slice() {
        push(all, holder.name, port.name, reached)?;
    }
    push_statements(all, holder.name, reached, holder.body.as_slice())
}

/// Adds a declaration.
fn push(all: &mut Vec<Component>, holder: Name, name: Name, listed: bool) -> Result<(), AllocError>
    ensures { OnOk result (all.new.items ≡ all.old.items ++ record { holder = holder.id; name = name.id; listed = listed } ∷ []) }
{
    all.push(Component {
        holder: holder.id,
        name: name.id,
        listed,
    })?;
    Ok(())
}

#[cycle(walk)]
fn push_statements(
    all: &mut Vec<Component>,
    holder: Name,
    reached: bool,
    statements: &[Stmt],
) -> Result<(), AllocError>
    ensures { OnOk result (all.new.items ≡ all.old.items ++ flat_map (λ statement. stmt_declared statement holder reached) statements.now) }
{
    for statement in statements {
        push_statement(all, holder, reached, statement)?;
    }
    Ok(())
}

#[cycle(walk)]
fn push_statement(
    all: &mut Vec<Component>,
    holder: Name,
    reached: bool,
    statement: &Stmt,
) -> Result<(), AllocError>
    ensures { OnOk result (all.new.items ≡ all.old.items ++ stmt_declared statement.now holder reached) }
{
    match statement {
        Stmt::Wire(name, _)
        | Stmt::Reg(name, _, _)
        | Stmt::RegReset(name, _, _, _, _)
        | Stmt::Node(name, _) => push(all, holder, *name, reached),
        Stmt::Mem(memory) => push(all, holder, memory.name, reached),
        Stmt::Inst(name, _) => push(all, holder, *name, false),
        Stmt::When(arms, other) => {
            for arm in arms.as_slice() {
                push_statements(all, holder, reached, arm.body.as_slice())?;
            }
            push_statements(all, holder, reached, other.as_slice())
        }
        Stmt::Connect(_, _) | Stmt::Invalidate(_) | Stmt::Skip(_) => Ok(()),
    }
}
