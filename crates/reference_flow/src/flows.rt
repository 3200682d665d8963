//! The flows of references.

ghost use Rattle.std.specs.Prelude.{◌≡◌};
ghost use Rattle.std.specs.List.{flat_map};
ghost use Rattle.reference_flow.specs.Flows.{flow_number, components_of, expr_flows, stmt_flows, module_flows};
ghost use Rattle.reference_flow.specs.Counting.{passed};

use crate::component::flow_along;
use crate::declaration::component_named;
use fir_tree::{Checked, Expr, Flow, Form, Module, Stmt, Suffix};
use std::ops::ControlFlow;

/// The flow of the reference with this number in text order over all modules (FIRRTL specification 3.0, "Flows"), a reference
/// before those in its indices. A number past the last reference is answered by `Source`. Takes no memory.
pub fn flow_of(checked: &Checked, reference: u32) -> Flow
    ensures { result ≡ flow_number checked.now.resolved reference }
{
    match pass_modules(checked.resolved.get().modules.as_slice(), reference) {
        ControlFlow::Break(flow) => flow,
        ControlFlow::Continue(_) => Flow::Source,
    }
}

// Each walk passes references until none is left before the one that is asked for, and breaks with its flow.

fn pass_modules(modules: &[Module], left: u32) -> ControlFlow<Flow, u32>
    ensures { result ≡ passed (flat_map (module_flows modules.now) modules.now) left }
{
    let mut left = left;
    for holder in modules {
        left = pass_statements(modules, holder, holder.body.as_slice(), left)?;
    }
    ControlFlow::Continue(left)
}

#[cycle(statements)]
fn pass_statements(
    modules: &[Module],
    holder: &Module,
    statements: &[Stmt],
    left: u32,
) -> ControlFlow<Flow, u32>
    ensures { result ≡ passed (flat_map (λ s. stmt_flows s (components_of modules.now holder.now)) statements.now) left }
{
    let mut left = left;
    for statement in statements {
        left = pass_statement(modules, holder, statement, left)?;
    }
    ControlFlow::Continue(left)
}

#[cycle(statements)]
fn pass_statement(
    modules: &[Module],
    holder: &Module,
    statement: &Stmt,
    left: u32,
) -> ControlFlow<Flow, u32>
    ensures { result ≡ passed (stmt_flows statement.now (components_of modules.now holder.now)) left }
{
    match statement {
        Stmt::Reg(_, _, expr) | Stmt::Node(_, expr) | Stmt::Invalidate(expr) => {
            pass_expr(modules, holder, expr, left)
        }
        Stmt::RegReset(_, _, clock, reset, init) => {
            let left = pass_expr(modules, holder, clock, left)?;
            let left = pass_expr(modules, holder, reset, left)?;
            pass_expr(modules, holder, init, left)
        }
        Stmt::Connect(driven, source) => {
            let left = pass_expr(modules, holder, driven, left)?;
            pass_expr(modules, holder, source, left)
        }
        Stmt::When(arms, other) => {
            let mut left = left;
            for arm in arms.as_slice() {
                left = pass_expr(modules, holder, &arm.condition, left)?;
                left = pass_statements(modules, holder, arm.body.as_slice(), left)?;
            }
            pass_statements(modules, holder, other.as_slice(), left)
        }
        Stmt::Wire(_, _) | Stmt::Mem(_) | Stmt::Inst(_, _) | Stmt::Skip(_) => {
            ControlFlow::Continue(left)
        }
    }
}

fn pass_expr(modules: &[Module], holder: &Module, expr: &Expr, left: u32) -> ControlFlow<Flow, u32>
    ensures { result ≡ passed (expr_flows expr.now (components_of modules.now holder.now)) left }
{
    match &expr.form {
        Form::Ref(name, suffixes) => {
            let suffixes = suffixes.as_slice();
            if left == 0 {
                let start = component_named(modules, holder, name.id);
                return ControlFlow::Break(flow_along(start, suffixes));
            }
            let mut left = left - 1;
            for suffix in suffixes {
                left = match suffix {
                    Suffix::Field(_) | Suffix::At(_, _, _) => left,
                    Suffix::Index(_, index) => pass_expr(modules, holder, index, left)?,
                };
            }
            ControlFlow::Continue(left)
        }
        Form::Literal(_, _, _) => ControlFlow::Continue(left),
        Form::Prim(_, operands, _) | Form::Mux(operands) => {
            let mut left = left;
            for operand in operands.as_slice() {
                left = pass_expr(modules, holder, operand, left)?;
            }
            ControlFlow::Continue(left)
        }
    }
}
