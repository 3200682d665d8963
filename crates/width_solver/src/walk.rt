//! The walk through the statements of a body.

ghost use Rattle.std.specs.Prelude.{◌≡◌, map, OnOk};
ghost use Rattle.width_rules.specs.Sources.{component};
ghost use Rattle.width_rules.specs.Circuits.{in_turn, declares, declares_with, declares_memory, names_node, connects, invalidates};
ghost use Rattle.width_rules.specs.Walks.{declares_component, stmt_walk_among, arm_walk_among};
ghost use Rattle.width_solver.specs.Walked.{Walks};

use crate::driving::{push_connected, push_invalidated, push_node};
use crate::found::FoundRules;
use fir_tree::{Arm, Expr, Flow, Names, Stmt};
use fir_types::{FirType, Memory, Name};
use indexmap::IndexMap;
use place_text::Place;
use std::alloc::{AllocError, Global};
use width_rules::indexed::Indexed;
use width_rules::measuring::{
    Measure, Scope, formulas_of, in_text, look_up, may_have_target, measure_expr, no_component,
};
use width_rules::sizes::variables;
use width_rules::walk::{duplex, memory_component, note, slots_of_type};

/// What a walk has come to.
#[derive(Drop)]
pub struct Found<'a> {
    /// The texts of names.
    pub names: &'a Names,
    /// The components of the module that are declared so far, by the numbers of their names.
    pub known: IndexMap<u32, Indexed>,
    /// For each variable the place of its component.
    pub places: Vec<Place>,
    pub rules: FoundRules,
}

fn scope<'b>(found: &'b Found<'_>) -> Scope<'b>
    ensures { result.known.now ≡ found.now.known }
{
    Scope {
        names: found.names,
        known: &found.known,
    }
}

/// Statements in order. An instance has the component that is listed by its module's name.
#[cycle(walk)]
pub fn walk_statements(
    alloc: Global,
    instances: &IndexMap<u32, Indexed>,
    found: &mut Found<'_>,
    statements: &[Stmt],
) -> Result<(), AllocError>
    ensures { OnOk result (Walks (in_turn (map (stmt_walk_among instances.now.entries) statements.now)) found.old found.new) }
{
    for statement in statements {
        walk_statement(alloc, instances, found, statement)?;
    }
    Ok(())
}

#[cycle(walk)]
fn walk_statement(
    alloc: Global,
    instances: &IndexMap<u32, Indexed>,
    found: &mut Found<'_>,
    statement: &Stmt,
) -> Result<(), AllocError>
    ensures { OnOk result (Walks (stmt_walk_among instances.now.entries statement.now) found.old found.new) }
{
    match statement {
        Stmt::Wire(name, typ) => declare(alloc, found, *name, typ),
        Stmt::Reg(name, typ, _) => declare(alloc, found, *name, typ),
        Stmt::RegReset(name, typ, _, _, init) => declare_with(alloc, found, *name, typ, init),
        Stmt::Mem(memory) => declare_memory(alloc, found, memory),
        Stmt::Inst(name, target) => declare_instance(alloc, instances, found, *name, *target),
        Stmt::Node(name, expr) => declare_node(alloc, found, *name, expr),
        Stmt::Connect(left, right) => connect(alloc, found, left, right),
        Stmt::Invalidate(target) => invalidate(alloc, found, target),
        Stmt::When(arms, other) => {
            walk_arms(alloc, instances, found, arms.as_slice())?;
            walk_statements(alloc, instances, found, other.as_slice())
        }
        Stmt::Skip(_) => Ok(()),
    }
}

#[cycle(walk)]
fn walk_arms(
    alloc: Global,
    instances: &IndexMap<u32, Indexed>,
    found: &mut Found<'_>,
    arms: &[Arm],
) -> Result<(), AllocError>
    ensures { OnOk result (Walks (in_turn (map (arm_walk_among instances.now.entries) arms.now)) found.old found.new) }
{
    for arm in arms {
        walk_arm(alloc, instances, found, arm)?;
    }
    Ok(())
}

#[cycle(walk)]
fn walk_arm(
    alloc: Global,
    instances: &IndexMap<u32, Indexed>,
    found: &mut Found<'_>,
    arm: &Arm,
) -> Result<(), AllocError>
    ensures { OnOk result (Walks (arm_walk_among instances.now.entries arm.now) found.old found.new) }
{
    walk_statements(alloc, instances, found, arm.body.as_slice())
}

/// A wire or a register.
fn declare(
    alloc: Global,
    found: &mut Found<'_>,
    name: Name,
    typ: &FirType,
) -> Result<(), AllocError>
    ensures { OnOk result (Walks (declares name typ.now) found.old found.new) }
{
    let slots = slots_of_type(alloc, &mut found.places, name.place, typ)?;
    let part = duplex(alloc, typ)?;
    let component = Indexed::new(alloc, found.names, part, slots)?;
    note(&mut found.known, name.id, component)
}

/// A register with its value after a reset, which doesn't see the register.
fn declare_with(
    alloc: Global,
    found: &mut Found<'_>,
    name: Name,
    typ: &FirType,
    init: &Expr,
) -> Result<(), AllocError>
    ensures { OnOk result (Walks (declares_with name typ.now init.now) found.old found.new) }
{
    let init = measure_expr(alloc, scope(found), init)?;
    let slots = slots_of_type(alloc, &mut found.places, name.place, typ)?;
    let places = in_text(formulas_of(alloc, slots.as_slice())?);
    push_connected(alloc, &mut found.rules, typ, places, init.formulas)?;
    let part = duplex(alloc, typ)?;
    let component = Indexed::new(alloc, found.names, part, slots)?;
    note(&mut found.known, name.id, component)
}

fn declare_memory(alloc: Global, found: &mut Found<'_>, memory: &Memory) -> Result<(), AllocError>
    ensures { OnOk result (Walks (declares_memory memory.now) found.old found.new) }
{
    let component = memory_component(alloc, found.names, &mut found.places, memory)?;
    note(&mut found.known, memory.name.id, component)
}

fn declare_instance(
    alloc: Global,
    instances: &IndexMap<u32, Indexed>,
    found: &mut Found<'_>,
    name: Name,
    target: Name,
) -> Result<(), AllocError>
    ensures { OnOk result (Walks (declares_component name (component instances.now.entries target.id)) found.old found.new) }
{
    let nothing = no_component(alloc)?;
    let instance = look_up(instances, target.id, &nothing).share()?;
    note(&mut found.known, name.id, instance)
}

/// A node has a variable for each place but for an AsyncReset; it is at least the expression's width.
fn declare_node(
    alloc: Global,
    found: &mut Found<'_>,
    name: Name,
    expr: &Expr,
) -> Result<(), AllocError>
    ensures { OnOk result (Walks (names_node name expr.now) found.old found.new) }
{
    let Measure {
        known,
        flow: _,
        formulas,
    } = measure_expr(alloc, scope(found), expr)?;
    let slots = variables(alloc, &mut found.places, name.place, &known.typ)?;
    push_node(&mut found.rules, slots.as_slice(), formulas)?;
    let component = Indexed::of(alloc, known, Flow::Source, slots)?;
    note(&mut found.known, name.id, component)
}

/// A connect, which gives no rule where no side has a variable.
fn connect(
    alloc: Global,
    found: &mut Found<'_>,
    left: &Expr,
    right: &Expr,
) -> Result<(), AllocError>
    ensures { OnOk result (Walks (connects left.now right.now) found.old found.new) }
{
    if !may_have_target(&found.known, left) && !may_have_target(&found.known, right) {
        return Ok(());
    }
    let Measure {
        known,
        flow: _,
        formulas,
    } = measure_expr(alloc, scope(found), left)?;
    let right = measure_expr(alloc, scope(found), right)?;
    push_connected(
        alloc,
        &mut found.rules,
        &known.typ,
        formulas,
        right.formulas,
    )
}

fn invalidate(alloc: Global, found: &mut Found<'_>, target: &Expr) -> Result<(), AllocError>
    ensures { OnOk result (Walks (invalidates target.now) found.old found.new) }
{
    if !may_have_target(&found.known, target) {
        return Ok(());
    }
    let Measure {
        known,
        flow,
        formulas,
    } = measure_expr(alloc, scope(found), target)?;
    push_invalidated(alloc, &mut found.rules, flow, &known.typ, formulas.list)
}
