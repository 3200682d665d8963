//! The walk through the statements of a module: from where its Clock leaves have their value.

ghost use Rattle.std.specs.Prelude.{◌≡◌, ◌++◌, not, true, map, flat_map, zip, IfOk, OnOk};
ghost use Rattle.fir_meaning.specs.Components.{Leaf, A_node, flow_of};
ghost use Rattle.fir_meaning.specs.States.{is_source};
ghost use Rattle.fir_meaning.specs.ClockRoot.{Undriven, in_branch, last_of, driven_by, driver_in};
ghost use Rattle.drive_check.specs.HeldTypes.{types_in};
ghost use Rattle.drive_check.specs.Keys.{leaf_of_key};
ghost use Rattle.clock_check.specs.Driving.{driver_of, clocked, arm_driven};
ghost use Rattle.clock_check.specs.Edges.{edges_of, driven_edge, driven_edges, node_edge, node_edges, edges_in, sort_of, port_edges, module_edges, walked, walked_arm};

use crate::drivers::{Drivers, copied};
use crate::driving::{connect, invalidate};
use crate::reach::named;
use drive_check::leaf_set::{LeafKey, key_of};
use drive_check::listing::list_leaves;
use drive_check::module_types::ModuleTypes;
use fir_tree::{Arm, Expr, Module, Stmt};
use fir_types::{Name, Port, Shape, TypeLeaf};
use std::alloc::{AllocError, Global};

/// A Clock leaf of a module, and the leaf that it has its value from.
#[derive(Drop)]
pub struct Link {
    pub sink: LeafKey,
    pub source: LeafKey,
}

/// What a component is, as far as it tells which of its leaves statements may drive.
#[derive(Clone, Copy)]
pub enum Owner {
    Input,
    Output,
    /// A wire or a register.
    Duplex,
    /// An instance or a memory.
    Inner,
}

/// From where the Clock leaves of a module have their value, of those that have a driver.
pub fn links_of(
    alloc: Global,
    types: &ModuleTypes<'_>,
    holder: &Module,
) -> Result<Vec<Link>, AllocError>
    ensures { IfOk result (λ links. edges_of links.items ≡ module_edges (types_in types.now) holder.now) }
{
    let mut links = Vec::new(alloc);
    let drivers = walk_block(alloc, types, &mut links, holder.body.as_slice())?;
    for port in holder.ports.as_slice() {
        push_port(alloc, types, &drivers, &mut links, port)?;
    }
    Ok(links)
}

fn push_port(
    alloc: Global,
    types: &ModuleTypes<'_>,
    drivers: &Drivers,
    links: &mut Vec<Link>,
    port: &Port,
) -> Result<(), AllocError>
    ensures { OnOk result (edges_of links.new.items ≡ edges_of links.old.items ++ port_edges (types_in types.now) (driver_of drivers.now.known.entries) port.now) }
{
    if port.output {
        push_driven(alloc, types, drivers, links, (port.name, Owner::Output))
    } else {
        push_driven(alloc, types, drivers, links, (port.name, Owner::Input))
    }
}

/// What drives the leaves of a block. Adds the links of its declarations.
#[cycle(walk)]
fn walk_block(
    alloc: Global,
    types: &ModuleTypes<'_>,
    links: &mut Vec<Link>,
    statements: &[Stmt],
) -> Result<Drivers, AllocError>
    ensures drivers { IfOk result (λ drivers. (leaf : Leaf) → clocked (types_in types.now) leaf.component ≡ true → driver_of drivers.known.entries leaf ≡ driver_in (types_in types.now) leaf statements.now) }
    ensures links { OnOk result (edges_of links.new.items ≡ edges_of links.old.items ++ edges_in (types_in types.now) (map (walked (types_in types.now)) statements.now)) }
{
    let mut drivers = Drivers::new(alloc);
    for statement in statements {
        walk_statement(alloc, types, &mut drivers, links, statement)?;
    }
    push_all(alloc, types, &drivers, links, statements)?;
    Ok(drivers)
}

/// Adds the links of the declarations among these statements.
fn push_all(
    alloc: Global,
    types: &ModuleTypes<'_>,
    drivers: &Drivers,
    links: &mut Vec<Link>,
    statements: &[Stmt],
) -> Result<(), AllocError>
    ensures { OnOk result (edges_of links.new.items ≡ edges_of links.old.items ++ flat_map (λ s. (walked (types_in types.now) s).own (driver_of drivers.now.known.entries)) statements.now) }
{
    for statement in statements {
        push_declared(alloc, types, drivers, links, statement)?;
    }
    Ok(())
}

/// Notes what a statement drives, and adds the links of the declarations in the blocks within it.
#[cycle(walk)]
fn walk_statement(
    alloc: Global,
    types: &ModuleTypes<'_>,
    drivers: &mut Drivers,
    links: &mut Vec<Link>,
    statement: &Stmt,
) -> Result<(), AllocError>
    ensures drivers { OnOk result ((leaf : Leaf) → clocked (types_in types.now) leaf.component ≡ true → driver_of drivers.new.known.entries leaf ≡ driven_by (types_in types.now) leaf statement.now (driver_of drivers.old.known.entries leaf)) }
    ensures links { OnOk result (edges_of links.new.items ≡ edges_of links.old.items ++ (walked (types_in types.now) statement.now).inner) }
{
    match statement {
        Stmt::Connect(left, right) => connect(alloc, types, drivers, left, right),
        Stmt::Invalidate(target) => invalidate(alloc, types, drivers, target),
        Stmt::When(arms, other) => {
            walk_arms(alloc, types, drivers, links, arms.as_slice())?;
            let branch = walk_block(alloc, types, links, other.as_slice())?;
            drivers.cross(alloc, &branch)
        }
        Stmt::Wire(_, _)
        | Stmt::Reg(_, _, _)
        | Stmt::RegReset(_, _, _, _, _)
        | Stmt::Mem(_)
        | Stmt::Inst(_, _)
        | Stmt::Node(_, _)
        | Stmt::Skip(_) => Ok(()),
    }
}

#[cycle(walk)]
fn walk_arms(
    alloc: Global,
    types: &ModuleTypes<'_>,
    drivers: &mut Drivers,
    links: &mut Vec<Link>,
    arms: &[Arm],
) -> Result<(), AllocError>
    ensures drivers { OnOk result ((leaf : Leaf) → clocked (types_in types.now) leaf.component ≡ true → driver_of drivers.new.known.entries leaf ≡ in_branch (driver_of drivers.old.known.entries leaf) (last_of (map (arm_driven (types_in types.now) leaf) arms.now) Undriven)) }
    ensures links { OnOk result (edges_of links.new.items ≡ edges_of links.old.items ++ flat_map (λ arm. arm.edges) (map (walked_arm (types_in types.now)) arms.now)) }
{
    for arm in arms {
        let branch = walk_block(alloc, types, links, arm.body.as_slice())?;
        drivers.cross(alloc, &branch)?;
    }
    Ok(())
}

/// Adds the links of what a statement declares itself.
fn push_declared(
    alloc: Global,
    types: &ModuleTypes<'_>,
    drivers: &Drivers,
    links: &mut Vec<Link>,
    statement: &Stmt,
) -> Result<(), AllocError>
    ensures { OnOk result (edges_of links.new.items ≡ edges_of links.old.items ++ (walked (types_in types.now) statement.now).own (driver_of drivers.now.known.entries)) }
{
    match statement {
        Stmt::Wire(name, _) | Stmt::Reg(name, _, _) | Stmt::RegReset(name, _, _, _, _) => {
            push_driven(alloc, types, drivers, links, (*name, Owner::Duplex))
        }
        Stmt::Mem(memory) => {
            push_driven(alloc, types, drivers, links, (memory.name, Owner::Inner))
        }
        Stmt::Inst(name, _) => push_driven(alloc, types, drivers, links, (*name, Owner::Inner)),
        Stmt::Node(name, expr) => push_node(alloc, types, links, *name, expr),
        Stmt::Connect(_, _) | Stmt::Invalidate(_) | Stmt::When(_, _) | Stmt::Skip(_) => Ok(()),
    }
}

/// Adds the links of the Clock leaves of a component that statements may drive.
fn push_driven(
    alloc: Global,
    types: &ModuleTypes<'_>,
    drivers: &Drivers,
    links: &mut Vec<Link>,
    component: (Name, Owner),
) -> Result<(), AllocError>
    ensures { OnOk result (edges_of links.new.items ≡ edges_of links.old.items ++ driven_edges (types_in types.now) (driver_of drivers.now.known.entries) component.0.id (sort_of component.1)) }
{
    let leaves = list_leaves(alloc, types.of(component.0.id))?;
    for leaf in &leaves {
        push_leaf(alloc, drivers, links, component, leaf)?;
    }
    Ok(())
}

fn push_leaf(
    alloc: Global,
    drivers: &Drivers,
    links: &mut Vec<Link>,
    component: (Name, Owner),
    leaf: &TypeLeaf,
) -> Result<(), AllocError>
    ensures { OnOk result (edges_of links.new.items ≡ edges_of links.old.items ++ driven_edge (driver_of drivers.now.known.entries) (sort_of component.1) component.0.id leaf.now) }
{
    if !matches!(leaf.typ.shape, Shape::Clock) || !may_drive(component.1, leaf.flip) {
        return Ok(());
    }
    let sink = key_of(alloc, component.0.id, &[], leaf.path.as_slice())?;
    let Some(found) = drivers.source(&sink) else {
        return Ok(());
    };
    let source = copied(alloc, found)?;
    links.push(Link { sink, source })?;
    Ok(())
}

/// Whether statements may drive a leaf of a component, flipped or not.
fn may_drive(owner: Owner, flip: bool) -> bool
    ensures { result ≡ not (is_source (flow_of (sort_of owner) flip)) }
{
    match owner {
        Owner::Duplex => true,
        Owner::Output => !flip,
        Owner::Input | Owner::Inner => flip,
    }
}

/// Adds the links of the Clock leaves of a node.
fn push_node(
    alloc: Global,
    types: &ModuleTypes<'_>,
    links: &mut Vec<Link>,
    name: Name,
    expr: &Expr,
) -> Result<(), AllocError>
    ensures { OnOk result (edges_of links.new.items ≡ edges_of links.old.items ++ node_edges (types_in types.now) name.id (A_node expr.now)) }
{
    let leaves = list_leaves(alloc, types.of(name.id))?;
    let sources = named(alloc, types, expr)?;
    push_pairs(alloc, links, name, leaves.as_slice(), sources.as_slice())
}

/// Adds the links of these Clock leaves of a node, each with the source beside it.
fn push_pairs(
    alloc: Global,
    links: &mut Vec<Link>,
    name: Name,
    parts: &[TypeLeaf],
    sources: &[LeafKey],
) -> Result<(), AllocError>
    ensures { OnOk result (edges_of links.new.items ≡ edges_of links.old.items ++ flat_map (node_edge name.id) (zip parts.now (map leaf_of_key sources.now))) }
{
    let count = parts.len().min(sources.len());
    for at in 0..count {
        push_beside(alloc, links, name, &parts[at], &sources[at])?;
    }
    Ok(())
}

fn push_beside(
    alloc: Global,
    links: &mut Vec<Link>,
    name: Name,
    leaf: &TypeLeaf,
    source: &LeafKey,
) -> Result<(), AllocError>
    ensures { OnOk result (edges_of links.new.items ≡ edges_of links.old.items ++ node_edge name.id (leaf.now, leaf_of_key source.now)) }
{
    if !matches!(leaf.typ.shape, Shape::Clock) {
        return Ok(());
    }
    let sink = key_of(alloc, name.id, &[], leaf.path.as_slice())?;
    let source = copied(alloc, source)?;
    links.push(Link { sink, source })?;
    Ok(())
}
