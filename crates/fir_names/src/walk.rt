//! The walk through a module, which keeps what is declared and what is visible.

ghost use Rattle.std.specs.Prelude.{◌≡◌, ◌++◌, ◌∷◌, [], map, take, length, OnOk, IfOk};
ghost use Rattle.std.specs.List.{flat_map};
ghost use Rattle.fir_names.specs.Extents.{references};
ghost use Rattle.fir_names.specs.Parts.{mentions, declares, instance_of, in_turn, block, stmt_part, arm_part, module_part};
ghost use Rattle.fir_names.specs.Namespaces.{unknown};
ghost use Rattle.fir_names.specs.Walks.{kept_with, number_in, fault_in, Walks, HasWalked};

use crate::fault::NameFault;
use crate::namespace::Namespace;
use crate::references::push_references;
use fir_tree::{Arm, Expr, Module, Stmt};
use fir_types::{Name, Port};
use indexmap::IndexMap;
use std::alloc::{AllocError, Global};

/// What a walk through a module has come to, each list in text order.
#[derive(Drop)]
pub struct Walk {
    /// The names that are declared.
    pub declared: Vec<Name>,
    /// The modules' names of the instances.
    pub instances: Vec<Name>,
    /// The declarations that are visible, by the numbers of their texts: of each text the first.
    pub visible: IndexMap<u32, u32>,
    /// For each reference the number of its declaration, and 0 where it has none.
    pub uses: Vec<u32>,
    /// The references that have none.
    pub faults: Vec<NameFault>,
}

/// What the names of a module mean.
pub fn walk_module(alloc: Global, holder: &Module) -> Result<Walk, AllocError>
    ensures { IfOk result (λ walk. HasWalked holder.now walk) }
{
    let mut walk = Walk {
        declared: Vec::new(alloc),
        instances: Vec::new(alloc),
        visible: IndexMap::new(alloc),
        uses: Vec::new(alloc),
        faults: Vec::new(alloc),
    };
    walk_ports(&mut walk, holder.ports.as_slice())?;
    walk_statements(alloc, &mut walk, holder.body.as_slice())?;
    Ok(walk)
}

fn walk_ports(walk: &mut Walk, ports: &[Port]) -> Result<(), AllocError>
    ensures { OnOk result (Walks (in_turn (map (λ port. declares port.name) ports.now)) walk.old walk.new) }
{
    for port in ports {
        declare(walk, port.name)?;
    }
    Ok(())
}

#[cycle(walk)]
fn walk_statements(alloc: Global, walk: &mut Walk, statements: &[Stmt]) -> Result<(), AllocError>
    ensures { OnOk result (Walks (in_turn (map stmt_part statements.now)) walk.old walk.new) }
{
    for statement in statements {
        walk_statement(alloc, walk, statement)?;
    }
    Ok(())
}

#[cycle(walk)]
fn walk_statement(alloc: Global, walk: &mut Walk, statement: &Stmt) -> Result<(), AllocError>
    ensures { OnOk result (Walks (stmt_part statement.now) walk.old walk.new) }
{
    match statement {
        Stmt::Wire(name, _) => declare(walk, *name),
        Stmt::Mem(memory) => declare(walk, memory.name),
        Stmt::Reg(name, _, clock) => {
            mention(alloc, walk, clock)?;
            declare(walk, *name)
        }
        Stmt::RegReset(name, _, clock, reset, init) => {
            mention(alloc, walk, clock)?;
            mention(alloc, walk, reset)?;
            mention(alloc, walk, init)?;
            declare(walk, *name)
        }
        Stmt::Inst(name, target) => {
            instantiate(walk, *target)?;
            declare(walk, *name)
        }
        Stmt::Node(name, expr) => {
            mention(alloc, walk, expr)?;
            declare(walk, *name)
        }
        Stmt::Connect(left, right) => {
            mention(alloc, walk, left)?;
            mention(alloc, walk, right)
        }
        Stmt::Invalidate(target) => mention(alloc, walk, target),
        Stmt::When(arms, other) => {
            walk_arms(alloc, walk, arms.as_slice())?;
            walk_block(alloc, walk, other.as_slice())
        }
        Stmt::Skip(_) => Ok(()),
    }
}

#[cycle(walk)]
fn walk_arms(alloc: Global, walk: &mut Walk, arms: &[Arm]) -> Result<(), AllocError>
    ensures { OnOk result (Walks (in_turn (map arm_part arms.now)) walk.old walk.new) }
{
    for arm in arms {
        walk_arm(alloc, walk, arm)?;
    }
    Ok(())
}

#[cycle(walk)]
fn walk_arm(alloc: Global, walk: &mut Walk, arm: &Arm) -> Result<(), AllocError>
    ensures { OnOk result (Walks (arm_part arm.now) walk.old walk.new) }
{
    mention(alloc, walk, &arm.condition)?;
    walk_block(alloc, walk, arm.body.as_slice())
}

/// A block, behind which nothing that it declares is visible.
#[cycle(walk)]
fn walk_block(alloc: Global, walk: &mut Walk, statements: &[Stmt]) -> Result<(), AllocError>
    ensures { OnOk result (Walks (block (map stmt_part statements.now)) walk.old walk.new) }
{
    let outside = walk.visible.len();
    walk_statements(alloc, walk, statements)?;
    walk.visible.truncate(outside);
    Ok(())
}

/// The references of an expression.
fn mention(alloc: Global, walk: &mut Walk, expr: &Expr) -> Result<(), AllocError>
    ensures { OnOk result (Walks (mentions (references expr.now)) walk.old walk.new) }
{
    let mut names = Vec::new(alloc);
    push_references(&mut names, expr)?;
    look_up(
        &walk.visible,
        names.as_slice(),
        Namespace::OfModule,
        &mut walk.uses,
        &mut walk.faults,
    )?;
    Ok(())
}

/// An instance of the module of this name.
fn instantiate(walk: &mut Walk, target: Name) -> Result<(), AllocError>
    ensures { OnOk result (Walks (instance_of target) walk.old walk.new) }
{
    walk.instances.push(target)?;
    Ok(())
}

/// A declaration of this name. More than fit a `u32` are a want of memory.
fn declare(walk: &mut Walk, name: Name) -> Result<(), AllocError>
    ensures { OnOk result (Walks (declares name) walk.old walk.new) }
{
    let Ok(number) = u32::try_from(walk.declared.len()) else {
        return Err(AllocError);
    };
    show(&mut walk.visible, name.id, number)?;
    walk.declared.push(name)?;
    Ok(())
}

/// Notes the number of a text, where it has none.
pub fn show(known: &mut IndexMap<u32, u32>, text: u32, number: u32) -> Result<(), AllocError>
    ensures { OnOk result (known.new.entries ≡ kept_with known.old.entries (text, number)) }
{
    if known.get(&text).is_none() {
        known.insert(text, number)?;
    }
    Ok(())
}

/// Adds the numbers of names, 0 for those that have none, and a fault for each of these.
pub fn look_up(
    known: &IndexMap<u32, u32>,
    names: &[Name],
    space: Namespace,
    numbers: &mut Vec<u32>,
    faults: &mut Vec<NameFault>,
) -> Result<(), AllocError>
    ensures numbers { OnOk result (numbers.new.items ≡ numbers.old.items ++ map (number_in known.now.entries) names.now) }
    ensures faults { OnOk result (faults.new.items ≡ faults.old.items ++ flat_map (fault_in (unknown space) known.now.entries) names.now) }
{
    for name in names {
        match known.get(&name.id) {
            Some(number) => numbers.push(*number)?,
            None => {
                numbers.push(0)?;
                faults.push(space.unknown(name.place))?;
            }
        }
    }
    Ok(())
}
