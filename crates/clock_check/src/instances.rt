//! The instances of a module.

ghost use Rattle.std.specs.Prelude.{◌≡◌, ℕ, ◌++◌, flat_map, nat_eq, IfOk, OnOk};
ghost use Rattle.std.specs.Map.{lookup};
ghost use Rattle.drive_check.specs.Typing.{with_new};
ghost use Rattle.clock_check.specs.Makes.{makes_of, stmt_makes, arm_makes, module_makes};

use fir_tree::{Arm, Module, Stmt};
use indexmap::IndexMap;
use std::alloc::{AllocError, Global};

/// An instance: the number of its name, and that of its module's name.
#[derive(Clone, Copy)]
pub struct Instance {
    pub name: u32,
    pub target: u32,
}

/// The instances of a module, in text order.
pub fn instances_in(alloc: Global, holder: &Module) -> Result<Vec<Instance>, AllocError>
    ensures { IfOk result (λ instances. makes_of instances.items ≡ module_makes holder.now) }
{
    let mut instances = Vec::new(alloc);
    push_block(&mut instances, holder.body.as_slice())?;
    Ok(instances)
}

#[cycle(instances)]
fn push_block(instances: &mut Vec<Instance>, statements: &[Stmt]) -> Result<(), AllocError>
    ensures { OnOk result (makes_of instances.new.items ≡ makes_of instances.old.items ++ flat_map stmt_makes statements.now) }
{
    for statement in statements {
        push_statement(instances, statement)?;
    }
    Ok(())
}

#[cycle(instances)]
fn push_statement(instances: &mut Vec<Instance>, statement: &Stmt) -> Result<(), AllocError>
    ensures { OnOk result (makes_of instances.new.items ≡ makes_of instances.old.items ++ stmt_makes statement.now) }
{
    match statement {
        Stmt::Inst(name, target) => {
            instances.push(Instance {
                name: name.id,
                target: target.id,
            })?;
            Ok(())
        }
        Stmt::When(arms, other) => {
            push_arms(instances, arms.as_slice())?;
            push_block(instances, other.as_slice())
        }
        Stmt::Wire(_, _)
        | Stmt::Reg(_, _, _)
        | Stmt::RegReset(_, _, _, _, _)
        | Stmt::Mem(_)
        | Stmt::Node(_, _)
        | Stmt::Connect(_, _)
        | Stmt::Invalidate(_)
        | Stmt::Skip(_) => Ok(()),
    }
}

#[cycle(instances)]
fn push_arms(instances: &mut Vec<Instance>, arms: &[Arm]) -> Result<(), AllocError>
    ensures { OnOk result (makes_of instances.new.items ≡ makes_of instances.old.items ++ flat_map arm_makes arms.now) }
{
    for arm in arms {
        push_block(instances, arm.body.as_slice())?;
    }
    Ok(())
}

/// For the name of each instance the name of its module; of two instances of one name that of the first.
pub fn targets_of(alloc: Global, instances: &[Instance]) -> Result<IndexMap<u32, u32>, AllocError>
    ensures { IfOk result (λ targets. (name : ℕ) → lookup (nat_eq name) targets.entries ≡ lookup (nat_eq name) (makes_of instances.now)) }
{
    let mut targets = IndexMap::new(alloc);
    for at in 0..instances.len() {
        insert_new(&mut targets, instances[at])?;
    }
    Ok(targets)
}

/// Notes the module of an instance, unless there is one.
fn insert_new(targets: &mut IndexMap<u32, u32>, instance: Instance) -> Result<(), AllocError>
    ensures { OnOk result (targets.new.entries ≡ with_new targets.old.entries instance.name instance.target) }
{
    if targets.get(&instance.name).is_none() {
        targets.insert(instance.name, instance.target)?;
    }
    Ok(())
}
