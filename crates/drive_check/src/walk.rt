//! The walk through the statements of a body, from the last to the first: it keeps the leaves that are certain behind a statement.

ghost use Rattle.std.specs.Prelude.{◌≡◌, ◌++◌, ◌&&◌, map, flat_map, IfOk, OnOk};
ghost use Rattle.std.specs.List.{list_all};
ghost use Rattle.fir_meaning.specs.Components.{Leaf};
ghost use Rattle.drive_check.specs.HeldTypes.{types_in};
ghost use Rattle.drive_check.specs.Keys.{is_among};
ghost use Rattle.drive_check.specs.Walks.{block_of, any_certain, faults_from, walked, walked_arm, Walks};

use crate::fault::DriveFault;
use crate::leaf_set::LeafSet;
use crate::module_types::ModuleTypes;
use crate::undriven::{Owner, drive, push_undriven};
use fir_tree::{Arm, Stmt};
use std::alloc::{AllocError, Global};

/// The leaves that a block is certain for. Adds the faults of its declarations, where nothing is certain behind it.
#[cycle(walk)]
pub fn walk_block(
    alloc: Global,
    types: &ModuleTypes<'_>,
    faults: &mut Vec<DriveFault>,
    statements: &[Stmt],
) -> Result<LeafSet, AllocError>
    ensures certain { IfOk result (λ certain. (leaf : Leaf) → is_among certain.keys.keys leaf ≡ any_certain (map (walked (types_in types.now)) statements.now) leaf) }
    ensures faults { OnOk result (faults.new.items ≡ faults.old.items ++ faults_from (map (walked (types_in types.now)) statements.now)) }
{
    let mut certain = LeafSet::new(alloc);
    let mut at = statements.len();
    while at > 0 {
        at -= 1;
        walk_statement(alloc, types, &mut certain, faults, &statements[at])?;
    }
    Ok(certain)
}

/// A statement, behind which these leaves are certain.
#[cycle(walk)]
fn walk_statement(
    alloc: Global,
    types: &ModuleTypes<'_>,
    certain: &mut LeafSet,
    faults: &mut Vec<DriveFault>,
    statement: &Stmt,
) -> Result<(), AllocError>
    ensures { OnOk result (Walks (walked (types_in types.now) statement.now) certain.old.keys.keys faults.old.items certain.new.keys.keys faults.new.items) }
{
    match statement {
        Stmt::Wire(name, _) => push_undriven(alloc, types, certain, faults, (*name, Owner::Wire)),
        Stmt::Mem(memory) => {
            let component = (memory.name, Owner::Memory(memory));
            push_undriven(alloc, types, certain, faults, component)
        }
        Stmt::Inst(name, _) => {
            push_undriven(alloc, types, certain, faults, (*name, Owner::Instance))
        }
        Stmt::Connect(left, right) => drive(alloc, types, certain, left, right),
        Stmt::Invalidate(target) => drive(alloc, types, certain, target, target),
        Stmt::When(arms, other) => {
            let mut all = walk_block(alloc, types, faults, other.as_slice())?;
            walk_arms(alloc, types, &mut all, faults, arms.as_slice())?;
            certain.add(all)
        }
        Stmt::Reg(_, _, _) | Stmt::RegReset(_, _, _, _, _) | Stmt::Node(_, _) | Stmt::Skip(_) => Ok(
            (),
        ),
    }
}

/// Keeps the leaves that all arms are certain for.
#[cycle(walk)]
fn walk_arms(
    alloc: Global,
    types: &ModuleTypes<'_>,
    certain: &mut LeafSet,
    faults: &mut Vec<DriveFault>,
    arms: &[Arm],
) -> Result<(), AllocError>
    ensures certain { OnOk result ((leaf : Leaf) → is_among certain.new.keys.keys leaf ≡ (list_all (λ arm. arm.certain leaf) (map (walked_arm (types_in types.now)) arms.now) && is_among certain.old.keys.keys leaf)) }
    ensures faults { OnOk result (faults.new.items ≡ faults.old.items ++ flat_map (λ arm. arm.faults) (map (walked_arm (types_in types.now)) arms.now)) }
{
    for arm in arms {
        let own = walk_block(alloc, types, faults, arm.body.as_slice())?;
        certain.keep(&own);
    }
    Ok(())
}
