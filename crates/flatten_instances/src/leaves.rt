//! The flat leaves.

ghost use Rattle.std.specs.Prelude.{◌≡◌, IfOk};
ghost use Rattle.flatten_instances.specs.Flat.{OneByOne};
ghost use Rattle.flatten_instances.specs.Plans.{IsPlan, LeafAtSite, SomeLeaf, role_under};

use crate::plan::{Holder, Plan, Site, joined_text, level_of, module_of};
use bit_words::List;
use ground_net::{DrivenCircuit, GroundLeaf, GroundRole};
use std::alloc::{AllocError, Global};

/// The leaves of a plan.
pub fn leaves_of(
    alloc: Global,
    driven: &DrivenCircuit,
    plan: &Plan,
) -> Result<List<GroundLeaf>, AllocError>
    requires { IsPlan driven.now plan.now }
    ensures { IfOk result (λ leaves. OneByOne (LeafAtSite driven.now plan.now) plan.now.leaves leaves) }
{
    let mut leaves = List::new(alloc);
    for site in plan.leaves.as_slice() {
        let leaf = leaf_at(alloc, driven, plan, *site)?;
        leaves.push(leaf)?;
    }
    Ok(leaves)
}

/// The flat leaf of a site.
fn leaf_at(
    alloc: Global,
    driven: &DrivenCircuit,
    plan: &Plan,
    site: Site,
) -> Result<GroundLeaf, AllocError>
    requires { SomeLeaf driven.now plan.now site }
    ensures { IfOk result (λ leaf. LeafAtSite driven.now plan.now site leaf) }
{
    let level = level_of(plan, site.level);
    let owner = module_of(driven, level.module);
    let leaf = &owner.leaves.as_slice()[site.number as usize];
    let name = joined_text(alloc, level.prefix.as_slice(), leaf.name.as_slice(), false)?;
    Ok(GroundLeaf {
        name,
        kind: leaf.kind,
        width: leaf.width,
        place: leaf.place,
        role: flat_role(level.holder, leaf.role),
    })
}

/// The role of a leaf in the run.
fn flat_role(holder: Option<Holder>, role: GroundRole) -> GroundRole
    ensures { result ≡ role_under holder role }
{
    match (holder, role) {
        (Some(_), GroundRole::Input) => GroundRole::Plain,
        _ => role,
    }
}
