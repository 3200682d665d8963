//! The leaves of the run in flat order: for a module its ports, and then what its statements declare in text order, branches included; for
//! an instance its own list.

ghost use Rattle.std.specs.Prelude.{◌≡◌, ◌++◌, map, reverse, slice_get, option_map, IfOk, OnOk};
ghost use Rattle.fir_meaning.specs.Components.{design_of, module_named};
ghost use Rattle.circuit_laws.specs.WellFormed.{IsWellFormed};
ghost use Rattle.plain_cycle.specs.Layouts.{site_of, located_in};
ghost use Rattle.plain_run.specs.Leaves.{AreInOrder, leaf_at, leaf_held, leaves_of_site, leaves_of_sites, located_inside};

use bit_words::List;
use circuit_laws::laws::{modules_are_named, names_are_declared_once};
use fir_tree::Fitted;
use fir_types::TypeLeaf;
use plain_cycle::Layout;
use plain_cycle::layout::push_place;
use plain_cycle::places::Standing;
use plain_values::Site;
use std::alloc::{AllocError, Global};

/// A leaf of the run: its component, and the leaf of the component's type, which has its kind and width.
#[derive(Clone, Copy)]
pub struct RunLeaf<'a> {
    pub site: &'a Site,
    pub leaf: &'a TypeLeaf,
}

/// The components of the run, so that their leaves stand in flat order: behind an instance comes what its module has. Takes time and memory
/// in proportion to their leaves, each component with the length of its path, and for each module of the run to the statements of the
/// circuit.
pub fn sites_in_order(alloc: Global, fitted: &Fitted) -> Result<Vec<Site>, AllocError>
    requires { IsWellFormed fitted.now }
    ensures { IfOk result (λ sites. AreInOrder (design_of fitted.now) sites.items) }
{
    names_are_declared_once();
    modules_are_named();
    let main = Standing {
        path: Vec::new(alloc),
        name: fitted.checked.resolved.get().main.id,
    };
    let mut ahead = sites_at(alloc, fitted, &main)?;
    let mut behind = Vec::new(alloc);
    for _step in 0..usize::MAX {
        let Some(site) = ahead.pop() else {
            return Ok(behind);
        };
        push_inside(alloc, fitted, &mut ahead, &site)?;
        behind.push(site)?;
    }
    unreachable!()
}

/// Adds the components of the module that a component makes, the last one first; none where it is no instance.
fn push_inside(
    alloc: Global,
    fitted: &Fitted,
    ahead: &mut Vec<Site>,
    site: &Site,
) -> Result<(), AllocError>
    ensures { OnOk result (reverse ahead.new.items ≡ map site_of (located_inside (design_of fitted.now) site.now) ++ reverse ahead.old.items) }
{
    let Some(name) = site.target else {
        return Ok(());
    };
    let mut path = Vec::from_slice(alloc, site.path.as_slice())?;
    path.push(site.name)?;
    let mut inside = sites_at(alloc, fitted, &Standing { path, name })?;
    ahead.append(&mut inside)?;
    Ok(())
}

/// The components of the module at a place, the last one first.
fn sites_at(alloc: Global, fitted: &Fitted, place: &Standing) -> Result<Vec<Site>, AllocError>
    ensures { IfOk result (λ sites. reverse sites.items ≡ map site_of (located_in place.now.path.items (module_named (design_of fitted.now) place.now.name))) }
{
    let mut layout = Layout {
        sites: List::new(alloc),
        declared: Vec::new(alloc),
    };
    push_place(alloc, fitted, &mut layout, place)?;
    let mut sites = layout.sites.into_vec();
    sites.reverse();
    Ok(sites)
}

/// The leaf of a number in flat order, from 0, where there is one.
pub fn leaf_numbered(sites: &[Site], number: u32) -> Option<RunLeaf<'_>>
    ensures { option_map leaf_held result ≡ slice_get (leaves_of_sites sites.now) number }
{
    let mut left = number as usize;
    for site in sites {
        let leaves = own_leaves(site);
        if let Some(leaf) = leaves.get(left) {
            return Some(RunLeaf { site, leaf });
        }
        left -= leaves.len();
    }
    None
}

/// The leaves of a component; none of an instance, whose leaves are those of the ports inside.
fn own_leaves(site: &Site) -> &[TypeLeaf]
    ensures { map (leaf_at site.now) result.now ≡ leaves_of_site site.now }
{
    if site.target.is_some() {
        &[]
    } else {
        site.leaves.as_slice()
    }
}
