//! What the leaves of the run have.

ghost use Rattle.std.specs.Prelude.{◌≡◌, map, drop, option_copied, IfOk};
ghost use Rattle.fir_meaning.specs.Drives.{same_step, same_way};
ghost use Rattle.drive_check.specs.Keys.{step_of};
ghost use Rattle.plain_values.specs.Sites.{same_path, is_at, site_at, target_at, port_in, beside_leaf, value_on, integer_or_zero, scene_of_view};

use crate::site::{Site, View};
use bit_words::{List, Value};
use drive_check::leaf_set::Step;
use fir_types::{PathStep, TypeLeaf};
use std::alloc::{AllocError, Global};

/// The value beside the first leaf at this way.
pub fn value_beside(leaves: &[TypeLeaf], values: &[Value], way: &[Step]) -> Option<Value>
    ensures { result ≡ beside_leaf (map step_of way.now) leaves.now values.now }
{
    for at in 0..leaves.len().min(values.len()) {
        if is_along(leaves[at].path.as_slice(), way) {
            let value = &values[at];
            return Some(*value);
        }
    }
    None
}

/// Whether the path of a type's leaf is this way.
pub fn is_along(path: &[PathStep], way: &[Step]) -> bool
    ensures { result ≡ same_way path.now (map step_of way.now) }
{
    if path.len() != way.len() {
        return false;
    }
    for at in 0..path.len().min(way.len()) {
        let step = &path[at];
        let other = &way[at];
        if !is_step(step, other) {
            return false;
        }
    }
    true
}

fn is_step(step: &PathStep, other: &Step) -> bool
    ensures { result ≡ same_step step.now (step_of other.now) }
{
    match (step, other) {
        (PathStep::Field(name), Step::Field(other)) => *name == *other,
        (PathStep::Element(number), Step::Element(other)) => u128::from(*number) == *other,
        _ => false,
    }
}

/// Whether a component has this name and stands in the module at this path.
pub fn stands_at(site: &Site, path: &[u32], name: u32) -> bool
    ensures { result ≡ is_at path.now name site.now }
{
    site.name == name && is_path(site.path.as_slice(), path)
}

fn is_path(path: &[u32], other: &[u32]) -> bool
    ensures { result ≡ same_path path.now other.now }
{
    path == other
}

/// The first component of a name in the module at a path.
pub fn site_at<'a>(sites: &'a [Site], path: &[u32], name: u32) -> Option<&'a Site>
    ensures { option_copied result ≡ site_at sites.now path.now name }
{
    for site in sites {
        if stands_at(site, path, name) {
            return Some(site);
        }
    }
    None
}

/// The value of the leaf of a component of the module at a path, where one stands beside it.
pub fn value_on(
    sites: &[Site],
    values: &[List<Value>],
    path: &[u32],
    name: u32,
    way: &[Step],
) -> Option<Value>
    ensures { result ≡ value_on sites.now values.now path.now name (map step_of way.now) }
{
    for at in 0..sites.len().min(values.len()) {
        let site = &sites[at];
        if stands_at(site, path, name) {
            return value_beside(site.leaves.as_slice(), values[at].as_slice(), way);
        }
    }
    None
}

/// The value of a leaf as a module sees it, where one stands beside it: that of an instance's leaf is that of the port inside.
pub fn seen(
    alloc: Global,
    view: &View<'_>,
    component: u32,
    way: &[Step],
) -> Result<Option<Value>, AllocError>
    ensures { IfOk result (λ v. integer_or_zero v ≡ (scene_of_view view.now).integers component (map step_of way.now)) }
{
    let target = target_at(view.sites, view.path, component);
    let Some(port) = port_in(target, way) else {
        let own = value_on(view.sites, view.values, view.path, component, way);
        return Ok(own);
    };
    let mut inside = Vec::from_slice(alloc, view.path)?;
    inside.push(component)?;
    let rest = behind_first(way);
    let value = value_on(view.sites, view.values, inside.as_slice(), port, rest);
    Ok(value)
}

/// The port that a leaf of a component is one of, where the component makes this module.
fn port_in(target: Option<u32>, way: &[Step]) -> Option<u32>
    ensures { result ≡ port_in target (map step_of way.now) }
{
    if target.is_none() || way.is_empty() {
        return None;
    }
    match way[0] {
        Step::Field(port) => Some(port),
        Step::Element(_) => None,
    }
}

/// The steps behind the first.
fn behind_first(way: &[Step]) -> &[Step]
    ensures { result.now ≡ drop 1 way.now }
{
    if way.is_empty() { way } else { &way[1..] }
}

/// The module that a component makes, where it is an instance.
fn target_at(sites: &[Site], path: &[u32], name: u32) -> Option<u32>
    ensures { result ≡ target_at sites.now path.now name }
{
    match site_at(sites, path, name) {
        Some(site) => site.target,
        None => None,
    }
}
