//! The leaves by which a run is fed and watched.

ghost use Rattle.std.specs.Prelude.{◌≡◌, [], ◌++◌, slice_get, IfOk, OnOk, option_map};
ghost use Rattle.std.specs.List.{cons_option};
ghost use Rattle.ground_net.specs.Watching.{is_given, is_shown, told_where, port_leaf, inputs, watched, port_names};

use crate::copying::copied_text;
use crate::net::{Leaf, Net, PortLeaf, Ports, Role};
use bit_words::{List, Text};
use std::alloc::{AllocError, Global};

/// Main's input leaves and its sink leaves, both without clocks, and the names of all leaves of its ports, each in order.
pub fn ports_of(alloc: Global, net: &Net) -> Result<Ports, AllocError>
    ensures inputs { IfOk result (λ ports. ports.inputs ≡ inputs net.now) }
    ensures watched { IfOk result (λ ports. ports.watched ≡ watched net.now) }
    ensures names { IfOk result (λ ports. ports.names ≡ port_names net.now) }
{
    Ok(Ports {
        inputs: inputs_of(alloc, net)?,
        watched: watched_of(alloc, net)?,
        names: names_of(alloc, net)?,
    })
}

/// Main's input leaves.
fn inputs_of(alloc: Global, net: &Net) -> Result<List<PortLeaf>, AllocError>
    ensures { IfOk result (λ leaves. leaves ≡ inputs net.now) }
{
    let mut leaves = List::new(alloc);
    for number in 0..net.ports {
        push_input(alloc, &mut leaves, net, number)?;
    }
    Ok(leaves)
}

/// Main's leaves that are watched.
fn watched_of(alloc: Global, net: &Net) -> Result<List<PortLeaf>, AllocError>
    ensures { IfOk result (λ leaves. leaves ≡ watched net.now) }
{
    let mut leaves = List::new(alloc);
    for number in 0..net.ports {
        push_watched(alloc, &mut leaves, net, number)?;
    }
    Ok(leaves)
}

/// The names of the leaves of main's ports.
fn names_of(alloc: Global, net: &Net) -> Result<List<Text>, AllocError>
    ensures { IfOk result (λ names. names ≡ port_names net.now) }
{
    let mut names = List::new(alloc);
    for number in 0..net.ports {
        push_name(alloc, &mut names, net, number)?;
    }
    Ok(names)
}

/// Adds the leaf, where it is an input.
fn push_input(
    alloc: Global,
    leaves: &mut List<PortLeaf>,
    net: &Net,
    number: u32,
) -> Result<(), AllocError>
    ensures { OnOk result (leaves.new ≡ leaves.old ++ cons_option (told_where is_given number (slice_get net.now.leaves number)) []) }
{
    match net.leaves.get(number as usize) {
        Some(leaf) if is_input(leaf.role) => leaves.push(told(alloc, number, leaf)?),
        _ => Ok(()),
    }
}

/// Adds the leaf, where it is watched.
fn push_watched(
    alloc: Global,
    leaves: &mut List<PortLeaf>,
    net: &Net,
    number: u32,
) -> Result<(), AllocError>
    ensures { OnOk result (leaves.new ≡ leaves.old ++ cons_option (told_where is_shown number (slice_get net.now.leaves number)) []) }
{
    match net.leaves.get(number as usize) {
        Some(leaf) if is_watched(leaf.role) => leaves.push(told(alloc, number, leaf)?),
        _ => Ok(()),
    }
}

/// Adds the name of the leaf, where there is one.
fn push_name(
    alloc: Global,
    names: &mut List<Text>,
    net: &Net,
    number: u32,
) -> Result<(), AllocError>
    ensures { OnOk result (names.new ≡ names.old ++ cons_option (option_map (λ leaf. leaf.name) (slice_get net.now.leaves number)) []) }
{
    match net.leaves.get(number as usize) {
        Some(leaf) => names.push(copied_text(alloc, &leaf.name)?),
        None => Ok(()),
    }
}

/// Whether a leaf of this role is given.
fn is_input(role: Role) -> bool
    ensures { result ≡ is_given role }
{
    matches!(role, Role::Input(_))
}

/// Whether a leaf of this role has a value that isn't given.
fn is_watched(role: Role) -> bool
    ensures { result ≡ is_shown role }
{
    !matches!(role, Role::Input(_) | Role::Clock)
}

/// A leaf of a port with its number.
fn told(alloc: Global, number: u32, leaf: &Leaf) -> Result<PortLeaf, AllocError>
    ensures { IfOk result (λ it. it ≡ port_leaf number leaf.now) }
{
    Ok(PortLeaf {
        name: copied_text(alloc, &leaf.name)?,
        kind: leaf.kind,
        width: leaf.width,
        leaf: number,
    })
}
