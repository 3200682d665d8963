//! A net in an order, its cut, and the leaves by which it is fed and watched.

ghost use Rattle.std.specs.Prelude.{◌<◌, ◌≤◌, length};

use super::nets::{Row, net_of};
use super::telling::expect;
use comb_order::{OrderFault, order};
use cone_cutter::cut;
use cut_listing::cut_text;
use ground_net::{PortLeaf, Role, ports_of};
use std::alloc::Global;
use std::io::Write;

/// Two registers and an output that read one node; the first three leaves are main's.
const SHARED: &[Row] = &[
    ("clock", Role::Clock, None),
    ("a", Role::Input(0), None),
    ("o", Role::Assigned, Some((5, 5, 5))),
    ("r", Role::Register(0), Some((5, 5, 5))),
    ("s", Role::Register(1), Some((5, 5, 5))),
    ("t", Role::Assigned, Some((1, 1, 1))),
];

/// The listing of the cut of the net.
fn told_cut(alloc: Global, watch: &[u32], workers: u32) -> Option<Vec<u8>> {
    if workers == 0 || workers > 64 || watch.len() > 1000 {
        return None;
    }
    listing(alloc, watch, workers).ok()
}

fn listing(alloc: Global, watch: &[u32], workers: u32) -> Result<Vec<u8>, OrderFault>
    requires few { length watch.now ≤ 1000 }
    requires some_workers { 0 < workers }
    requires few_workers { workers ≤ 64 }
{
    let net = net_of(alloc, 3, SHARED)?;
    let ordered = order(alloc, net)?;
    let made = cut(alloc, &ordered, watch, workers)?;
    Ok(cut_text(alloc, &made)?)
}

#[test]
fn sinks_are_placed_by_their_cones(rt: HostRuntime) {
    let wanted =
        "partition 0 sinks 1 assignments 2\npartition 1 sinks 2 assignments 1\nneeded 2 placed 3\n";
    expect(&rt, told_cut(rt.alloc(), &[2], 2), "a cut", wanted);
}

/// The numbers of the sequence, with a blank behind each.
fn told_order(alloc: Global) -> Option<Vec<u8>> {
    let Ok(net) = net_of(alloc, 3, SHARED) else {
        return None;
    };
    let ordered = order(alloc, net).ok()?;
    let mut text = Vec::new(alloc);
    for leaf in ordered.sequence.as_slice() {
        write!(text, "{leaf} ").ok()?;
    }
    Some(text)
}

#[test]
fn assignments_stand_behind_what_they_read(rt: HostRuntime) {
    expect(&rt, told_order(rt.alloc()), "an order", "5 2 ");
}

/// The names and numbers of leaves of ports.
fn push_leaves(text: &mut Vec<u8>, leaves: &[PortLeaf]) -> Option<()> {
    for leaf in leaves {
        text.extend_from_slice(leaf.name.as_slice()).ok()?;
        write!(text, " {};", leaf.leaf).ok()?;
    }
    Some(())
}

/// The inputs, the watched leaves, and all names of the net's ports.
fn told_ports(alloc: Global) -> Option<Vec<u8>> {
    let net = net_of(alloc, 3, SHARED).ok()?;
    let ports = ports_of(alloc, &net).ok()?;
    let mut text = Vec::new(alloc);
    push_leaves(&mut text, ports.inputs.as_slice())?;
    text.push(b'/').ok()?;
    push_leaves(&mut text, ports.watched.as_slice())?;
    for name in ports.names.as_slice() {
        text.push(b'/').ok()?;
        text.extend_from_slice(name.as_slice()).ok()?;
    }
    Some(text)
}

#[test]
fn ports_are_given_or_watched(rt: HostRuntime) {
    expect(&rt, told_ports(rt.alloc()), "ports", "a 1;/o 2;/clock/a/o");
}
