//! The order.

ghost use Rattle.std.specs.Prelude.{◌≡◌, ℕ, ◌<◌, length, IfOk, OnOk, Err, MatchBool};
ghost use Rattle.place_text.specs.declared.place.Place.{Place as APlace};
ghost use Rattle.ground_net.specs.Reads.{MentionsLeaves, IsAssigned, IsOrder, HasNoLoop, IsFirstLoop};
ghost use Rattle.place_text.specs.Verdicts.{IsVerdict};
ghost use Rattle.comb_order.specs.Faults.{IsFault, IsOrdered, place_of, rank_of};
ghost use Rattle.comb_order.specs.Graphs.{Keeps, HasPlace};

use crate::fault::OrderFault;
use crate::graph::graph_of;
use crate::graph_fault::GraphFault;
use crate::spread::is_assignment;
use bit_words::List;
use ground_net::{Leaf, Net, Ordered};
use place_text::Place;
use std::alloc::{AllocError, Global};

/// The net with its assignments in an order, each after all that it reads; or the place of the first leaf, in flat order, that is
/// on a loop (FIRRTL specification 3.0, "Combinational Loops").
///
/// Takes time and memory in proportion to the leaves and what they read.
pub fn order(alloc: Global, net: Net) -> Result<Ordered, OrderFault>
    requires mentions { MentionsLeaves net }
    requires few { length net.leaves < 4294967296 }
    ensures { IsVerdict place_of rank_of (IsFault net) (IsOrdered net) result }
{
    let sequence = sequence_of(alloc, &net)?;
    Ok(Ordered { net, sequence })
}

/// The assignments of a net in an order; or the place of the first leaf that is on a loop.
fn sequence_of(alloc: Global, net: &Net) -> Result<List<u32>, OrderFault>
    requires mentions { MentionsLeaves net.now }
    requires few { length net.now.leaves < 4294967296 }
    ensures ordered { IfOk result (IsOrder net.now) }
    ensures no_loop { OnOk result (HasNoLoop net.now) }
    ensures looped { (place : APlace) → result ≡ Err (OrderFault.CombLoop place) → IsFirstLoop net.now place }
{
    let graph = graph_of(alloc, net)?;
    match crate::graph_ordering::order(alloc, graph.as_slice()) {
        Ok(vertices) => {
            let leaves = net.leaves.as_slice();
            Ok(assignments_of(alloc, leaves, vertices.as_slice())?)
        }
        Err(GraphFault::Loop(leaf)) => {
            Err(OrderFault::CombLoop(place_of(net.leaves.as_slice(), leaf)))
        }
        Err(GraphFault::NoMemory) => Err(OrderFault::NoMemory),
    }
}

/// The assignments among these numbers, in the same order.
fn assignments_of(alloc: Global, leaves: &[Leaf], numbers: &[u32]) -> Result<List<u32>, AllocError>
    ensures { IfOk result (λ kept. Keeps (IsAssigned leaves.now) numbers.now kept) }
{
    let mut kept = List::new(alloc);
    for number in numbers {
        if is_assigned(leaves, *number) {
            kept.push(*number)?;
        }
    }
    Ok(kept)
}

/// Whether the leaf of a number is an assignment.
fn is_assigned(leaves: &[Leaf], number: u32) -> bool
    ensures { MatchBool result (IsAssigned leaves.now number) (IsAssigned leaves.now number → ⊥) }
{
    is_assignment(leaves, number)
}

/// The place of the leaf of a number.
fn place_of(leaves: &[Leaf], number: u32) -> Place
    requires { number < length leaves.now }
    ensures { HasPlace leaves.now number result }
{
    let leaf = &leaves[number as usize];
    leaf.place
}
