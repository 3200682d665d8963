//! The listing of a circuit's refined cut.

ghost use Rattle.std.specs.Prelude.{◌≡◌, ◌<◌, ◌≤◌, ◌^◌, length, map, IfOk};
ghost use Rattle.fir_tree.specs.LeafNames.{Texts};
ghost use Rattle.fir_meaning.specs.Components.{Design};
ghost use Rattle.ground_net.specs.Cones.{sinks};
ghost use Rattle.ground_net.specs.Reads.{IsOrder};
ghost use Rattle.ground_net.specs.Watching.{watched};
ghost use Rattle.net_laws.specs.Serves.{Serves};
ghost use Rattle.cut_listing.specs.CircuitCuts.{watch};
ghost use Rattle.cut_listing.specs.RefinedTexts.{IsRefinedText};

use crate::refine_print::refine_text;
use cut_refine::refined_of;
use ground_net::{Ordered, PortLeaf, Ports};
use std::alloc::{AllocError, Global};

/// The listing of the refined cut of a circuit's net into 1 to 64 parts, where the ports are the net's. Main's watched leaves, the
/// registers and the memories are its sinks, and a `u32` numbers them and the leaves.
pub fn circuit_refine(
    alloc: Global,
    ordered: &Ordered,
    ports: &Ports,
    workers: u32,
) -> Result<Vec<u8>, AllocError>
    requires order { IsOrder ordered.now.net ordered.now.sequence }
    requires seen { ports.now.watched ≡ watched ordered.now.net }
    requires some { 0 < workers }
    requires most { workers ≤ 64 }
    requires few { length ordered.now.net.leaves < 2 ^ 32 }
    requires few_sinks { length (sinks ordered.now.net (watch ordered.now.net)) < 2 ^ 32 }
    ensures { (texts : Texts) (design : Design) → Serves texts design ordered.now.net → IfOk result (λ bytes. IsRefinedText texts design workers bytes.items) }
{
    let watch = numbers_of(alloc, ports.watched.as_slice())?;
    let refined = refined_of(alloc, ordered, watch.as_slice(), workers)?;
    Ok(refine_text(alloc, &refined)?)
}

/// The numbers of leaves of ports.
fn numbers_of(alloc: Global, leaves: &[PortLeaf]) -> Result<Vec<u32>, AllocError>
    ensures { IfOk result (λ numbers. numbers.items ≡ map (λ p. p.leaf) leaves.now) }
{
    let mut numbers = Vec::new(alloc);
    for leaf in leaves {
        numbers.push(leaf.leaf)?;
    }
    Ok(numbers)
}
