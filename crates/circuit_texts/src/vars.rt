//! The leaves that are dumped.

ghost use Rattle.std.specs.Prelude.{◌≡◌, ◌<◌, length, All, IfOk};
ghost use Rattle.std.specs.List.{AllZip};
ghost use Rattle.ground_net.specs.Watching.{port_leaf};
ghost use Rattle.circuit_texts.specs.NetNames.{IsLeafAt};

use bit_words::List;
use ground_net::{Leaf, PortLeaf};
use std::alloc::{AllocError, Global};

/// The leaves of these numbers.
pub fn leaves_of(
    alloc: Global,
    leaves: &[Leaf],
    watch: &[u32],
) -> Result<List<PortLeaf>, AllocError>
    requires { All (λ x. x < length leaves.now) watch.now }
    ensures { IfOk result (AllZip (IsLeafAt leaves.now) watch.now) }
{
    let mut vars = List::new(alloc);
    for number in watch {
        let leaf = &leaves[*number as usize];
        vars.push(told(alloc, *number, leaf)?)?;
    }
    Ok(vars)
}

/// A leaf with its number.
fn told(alloc: Global, number: u32, leaf: &Leaf) -> Result<PortLeaf, AllocError>
    ensures { IfOk result (λ var. var ≡ port_leaf number leaf.now) }
{
    Ok(PortLeaf {
        name: List::from_slice(alloc, leaf.name.as_slice())?,
        kind: leaf.kind,
        width: leaf.width,
        leaf: number,
    })
}
