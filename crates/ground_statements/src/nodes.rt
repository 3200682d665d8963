//! Nodes.

ghost use Rattle.std.specs.Prelude.{◌≡◌, ◌++◌, IfOk, OnOk};
ghost use Rattle.ground_statements.specs.Connects.{IsNode};
ghost use Rattle.ground_statements.specs.Nodes.{node_leaf, node_leaves};

use bit_words::List;
use fir_types::{Shape, TypeLeaf};
use ground_exprs::part_sources::leaves_of;
use ground_exprs::reading::sum_of;
use ground_exprs::{Component, Source};
use ground_net::GroundStmt;
use std::alloc::{AllocError, Global};

/// A node: each of its leaves is set to its source, but for Clock leaves (FIRRTL specification 3.0, "Nodes").
pub fn node(
    alloc: Global,
    component: &Component,
    sources: List<Source>,
) -> Result<List<GroundStmt>, AllocError>
    ensures { IfOk result (λ made. IsNode component.now.typ component.now.first sources made) }
{
    let listed = leaves_of(alloc, component.typ.get())?;
    let made = set_node(alloc, listed.as_slice(), component.first, sources)?;
    Ok(made)
}

fn set_node(
    alloc: Global,
    leaves: &[TypeLeaf],
    first: u32,
    sources: List<Source>,
) -> Result<List<GroundStmt>, AllocError>
    ensures { IfOk result (λ made. made ≡ node_leaves first leaves.now sources) }
{
    let mut made = List::new(alloc);
    let mut number = first;
    let mut others = sources.into_vec().into_iter();
    for leaf in leaves {
        let Some(source) = others.next() else {
            return Ok(made);
        };
        set_leaf(alloc, leaf, number, source, &mut made)?;
        number = sum_of(number, 1)?;
    }
    Ok(made)
}

/// Adds the connect of a leaf that is no Clock.
fn set_leaf(
    alloc: Global,
    leaf: &TypeLeaf,
    number: u32,
    source: Source,
    made: &mut List<GroundStmt>,
) -> Result<(), AllocError>
    ensures { OnOk result (made.new ≡ made.old ++ node_leaf number leaf.now source) }
{
    if let Shape::Clock = &leaf.typ.shape {
        return Ok(());
    }
    made.push(GroundStmt::Connect(number, List::new(alloc), source.expr))?;
    Ok(())
}
