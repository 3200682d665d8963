//! The graph of a net: what each leaf reads, and what each vertex behind them stands for, as lists of numbers.

ghost use Rattle.std.specs.Prelude.{◌≡◌, ◌<◌, ◌^◌, length, map, IfOk};
ghost use Rattle.comb_order.specs.Spreads.{IsSpread};
ghost use Rattle.comb_order.specs.Graphs.{rows_of};

use crate::spread::{Spread, spread_of};
use bit_words::List;
use ground_net::Net;
use std::alloc::{AllocError, Global};

/// There are fewer leaves and stretches than this.
const NUMBERS: usize = 4_294_967_296;

/// The reads of a net. More leaves and stretches than a `u32` numbers are a want of memory.
pub fn graph_of(alloc: Global, net: &Net) -> Result<Vec<Vec<u32>>, AllocError>
    ensures spread { IfOk result (λ graph. IsSpread net.now (rows_of graph.items)) }
    ensures few { IfOk result (λ graph. length graph.items < 2 ^ 32) }
{
    let Spread { rows, known: _ } = spread_of(alloc, net)?;
    let graph = vectors_of(alloc, rows)?;
    if graph.len() >= NUMBERS {
        return Err(AllocError);
    }
    Ok(graph)
}

/// The same rows.
fn vectors_of(alloc: Global, rows: Vec<List<u32>>) -> Result<Vec<Vec<u32>>, AllocError>
    ensures { IfOk result (λ vectors. rows_of vectors.items ≡ rows.items) }
{
    let mut vectors = Vec::new(alloc);
    for row in rows {
        vectors.push(row.into_vec())?;
    }
    Ok(vectors)
}
