//! The names and the values of the watched leaves.

ghost use Rattle.std.specs.Prelude.{◌≡◌, IfOk, map};
ghost use Rattle.net_run.specs.Seeing.{value_at as value_in};

use bit_words::{List, Text, Value};
use ground_net::PortLeaf;
use net_run::seen::value_at;
use std::alloc::{AllocError, Global};

/// The names of these leaves, in order.
pub fn names_of(alloc: Global, leaves: &[PortLeaf]) -> Result<List<Text>, AllocError>
    ensures { IfOk result (λ names. names ≡ map (λ p. p.name) leaves.now) }
{
    let mut names = List::new(alloc);
    for leaf in leaves {
        names.push(List::from_slice(alloc, leaf.name.as_slice())?)?;
    }
    Ok(names)
}

/// The values of these leaves, in order, where the leaves of the net have these values.
pub fn row_of(
    alloc: Global,
    leaves: &[PortLeaf],
    values: &[Value],
) -> Result<List<Value>, AllocError>
    ensures { IfOk result (λ row. row ≡ map (λ p. value_in values.now p.leaf) leaves.now) }
{
    let mut row = List::new(alloc);
    for leaf in leaves {
        row.push(value_at(values, leaf.leaf))?;
    }
    Ok(row)
}
