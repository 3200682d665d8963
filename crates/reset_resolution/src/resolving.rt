//! The circuit in which each `Reset` is resolved.

ghost use Rattle.std.specs.Prelude.{◌≡◌, IfOk};
ghost use Rattle.reset_search.specs.Resolved.{IsResolved};
ghost use Rattle.reset_resolution.specs.Itself.{or_itself};

use crate::gathering::feeds_of;
use bit_words::Shared;
use fir_tree::Circuit;
use reset_search::laws::circuits_without_sources_resolve_to_themselves;
use reset_search::search::reached_in;
use reset_search::sources::has_source;
use reset_search::tree::resolved_tree;
use std::alloc::{AllocError, Global};

/// The circuit with its `Reset`s resolved, as below. Where it stays as it is, it is the same value in memory.
pub fn resolved_circuit(
    alloc: Global,
    circuit: &Shared<Circuit>,
) -> Result<Shared<Circuit>, AllocError>
    ensures { IfOk result (λ resolved. IsResolved circuit.now resolved) }
{
    let tree = resolve_resets(alloc, circuit.get())?;
    let resolved = or_itself(alloc, circuit, tree)?;
    Ok(resolved)
}

/// The tree in memory of its own, or the circuit once more where there is none.
fn or_itself(
    alloc: Global,
    circuit: &Shared<Circuit>,
    tree: Option<Circuit>,
) -> Result<Shared<Circuit>, AllocError>
    ensures { IfOk result (λ shared. shared ≡ or_itself circuit.now tree) }
{
    match tree {
        Some(tree) => Shared::new(alloc, tree),
        None => circuit.share(),
    }
}

/// The circuit with `AsyncReset` for each `Reset` that a chain of feeds leads to from an AsyncReset leaf, or `None` where it stays as it is
/// (FIRRTL specification 3.0, "Reset Type"). It stays where no AsyncReset is declared and no source is an `asAsyncReset`.
///
/// Takes time and memory in proportion to the circuit and its types, and for each connect and each node to its type: no memory where nothing is a
/// source. More than 16,000,000 feeds, or places of the text or of nodes, are a want of memory.
pub fn resolve_resets(alloc: Global, circuit: &Circuit) -> Result<Option<Circuit>, AllocError>
    ensures { IfOk result (λ tree. IsResolved circuit.now (or_itself circuit.now tree)) }
{
    circuits_without_sources_resolve_to_themselves();
    if !has_source(circuit) {
        return Ok(None);
    }
    let feeds = feeds_of(alloc, circuit)?;
    let marks = reached_in(alloc, &feeds)?;
    let tree = resolved_tree(alloc, &marks, circuit)?;
    Ok(Some(tree))
}
