//! Writes of one leaf.

ghost use Rattle.std.specs.Prelude.{◌≡◌, [], ◌∷◌, Some, IsSome, IfOk, OnOk, All, map};
ghost use Rattle.ground_net.specs.declared.ground.Ground.TheVariants.{Leaf as A_leaf};
ghost use Rattle.ground_net.specs.declared.net.Net.{Net as TheNet};
ghost use Rattle.ground_net.specs.Shapes.{shape};
ghost use Rattle.flat_code.specs.Meaning.{location_shape};
ghost use Rattle.code_emit.specs.Emits.{sources_table, Emits, EmitsAll};
ghost use Rattle.code_emit.specs.Spans.{Spans, SpansAll, EvaluatesAll};
ghost use Rattle.code_memories.specs.Writes.{TellsTarget};

use crate::places::Target;
use bit_words::List;
use code_draft::{Draft, Sources, publish_by};
use code_emit::emit;
use flat_code::{Location, Port};
use ground_net::Ground;
use std::alloc::{AllocError, Global};

/// Adds code that publishes what a target gets, where each of the leaves that are conditions is 1.
pub(crate) fn publish_target(
    alloc: Global,
    draft: &mut Draft,
    sources: &Sources,
    target: Target,
    conditions: &[u32],
) -> Result<(), AllocError>
    requires address { IsSome (shape (A_leaf target.address) (sources_table sources.now)) }
    requires source { IsSome (shape (A_leaf target.source) (sources_table sources.now)) }
    requires conditions { All (λ x. IsSome (shape (A_leaf x) (sources_table sources.now))) conditions.now }
    ensures tells { OnOk result ((net : TheNet) → TellsTarget net sources.now target conditions.now draft.old draft.new) }
    ensures evaluates { OnOk result (EvaluatesAll sources.now ((A_leaf target.address ∷ A_leaf target.source ∷ map (λ x. A_leaf x) conditions.now) ∷ []) draft.old draft.new) }
{
    let address = emit_leaf(alloc, draft, sources, target.address)?;
    let source = emit_leaf(alloc, draft, sources, target.source)?;
    let conditions = emit_leaves(alloc, draft, sources, conditions)?;
    let port = Port {
        region: target.region,
        conditions,
        address,
        source,
    };
    publish_by(draft, port)
}

/// Adds code for the value of a leaf.
fn emit_leaf(
    alloc: Global,
    draft: &mut Draft,
    sources: &Sources,
    leaf: u32,
) -> Result<Location, AllocError>
    requires { IsSome (shape (A_leaf leaf) (sources_table sources.now)) }
    ensures shape { IfOk result (λ s. shape (A_leaf leaf) (sources_table sources.now) ≡ Some (location_shape s)) }
    ensures emits { IfOk result (λ s. Emits sources.now (A_leaf leaf) draft.old draft.new s) }
    ensures spans { IfOk result (λ s. Spans sources.now (A_leaf leaf) draft.old draft.new s) }
{
    let ground = Ground::Leaf(leaf);
    emit(alloc, draft, sources, &ground)
}

/// Adds code for the values of leaves, in order.
fn emit_leaves(
    alloc: Global,
    draft: &mut Draft,
    sources: &Sources,
    leaves: &[u32],
) -> Result<List<Location>, AllocError>
    requires { All (λ x. IsSome (shape (A_leaf x) (sources_table sources.now))) leaves.now }
    ensures emits { IfOk result (λ ss. EmitsAll sources.now (map (λ x. A_leaf x) leaves.now) draft.old draft.new ss) }
    ensures spans { IfOk result (λ ss. SpansAll sources.now (map (λ x. A_leaf x) leaves.now) draft.old draft.new ss) }
{
    let mut locations = List::new(alloc);
    for leaf in leaves {
        let location = emit_leaf(alloc, draft, sources, *leaf)?;
        locations.push(location)?;
    }
    Ok(locations)
}
