//! Assignments.

ghost use Rattle.std.specs.Prelude.{◌≡◌, ◌<◌, [], ◌∷◌, All, length, OnOk};
ghost use Rattle.code_emit.specs.Emits.{sources_table};
ghost use Rattle.partition_code.specs.Sequences.{InTurn, Turned, Assigns, StandElsewhere, turned_table};
ghost use Rattle.partition_code.specs.Segmented.{AreSegments};

use code_draft::{Draft, Source, Sources};
use code_emit::emit;
use ground_net::Ground;
use std::alloc::{AllocError, Global};

/// Adds the code of assignments, in order, and keeps the locations of their values as the sources of their leaves.
pub fn assign_all(
    alloc: Global,
    draft: &mut Draft,
    sources: &mut Sources,
    drivers: &[Option<Ground>],
    sequence: &[u32],
) -> Result<(), AllocError>
    requires within { All (λ x. x < length sources.old.leaves) sequence.now }
    requires in_turn { InTurn (sources_table sources.old) drivers.now sequence.now }
    ensures assigns { OnOk result (Assigns drivers.now sequence.now sources.old draft.old sources.new draft.new) }
    ensures table { OnOk result (sources_table sources.new ≡ turned_table (sources_table sources.old) drivers.now sequence.now) }
    ensures leaves { OnOk result (length sources.new.leaves ≡ length sources.old.leaves) }
    ensures others { OnOk result (StandElsewhere sequence.now sources.old sources.new) }
    ensures segments { OnOk result (AreSegments drivers.now sequence.now sources.old draft.old sources.new draft.new) }
{
    for leaf in sequence {
        assign(alloc, draft, sources, drivers, *leaf)?;
    }
    Ok(())
}

/// Adds the code of an assignment.
fn assign(
    alloc: Global,
    draft: &mut Draft,
    sources: &mut Sources,
    drivers: &[Option<Ground>],
    leaf: u32,
) -> Result<(), AllocError>
    requires within { leaf < length sources.old.leaves }
    requires in_turn { InTurn (sources_table sources.old) drivers.now (leaf ∷ []) }
    ensures leaves { OnOk result (length sources.new.leaves ≡ length sources.old.leaves) }
    ensures others { OnOk result (StandElsewhere (leaf ∷ []) sources.old sources.new) }
    ensures table { OnOk result (Turned drivers.now leaf sources.old sources.new) }
    ensures assigns { OnOk result (Assigns drivers.now (leaf ∷ []) sources.old draft.old sources.new draft.new) }
    ensures segments { OnOk result (AreSegments drivers.now (leaf ∷ []) sources.old draft.old sources.new draft.new) }
{
    let Some(Some(driver)) = drivers.get(leaf as usize) else {
        unreachable!();
    };
    let location = emit(alloc, draft, sources, driver)?;
    sources
        .leaves
        .set(leaf as usize, Some(Source::Frame(location)));
    Ok(())
}
