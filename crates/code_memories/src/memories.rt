//! Memories.

ghost use Rattle.std.specs.Prelude.{◌≡◌, ◌<◌, ◌^◌, [], ◌∷◌, OnOk};
ghost use Rattle.ground_net.specs.Cones.{A_memory};
ghost use Rattle.ground_net.specs.Nets.{IsNet};
ghost use Rattle.ground_net.specs.Words.{state_words};
ghost use Rattle.code_memories.specs.Memories.{HasMemory};
ghost use Rattle.code_memories.specs.Telling.{PublishesSinks};
ghost use Rattle.code_memories.specs.SinkGroups.{EvaluatesOnly};
ghost use Rattle.code_memories.specs.Groups.{IsMemoryGroup};

use crate::captures::publish_captures;
use crate::places::MemoryAt;
use crate::writes::publish_writes;
use code_draft::{Draft, Sources};
use ground_net::Net;
use std::alloc::{AllocError, Global};

/// Adds code that publishes what the memory of this number leaves: what its ports write, and then what its captured reads show next.
pub fn publish_memory(
    alloc: Global,
    draft: &mut Draft,
    sources: &Sources,
    net: &Net,
    number: u32,
) -> Result<(), AllocError>
    requires net { IsNet net.now }
    requires few { state_words net.now < 2 ^ 32 }
    requires memory { HasMemory net.now sources.now number }
    ensures publishes { OnOk result (PublishesSinks net.now sources.now (A_memory number ∷ []) draft.old draft.new) }
    ensures evaluates { OnOk result (EvaluatesOnly sources.now (IsMemoryGroup net.now number) draft.old draft.new) }
{
    let at = MemoryAt {
        net,
        sources,
        number,
    };
    publish_writes(alloc, draft, at)?;
    publish_captures(alloc, draft, at)
}
