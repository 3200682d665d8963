//! Registers.

ghost use Rattle.std.specs.Prelude.{◌≡◌, [], ◌∷◌, All, map, flat_map, length, OnOk};
ghost use Rattle.ground_net.specs.Words.{register_word};
ghost use Rattle.ground_net.specs.Cones.{A_register};
ghost use Rattle.code_emit.specs.Spans.{EvaluatesAll};
ghost use Rattle.code_memories.specs.Telling.{IsNextShaped, PublishesSinks};
ghost use Rattle.code_memories.specs.SinkGroups.{register_groups};

use crate::registers::next_ground;
use code_draft::{Draft, Sources, publish};
use code_emit::emit;
use ground_net::Net;
use std::alloc::{AllocError, Global};

/// Adds code that publishes what the registers of these numbers hold next, in order, each from its word on.
pub fn publish_registers(
    alloc: Global,
    draft: &mut Draft,
    sources: &Sources,
    net: &Net,
    registers: &[(u32, u32)],
) -> Result<(), AllocError>
    requires shaped { All (λ both. IsNextShaped net.now sources.now both.0) registers.now }
    requires words { All (λ both. both.1 ≡ register_word net.now both.0) registers.now }
    ensures publishes { OnOk result (PublishesSinks net.now sources.now (map (λ both. A_register both.0) registers.now) draft.old draft.new) }
    ensures evaluates { OnOk result (EvaluatesAll sources.now (flat_map (λ both. register_groups net.now both.0) registers.now) draft.old draft.new) }
{
    for both in registers {
        publish_register(alloc, draft, sources, net, *both)?;
    }
    Ok(())
}

/// Adds code that publishes what a register holds next.
fn publish_register(
    alloc: Global,
    draft: &mut Draft,
    sources: &Sources,
    net: &Net,
    numbers: (u32, u32),
) -> Result<(), AllocError>
    requires shaped { IsNextShaped net.now sources.now numbers.0 }
    requires word { numbers.1 ≡ register_word net.now numbers.0 }
    ensures publishes { OnOk result (PublishesSinks net.now sources.now (A_register numbers.0 ∷ []) draft.old draft.new) }
    ensures evaluates { OnOk result (EvaluatesAll sources.now (register_groups net.now numbers.0) draft.old draft.new) }
{
    let (number, word) = numbers;
    let Some(register) = net.registers.get(number as usize) else {
        unreachable!();
    };
    let next = next_ground(alloc, net, register)?;
    let location = emit(alloc, draft, sources, &next)?;
    publish(draft, location, word)
}
