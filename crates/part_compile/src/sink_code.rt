//! The code of watched leaves and of registers.

ghost use Rattle.std.specs.Prelude.{◌≡◌, ◌<◌, ◌^◌, Some, slice_get, length, OnOk};
ghost use Rattle.ground_net.specs.Cones.{sinks, A_watched, A_register, InCone};
ghost use Rattle.code_emit.specs.Emits.{sources_table};
ghost use Rattle.part_compile.specs.Knowing.{Knows};
ghost use Rattle.part_compile.specs.PartRows.{IsPlan, IsReady, Adds};
ghost use Rattle.part_compile.specs.Groups.{ShowsLeaf, EvaluatesRegister};

use crate::spans::own_register;
use crate::work::{Made, Work};
use code_emit::emit;
use code_memories::publish_registers;
use ground_net::Ground;
use std::alloc::{AllocError, Global};

/// Adds the code of a watched leaf.
pub fn show_leaf(
    alloc: Global,
    work: &Work<'_>,
    made: &mut Made,
    leaf: u32,
    number: u32,
) -> Result<(), AllocError>
    requires plan { IsPlan work.now.plan.now.net.now work.now.plan.now.watch.now work.now.plan.now.words.now work.now.plan.now.reads.now }
    requires known { Knows work.now.plan.now.net.now (InCone work.now.plan.now.net.now (A_watched leaf)) (sources_table work.now.sources.now) }
    requires ready { IsReady work.now.plan.now.net.now work.now.sources.now made.old.draft }
    requires there { slice_get (sinks work.now.plan.now.net.now work.now.plan.now.watch.now) number ≡ Some (A_watched leaf) }
    ensures adds { OnOk result (Adds work.now.plan.now.net.now work.now.plan.now.watch.now work.now.sources.now number (A_watched leaf) made.old made.new) }
    ensures shows { OnOk result (ShowsLeaf work.now.sources.now leaf made.old made.new) }
{
    let location = emit(alloc, &mut made.draft, work.sources, &Ground::Leaf(leaf))?;
    made.shown.push(location)?;
    made.positions.push(number)?;
    Ok(())
}

/// Adds the code and the words of a register.
pub fn add_register(
    alloc: Global,
    work: &Work<'_>,
    made: &mut Made,
    register: usize,
    number: u32,
) -> Result<(), AllocError>
    requires plan { IsPlan work.now.plan.now.net.now work.now.plan.now.watch.now work.now.plan.now.words.now work.now.plan.now.reads.now }
    requires known { Knows work.now.plan.now.net.now (InCone work.now.plan.now.net.now (A_register register)) (sources_table work.now.sources.now) }
    requires ready { IsReady work.now.plan.now.net.now work.now.sources.now made.old.draft }
    requires there { slice_get (sinks work.now.plan.now.net.now work.now.plan.now.watch.now) number ≡ Some (A_register register) }
    ensures adds { OnOk result (Adds work.now.plan.now.net.now work.now.plan.now.watch.now work.now.sources.now number (A_register register) made.old made.new) }
    ensures evaluates { OnOk result (EvaluatesRegister work.now.plan.now.net.now work.now.sources.now register made.old made.new) }
{
    let net = work.plan.net;
    let words = work.plan.words;
    let place = register as u32;
    let first = words.registers.as_slice()[register];
    publish_registers(alloc, &mut made.draft, work.sources, net, &[(place, first)])?;
    own_register(&mut made.owned, net, words, register)?;
    Ok(())
}
