//! What the ports of memories show (FIRRTL specification 3.0, "Memories").

ghost use Rattle.std.specs.Prelude.{◌≡◌, IfOk, IfSome, IfNone, Some, None, filter_map};
ghost use Rattle.bit_words.specs.Values.{integer_of};
ghost use Rattle.fir_types.specs.Memories.{first_or, read_latency_in};
ghost use Rattle.fir_types.specs.declared.memory.Memory.{Memory as AMemory};
ghost use Rattle.fir_meaning.specs.Components.{A_memory};
ghost use Rattle.fir_meaning.specs.Values.{scene_of};
ghost use Rattle.fir_meaning.specs.MemoryPorts.{read_by};
ghost use Rattle.settling_laws.specs.Sweeps.{of_read};
ghost use Rattle.plain_cycle.specs.Layouts.{Located};
ghost use Rattle.plain_values.specs.declared.site.Site.{Site as ASite};
ghost use Rattle.plain_values.specs.Sites.{site_at};
ghost use Rattle.plain_values.specs.Contents.{contents_of, stored_leaves};
ghost use Rattle.plain_cycle.specs.Runs.{IsRun, IsPart, design_in, state_at, given_at, values_at, contents_on, shown_of};

use crate::declarations::Sort;
use crate::finding::{captured, nothing};
use crate::run::{Moment, Part, Run};
use bit_words::{List, Value};
use fir_types::{MemLine, Memory, PathStep, TypeLeaf};
use plain_values::sights::stands_at;
use plain_values::tree_drives::nothing_held_is_zero;
use plain_values::{SeenMemory, Site, View, read_by, stored_leaves};
use std::alloc::{AllocError, Global};

/// What a leaf of a memory that is read shows: the contents at the beginning of the cycle for a latency of 0, and else what was
/// captured.
pub fn of_memory(
    alloc: Global,
    run: &Run<'_>,
    moment: &Moment<'_>,
    part: &Part<'_>,
    leaf: &TypeLeaf,
) -> Result<Value, AllocError>
    requires run { IsRun run.now }
    requires part { (x : Located) × IsPart (design_in run.now) x part.now }
    ensures { IfOk result (λ v. (x : Located) → IsPart (design_in run.now) x part.now → (memory : AMemory) → x.c.declaration.sort ≡ A_memory memory → integer_of v ≡ of_read (design_in run.now) (state_at run.now moment.now) (given_at run.now moment.now) (values_at run.now moment.now) memory x.path (x.m, x.c) leaf.now.path) }
{
    let Sort::Memory(memory) = part.declaration.sort else {
        return Ok(nothing());
    };
    let Some((port, way)) = shown_of(leaf.path.as_slice()) else {
        return Ok(nothing());
    };
    if latency_of(memory.lines.as_slice()) == 0 {
        return read_now(alloc, run, moment, part, (port, way));
    }
    let component = (part.site.path.as_slice(), part.site.name);
    Ok(captured(
        run.sites,
        moment.held.captured.as_slice(),
        component,
        port,
        way,
    ))
}

/// The port and the way of an element that a leaf of a memory shows, by the path to it.
fn shown_of(path: &[PathStep]) -> Option<(u32, &[PathStep])>
    ensures some { IfSome result (λ read. Some (read.0, read.1.now) ≡ shown_of path.now) }
    ensures none { IfNone result (None ≡ shown_of path.now) }
{
    match path {
        [PathStep::Field(port), PathStep::Field(_), way @ ..] => Some((*port, way)),
        _ => None,
    }
}

/// The latency of reads, by the first line that gives it, or 0 where there is none.
pub fn latency_of(lines: &[MemLine]) -> u128
    ensures { result ≡ first_or 0 (filter_map read_latency_in lines.now) }
{
    for line in lines {
        if let MemLine::ReadLatency(_, latency) = line {
            return *latency;
        }
    }
    0
}

/// The elements of the first memory of a name at a path.
pub fn elements_on<'a>(
    sites: &[Site],
    contents: &'a [List<List<Value>>],
    path: &[u32],
    name: u32,
) -> &'a [List<Value>]
    ensures { (site : ASite) → site_at sites.now path.now name ≡ Some site → contents_on sites.now contents.now path.now name ≡ contents_of (stored_leaves site.leaves) result.now }
{
    nothing_held_is_zero();
    for at in 0..sites.len().min(contents.len()) {
        if stands_at(&sites[at], path, name) {
            return contents[at].as_slice();
        }
    }
    &[]
}

/// What a port of a name reads in the cycle at a way of an element.
fn read_now(
    alloc: Global,
    run: &Run<'_>,
    moment: &Moment<'_>,
    part: &Part<'_>,
    read: (u32, &[PathStep]),
) -> Result<Value, AllocError>
    requires run { IsRun run.now }
    requires part { (x : Located) × IsPart (design_in run.now) x part.now }
    ensures { IfOk result (λ v. (x : Located) → IsPart (design_in run.now) x part.now → (memory : AMemory) → x.c.declaration.sort ≡ A_memory memory → integer_of v ≡ read_by memory ((scene_of x.m x.path (values_at run.now moment.now)).integers x.c.declaration.name) ((state_at run.now moment.now).contents x.path x.c.declaration.name) read.entry.0 read.entry.1.now) }
{
    let Sort::Memory(memory) = part.declaration.sort else {
        return Ok(nothing());
    };
    let path = part.site.path.as_slice();
    let contents = moment.held.contents.as_slice();
    let elements = elements_on(run.sites, contents, path, part.site.name);
    let leaves = stored_leaves(alloc, part.site.leaves.as_slice())?;
    let view = View {
        sites: run.sites,
        values: moment.values,
        path,
    };
    let seen = SeenMemory {
        view,
        memory,
        leaves: leaves.as_slice(),
    };
    read_by(alloc, &seen, elements, read.0, read.1)
}
