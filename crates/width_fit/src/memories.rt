//! The fitted types of memories.

ghost use Rattle.std.specs.Prelude.{◌≡◌, ◌&&◌, IfOk};
ghost use Rattle.std.specs.List.{list_any};
ghost use Rattle.fir_types.specs.Bundles.{memory_of};
ghost use Rattle.width_rules.specs.Targets.{is_port};
ghost use Rattle.width_fit.specs.Judging.{is_over};
ghost use Rattle.width_fit.specs.Memories.{line_with, memory_with};

use bit_words::List;
use fir_types::{FirType, MemLine, Memory, copy, memory_type};
use part_fits::fits::Fit;
use part_fits::widths::any_over;
use prim_ops::Width;
use std::alloc::{AllocError, Global};
use width_rules::memories::has_port;

/// The fitted type of a memory whose elements have this fitted type and these widths.
pub fn fit_of_memory(
    alloc: Global,
    memory: &Memory,
    element: &FirType,
    widths: &[Width],
) -> Result<Fit, AllocError>
    ensures typ { IfOk result (λ fit. fit.typ ≡ memory_of (memory_with element.now memory.now)) }
    ensures over { IfOk result (λ fit. fit.is_over ≡ (list_any is_port memory.now.lines && list_any is_over widths.now)) }
{
    Ok(Fit {
        typ: type_with(alloc, memory, element)?,
        is_over: has_port(memory.lines.as_slice()) && any_over(widths),
    })
}

/// The type of a memory whose elements have this type. Takes time and memory in proportion to the type and to the memory's lines.
fn type_with(alloc: Global, memory: &Memory, element: &FirType) -> Result<FirType, AllocError>
    ensures { IfOk result (λ typ. typ ≡ memory_of (memory_with element.now memory.now)) }
{
    let mut lines = List::new(alloc);
    for line in memory.lines.as_slice() {
        lines.push(line_with(line, element)?)?;
    }
    let name = memory.name;
    memory_type(alloc, &Memory { name, lines })
}

/// A line of a memory, which gives its elements this type where it gives them one.
fn line_with(line: &MemLine, element: &FirType) -> Result<MemLine, AllocError>
    ensures { IfOk result (λ same. same ≡ line_with element.now line.now) }
{
    match line {
        MemLine::Element(place, _) => Ok(MemLine::Element(*place, copy(element)?)),
        MemLine::Depth(place, depth) => Ok(MemLine::Depth(*place, *depth)),
        MemLine::ReadLatency(place, cycles) => Ok(MemLine::ReadLatency(*place, *cycles)),
        MemLine::WriteLatency(place, cycles) => Ok(MemLine::WriteLatency(*place, *cycles)),
        MemLine::ReadUnder(place, under) => Ok(MemLine::ReadUnder(*place, *under)),
        MemLine::MemPort(place, mode, name) => Ok(MemLine::MemPort(*place, *mode, *name)),
    }
}
