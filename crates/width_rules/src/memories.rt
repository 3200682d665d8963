//! The widths of memories.

ghost use Rattle.std.specs.Prelude.{◌≡◌, ◌++◌, ◌∷◌, [], ◌&&◌, flat_map, OnOk, IfOk};
ghost use Rattle.std.specs.List.{list_any};
ghost use Rattle.fir_types.specs.Memories.{depth_in, element_of, first_or};
ghost use Rattle.width_rules.specs.Circuits.{memory_slots};
ghost use Rattle.fir_tree.specs.Parts.{source_of};
ghost use Rattle.fir_types.specs.Bundles.{address_bits, memory_of};
ghost use Rattle.width_rules.specs.Layers.{line_widths, mask_widths};
ghost use Rattle.width_rules.specs.Pieces.{mode_lists, line_lists, joined};
ghost use Rattle.width_rules.specs.Targets.{has_variable, is_port};

use crate::indexed::{Indexed, has_variable};
use crate::sizes::push_mask;
use crate::slot::Slot;
use bit_words::{List, Shared, SharedList};
use fir_tree::Names;
use fir_tree::steps::no_part;
use fir_types::{FirType, MemLine, Memory, PortMode, address_width, depth_of, element_of};
use std::alloc::{AllocError, Global};
use type_index::KnownType;

/// The widths that the ports of a memory share: an address and an enable, an element, one bit, and a mask.
#[derive(Drop)]
pub struct PortWidths {
    pub first: SharedList<Slot>,
    pub element: SharedList<Slot>,
    pub bit: SharedList<Slot>,
    pub mask: SharedList<Slot>,
}

/// A memory whose elements have these widths. Takes time and memory in proportion to its ports and its elements' places.
pub fn memory_of_slots(
    alloc: Global,
    names: &Names,
    memory: &Memory,
    slots: List<Slot>,
) -> Result<Indexed, AllocError>
    ensures { IfOk result (λ component. component ≡ record { part = source_of (memory_of memory.now); slots = memory_slots memory.now slots }) }
{
    let empty = no_part(alloc)?.typ;
    let lines = memory.lines.as_slice();
    let element = element_of(lines, &empty);
    let varies = may_vary(lines, slots.as_slice());
    let widths = port_widths(alloc, depth_of(lines), element, slots)?;
    let lists = port_lists(lines, List::new(alloc), &widths)?;
    let known = KnownType::of_memory(alloc, names, memory)?;
    Indexed::of_lists(alloc, known, lists, varies)
}

/// Whether a port has a width that is a variable.
fn may_vary(lines: &[MemLine], slots: &[Slot]) -> bool
    ensures { result ≡ (list_any is_port lines.now && has_variable slots.now) }
{
    has_port(lines) && has_variable(slots)
}

/// Whether a line declares a port.
pub fn has_port(lines: &[MemLine]) -> bool
    ensures { result ≡ list_any is_port lines.now }
{
    lines
        .iter()
        .any(|line| matches!(line, MemLine::MemPort(_, _, _)))
}

/// The widths of the ports of a memory of this depth, whose elements have this type and these widths.
fn port_widths(
    alloc: Global,
    depth: u128,
    element: &FirType,
    slots: List<Slot>,
) -> Result<PortWidths, AllocError>
    ensures { IfOk result (λ widths. widths ≡ record { first = Slot.Fixed (address_bits depth) ∷ Slot.Fixed 1 ∷ []; element = slots; bit = Slot.Fixed 1 ∷ []; mask = mask_widths element.now }) }
{
    let mut first = List::new(alloc);
    first.push(Slot::Fixed(address_bits(depth)))?;
    first.push(Slot::Fixed(1))?;
    let mut bit = List::new(alloc);
    bit.push(Slot::Fixed(1))?;
    let mut mask = List::new(alloc);
    push_mask(&mut mask, element)?;
    Ok(PortWidths {
        first: Shared::new(alloc, first)?,
        element: Shared::new(alloc, slots)?,
        bit: Shared::new(alloc, bit)?,
        mask: Shared::new(alloc, mask)?,
    })
}

/// The bits of an address, which are at most 128.
#[tactic(auto, using(crate::proofs::Capped::address_small))]
fn address_bits(depth: u128) -> u8
    ensures { result ≡ address_bits depth }
{
    address_width(depth) as u8
}

/// The lists of all ports behind others.
fn port_lists(
    lines: &[MemLine],
    before: List<SharedList<Slot>>,
    widths: &PortWidths,
) -> Result<List<SharedList<Slot>>, AllocError>
    ensures { IfOk result (λ lists. lists ≡ before ++ flat_map (line_lists widths.now) lines.now) }
{
    let mut lists = before;
    for line in lines {
        push_line(&mut lists, line, widths)?;
    }
    Ok(lists)
}

fn push_line(
    lists: &mut List<SharedList<Slot>>,
    line: &MemLine,
    widths: &PortWidths,
) -> Result<(), AllocError>
    ensures { OnOk result (lists.new ≡ lists.old ++ line_lists widths.now line.now) }
{
    match line {
        MemLine::MemPort(_, mode, _) => push_mode(lists, *mode, widths),
        _ => Ok(()),
    }
}

fn push_mode(
    lists: &mut List<SharedList<Slot>>,
    mode: PortMode,
    widths: &PortWidths,
) -> Result<(), AllocError>
    ensures { OnOk result (lists.new ≡ lists.old ++ mode_lists widths.now mode) }
{
    lists.push(widths.first.share()?)?;
    lists.push(widths.element.share()?)?;
    match mode {
        PortMode::Reader => Ok(()),
        PortMode::Writer => lists.push(widths.mask.share()?),
        PortMode::ReadWriter => {
            lists.push(widths.bit.share()?)?;
            lists.push(widths.element.share()?)?;
            lists.push(widths.mask.share()?)
        }
    }
}
