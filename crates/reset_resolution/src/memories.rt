//! The places of memories.

ghost use Rattle.std.specs.Prelude.{◌≡◌, ◌+◌, ◌++◌, OnOk};
ghost use Rattle.reset_search.specs.Feeds.{own_count, port_spots, line_spots, line_count, lines_spots, lines_count};

use crate::ranges::{push_declared, push_spots, spend};
use bit_words::List;
use fir_types::{MemLine, PortMode};
use reset_search::Spot;
use std::alloc::AllocError;

/// The places that the ports of a memory share, which are those of an element, and how many places a mask has.
#[derive(Clone, Copy)]
pub struct Element<'a> {
    pub spots: &'a [Spot],
    pub mask: usize,
}

/// The number of the next place of the text, and the units that are left.
#[derive(Clone, Copy)]
pub struct Numbered {
    pub next: usize,
    pub left: usize,
}

/// Adds the places of the ports of a memory, where the own ones of its ports have the next numbers.
pub fn push_lines(
    spots: &mut List<Spot>,
    numbered: &mut Numbered,
    element: Element<'_>,
    lines: &[MemLine],
) -> Result<(), AllocError>
    ensures spots { OnOk result (spots.new ≡ spots.old ++ lines_spots element.entry.spots.now element.entry.mask numbered.old.next lines.now) }
    ensures next { OnOk result (numbered.new.next ≡ numbered.old.next + lines_count element.entry.mask lines.now) }
{
    for line in lines {
        push_line(spots, numbered, element, line)?;
    }
    Ok(())
}

fn push_line(
    spots: &mut List<Spot>,
    numbered: &mut Numbered,
    element: Element<'_>,
    line: &MemLine,
) -> Result<(), AllocError>
    ensures spots { OnOk result (spots.new ≡ spots.old ++ line_spots element.entry.spots.now element.entry.mask numbered.old.next line.now) }
    ensures next { OnOk result (numbered.new.next ≡ numbered.old.next + line_count element.entry.mask line.now) }
{
    match line {
        MemLine::MemPort(_, mode, _) => push_port(spots, numbered, element, *mode),
        _ => Ok(()),
    }
}

fn push_port(
    spots: &mut List<Spot>,
    numbered: &mut Numbered,
    element: Element<'_>,
    mode: PortMode,
) -> Result<(), AllocError>
    ensures spots { OnOk result (spots.new ≡ spots.old ++ port_spots element.entry.spots.now element.entry.mask numbered.old.next mode) }
    ensures next { OnOk result (numbered.new.next ≡ numbered.old.next + own_count element.entry.mask mode) }
{
    spend(&mut numbered.left, element.spots.len())?;
    spend(&mut numbered.left, element.spots.len())?;
    push_declared(spots, &mut numbered.next, 2)?;
    push_spots(spots, element.spots)?;
    match mode {
        PortMode::Reader => Ok(()),
        PortMode::Writer => push_declared(spots, &mut numbered.next, element.mask),
        PortMode::ReadWriter => {
            push_declared(spots, &mut numbered.next, 1)?;
            push_spots(spots, element.spots)?;
            push_declared(spots, &mut numbered.next, element.mask)
        }
    }
}
