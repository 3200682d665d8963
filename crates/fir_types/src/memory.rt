//! Memories (FIRRTL specification 3.0, "Memories").

use crate::fir_type::FirType;
use crate::name::Name;
use bit_words::List;
use place_text::Place;

/// A memory as a circuit declares it: its lines in text order. Which lines it needs, and how often, is judged later.
#[derive(Drop)]
pub struct Memory {
    pub name: Name,
    pub lines: List<MemLine>,
}

/// A line of a memory, with the place of its first word.
#[derive(Drop)]
pub enum MemLine {
    /// `data-type`: the type of an element.
    Element(Place, FirType),
    /// `depth`: the number of elements.
    Depth(Place, u128),
    /// `read-latency`, in cycles.
    ReadLatency(Place, u128),
    /// `write-latency`, in cycles.
    WriteLatency(Place, u128),
    /// `read-under-write`: what a read gives in the cycle of a write to the same element.
    ReadUnder(Place, Under),
    /// A port of this name.
    MemPort(Place, PortMode, Name),
}

/// What a port of a memory does.
#[derive(Clone, Copy)]
pub enum PortMode {
    Reader,
    Writer,
    ReadWriter,
}

/// What a read gives in the cycle of a write to the same element.
#[derive(Clone, Copy)]
pub enum Under {
    /// What the element held before the write.
    Old,
    /// What is written.
    New,
    /// Either of them.
    Undefined,
}
