//! Nets: the leaves of a whole run with one driver each, the registers and the memories.

ghost use Rattle.std.specs.Prelude.{◌≤◌};

use crate::Ground;
use bit_words::{Kind, List, Text};
use place_text::Place;

/// A leaf of a run. The name is that of the instances on its path and its own, joined by dots; the place is that of its
/// component's name.
///
/// The width is at most 128.
#[derive(Drop)]
pub struct Leaf {
    pub name: Text,
    pub kind: Kind,
    pub width: u8,
    pub place: Place,
    pub role: Role,
    ghost narrow: { width ≤ 128 },
}

/// What a leaf is in a cycle. Leaves of a role with a number are counted from 0 in flat order.
#[derive(Clone, Copy)]
pub enum Role {
    /// A leaf of an input of main, which is given.
    Input(u32),
    /// A Clock, which has no value.
    Clock,
    /// It has its driver's value.
    Assigned,
    /// A leaf of a register, which shows what the register holds.
    Register(u32),
    /// A leaf that shows what a memory's port has read at the end of the cycle before.
    Captured(u32),
}

/// A run as leaves, registers and memories. The leaves of main's ports come first; there is one driver, or none, for each
/// leaf.
#[derive(Drop)]
pub struct Net {
    /// How many of the leaves are those of main's ports.
    pub ports: u32,
    pub leaves: List<Leaf>,
    pub drivers: List<Option<Ground>>,
    pub registers: List<NetRegister>,
    pub memories: List<NetMemory>,
}

/// A leaf of a register. Its driver is what its statements leave; without one it keeps its value.
#[derive(Drop)]
pub struct NetRegister {
    pub leaf: u32,
    pub reset: Option<NetReset>,
}

/// A reset: where it is 1, the register takes `init`.
#[derive(Drop)]
pub struct NetReset {
    pub reset: Ground,
    pub init: Ground,
}

/// A memory of so many elements.
#[derive(Drop)]
pub struct NetMemory {
    pub name: Text,
    /// How many leaves stand before the memory in flat order. A memory without ports has no leaf that would say it.
    pub before: u32,
    pub depth: u128,
    /// The number of its first word.
    pub word: u32,
    /// The leaves of an element.
    pub elements: List<ElementLeaf>,
    pub ports: List<NetPort>,
}

/// A leaf of an element, with the text of the way to it.
///
/// The width is at most 128.
#[derive(Drop)]
pub struct ElementLeaf {
    pub path: Text,
    pub kind: Kind,
    pub width: u8,
    ghost narrow: { width ≤ 128 },
}

/// A port of a memory, with the numbers of its leaves.
#[derive(Drop)]
pub struct NetPort {
    pub addr: u32,
    pub en: u32,
    /// The `wmode` of a readwriter.
    pub mode: Option<u32>,
    /// Of a writer or a readwriter.
    pub write: Option<NetWrite>,
    /// Of a reader or a readwriter.
    pub read: Option<NetRead>,
}

/// What a port writes: the numbers of its data and of its masks, leaf by leaf of an element.
#[derive(Drop)]
pub struct NetWrite {
    pub leaves: List<u32>,
    pub masks: List<u32>,
}

/// What a port reads: the numbers of its data, leaf by leaf of an element.
#[derive(Drop)]
pub struct NetRead {
    pub leaves: List<u32>,
    /// Whether the data come a cycle later.
    pub captured: bool,
    /// Whether they are then taken after the writes of the cycle.
    pub after: bool,
}

/// A net with its assignments in an order: each stands behind those that it reads.
#[derive(Drop)]
pub struct Ordered {
    pub net: Net,
    pub sequence: List<u32>,
}

/// The partitions of a net, and how many assignments they need together, each counted once.
#[derive(Drop)]
pub struct Cut {
    pub parts: List<CutPart>,
    pub needed: u32,
}

/// A partition: the numbers of its sinks, and the assignments that they need.
#[derive(Drop)]
pub struct CutPart {
    pub sinks: List<u32>,
    pub assignments: List<u32>,
}

/// The leaves by which a run is fed and watched, and the names of all leaves of main's ports.
#[derive(Drop)]
pub struct Ports {
    pub inputs: List<PortLeaf>,
    pub watched: List<PortLeaf>,
    pub names: List<Text>,
}

/// A leaf of a port of main, with its number among the leaves of the net.
///
/// The width is at most 128.
#[derive(Drop)]
pub struct PortLeaf {
    pub name: Text,
    pub kind: Kind,
    pub width: u8,
    pub leaf: u32,
    ghost narrow: { width ≤ 128 },
}
