//! Circuits of ground statements, of drivers, and of flat leaves.
//!
//! The leaves of a module are numbered in text order: those of its ports first, then those of wires, registers and nodes, of
//! the ports of memories, and of instances, which have the leaves of their modules' ports.

ghost use Rattle.std.specs.Prelude.{◌≤◌};

use crate::Ground;
use crate::net::{ElementLeaf, NetPort, NetRegister};
use bit_words::{Kind, List, Text};
use place_text::Place;

/// A leaf of a module, with its name there and the place of its component's name.
///
/// The width is at most 128.
#[derive(Drop)]
pub struct GroundLeaf {
    pub name: Text,
    pub kind: Kind,
    pub width: u8,
    pub place: Place,
    pub role: GroundRole,
    ghost narrow: { width ≤ 128 },
}

/// What a leaf of a module is.
#[derive(Clone, Copy)]
pub enum GroundRole {
    /// A leaf of a port that the module only reads.
    Input,
    /// A Clock, of whatever component.
    Clock,
    /// A leaf of a register: it keeps its value where nothing is driven.
    Register,
    /// Any other leaf.
    Plain,
}

/// A statement over the leaves of a module.
#[cycle(ground_stmt)]
#[derive(Drop)]
pub enum GroundStmt {
    /// The leaf is set to the source where all of the conditions are 1.
    Connect(u32, List<Ground>, Ground),
    /// The number of leaves that are declared before it, its arms in order, and the statements of its `else`.
    When(u32, List<GroundArm>, List<GroundStmt>),
}

/// An arm.
#[cycle(ground_stmt)]
#[derive(Drop)]
pub struct GroundArm {
    pub condition: Ground,
    pub body: List<GroundStmt>,
}

/// An instance of the module of this number: its leaves are those of the module's ports, from `first` on. So many of its
/// holder's memories stand before it.
#[derive(Drop)]
pub struct GroundInstance {
    pub name: Text,
    pub first: u32,
    pub memories: u32,
    pub module: u32,
}

/// A memory of a module: `first` leaves stand before it. The numbers of its ports' leaves are those of the module.
#[derive(Drop)]
pub struct GroundMemory {
    pub name: Text,
    pub first: u32,
    pub depth: u128,
    /// The leaves of an element.
    pub elements: List<ElementLeaf>,
    pub ports: List<NetPort>,
}

/// A module as ground statements. Its first leaves are those of its ports. Its registers, memories and instances stand in
/// text order.
#[derive(Drop)]
pub struct GroundModule {
    /// How many of the leaves are those of its ports.
    pub ports: u32,
    pub leaves: List<GroundLeaf>,
    pub body: List<GroundStmt>,
    pub registers: List<NetRegister>,
    pub memories: List<GroundMemory>,
    pub instances: List<GroundInstance>,
}

/// The modules in text order, and the number of main.
#[derive(Drop)]
pub struct GroundCircuit {
    pub modules: List<GroundModule>,
    pub main: u32,
}

/// A module as drivers: one, or none, for each leaf.
#[derive(Drop)]
pub struct DrivenModule {
    /// How many of the leaves are those of its ports.
    pub ports: u32,
    pub leaves: List<GroundLeaf>,
    pub drivers: List<Option<Ground>>,
    pub registers: List<NetRegister>,
    pub memories: List<GroundMemory>,
    pub instances: List<GroundInstance>,
}

/// The modules in text order, and the number of main.
#[derive(Drop)]
pub struct DrivenCircuit {
    pub modules: List<DrivenModule>,
    pub main: u32,
}

/// All leaves of a run in flat order, those of main's ports first, with their drivers, registers and memories. Of the leaves
/// only main's inputs are inputs.
#[derive(Drop)]
pub struct FlatCircuit {
    /// How many of the leaves are those of main's ports.
    pub ports: u32,
    pub leaves: List<GroundLeaf>,
    pub drivers: List<Option<Ground>>,
    pub registers: List<NetRegister>,
    pub memories: List<GroundMemory>,
}
