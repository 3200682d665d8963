//! A flat circuit with a memory that is made by hand, and its net.

use super::telling::expect;
use bit_words::{Kind, List};
use ground_net::{
    ElementLeaf, FlatCircuit, Ground, GroundLeaf, GroundMemory, GroundRole, Net, NetPort, NetRead,
    Role,
};
use memory_ports::place_memories;
use place_text::Place;
use std::alloc::{AllocError, Global};
use std::io::Write;

/// The leaves behind an input: `addr`, `en`, `clk` and the data of a reader.
const ROLES: [GroundRole; 5] = [
    GroundRole::Input,
    GroundRole::Plain,
    GroundRole::Plain,
    GroundRole::Clock,
    GroundRole::Plain,
];

fn leaves_of(alloc: Global) -> Result<List<GroundLeaf>, AllocError> {
    let mut leaves = List::new(alloc);
    for role in ROLES {
        leaves.push(GroundLeaf {
            name: List::new(alloc),
            kind: Kind::Unsigned,
            width: 1,
            place: Place { line: 1, column: 1 },
            role,
        })?;
    }
    Ok(leaves)
}

/// A memory of two elements of one bit, with the reader.
fn memory(alloc: Global, captured: bool) -> Result<GroundMemory, AllocError> {
    let mut elements = List::new(alloc);
    elements.push(ElementLeaf {
        path: List::new(alloc),
        kind: Kind::Unsigned,
        width: 1,
    })?;
    let mut ports = List::new(alloc);
    ports.push(NetPort {
        addr: 1,
        en: 2,
        mode: None,
        write: None,
        read: Some(NetRead {
            leaves: List::from_slice(alloc, &[4])?,
            captured,
            after: false,
        }),
    })?;
    Ok(GroundMemory {
        name: List::new(alloc),
        first: 1,
        depth: 2,
        elements,
        ports,
    })
}

/// The net of the circuit, in which no leaf has a driver.
fn placed(alloc: Global, captured: bool) -> Result<Net, AllocError> {
    let mut drivers: List<Option<Ground>> = List::new(alloc);
    for _leaf in ROLES {
        drivers.push(None)?;
    }
    let mut memories = List::new(alloc);
    memories.push(memory(alloc, captured)?)?;
    let flat = FlatCircuit {
        ports: 1,
        leaves: leaves_of(alloc)?,
        drivers,
        registers: List::new(alloc),
        memories,
    };
    place_memories(alloc, &flat)
}

fn role_name(role: Role) -> &'static str {
    match role {
        Role::Input(_) => "input",
        Role::Clock => "clock",
        Role::Assigned => "assigned",
        Role::Register(_) => "register",
        Role::Captured(_) => "captured",
    }
}

/// The roles of the leaves, and which of them are loads of how many leaves.
fn told_leaves(alloc: Global, captured: bool) -> Option<Vec<u8>> {
    let net = placed(alloc, captured).ok()?;
    let mut text = Vec::new(alloc);
    let drivers = net.drivers.as_slice();
    for (number, leaf) in net.leaves.as_slice().iter().enumerate() {
        write!(text, "{}", role_name(leaf.role)).ok()?;
        if let Some(Ground::Load(_, _, items)) = drivers.get(number)? {
            write!(text, " {}", items.len()).ok()?;
        }
        text.push(b';').ok()?;
    }
    Some(text)
}

#[test]
fn data_are_loads_or_captured(rt: HostRuntime) {
    for (captured, wanted) in [
        (false, "input;assigned;assigned;clock;assigned 2;"),
        (true, "input;assigned;assigned;clock;captured;"),
    ] {
        let told = told_leaves(rt.alloc(), captured);
        expect(&rt, told, "leaves", wanted);
    }
}
