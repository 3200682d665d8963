//! A body that is made by hand, and the drivers of its leaves.

ghost use Rattle.std.specs.Prelude.{◌<◌, ◌^◌, length, All, IfOk};

use base_cases::module_alone;
use bit_words::{Kind, List, from_words};
use expand_whens::expand;
use ground_net::{Ground, GroundCircuit, GroundLeaf, GroundRole, GroundStmt};
use place_text::Place;
use std::alloc::{AllocError, Global};

/// An input, and a leaf that is connected to 7.
fn circuit_of(alloc: Global) -> Result<GroundCircuit, AllocError>
    ensures { IfOk result (λ ground. All (λ m. length m.leaves < 2 ^ 32) ground.modules) }
{
    let mut leaves = List::new(alloc);
    for role in [GroundRole::Input, GroundRole::Plain] {
        leaves.push(GroundLeaf {
            name: List::new(alloc),
            kind: Kind::Unsigned,
            width: 8,
            place: Place { line: 1, column: 1 },
            role,
        })?;
    }
    if leaves.len() > 1000 {
        return Err(AllocError);
    }
    let mut body = List::new(alloc);
    let seven = Ground::Const(from_words(Kind::Unsigned, 8, 7, 0));
    body.push(GroundStmt::Connect(1, List::new(alloc), seven))?;
    module_alone(alloc, leaves, body)
}

/// For each leaf the constant that drives it, if it is one.
fn constants(alloc: Global) -> Option<Vec<Option<u128>>> {
    let ground = circuit_of(alloc).ok()?;
    let driven = expand(alloc, &ground).ok()?;
    let mut told = Vec::new(alloc);
    for driver in driven.modules.as_slice().first()?.drivers.as_slice() {
        match driver {
            Some(Ground::Const(value)) => told.push(Some(value.bits)).ok()?,
            _ => told.push(None).ok()?,
        }
    }
    Some(told)
}

#[test]
fn a_connected_leaf_has_a_driver(rt: HostRuntime) {
    match constants(rt.alloc()) {
        Some(told) => assert_eq!(rt; told.as_slice(), [None, Some(7)].as_slice()),
        None => assert!(rt; false, "no drivers"),
    }
}
