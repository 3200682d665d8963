//! The drivers of nets.

ghost use Rattle.std.specs.Prelude.{◌≡◌, ◌≢◌, ◌<◌, ℕ, length, slice_get, Option, Some, None, IfOk};
ghost use Rattle.ground_net.specs.declared.circuit.GroundLeaf.{GroundLeaf as TheLeaf};
ghost use Rattle.ground_net.specs.Reads.{lone_driver};
ghost use Rattle.memory_ports.specs.declared.reads.ReadData.{ReadData as TheData};
ghost use Rattle.memory_ports.specs.Placing.{own_driver, driver_for};

use crate::reads::ReadData;
use bit_words::List;
use ground_net::{FlatCircuit, Ground, GroundRole, copied};
use std::alloc::{AllocError, Global};
use std::mem;

/// The driver, or none, of each leaf, where the leaves show these data.
pub fn placed_drivers(
    alloc: Global,
    flat: &FlatCircuit,
    mut marks: Vec<Option<ReadData>>,
) -> Result<List<Option<Ground>>, AllocError>
    requires { length marks.items ≡ length flat.now.leaves }
    ensures counted { IfOk result (λ drivers. length drivers ≡ length flat.now.leaves) }
    ensures each { IfOk result (λ drivers. (x : ℕ) (leaf : TheLeaf) (shown : Option TheData) → slice_get flat.now.leaves x ≡ Some leaf → slice_get marks.items x ≡ Some shown → slice_get drivers x ≡ Some (driver_for leaf.role shown (own_driver flat.now x))) }
{
    let mut drivers = List::new(alloc);
    for (number, leaf) in flat.leaves.as_slice().iter().enumerate() {
        let shown = take_data(&mut marks, number);
        let driver = driver_of(alloc, flat, number, leaf.role, shown)?;
        drivers.push(driver)?;
    }
    Ok(drivers)
}

/// Takes the data of a leaf out.
fn take_data(marks: &mut Vec<Option<ReadData>>, number: usize) -> Option<ReadData>
    requires { number < length marks.old.items }
    ensures counted { length marks.new.items ≡ length marks.old.items }
    ensures taken { slice_get marks.old.items number ≡ Some result }
    ensures others { (x : ℕ) → x ≢ number → slice_get marks.new.items x ≡ slice_get marks.old.items x }
{
    mem::replace(&mut marks[number], None)
}

/// The driver of a leaf that shows these data.
fn driver_of(
    alloc: Global,
    flat: &FlatCircuit,
    number: usize,
    role: GroundRole,
    shown: Option<ReadData>,
) -> Result<Option<Ground>, AllocError>
    ensures { IfOk result (λ driver. driver ≡ driver_for role shown (own_driver flat.now number)) }
{
    match role {
        GroundRole::Input | GroundRole::Clock => Ok(None),
        GroundRole::Register => copied_driver(alloc, flat, number),
        GroundRole::Plain => match shown {
            Some(ReadData::Load(load)) => Ok(Some(load)),
            Some(ReadData::Captured) => Ok(None),
            None => copied_driver(alloc, flat, number),
        },
    }
}

/// A copy of the driver that a leaf has in the circuit.
fn copied_driver(
    alloc: Global,
    flat: &FlatCircuit,
    number: usize,
) -> Result<Option<Ground>, AllocError>
    ensures { IfOk result (λ driver. driver ≡ own_driver flat.now number) }
{
    match flat.drivers.get(number) {
        Some(Some(driver)) => {
            let driver = copied(alloc, driver)?;
            Ok(Some(driver))
        }
        _ => Ok(None),
    }
}
