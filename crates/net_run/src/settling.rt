//! The values of a cycle.

ghost use Rattle.std.specs.Prelude.{◌≡◌, ◌<◌, IfOk, IsSome, Some, option_map, length};
ghost use Rattle.ground_net.specs.declared.ground.Ground.{Ground as TheGround};
ghost use Rattle.ground_net.specs.Grounds.{value};
ghost use Rattle.ground_net.specs.Reads.{IsOrder, driver_of};
ghost use Rattle.ground_net.specs.Cycles.{NetState, Inputs, Settled};
ghost use Rattle.ground_net.specs.Nets.{IsNet, table_of};
ghost use Rattle.ground_net.specs.Shapes.{shape};
ghost use Rattle.net_run.specs.Seeing.{AreSeen, seen, value_at as value_in};
ghost use Rattle.net_run.specs.Keeping.{IsKept, AreInputValues, StandsForState, AreGiven, before_assignments, before_all, put_driven};

use crate::evaluating::evaluate;
use crate::kept::Kept;
use crate::seen::{Seen, value_at, zero};
use bit_words::{List, Value};
use ground_net::{Leaf, Net, Ordered, Role};
use std::alloc::{AllocError, Global};

/// The values that settle in a cycle that begins with what is kept and has these inputs, leaf by leaf.
pub fn settle(
    alloc: Global,
    ordered: &Ordered,
    kept: &Kept,
    inputs: &[Value],
) -> Result<Vec<Value>, AllocError>
    requires net { IsNet ordered.now.net }
    requires order { IsOrder ordered.now.net ordered.now.sequence }
    requires kept { StandsForState ordered.now.net kept.now }
    requires inputs { AreGiven ordered.now.net inputs.now }
    ensures settled { (s : NetState) (given : Inputs) → IsKept ordered.now.net s kept.now → AreInputValues ordered.now.net given inputs.now → IfOk result (λ values. Settled ordered.now.net s given (value_in values.items)) }
    ensures seen { IfOk result (λ values. AreSeen ordered.now.net values.items kept.now.contents) }
    ensures long { IfOk result (λ values. length values.items ≡ length ordered.now.net.leaves) }
{
    let mut values = before(alloc, &ordered.net, kept, inputs)?;
    let contents = kept.contents.as_slice();
    for leaf in ordered.sequence.as_slice() {
        assign(&ordered.net, &mut values, contents, *leaf);
    }
    Ok(values)
}

/// What the leaves have before the assignments are evaluated.
fn before(alloc: Global, net: &Net, kept: &Kept, inputs: &[Value]) -> Result<Vec<Value>, AllocError>
    ensures { IfOk result (λ values. values.items ≡ before_all net.now kept.now inputs.now) }
{
    let mut values = Vec::new(alloc);
    for leaf in net.leaves.as_slice() {
        values.push(before_one(leaf, kept, inputs))?;
    }
    Ok(values)
}

/// What a leaf has before the assignments are evaluated.
fn before_one(leaf: &Leaf, kept: &Kept, inputs: &[Value]) -> Value
    ensures { result ≡ before_assignments kept.now inputs.now leaf.now leaf.now.role }
{
    match leaf.role {
        Role::Input(number) => value_at(inputs, number),
        Role::Register(number) => value_at(kept.registers.as_slice(), number),
        Role::Captured(number) => value_at(kept.captured.as_slice(), number),
        Role::Clock | Role::Assigned => zero(leaf.kind, leaf.width),
    }
}

/// Gives a leaf its driver's value.
fn assign(net: &Net, values: &mut Vec<Value>, contents: &[List<Value>], leaf: u32)
    requires long { leaf < length values.old.items }
    requires seen { AreSeen net.now values.old.items contents.now }
    requires shaped { (driver : TheGround) → driver_of net.now leaf ≡ Some driver → IsSome (shape driver (table_of net.now)) }
    ensures { values.new.items ≡ put_driven (option_map (λ driver. value driver (seen net.now values.old.items contents.now)) (driver_of net.now leaf)) leaf values.old.items }
{
    if let Some(value) = driven(net, values.as_slice(), contents, leaf) {
        values[leaf as usize] = value;
    }
}

/// The value of a leaf's driver.
pub fn driven(net: &Net, values: &[Value], contents: &[List<Value>], leaf: u32) -> Option<Value>
    requires seen { AreSeen net.now values.now contents.now }
    requires shaped { (driver : TheGround) → driver_of net.now leaf ≡ Some driver → IsSome (shape driver (table_of net.now)) }
    ensures { result ≡ option_map (λ driver. value driver (seen net.now values.now contents.now)) (driver_of net.now leaf) }
{
    let cycle = Seen {
        net,
        values,
        contents,
    };
    match net.drivers.get(leaf as usize) {
        Some(Some(driver)) => Some(evaluate(driver, &cycle)),
        _ => None,
    }
}
