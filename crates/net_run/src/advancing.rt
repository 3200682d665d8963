//! What is kept after a cycle.

ghost use Rattle.std.specs.Prelude.{◌≡◌, IfOk, IsSome, Some, length};
ghost use Rattle.ground_net.specs.declared.ground.Ground.{Ground as TheGround};
ghost use Rattle.ground_net.specs.declared.net.NetReset.{NetReset as TheReset};
ghost use Rattle.ground_net.specs.Reads.{driver_of};
ghost use Rattle.ground_net.specs.Cycles.{NetState, next, instant_of};
ghost use Rattle.ground_net.specs.Nets.{IsNet, table_of};
ghost use Rattle.ground_net.specs.Shapes.{shape};
ghost use Rattle.net_run.specs.Seeing.{AreSeen, seen, value_at as value_in};
ghost use Rattle.net_run.specs.Keeping.{IsKept};
ghost use Rattle.net_run.specs.Advancing.{AreNext, AreRegisters, driven_value, next_value};

use crate::capturing::{both_taken, taken};
use crate::evaluating::{evaluate, holds};
use crate::kept::Kept;
use crate::seen::{Seen, zero};
use crate::settling::driven;
use crate::writing::contents_after;
use bit_words::{Kind, List, Value};
use ground_net::{Net, NetRegister};
use std::alloc::{AllocError, Global};

/// What is kept after a cycle that began with what is kept and in which these values settled.
pub fn advance(alloc: Global, net: &Net, kept: Kept, values: &[Value]) -> Result<Kept, AllocError>
    requires net { IsNet net.now }
    requires seen { AreSeen net.now values.now kept.contents }
    ensures { (s : NetState) → IsKept net.now s kept → IfOk result (λ after. IsKept net.now (next net.now s (instant_of net.now s (value_in values.now))) after) }
{
    let registers = registers_after(alloc, net, &kept, values)?;
    let before = kept.contents;
    let old = taken(alloc, net, values, before.as_slice(), false)?;
    let contents = contents_after(alloc, net, values, before)?;
    let new = taken(alloc, net, values, contents.as_slice(), true)?;
    let captured = both_taken(alloc, old.as_slice(), new.as_slice())?;
    Ok(Kept {
        registers,
        contents,
        captured,
    })
}

/// What the registers hold after a cycle that began with what is kept and in which these values settled.
pub fn registers_after(
    alloc: Global,
    net: &Net,
    kept: &Kept,
    values: &[Value],
) -> Result<List<Value>, AllocError>
    requires net { IsNet net.now }
    requires seen { AreSeen net.now values.now kept.now.contents }
    ensures counted { IfOk result (λ registers. length registers ≡ length net.now.registers) }
    ensures state { (s : NetState) → IsKept net.now s kept.now → IfOk result (λ registers. AreRegisters net.now (next net.now s (instant_of net.now s (value_in values.now))) registers) }
{
    let contents = kept.contents.as_slice();
    let cycle = Seen {
        net,
        values,
        contents,
    };
    let held = kept.registers.as_slice();
    let registers = next_registers(alloc, held, &cycle)?;
    Ok(registers)
}

/// What the registers hold after the cycle.
fn next_registers(
    alloc: Global,
    held: &[Value],
    cycle: &Seen<'_>,
) -> Result<List<Value>, AllocError>
    requires net { IsNet cycle.now.net.now }
    requires seen { AreSeen cycle.now.net.now cycle.now.values.now cycle.now.contents.now }
    ensures { IfOk result (λ values. AreNext cycle.now.net.now (seen cycle.now.net.now cycle.now.values.now cycle.now.contents.now) held.now (length cycle.now.net.now.registers) values) }
{
    let mut values = Vec::new(alloc);
    let registers = cycle.net.registers.as_slice();
    for number in 0..registers.len() {
        values.push(next_held(&registers[number], held_at(held, number), cycle))?;
    }
    Ok(List::from_vec(values))
}

/// What a register holds after the cycle.
fn next_held(register: &NetRegister, held: Value, cycle: &Seen<'_>) -> Value
    requires seen { AreSeen cycle.now.net.now cycle.now.values.now cycle.now.contents.now }
    requires driver { (driver : TheGround) → driver_of cycle.now.net.now register.now.leaf ≡ Some driver → IsSome (shape driver (table_of cycle.now.net.now)) }
    requires reset { (r : TheReset) → register.now.reset ≡ Some r → IsSome (shape r.reset (table_of cycle.now.net.now)) }
    requires init { (r : TheReset) → register.now.reset ≡ Some r → IsSome (shape r.init (table_of cycle.now.net.now)) }
    ensures { result ≡ next_value cycle.now.net.now (seen cycle.now.net.now cycle.now.values.now cycle.now.contents.now) register.now held }
{
    let Some(reset) = &register.reset else {
        return driven_or(register.leaf, held, cycle);
    };
    if holds(evaluate(&reset.reset, cycle)) {
        evaluate(&reset.init, cycle)
    } else {
        driven_or(register.leaf, held, cycle)
    }
}

/// The value at a place, and 0 of no bits where there is none.
fn held_at(held: &[Value], number: usize) -> Value
    ensures { result ≡ value_in held.now number }
{
    match held.get(number) {
        Some(value) => *value,
        None => zero(Kind::Unsigned, 0),
    }
}

/// The value of a leaf's driver, and what is held where it has none.
fn driven_or(leaf: u32, held: Value, cycle: &Seen<'_>) -> Value
    requires seen { AreSeen cycle.now.net.now cycle.now.values.now cycle.now.contents.now }
    requires driver { (driver : TheGround) → driver_of cycle.now.net.now leaf ≡ Some driver → IsSome (shape driver (table_of cycle.now.net.now)) }
    ensures { result ≡ driven_value held (seen cycle.now.net.now cycle.now.values.now cycle.now.contents.now) (driver_of cycle.now.net.now leaf) }
{
    match driven(cycle.net, cycle.values, cycle.contents, leaf) {
        Some(value) => value,
        None => held,
    }
}
