//! The next values of registers.

ghost use Rattle.std.specs.Prelude.{◌≡◌, ℕ, ℤ, Some, slice_get, IfOk};
ghost use Rattle.bit_words.specs.Values.{integer_of};
ghost use Rattle.ground_net.specs.Grounds.{Instant, value};
ghost use Rattle.ground_net.specs.Reads.{driver_of};
ghost use Rattle.ground_net.specs.Shapes.{shape};
ghost use Rattle.ground_net.specs.Cycles.{next_of_register};
ghost use Rattle.ground_net.specs.Nets.{IsNet, table_of};
ghost use Rattle.code_memories.specs.Nexts.{driven_ground as driven_of, next_ground as next_of};

use bit_words::List;
use ground_net::{Ground, Net, NetRegister, copied};
use std::alloc::{AllocError, Global};

/// The expression of what a register holds next: `init` where its reset is 1, else what its driver leaves, else what it shows.
pub fn next_ground(alloc: Global, net: &Net, register: &NetRegister) -> Result<Ground, AllocError>
    ensures itself { IfOk result (λ g. g ≡ next_of register.now (driver_of net.now register.now.leaf)) }
    ensures value { IfOk result (λ g. (instant : Instant) (held : ℤ) → integer_of (instant.leaf register.now.leaf) ≡ held → integer_of (value g instant) ≡ next_of_register net.now instant (Some register.now) held) }
    ensures shape { IfOk result (λ g. (n : ℕ) → IsNet net.now → slice_get net.now.registers n ≡ Some register.now → shape g (table_of net.now) ≡ (table_of net.now).leaf register.now.leaf) }
{
    let next = made(alloc, net, register)?;
    Ok(next)
}

/// The expression.
fn made(alloc: Global, net: &Net, register: &NetRegister) -> Result<Ground, AllocError>
    ensures { IfOk result (λ g. g ≡ next_of register.now (driver_of net.now register.now.leaf)) }
{
    let driven = driven_ground(alloc, net, register.leaf)?;
    let Some(reset) = &register.reset else {
        return Ok(driven);
    };
    let mut items = List::new(alloc);
    items.push(copied(alloc, &reset.reset)?)?;
    items.push(copied(alloc, &reset.init)?)?;
    items.push(driven)?;
    Ok(Ground::Mux(items))
}

/// What the driver of a leaf leaves, and the leaf itself where it has none.
fn driven_ground(alloc: Global, net: &Net, leaf: u32) -> Result<Ground, AllocError>
    ensures { IfOk result (λ g. g ≡ driven_of leaf (driver_of net.now leaf)) }
{
    match net.drivers.get(leaf as usize) {
        Some(Some(driver)) => copied(alloc, driver),
        _ => Ok(Ground::Leaf(leaf)),
    }
}
