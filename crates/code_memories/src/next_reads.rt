//! What captured reads show next.

ghost use Rattle.std.specs.Prelude.{◌≡◌, ℕ, ◌<◌, ◌^◌, [], ◌∷◌, Some, pos, IfOk};
ghost use Rattle.bit_words.specs.declared.value.Kind.TheVariants.{Unsigned};
ghost use Rattle.bit_words.specs.Values.{integer_of};
ghost use Rattle.prim_ops.specs.Values.{fitted};
ghost use Rattle.prim_ops.specs.Ports.{Held, read_by_port};
ghost use Rattle.ground_net.specs.declared.net.NetRead.{NetRead};
ghost use Rattle.ground_net.specs.declared.ground.Ground.TheVariants.{Mux as Choice};
ghost use Rattle.ground_net.specs.Grounds.{Instant, value};
ghost use Rattle.ground_net.specs.Shapes.{Table, HasShapes, shape, shaped};
ghost use Rattle.ground_net.specs.Cycles.{taken, next_of_memory, shown};
ghost use Rattle.code_memories.specs.NextReads.{one_bit, zero_bit, both_ground, unless_ground, writing_ground, reading_ground, same_ground, below_ground, over_ground, there_ground, before_ground, after_ground as after_of, captured_ground as captured_of, HasCapture, ShowsHeld};

use crate::leaf::MemoryLeaf;
use bit_words::{Kind, List, Value};
use ground_net::{Ground, NetMemory, NetPort};
use prim_ops::Prim;
use std::alloc::{AllocError, Global};

/// The expression of what a port's captured read of a leaf shows next: what the element at the port's address holds before the writes of
/// the cycle or after them, and 0 where the port doesn't read, or past the depth.
pub fn captured_ground(
    alloc: Global,
    memory: &NetMemory,
    port: &NetPort,
    of: MemoryLeaf,
    after: bool,
) -> Result<Ground, AllocError>
    ensures itself { IfOk result (λ g. g ≡ captured_of memory.now port.now of after) }
    ensures value { IfOk result (λ g. (table : Table) (instant : Instant) (held : Held ℕ) (read : NetRead) → HasCapture table memory.now port.now of → HasShapes table instant → ShowsHeld instant memory.now of held → port.now.read ≡ Some read → integer_of (value g instant) ≡ read_by_port memory.now.depth (taken after held (next_of_memory instant (Some memory.now) held)) (shown instant port.now) of.number) }
    ensures shape { IfOk result (λ g. (table : Table) → HasCapture table memory.now port.now of → shape g table ≡ Some (shaped of.kind of.width)) }
{
    let depth = depth_value(memory.depth);
    if after {
        after_ground(alloc, memory, port, of, depth)
    } else {
        before(alloc, port, of)
    }
}

/// What is read after the writes.
fn after_ground(
    alloc: Global,
    memory: &NetMemory,
    port: &NetPort,
    of: MemoryLeaf,
    depth: Value,
) -> Result<Ground, AllocError>
    ensures { IfOk result (λ g. depth ≡ fitted Unsigned 128 (pos memory.now.depth) → g ≡ after_of memory.now port.now of) }
{
    let mut held = there(alloc, port.addr, of)?;
    for writer in memory.ports.as_slice() {
        held = over(alloc, port.addr, of.number, writer, held)?;
    }
    let tested = below(alloc, port.addr, depth)?;
    let condition = reading(alloc, port, tested)?;
    choice(alloc, condition, held, Ground::Const(zero_of(of)))
}

/// What is read before the writes.
fn before(alloc: Global, port: &NetPort, of: MemoryLeaf) -> Result<Ground, AllocError>
    ensures { IfOk result (λ g. g ≡ before_ground port.now of) }
{
    let condition = reading(alloc, port, Ground::Const(one()))?;
    let mut items = List::new(alloc);
    items.push(Ground::Leaf(port.addr))?;
    items.push(condition)?;
    Ok(Ground::Load(of.memory, of.number, items))
}

/// What stands at an address.
fn there(alloc: Global, addr: u32, of: MemoryLeaf) -> Result<Ground, AllocError>
    ensures { IfOk result (λ g. g ≡ there_ground addr of) }
{
    let mut items = List::new(alloc);
    items.push(Ground::Leaf(addr))?;
    items.push(Ground::Const(one()))?;
    Ok(Ground::Load(of.memory, of.number, items))
}

/// What a port leaves at an address in this leaf of an element, over what was held there.
fn over(
    alloc: Global,
    addr: u32,
    leaf: u32,
    writer: &NetPort,
    held: Ground,
) -> Result<Ground, AllocError>
    ensures { IfOk result (λ g. g ≡ over_ground addr leaf writer.now held) }
{
    let Some(write) = &writer.write else {
        return Ok(held);
    };
    let Some(mask) = write.masks.get(leaf as usize) else {
        return Ok(held);
    };
    let Some(data) = write.leaves.get(leaf as usize) else {
        return Ok(held);
    };
    let same = same_number(alloc, writer.addr, addr)?;
    let masked = both(alloc, *mask, same)?;
    let condition = writing(alloc, writer, masked)?;
    choice(alloc, condition, Ground::Leaf(*data), held)
}

/// 1 where a port is set to write and the rest is 1.
fn writing(alloc: Global, port: &NetPort, rest: Ground) -> Result<Ground, AllocError>
    ensures { IfOk result (λ g. g ≡ writing_ground port.now.en port.now.mode rest) }
{
    match port.mode {
        None => both(alloc, port.en, rest),
        Some(mode) => {
            let inner = both(alloc, mode, rest)?;
            both(alloc, port.en, inner)
        }
    }
}

/// 1 where a port is set to read and the rest is 1.
fn reading(alloc: Global, port: &NetPort, rest: Ground) -> Result<Ground, AllocError>
    ensures { IfOk result (λ g. g ≡ reading_ground port.now.en port.now.mode rest) }
{
    match port.mode {
        None => both(alloc, port.en, rest),
        Some(mode) => {
            let inner = choice(alloc, Ground::Leaf(mode), Ground::Const(zero()), rest)?;
            both(alloc, port.en, inner)
        }
    }
}

/// 1 where a leaf is 1 and the rest is.
fn both(alloc: Global, leaf: u32, rest: Ground) -> Result<Ground, AllocError>
    ensures { IfOk result (λ g. g ≡ both_ground leaf rest) }
{
    choice(alloc, Ground::Leaf(leaf), rest, Ground::Const(zero()))
}

/// The first expression where the condition is 1, and else the second.
fn choice(
    alloc: Global,
    condition: Ground,
    first: Ground,
    second: Ground,
) -> Result<Ground, AllocError>
    ensures { IfOk result (λ g. g ≡ Choice (condition ∷ first ∷ second ∷ [])) }
{
    let mut items = List::new(alloc);
    items.push(condition)?;
    items.push(first)?;
    items.push(second)?;
    Ok(Ground::Mux(items))
}

/// Whether two leaves show one number.
fn same_number(alloc: Global, first: u32, second: u32) -> Result<Ground, AllocError>
    ensures { IfOk result (λ g. g ≡ same_ground first second) }
{
    let mut items = List::new(alloc);
    items.push(Ground::Leaf(first))?;
    items.push(Ground::Leaf(second))?;
    Ok(Ground::Op(Prim::Eq, items, List::new(alloc)))
}

/// Whether a leaf shows a number below a constant.
fn below(alloc: Global, leaf: u32, bound: Value) -> Result<Ground, AllocError>
    ensures { IfOk result (λ g. g ≡ below_ground leaf bound) }
{
    let mut items = List::new(alloc);
    items.push(Ground::Leaf(leaf))?;
    items.push(Ground::Const(bound))?;
    Ok(Ground::Op(Prim::Lt, items, List::new(alloc)))
}

/// A depth as a UInt of 128 bits.
fn depth_value(depth: u128) -> Value
    ensures value { result ≡ fitted Unsigned 128 (pos depth) }
    ensures bound { depth < 2 ^ 128 }
{
    Value {
        kind: Kind::Unsigned,
        width: 128,
        bits: depth,
    }
}

/// 0 of a leaf's kind and width.
fn zero_of(of: MemoryLeaf) -> Value
    ensures { result ≡ fitted of.kind of.width (pos 0) }
{
    Value {
        kind: of.kind,
        width: of.width,
        bits: 0,
    }
}

/// 1 of one bit.
fn one() -> Value
    ensures { result ≡ one_bit }
{
    Value {
        kind: Kind::Unsigned,
        width: 1,
        bits: 1,
    }
}

/// 0 of one bit.
fn zero() -> Value
    ensures { result ≡ zero_bit }
{
    Value {
        kind: Kind::Unsigned,
        width: 1,
        bits: 0,
    }
}
