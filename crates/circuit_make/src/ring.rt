//! The text of the ring, line by line.

ghost use Rattle.std.specs.Prelude.{◌≡◌, ℕ, ◌+◌, ◌-◌, ◌≤◌, ◌<◌, ◌++◌, ◌⊎◌, codes, decimal, length, IfOk, OnOk, Err};
ghost use Rattle.std.specs.List.{flat_map, range_with_len};
ghost use Rattle.circuit_make.specs.Rings.{InRange, before, head_lines, register_line, connect_line, sum_line, last_lines, ring_text};
ghost use Rattle.circuit_make.specs.declared.fault.MakeFault.TheVariants.{Range, NoMemory};

use crate::fault::MakeFault;
use itoa::Buffer;
use std::alloc::{AllocError, Global};

/// The greatest number of registers, and of cycles.
const LIMIT: u32 = 4096;

/// The joined text of a circuit with `n` registers of 32 bits in a ring and of a stimulus with this number of cycles. The output
/// in cycle c is `c * n * (n - 1) / 2` modulo 2^32.
///
/// The text is no longer than a circuit's text may be, 1,048,576 bytes. Answers `Range` exactly where a number isn't from 1 to 4,096.
pub fn make_joined(alloc: Global, n: u32, cycles: u32) -> Result<Vec<u8>, MakeFault>
    ensures text { IfOk result (λ text. text.items ≡ ring_text n cycles) }
    ensures short { IfOk result (λ text. length text.items ≤ 1048576) }
    ensures in_range { IfOk result (λ text. InRange n) }
    ensures cycles_in_range { IfOk result (λ text. InRange cycles) }
    ensures range { result ≡ Err MakeFault.Range → ¬ (InRange n) ⊎ ¬ (InRange cycles) }
    ensures out_of_range { ¬ (InRange n) ⊎ ¬ (InRange cycles) → result ≡ Err MakeFault.Range }
{
    if n == 0 || LIMIT < n || cycles == 0 || LIMIT < cycles {
        return Err(MakeFault::Range);
    }
    Ok(ring(alloc, n, cycles)?)
}

/// The text for numbers in their ranges.
fn ring(alloc: Global, n: u32, cycles: u32) -> Result<Vec<u8>, AllocError>
    requires { 1 ≤ n }
    ensures { IfOk result (λ text. text.items ≡ ring_text n cycles) }
{
    let mut text = Vec::from_slice(
        alloc,
        b"FIRRTL version 3.0.0\ncircuit Make :\n  module Make :\n    input clock : Clock\n    output out : UInt<32>\n",
    )?;
    push_registers(&mut text, n)?;
    push_connects(&mut text, n)?;
    text.extend_from_slice(b"    node s0 = r0\n")?;
    push_sums(&mut text, n)?;
    push_last(&mut text, n, cycles)?;
    Ok(text)
}

/// Appends a number in decimal.
fn push_number(text: &mut Vec<u8>, number: u32) -> Result<(), AllocError>
    ensures { OnOk result (text.new.items ≡ text.old.items ++ decimal number) }
{
    let mut buffer = Buffer::new();
    text.extend_from_slice(buffer.format(number).as_bytes())?;
    Ok(())
}

/// Appends the declarations of all registers.
fn push_registers(text: &mut Vec<u8>, n: u32) -> Result<(), AllocError>
    ensures { OnOk result (text.new.items ≡ text.old.items ++ flat_map register_line (range_with_len 0 n)) }
{
    for i in 0..n {
        push_register(text, i)?;
    }
    Ok(())
}

fn push_register(text: &mut Vec<u8>, i: u32) -> Result<(), AllocError>
    ensures { OnOk result (text.new.items ≡ text.old.items ++ register_line i) }
{
    text.extend_from_slice(b"    reg r")?;
    push_number(text, i)?;
    text.extend_from_slice(b" : UInt<32>, clock\n")?;
    Ok(())
}

/// Appends the connects of all registers.
fn push_connects(text: &mut Vec<u8>, n: u32) -> Result<(), AllocError>
    ensures { OnOk result (text.new.items ≡ text.old.items ++ flat_map (connect_line n) (range_with_len 0 n)) }
{
    for i in 0..n {
        push_connect(text, n, i)?;
    }
    Ok(())
}

fn push_connect(text: &mut Vec<u8>, n: u32, i: u32) -> Result<(), AllocError>
    requires { i < n }
    ensures { OnOk result (text.new.items ≡ text.old.items ++ connect_line n i) }
{
    let earlier = before(n, i);
    text.extend_from_slice(b"    connect r")?;
    push_number(text, i)?;
    text.extend_from_slice(b", tail(add(r")?;
    push_number(text, earlier)?;
    text.extend_from_slice(b", UInt<32>(")?;
    push_number(text, i)?;
    text.extend_from_slice(b")), 1)\n")?;
    Ok(())
}

/// The register before one of a ring of n.
fn before(n: u32, i: u32) -> u32
    requires { i < n }
    ensures { result ≡ before n i }
{
    if i == 0 { n - 1 } else { i - 1 }
}

/// Appends the nodes of the sums behind the first one.
fn push_sums(text: &mut Vec<u8>, n: u32) -> Result<(), AllocError>
    requires { 1 ≤ n }
    ensures { OnOk result (text.new.items ≡ text.old.items ++ flat_map sum_line (range_with_len 1 (n - 1))) }
{
    for i in 1..n {
        push_sum(text, i)?;
    }
    Ok(())
}

fn push_sum(text: &mut Vec<u8>, i: u32) -> Result<(), AllocError>
    requires { 1 ≤ i }
    ensures { OnOk result (text.new.items ≡ text.old.items ++ sum_line i) }
{
    text.extend_from_slice(b"    node s")?;
    push_number(text, i)?;
    text.extend_from_slice(b" = tail(add(s")?;
    push_number(text, i - 1)?;
    text.extend_from_slice(b", r")?;
    push_number(text, i)?;
    text.extend_from_slice(b"), 1)\n")?;
    Ok(())
}

/// Appends the connect of the output and the stimulus.
fn push_last(text: &mut Vec<u8>, n: u32, cycles: u32) -> Result<(), AllocError>
    requires { 1 ≤ n }
    ensures { OnOk result (text.new.items ≡ text.old.items ++ last_lines n cycles) }
{
    text.extend_from_slice(b"    connect out, s")?;
    push_number(text, n - 1)?;
    text.extend_from_slice(b"\n%stimulus\ncycles ")?;
    push_number(text, cycles)?;
    text.extend_from_slice(b"\n")?;
    Ok(())
}
