//! The digits of a number in a base.

ghost use Rattle.std.specs.Prelude.{◌≡◌, ℕ, ◌≤◌, ◌++◌, reverse, IfOk, OnOk};
ghost use Rattle.print_stop.specs.Printed.{digit, least_digits};

use std::alloc::{AllocError, Global};

/// Appends the digits of a number in a base from 2 to 16, as few as it has.
pub(crate) fn push_digits(out: &mut Vec<u8>, number: u128, base: u128) -> Result<(), AllocError>
    requires low { 2 ≤ base }
    requires high { base ≤ 16 }
    ensures { OnOk result (out.new.items ≡ out.old.items ++ least_digits base 128 number) }
{
    let alloc = *out.allocator();
    let low = digits_from_low(alloc, number, base)?;
    let high = reversed(alloc, low.as_slice())?;
    out.extend_from_slice(high.as_slice())
}

/// The digits, the lowest first.
fn digits_from_low(alloc: Global, number: u128, base: u128) -> Result<Vec<u8>, AllocError>
    requires low { 2 ≤ base }
    requires high { base ≤ 16 }
    ensures { IfOk result (λ low. reverse low.items ≡ least_digits base 128 number) }
{
    let mut low = Vec::new(alloc);
    let mut rest = number;
    while rest >= base {
        low.push(digit((rest % base) as u8))?;
        rest /= base;
    }
    low.push(digit(rest as u8))?;
    Ok(low)
}

fn reversed(alloc: Global, bytes: &[u8]) -> Result<Vec<u8>, AllocError>
    ensures { IfOk result (λ turned. turned.items ≡ reverse bytes.now) }
{
    bytes.iter().rev().copied().collect(alloc)
}

/// The digit of a number below 16.
fn digit(number: u8) -> u8
    requires { number ≤ 15 }
    ensures { result ≡ digit number }
{
    if number < 10 {
        b'0' + number
    } else {
        b'a' - 10 + number
    }
}
