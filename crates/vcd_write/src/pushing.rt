//! Single lines of a dump.

ghost use Rattle.std.specs.Prelude.{◌≡◌, ◌+◌, ◌/◌, ◌%◌, ◌^◌, ◌<◌, ◌≤◌, ◌++◌, ◌∷◌, OnOk, decimal};
ghost use Rattle.vcd_write.specs.Texts.{id_of, binary, change_line, var_line, wires, ended};

use bit_words::Value;
use ground_net::PortLeaf;
use itoa::Buffer;
use std::alloc::AllocError;

/// So many digits have identifiers, from `!` to `~`.
const DIGITS: usize = 94;

/// Adds the line of a time.
pub fn push_time(text: &mut Vec<u8>, cycle: u64) -> Result<(), AllocError>
    ensures { OnOk result (text.new.items ≡ text.old.items ++ ended (35 ∷ decimal cycle)) }
{
    let mut digits = Buffer::new();
    text.push(b'#')?;
    text.extend_from_slice(digits.format(cycle).as_bytes())?;
    text.push(b'\n')?;
    Ok(())
}

/// Adds the line that declares a variable.
pub fn push_variable(text: &mut Vec<u8>, number: usize, leaf: &PortLeaf) -> Result<(), AllocError>
    ensures { OnOk result (text.new.items ≡ text.old.items ++ ended (var_line (number, leaf.now))) }
{
    let mut digits = Buffer::new();
    text.extend_from_slice(b"$var wire ")?;
    text.extend_from_slice(digits.format(leaf.width.max(1)).as_bytes())?;
    text.push(b' ')?;
    push_id(text, number)?;
    text.push(b' ')?;
    text.extend_from_slice(leaf.name.as_slice())?;
    text.extend_from_slice(b" $end\n")?;
    Ok(())
}

/// Adds the line of a variable's new value.
pub fn push_change(text: &mut Vec<u8>, number: usize, value: Value) -> Result<(), AllocError>
    ensures { OnOk result (text.new.items ≡ text.old.items ++ ended (change_line value.width number value.bits)) }
{
    if value.width > 1 {
        text.push(b'b')?;
        push_binary(text, value.width, value.bits)?;
        text.push(b' ')?;
    } else {
        text.push(digit(value.bits, 0))?;
    }
    push_id(text, number)?;
    text.push(b'\n')?;
    Ok(())
}

/// Adds the identifier of a variable.
fn push_id(text: &mut Vec<u8>, number: usize) -> Result<(), AllocError>
    ensures { OnOk result (text.new.items ≡ text.old.items ++ id_of number) }
{
    if number == 0 {
        text.push(b'!')?;
        return Ok(());
    }
    let place = text.len();
    let mut rest = number;
    while rest > 0 {
        text.insert(place, id_digit(rest))?;
        rest /= DIGITS;
    }
    Ok(())
}

/// The lowest digit of a number in an identifier.
fn id_digit(number: usize) -> u8
    ensures { result ≡ 33 + number % 94 }
{
    b'!' + (number % DIGITS) as u8
}

/// Adds so many binary digits of bits, the highest first.
fn push_binary(text: &mut Vec<u8>, width: u8, bits: u128) -> Result<(), AllocError>
    requires { width ≤ 128 }
    ensures { OnOk result (text.new.items ≡ text.old.items ++ binary width bits) }
{
    for turn in 0..width {
        text.push(digit(bits, width - 1 - turn))?;
    }
    Ok(())
}

/// The digit of a bit.
fn digit(bits: u128, place: u8) -> u8
    requires { place < 128 }
    ensures { result ≡ 48 + bits / 2 ^ place % 2 }
{
    if bits >> place & 1 == 1 { b'1' } else { b'0' }
}
