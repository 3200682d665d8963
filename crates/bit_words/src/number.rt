//! Numbers as texts write them.

ghost use Rattle.std.specs.Prelude.{◌≡◌, ℕ, Bool, ◌≤◌, ◌<◌, ◌+◌, ◌*◌, ◌^◌, ◌↔◌, IsTrue, IfSome, IfNone, IfOk, IfErr, Result, List, ◌∷◌, length};
ghost use Rattle.bit_words.specs.Values.{InRange};
ghost use Rattle.bit_words.specs.Numbers.{radix, letter, WritesDigits, IsMagnitude, AnswersMagnitude, AnswersNumber, integer_of_number, Holds};
ghost use Rattle.bit_words.specs.declared.number.Base.{Base as TheBase};
ghost use Rattle.bit_words.specs.declared.number.Number.{Number as TheNumber};
ghost use Rattle.bit_words.specs.declared.number.NumberFault.{NumberFault as TheFault};

use crate::value::Kind;
use thiserror::Error;

/// A base that digits are written in.
#[derive(Clone, Copy)]
pub enum Base {
    /// Base 2, named by `b`.
    Binary,
    /// Base 8, named by `o`.
    Octal,
    /// Base 10, named by `d`, or by no letter.
    Decimal,
    /// Base 16, named by `h`.
    Hexadecimal,
}

/// A number as a text writes it (FIRRTL specification 3.0, "FIRRTL Language Definition").
#[derive(Clone, Copy)]
pub struct Number {
    /// Whether a minus stands before it. `-0` is 0.
    pub negative: bool,
    /// The number behind the minus.
    pub magnitude: u128,
}

/// Why a text has no `Number`.
#[derive(Clone, Copy, Debug, Error)]
pub enum NumberFault {
    /// It hasn't the form of a number.
    #[error("not a number")]
    NotNumber,
    /// It is a number, but of a magnitude over 2^128 - 1.
    #[error("the magnitude is over 2^128 - 1")]
    Over,
}

/// The number that digits of a base write, at least one digit. Takes no memory.
///
/// The digits from 10 are letters of either case. `NotNumber` where there is no digit or a byte is none of the base,
/// else `Over` where the number is over 2^128 - 1, however many digits there are.
pub fn digits_value(base: Base, digits: &[u8]) -> Result<u128, NumberFault>
    ensures answer { AnswersMagnitude (WritesDigits base digits.now) result }
    ensures only { (other : Result ℕ TheFault) → AnswersMagnitude (WritesDigits base digits.now) other → other ≡ result }
{
    if digits.is_empty() {
        return Err(NumberFault::NotNumber);
    }
    let radix = radix_of(base);
    let mut value = Some(0);
    for byte in digits {
        let Some(digit) = char::from(*byte).to_digit(radix) else {
            return Err(NumberFault::NotNumber);
        };
        value = with_digit(value, radix, digit);
    }
    value.ok_or(NumberFault::Over)
}

/// The magnitude of a number without a sign: decimal digits alone, or `0b`, `0o`, `0d` or `0h` and digits of that base.
///
/// `NotNumber` where the bytes haven't this form, else `Over` where the magnitude is over 2^128 - 1. Takes no memory.
pub fn read_magnitude(bytes: &[u8]) -> Result<u128, NumberFault>
    ensures answer { AnswersMagnitude (IsMagnitude bytes.now) result }
    ensures only { (other : Result ℕ TheFault) → AnswersMagnitude (IsMagnitude bytes.now) other → other ≡ result }
{
    match base_prefix(bytes) {
        Some((base, digits)) => digits_value(base, digits),
        None => digits_value(Base::Decimal, bytes),
    }
}

/// The base that a prefix names, and the bytes behind the prefix.
fn base_prefix(bytes: &[u8]) -> Option<(Base, &[u8])>
    ensures some { IfSome result (λ p. bytes.now ≡ 48 ∷ letter p.0 ∷ p.1.now) }
    ensures none { IfNone result ((base : TheBase) (digits : List ℕ) → ¬ (bytes.now ≡ 48 ∷ letter base ∷ digits)) }
{
    match bytes {
        [b'0', b'b', digits @ ..] => Some((Base::Binary, digits)),
        [b'0', b'o', digits @ ..] => Some((Base::Octal, digits)),
        [b'0', b'd', digits @ ..] => Some((Base::Decimal, digits)),
        [b'0', b'h', digits @ ..] => Some((Base::Hexadecimal, digits)),
        _ => None,
    }
}

/// The number that a word writes: an optional `-`, then decimal digits alone, or `0b`, `0o`, `0d` or `0h` and digits of that base.
///
/// `NotNumber` where the bytes haven't this form, else `Over` where the magnitude is over 2^128 - 1. Takes no memory.
pub fn read_number(bytes: &[u8]) -> Result<Number, NumberFault>
    ensures answer { AnswersNumber bytes.now result }
    ensures only { (other : Result TheNumber TheFault) → AnswersNumber bytes.now other → other ≡ result }
{
    match behind_minus(bytes) {
        Some(rest) => with_sign(true, read_magnitude(rest)),
        None => with_sign(false, read_magnitude(bytes)),
    }
}

/// The number of this sign and magnitude.
fn with_sign(negative: bool, magnitude: Result<u128, NumberFault>) -> Result<Number, NumberFault>
    ensures ok { IfOk magnitude (λ m. result ≡ Ok (record { negative = negative; magnitude = m })) }
    ensures err { IfErr magnitude (λ fault. result ≡ Err fault) }
{
    magnitude.map(|magnitude| Number {
        negative,
        magnitude,
    })
}

/// The bytes behind a minus.
fn behind_minus(bytes: &[u8]) -> Option<&[u8]>
    ensures some { IfSome result (λ rest. bytes.now ≡ 45 ∷ rest.now) }
    ensures none { IfNone result ((rest : List ℕ) → ¬ (bytes.now ≡ 45 ∷ rest)) }
{
    match bytes {
        [b'-', rest @ ..] => Some(rest),
        _ => None,
    }
}

/// Whether a value of this kind and width can hold a number. At width 0 only 0 fits, and `-0` is 0. Takes no memory.
pub fn fits(number: Number, kind: Kind, width: u128) -> bool
    ensures { IsTrue result ↔ InRange kind width (integer_of_number number) }
{
    let Some(last) = width.checked_sub(1) else {
        return number.magnitude == 0;
    };
    match kind {
        Kind::Unsigned if number.negative => number.magnitude == 0,
        Kind::Unsigned => is_below_power(number.magnitude, width),
        Kind::Signed if number.negative => number.magnitude == 0
            || is_below_power(number.magnitude - 1, last),
        Kind::Signed => is_below_power(number.magnitude, last),
    }
}

/// Whether a number is below 2 to a power.
fn is_below_power(number: u128, exponent: u128) -> bool
    ensures { IsTrue result ↔ (number < 2 ^ exponent) }
{
    exponent >= 128 || number < 1 << exponent
}

/// The number with one more digit at its end. None stands for a number from 2^128 on.
fn with_digit(front: Option<u128>, radix: u32, digit: u32) -> Option<u128>
    requires { 0 < radix }
    ensures { (n : ℕ) → Holds front n → Holds result (n * radix + digit) }
{
    front?.checked_mul(radix.into())?.checked_add(digit.into())
}

/// How many digits a base has.
fn radix_of(base: Base) -> u32
    ensures { result ≡ radix base }
{
    match base {
        Base::Binary => 2,
        Base::Octal => 8,
        Base::Decimal => 10,
        Base::Hexadecimal => 16,
    }
}
