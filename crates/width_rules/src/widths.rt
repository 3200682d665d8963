//! Widths in order.

ghost use Rattle.std.specs.Prelude.{◌≡◌};
ghost use Rattle.prim_ops.specs.Widths.{bounded};
ghost use Rattle.width_rules.specs.Formulas.{level, wider};

use bit_words::List;
use prim_ops::Width;

/// A width for each variable.
pub type Widths = List<Width>;

/// The place of a width among all, by size.
pub fn level(width: Width) -> u8
    ensures { result ≡ level width }
{
    match width {
        Width::Bits(bits) => bits,
        Width::Over => 129,
    }
}

/// The wider of two widths, the second where neither is.
pub fn wider(first: Width, second: Width) -> Width
    ensures { result ≡ wider first second }
{
    if level(first) <= level(second) {
        second
    } else {
        first
    }
}

/// The width of this number of bits.
pub fn bounded(bits: u128) -> Width
    ensures { result ≡ bounded bits }
{
    if bits <= 128 {
        Width::Bits(bits as u8)
    } else {
        Width::Over
    }
}
