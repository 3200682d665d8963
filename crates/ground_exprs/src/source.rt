//! What a leaf of an expression has.

ghost use Rattle.std.specs.Prelude.{◌≤◌};

use bit_words::Kind;
use ground_net::Ground;

/// An expression over numbered leaves, with the kind and the width of its value.
///
/// The width is at most 128.
#[derive(Drop)]
pub struct Source {
    pub expr: Ground,
    pub kind: Kind,
    pub width: u8,
    ghost narrow: { width ≤ 128 },
}
