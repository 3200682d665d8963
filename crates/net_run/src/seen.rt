//! What a cycle shows of a net.

ghost use Rattle.std.specs.Prelude.{◌≡◌, ◌≤◌, [], get_or, pos};
ghost use Rattle.prim_ops.specs.Values.{fitted, lone};

use bit_words::{Kind, List, Value, from_words};
use ground_net::Net;

/// A net with a value for each of its leaves and with the contents of its memories. A memory has its elements one after the other,
/// each leaf by leaf.
#[derive(Clone, Copy)]
pub struct Seen<'a> {
    pub net: &'a Net,
    pub values: &'a [Value],
    pub contents: &'a [List<Value>],
}

/// The value of this number, and 0 of no bits where there is none.
pub fn value_at(values: &[Value], number: u32) -> Value
    ensures { result ≡ get_or values.now number (lone []) }
{
    match values.get(number as usize) {
        Some(value) => *value,
        None => zero(Kind::Unsigned, 0),
    }
}

/// 0 of a kind and a width.
pub fn zero(kind: Kind, width: u8) -> Value
    requires { width ≤ 128 }
    ensures { result ≡ fitted kind width (pos 0) }
{
    from_words(kind, width, 0, 0)
}
