//! Operations.

ghost use Rattle.std.specs.Prelude.{◌≡◌};
ghost use Rattle.prim_ops.specs.Values.{operation, lone};
ghost use Rattle.plain_values.specs.Applying.{Applies};

use crate::fitting::zero;
use bit_words::{Kind, Value};
use prim_ops::{Prim, value_of};

/// The value of an operation on these values.
pub fn applied(prim: Prim, values: &[Value], params: &[u128]) -> Value
    requires { Applies prim params.now values.now }
    ensures { result ≡ operation prim values.now params.now }
{
    value_of(prim, values, params)
}

/// The first value, and 0 of no bits where there is none.
pub fn first(values: &[Value]) -> Value
    ensures { result ≡ lone values.now }
{
    match values.first() {
        Some(value) => *value,
        None => zero(Kind::Unsigned, 0),
    }
}
