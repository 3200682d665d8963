//! Choices (FIRRTL specification 3.0, "Multiplexers").

ghost use Rattle.std.specs.Prelude.{◌≡◌, map, zip, IfOk};
ghost use Rattle.fir_meaning.specs.Values.{one_of_two};

use crate::fitting::refitted;
use bit_words::{List, Value};
use std::alloc::{AllocError, Global};

/// Leaf by leaf the first or the second value, at the greater of their widths.
pub fn either(
    alloc: Global,
    first: bool,
    firsts: &[Value],
    seconds: &[Value],
) -> Result<List<Value>, AllocError>
    ensures { IfOk result (λ values. values ≡ map (λ both. one_of_two first both.0 both.1) (zip firsts.now seconds.now)) }
{
    let mut values = List::new(alloc);
    for at in 0..firsts.len().min(seconds.len()) {
        values.push(one_of_two(first, &firsts[at], &seconds[at]))?;
    }
    Ok(values)
}

fn one_of_two(first: bool, one: &Value, other: &Value) -> Value
    ensures { result ≡ one_of_two first one.now other.now }
{
    let chosen = if first { *one } else { *other };
    refitted(one.kind, one.width.max(other.width), chosen)
}
