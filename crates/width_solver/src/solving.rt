//! The least widths.

ghost use Rattle.std.specs.Prelude.{◌≡◌, ◌<◌, ℕ, length, All, Contains, IfOk};
ghost use Rattle.width_rules.specs.Solutions.{AreRules, IsLeast};

use crate::readers::readers_of;
use crate::rounds::go_round;
use crate::small::{are_small, small_rules};
use bit_words::List;
use prim_ops::Width;
use std::alloc::{AllocError, Global};
use width_rules::{Rule, Rules, Widths};

/// The least assignment of 0 to 128 bits or `Over` to the variables that meets all rules (FIRRTL specification 3.0, "Width
/// Inference").
///
/// The rules are over the variables that have places. Each operation inside another one has a variable of its own, so a rule
/// is looked at in constant time. Raises a variable only where a rule asks more of it, and then looks again only at the rules
/// that read it. So an operation is looked at 129 times at most for each of its operands, however the formulas are nested.
/// More variables than fit a `u32` are a want of memory.
pub fn solve(alloc: Global, rules: &Rules) -> Result<Widths, AllocError>
    requires { AreRules (length rules.now.places) rules.now.rules }
    ensures { IfOk result (λ widths. IsLeast rules.now.rules (length rules.now.places) widths) }
{
    let count = rules.places.len();
    let rules = rules.rules.as_slice();
    let widths = if are_small(rules) {
        least_widths(alloc, rules, count)?
    } else {
        least_by_small(alloc, rules, count)?
    };
    Ok(List::from_vec(widths))
}

/// The least widths by way of small rules.
fn least_by_small(alloc: Global, rules: &[Rule], count: usize) -> Result<Vec<Width>, AllocError>
    requires rules { AreRules count rules.now }
    ensures { IfOk result (λ widths. IsLeast rules.now count widths.items) }
{
    let small = small_rules(alloc, rules, count)?;
    let mut widths = least_widths(alloc, small.rules.as_slice(), small.count as usize)?;
    widths.truncate(count);
    Ok(widths)
}

fn least_widths(alloc: Global, rules: &[Rule], count: usize) -> Result<Vec<Width>, AllocError>
    requires rules { AreRules count rules.now }
    ensures { IfOk result (λ widths. IsLeast rules.now count widths.items) }
{
    let readers = readers_of(alloc, rules, count)?;
    let readers = readers.as_slice();
    let mut widths = vec![in alloc; Width::Bits(0); count]?;
    let mut waits = vec![in alloc; true; rules.len()]?;
    let mut pending = numbers_below(alloc, rules.len())?;
    'rounds: while !pending.is_empty() {
        pending = go_round(
            alloc,
            rules,
            readers,
            pending.as_slice(),
            &mut widths,
            &mut waits,
        )?;
    }
    Ok(widths)
}

/// The numbers from 0 up to below this one.
fn numbers_below(alloc: Global, end: usize) -> Result<Vec<usize>, AllocError>
    ensures within { IfOk result (λ numbers. All (λ k. k < end) numbers.items) }
    ensures all { IfOk result (λ numbers. (k : ℕ) → k < end → Contains numbers.items k) }
{
    let mut numbers = Vec::with_capacity(alloc, end)?;
    for number in 0..end {
        numbers.push(number)?;
    }
    Ok(numbers)
}
