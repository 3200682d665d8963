//! The best part for a sink that leaves its own.

ghost use Rattle.std.specs.Prelude.{◌≡◌, ◌≢◌, ℕ, ◌+◌, ◌-◌, ◌<◌, ◌≤◌, ◌^◌, length, slice_index, max};
ghost use Rattle.cut_refine.specs.Standing.{IsMostBut, IsTarget};

/// A part, and the greatest cost of a part once the sink is there.
#[derive(Clone, Copy)]
pub struct Target {
    pub part: usize,
    pub greatest: usize,
}

/// Another part than this one, the first there is.
fn other_than(part: usize) -> usize
    ensures other { result ≢ part }
    ensures small { result ≤ 1 }
    ensures first { (p : ℕ) → p < result → p ≡ part }
{
    if part == 0 { 1 } else { 0 }
}

/// Of the other parts one with the greatest cost.
pub fn most_but(costs: &[usize], part: usize) -> usize
    requires { 1 < length costs.now }
    ensures { IsMostBut costs.now part result }
{
    let first = other_than(part);
    let mut best = first;
    for other in first + 1..costs.len() {
        if other != part && costs[other] > costs[best] {
            best = other;
        }
    }
    best
}

/// The part with which the greatest cost is least, the first one on a tie. The cost of the other parts, and of the one that the sink
/// leaves, is at most `least`.
pub fn best_target(
    costs: &[usize],
    shared: &[usize],
    size: usize,
    part: usize,
    least: usize,
) -> Target
    requires several { 1 < length costs.now }
    requires same { length shared.now ≡ length costs.now }
    requires shares { (p : ℕ) → p < length shared.now → slice_index shared.now p ≤ size }
    requires fits { (p : ℕ) → p < length costs.now → slice_index costs.now p + (size - slice_index shared.now p) < 2 ^ 64 }
    ensures { IsTarget (λ p. max least (slice_index costs.now p + (size - slice_index shared.now p))) (length costs.now) part result }
{
    let first = other_than(part);
    let mut best = Target {
        part: first,
        greatest: least.max(cost_at(costs, shared, size, first)),
    };
    for other in first + 1..costs.len() {
        let greatest = least.max(cost_at(costs, shared, size, other));
        if other != part && greatest < best.greatest {
            best = Target {
                part: other,
                greatest,
            };
        }
    }
    best
}

/// The cost of a part with a cone of this size.
fn cost_at(costs: &[usize], shared: &[usize], size: usize, part: usize) -> usize
    requires within { part < length costs.now }
    requires same { length shared.now ≡ length costs.now }
    requires shares { slice_index shared.now part ≤ size }
    requires fits { slice_index costs.now part + (size - slice_index shared.now part) < 2 ^ 64 }
    ensures { result ≡ slice_index costs.now part + (size - slice_index shared.now part) }
{
    costs[part] + (size - shared[part])
}
