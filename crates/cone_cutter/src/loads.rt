//! What the partitions hold.

ghost use Rattle.std.specs.Prelude.{◌≡◌, ◌≢◌, ℕ, ◌+◌, ◌-◌, ◌<◌, ◌≤◌, ◌^◌, length, slice_index, true, false, All, IfOk, if◌then◌else◌};
ghost use Rattle.cone_cutter.specs.Loads.{has_bit, holds, shared_by, cost_with, IsCheapest, Gets, Takes, HasRoom};

use crate::tallies::add_mask;
use std::alloc::{AllocError, Global};

/// What each partition holds, and how much it is.
///
/// The bit `p` of a leaf's mask says that partition `p` holds it.
#[derive(Drop)]
pub struct Load {
    pub masks: Vec<u64>,
    pub costs: Vec<usize>,
    /// Room to count what a cone shares with each partition.
    pub shared: Vec<usize>,
}

impl Load {
    /// Empty partitions.
    pub fn new(alloc: Global, leaves: usize, workers: usize) -> Result<Load, AllocError>
        ensures room { IfOk result (HasRoom leaves workers) }
        ensures masks { IfOk result (λ it. (x : ℕ) → slice_index it.masks.items x ≡ 0) }
        ensures costs { IfOk result (λ it. (p : ℕ) → slice_index it.costs.items p ≡ 0) }
    {
        Ok(Load {
            masks: vec![in alloc; 0; leaves]?,
            costs: vec![in alloc; 0; workers]?,
            shared: vec![in alloc; 0; workers]?,
        })
    }

    /// Puts a cone into the partition that then holds the fewest leaves, the first one on a tie.
    pub fn take(&mut self, cone: &[u32]) -> u32
        requires within { All (λ x. x < length self.old.masks.items) cone.now }
        requires some { 0 < length self.old.costs.items }
        requires few { length self.old.costs.items ≤ 64 }
        requires shared { length self.old.shared.items ≡ length self.old.costs.items }
        requires fits { (p : ℕ) → slice_index self.old.costs.items p + length cone.now < 2 ^ 64 }
        ensures { Takes cone.now self.old self.new result }
    {
        let masks = self.masks.as_mut_slice();
        let costs = self.costs.as_mut_slice();
        let shared = self.shared.as_mut_slice();
        count_shared(masks, cone, shared);
        let part = cheapest(costs, shared, cone.len());
        give(masks, cone, part as u32);
        costs[part] += cone.len() - shared[part];
        part as u32
    }
}

/// Whether a mask has the bit of a partition.
pub fn is_held(mask: u64, part: u32) -> bool
    requires { part < 64 }
    ensures { result ≡ has_bit mask part }
{
    mask >> part & 1 == 1
}

/// The mask with the bit of a partition.
fn with_bit(mask: u64, part: u32) -> u64
    requires { part < 64 }
    ensures same { has_bit result part ≡ true }
    ensures others { (p : ℕ) → p ≢ part → has_bit result p ≡ has_bit mask p }
{
    mask | 1 << part
}

/// The mask without the bit of a partition.
pub fn without_bit(mask: u64, part: u32) -> u64
    requires { part < 64 }
    ensures same { has_bit result part ≡ false }
    ensures others { (p : ℕ) → p < 64 → p ≢ part → has_bit result p ≡ has_bit mask p }
    ensures smaller { has_bit mask part ≡ true → result < mask }
{
    mask & !(1 << part)
}

/// Counts the leaves that a cone shares with each partition.
///
/// Takes time in proportion to the cone, whatever the partitions.
pub fn count_shared(masks: &[u64], cone: &[u32], shared: &mut [usize])
    requires within { All (λ x. x < length masks.now) cone.now }
    requires few { length shared.old ≤ 64 }
    ensures { (p : ℕ) → p < length shared.new → slice_index shared.new p ≡ shared_by masks.now cone.now p }
{
    let mut planes: [u64; 64] = [0; 64];
    for leaf in cone {
        add_mask(&mut planes, masks[*leaf as usize]);
    }
    shared.fill(0);
    for digit in 0..64 {
        count_bits(planes[digit], 1 << digit, shared);
    }
}

/// Adds a weight for each bit of a mask, at its partition.
fn count_bits(mask: u64, weight: usize, shared: &mut [usize])
    requires few { length shared.old ≤ 64 }
    requires fits { (p : ℕ) → p < length shared.old → slice_index shared.old p + (if has_bit mask p then weight else 0) < 2 ^ 64 }
    ensures { (p : ℕ) → p < length shared.new → slice_index shared.new p ≡ slice_index shared.old p + (if has_bit mask p then weight else 0) }
{
    let mut rest = mask;
    'bits: while rest != 0 {
        let part = rest.trailing_zeros();
        if (part as usize) < shared.len() {
            shared[part as usize] += weight;
        }
        rest = without_bit(rest, part);
    }
}

/// The partition that is the cheapest with a cone of this size, the first one on a tie.
fn cheapest(costs: &[usize], shared: &[usize], size: usize) -> usize
    requires some { 0 < length costs.now }
    requires same { length shared.now ≡ length costs.now }
    requires shares { (p : ℕ) → p < length shared.now → slice_index shared.now p ≤ size }
    requires fits { (p : ℕ) → slice_index costs.now p + size < 2 ^ 64 }
    ensures { IsCheapest (λ p. slice_index costs.now p + (size - slice_index shared.now p)) (length costs.now) result }
{
    let mut best = 0;
    for part in 1..costs.len() {
        let cost = costs[part] + (size - shared[part]);
        if cost < costs[best] + (size - shared[best]) {
            best = part;
        }
    }
    best
}

/// Sets the bit of a partition for each leaf of a cone.
pub fn give(masks: &mut [u64], cone: &[u32], part: u32)
    requires within { All (λ x. x < length masks.old) cone.now }
    requires few { part < 64 }
    ensures { Gets part cone.now masks.old masks.new }
{
    for leaf in cone {
        masks[*leaf as usize] = with_bit(masks[*leaf as usize], part);
    }
}
