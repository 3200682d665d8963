//! New numbers for leaves.

ghost use Rattle.std.specs.Prelude.{◌≡◌, ◌<◌, ◌≤◌, ◌+◌, ◌-◌, ◌*◌, ◌^◌, length, slice_index, IfOk, IfSome, IsTrue};
ghost use Rattle.ground_net.specs.Numbers.{extent, AreRuns, HasRun, IsSteady};

use crate::stretch::{Span, Stretch};
use bit_words::List;
use std::alloc::{AllocError, Global};
use std::marker::Model;

/// The number that stands for each leaf, which contracts see as the list of these. It knows which leaves stay side by side.
#[derive(Drop)]
pub struct NewNumbers {
    numbers: List<u32>,
    /// For each leaf the one up to which the numbers rise by 1.
    runs: Vec<u32>,
}

impl Model for NewNumbers {
    ghost use Rattle.std.specs.Prelude.{ℕ, List as Listed};
    ghost use Rattle.ground_net.specs.Numbers.{AreRuns};

    ghost Value = { Listed ℕ };

    ghost view = { λ n. n.numbers };

    ghost invariant = { λ n. AreRuns n.numbers n.runs.items };
}

impl NewNumbers {
    /// These numbers. Takes memory for as many more; more than a `u32` counts are a want of memory.
    pub fn new(alloc: Global, numbers: List<u32>) -> Result<NewNumbers, AllocError>
        ensures { IfOk result (λ it. it ≡ numbers) }
    {
        let runs = runs_of(alloc, numbers.as_slice())?;
        Ok(NewNumbers { numbers, runs })
    }

    /// The numbers as a slice.
    pub fn as_slice(&self) -> &[u32]
        ensures { result.now ≡ self.now }
    {
        self.numbers.as_slice()
    }

    /// The number that stands for a leaf, and 0 where there is none.
    pub fn number_of(&self, leaf: u32) -> u32
        ensures { result ≡ slice_index self.now leaf }
    {
        number_in(self.numbers.as_slice(), leaf)
    }

    /// Whether the leaves of a stretch surely stay side by side.
    pub fn keep(&self, stretch: &Stretch) -> bool
        ensures { IsTrue result → IsSteady (slice_index self.now) stretch.now }
    {
        is_steady(self.numbers.as_slice(), self.runs.as_slice(), stretch)
    }
}

/// The number that stands for a leaf, and 0 where there is none.
fn number_in(numbers: &[u32], leaf: u32) -> u32
    ensures { result ≡ slice_index numbers.now leaf }
{
    match numbers.get(leaf as usize) {
        Some(number) => *number,
        None => 0,
    }
}

/// For each leaf the one up to which the numbers that stand for leaves rise by 1.
fn runs_of(alloc: Global, numbers: &[u32]) -> Result<Vec<u32>, AllocError>
    ensures { IfOk result (λ runs. AreRuns numbers.now runs.items) }
{
    let Ok(count) = u32::try_from(numbers.len()) else {
        return Err(AllocError);
    };
    let mut runs = vec![in alloc; 0u32; numbers.len()]?;
    let mut at = numbers.len();
    let mut end = count;
    while at > 0 {
        at -= 1;
        end = end_from(numbers, at, end);
        set_end(runs.as_mut_slice(), numbers, at, end);
    }
    Ok(runs)
}

/// The end of the run of a leaf, by that of the next one.
fn end_from(numbers: &[u32], at: usize, end: u32) -> u32
    requires next { HasRun numbers.now (at + 1) end }
    requires within { at + 1 < 2 ^ 32 }
    ensures { HasRun numbers.now at result }
{
    if let (Some(here), Some(next)) = (numbers.get(at), numbers.get(at + 1)) {
        if u64::from(*here) + 1 == u64::from(*next) {
            return end;
        }
    }
    at as u32 + 1
}

/// Keeps the end of the run of a leaf.
fn set_end(runs: &mut [u32], numbers: &[u32], at: usize, end: u32)
    requires runs { AreRuns numbers.now runs.old }
    requires run { HasRun numbers.now at end }
    requires within { at < length runs.old }
    ensures runs { AreRuns numbers.now runs.new }
    ensures counted { length runs.new ≡ length runs.old }
{
    runs[at] = end;
}

/// Whether the leaves of a stretch surely stay side by side under new numbers.
fn is_steady(numbers: &[u32], runs: &[u32], stretch: &Stretch) -> bool
    requires { AreRuns numbers.now runs.now }
    ensures { IsTrue result → IsSteady (slice_index numbers.now) stretch.now }
{
    let Some(end) = runs.get(stretch.first as usize) else {
        return false;
    };
    match extent_of(stretch.spans.as_slice()) {
        Some(extent) => match extent.checked_add(u128::from(stretch.first)) {
            Some(behind) => behind <= u128::from(*end),
            None => false,
        },
        None => false,
    }
}

/// How far the leaves of a stretch reach.
fn extent_of(spans: &[Span]) -> Option<u128>
    ensures { IfSome result (λ n. n ≡ extent spans.now) }
{
    let mut extent: u128 = 1;
    for span in spans {
        let by = span
            .length
            .saturating_sub(1)
            .checked_mul(u128::from(span.stride))?;
        extent = extent.checked_add(by)?;
    }
    Some(extent)
}
