//! Marks of cones: a word of 64 marks stands for each leaf, and each mark for a sink.

ghost use Rattle.std.specs.Prelude.{◌≡◌, ℕ, ◌+◌, ◌<◌, ◌≤◌, ◌||◌, List, length, All, Contains};
ghost use Rattle.cone_cutter.specs.Rows.{AreBelow, row_at, Met, ConeAt};
ghost use Rattle.cone_cutter.specs.Loads.{has_bit, holds};
ghost use Rattle.cone_cutter.specs.Marks.{IsRowOrder, AreInOrder, StandsOn, Spreads};

use crate::loads::give;
use bit_words::List;

/// Marks the cones of 64 sinks, from the first one on: the mark `s` stands on exactly what is in the cone of the sink `first + s`.
///
/// Takes one sweep over the sequence, in proportion to the rows, whatever the cones.
pub fn mark_cones(
    marks: &mut [u64],
    reads: &[List<u32>],
    needed: &[List<u32>],
    first: usize,
    sequence: &[u32],
)
    requires long { length marks.old ≡ length reads.now }
    requires below { AreBelow (length reads.now) reads.now }
    requires needs_below { AreBelow (length reads.now) needed.now }
    requires order { IsRowOrder reads.now sequence.now }
    requires needs_in_order { AreInOrder needed.now sequence.now }
    requires within { first ≤ length needed.now }
    ensures { (s : ℕ) → s < 64 → StandsOn marks.new s (ConeAt reads.now needed.now (first + s)) }
{
    mark_needs(marks, needed, first);
    hand_on(marks, reads, sequence);
}

/// Marks what 64 sinks need themselves, from the first one on.
fn mark_needs(marks: &mut [u64], needed: &[List<u32>], first: usize)
    requires below { AreBelow (length marks.old) needed.now }
    requires within { first ≤ length needed.now }
    ensures { (s : ℕ) → s < 64 → StandsOn marks.new s (Contains (row_at needed.now (first + s))) }
{
    marks.fill(0);
    let rest = needed.len() - first;
    for mark in 0..rest.min(64) {
        give(marks, needed[first + mark].as_slice(), mark as u32);
    }
}

/// Hands the marks of each leaf to the leaves that it reads, those of a later leaf before those of an earlier one: where a mark
/// stood on roots alone, it then stands on exactly what is met from them.
fn hand_on(marks: &mut [u64], reads: &[List<u32>], sequence: &[u32])
    requires long { length marks.old ≡ length reads.now }
    requires below { AreBelow (length reads.now) reads.now }
    requires order { IsRowOrder reads.now sequence.now }
    ensures { (s : ℕ) (roots : List ℕ) → ((x : ℕ) → Contains roots x → Contains sequence.now x) → StandsOn marks.old s (Contains roots) → StandsOn marks.new s (Met reads.now roots) }
{
    let mut place = sequence.len();
    'back: while place > 0 {
        place -= 1;
        let leaf = sequence[place];
        let mark = marks[leaf as usize];
        spread(marks, reads[leaf as usize].as_slice(), mark);
    }
}

/// Sets marks on the leaves of a row.
fn spread(marks: &mut [u64], row: &[u32], mark: u64)
    requires { All (λ x. x < length marks.old) row.now }
    ensures { Spreads row.now mark marks.old marks.new }
{
    for leaf in row {
        marks[*leaf as usize] = both(marks[*leaf as usize], mark);
    }
}

/// The marks of two words.
fn both(first: u64, second: u64) -> u64
    ensures { (s : ℕ) → has_bit result s ≡ (has_bit first s || has_bit second s) }
{
    first | second
}
