//! The rows of the inputs' values.

ghost use Rattle.std.specs.Prelude.{◌≡◌, ℕ, ◌+◌, ◌<◌, ◌≤◌, List as Listed, length, take, map, All, IfOk, slice_index_or};
ghost use Rattle.ground_net.specs.declared.net.PortLeaf.{PortLeaf as OneLeaf};
ghost use Rattle.stimulus.specs.Stimuli.{IsFormed};
ghost use Rattle.stimulus.specs.Rows.{zero_of, rows_from};
ghost use Rattle.stimulus.specs.RowSteps.{row_after};
ghost use Rattle.stimulus.specs.declared.stimulus.Setting.{Setting as OneSetting};

use crate::stimulus::{Setting, Stimulus};
use bit_words::{Kind, List, Rows, Value};
use ground_net::{PortLeaf, Ports};
use std::alloc::{AllocError, Global};

/// The values of main's inputs in so many cycles from a first one on, a row for each cycle: an input has the value of its last
/// setting at or before the cycle, and 0 before the first.
///
/// The stimulus was read for these ports, and the cycles are below its number of cycles. Takes memory in proportion to the values, and
/// time in proportion to the values and the settings.
pub fn rows(
    alloc: Global,
    stimulus: &Stimulus,
    ports: &Ports,
    first: u64,
    count: u64,
) -> Result<Rows, AllocError>
    requires formed { IsFormed ports.now stimulus.now }
    requires within { first + count ≤ stimulus.now.cycles }
    ensures { IfOk result (λ rows. rows ≡ rows_from ports.now stimulus.now.settings first count) }
{
    let settings = stimulus.settings.as_slice();
    let mut row = zeros(alloc, ports.inputs.as_slice())?;
    let mut next = 0;
    let mut rows = List::new(alloc);
    for cycle in first..first + count {
        next = set_until(&mut row, settings, next, cycle);
        rows.push(List::from_slice(alloc, row.as_slice())?)?;
    }
    Ok(rows)
}

/// A 0 for each input.
fn zeros(alloc: Global, inputs: &[PortLeaf]) -> Result<List<Value>, AllocError>
    ensures { IfOk result (λ row. row ≡ map zero_of inputs.now) }
{
    let mut row = List::new(alloc);
    for leaf in inputs {
        row.push(Value {
            kind: leaf.kind,
            width: leaf.width,
            bits: 0,
        })?;
    }
    Ok(row)
}

/// Sets the values of the settings from the next one on that are at or before a cycle. The number of the next one then.
fn set_until(row: &mut List<Value>, settings: &[Setting], next: usize, cycle: u64) -> usize
    requires inputs { All (λ s. s.input < length row.old) settings.now }
    requires within { next ≤ length settings.now }
    ensures set { (inputs : Listed OneLeaf) → row.old ≡ row_after inputs (take next settings.now) → row.new ≡ row_after inputs (take result settings.now) }
    ensures long { length row.new ≡ length row.old }
    ensures onward { next ≤ result }
    ensures within { result ≤ length settings.now }
    ensures passed { (k : ℕ) (d : OneSetting) → next ≤ k → k < result → (slice_index_or settings.now k d).cycle ≤ cycle }
    ensures stops { (d : OneSetting) → result < length settings.now → cycle < (slice_index_or settings.now result d).cycle }
{
    let mut at = next;
    while at < settings.len() && settings[at].cycle <= cycle {
        let setting = settings[at];
        row.set(setting.input as usize, setting.value);
        at += 1;
    }
    at
}
