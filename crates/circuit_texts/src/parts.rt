//! Rows of inputs that begin with any values.

ghost use Rattle.std.specs.Prelude.{◌≡◌, ℕ, ◌+◌, ◌<◌, ◌≤◌, List as Listed, length, take, All, IfOk, slice_index_or};
ghost use Rattle.bit_words.specs.declared.value.Value.{Value as OneValue};
ghost use Rattle.ground_net.specs.Watching.{AreValuesOf};
ghost use Rattle.stimulus.specs.Stimuli.{IsFormed};
ghost use Rattle.stimulus.specs.declared.stimulus.Setting.{Setting as OneSetting};
ghost use Rattle.circuit_texts.specs.StimulusParts.{rows_from};
ghost use Rattle.circuit_texts.specs.Steps.{row_after};

use bit_words::{List, Row, Rows, Value};
use ground_net::Ports;
use std::alloc::{AllocError, Global};
use stimulus::{Setting, Stimulus};

/// So many cycles from a first one on.
#[derive(Clone, Copy)]
pub struct Span {
    pub first: u64,
    pub count: u64,
}

/// The values of main's inputs in so many cycles from a first one on, a row for each cycle: an input has the value of its last
/// setting at or before the cycle, and its start value before the first.
///
/// The stimulus was read for these ports, there is a start value of its kind and width for each input, and the cycles are below the
/// stimulus's number of cycles. Takes memory in proportion to the values, and time in proportion to the values and the settings.
pub fn rows_from(
    alloc: Global,
    stimulus: &Stimulus,
    ports: &Ports,
    start: &Row,
    span: Span,
) -> Result<Rows, AllocError>
    requires formed { IsFormed ports.now stimulus.now }
    requires start { AreValuesOf ports.now.inputs start.now }
    requires within { span.first + span.count ≤ stimulus.now.cycles }
    ensures { IfOk result (λ rows. rows ≡ rows_from start.now stimulus.now.settings span.first span.count) }
{
    // Only the contract speaks of the ports.
    let _ = ports;
    let settings = stimulus.settings.as_slice();
    let mut row = List::from_slice(alloc, start.as_slice())?;
    let mut next = 0;
    let mut rows = List::new(alloc);
    for cycle in span.first..span.first + span.count {
        next = set_until(&mut row, settings, next, cycle);
        rows.push(List::from_slice(alloc, row.as_slice())?)?;
    }
    Ok(rows)
}

/// Sets the values of the settings from the next one on that are at or before a cycle. The number of the next one then.
fn set_until(row: &mut List<Value>, settings: &[Setting], next: usize, cycle: u64) -> usize
    requires inputs { All (λ s. s.input < length row.old) settings.now }
    requires within { next ≤ length settings.now }
    ensures set { (start : Listed OneValue) → row.old ≡ row_after start (take next settings.now) → row.new ≡ row_after start (take result settings.now) }
    ensures long { length row.new ≡ length row.old }
    ensures onward { next ≤ result }
    ensures within { result ≤ length settings.now }
    ensures passed { (k : ℕ) (d : OneSetting) → next ≤ k → k < result → (slice_index_or settings.now k d).cycle ≤ cycle }
    ensures stops { (d : OneSetting) → result < length settings.now → cycle < (slice_index_or settings.now result d).cycle }
{
    let mut at = next;
    while at < settings.len() && settings[at].cycle <= cycle {
        let setting = settings[at];
        row.set(setting.input as usize, setting.value);
        at += 1;
    }
    at
}
