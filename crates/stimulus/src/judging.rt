//! Judging what a line says.

ghost use Rattle.std.specs.Prelude.{◌≡◌, ◌↔◌, ◌-◌, ◌<◌, ◌^◌, List, length, slice_get, Some, IsTrue, IfOk, MatchResult};
ghost use Rattle.std.specs.List.{AllZip};
ghost use Rattle.place_text.specs.First.{IsFirst};
ghost use Rattle.stimulus.specs.Words.{Word as TheWord};
ghost use Rattle.stimulus.specs.Forms.{Said};
ghost use Rattle.stimulus.specs.Faults.{IsLineFault, place_of, rank_of};
ghost use Rattle.stimulus.specs.Stimuli.{Sets};
ghost use Rattle.stimulus.specs.Reading.{IsSaid, IsInside, Knows, IsSound};
ghost use Rattle.stimulus.specs.Naming.{KnowsNames};
ghost use Rattle.stimulus.specs.Judging.{AnswersCycle, AnswersLeaf, AnswersValue};

use crate::fault::StimFault;
use crate::forms::SettingLine;
use crate::names::{NamedLeaf, Names, find};
use crate::progress::Progress;
use crate::stimulus::Setting;
use bit_words::{Value, fits, value_from};
use ground_net::{PortLeaf, Ports};
use place_text::place_of;

/// What is read for: the text, and the ports with their leaves by name.
#[derive(Drop)]
pub struct Reading<'a> {
    pub bytes: &'a [u8],
    pub ports: &'a Ports,
    pub names: Names<'a>,
    pub cycles: u64,
}

/// The setting that a line says, or the first fault of what it says.
pub fn judge(
    reading: &Reading<'_>,
    progress: &Progress,
    line: &SettingLine<'_>,
) -> Result<Setting, StimFault>
    requires short { length reading.now.bytes.now < 2 ^ 32 - 1 }
    requires inside { IsInside reading.now.bytes.now line.now }
    requires names { KnowsNames reading.now.ports.now reading.now.names }
    requires knows { Knows reading.now.ports.now reading.now.cycles progress.now.last progress.now.set_in progress.now.settings }
    ensures { (before : List (List TheWord)) (said : Said) → IsSaid line.now said → AllZip (Sets reading.now.ports.now) before progress.now.settings
        → MatchResult result (IsSound reading.now.ports.now reading.now.cycles progress.now.last progress.now.set_in said)
        (IsFirst place_of rank_of (IsLineFault reading.now.bytes.now reading.now.ports.now reading.now.cycles before said)) }
{
    let cycle = judge_cycle(reading.bytes, reading.cycles, progress.last, line)?;
    let input = judge_leaf(reading, progress, cycle, line)?;
    let leaf = &reading.ports.inputs.as_slice()[input as usize];
    let value = judge_value(reading, leaf, line)?;
    Ok(Setting {
        cycle,
        input,
        value,
    })
}

/// The cycle of a line, behind that of the line before.
fn judge_cycle(
    bytes: &[u8],
    cycles: u64,
    last: u64,
    line: &SettingLine<'_>,
) -> Result<u64, StimFault>
    requires short { length bytes.now < 2 ^ 32 - 1 }
    requires inside { IsInside bytes.now line.now }
    ensures { (said : Said) → IsSaid line.now said → AnswersCycle bytes.now cycles last said result }
{
    let at = line.cycle_word.at;
    match line.cycle {
        Some(cycle) if cycle < last.into() => { Err(StimFault::CycleOrder(place_of(bytes, at))) }
        Some(cycle) if cycle < cycles.into() => Ok(cycle as u64),
        _ => Err(StimFault::CycleRange(place_of(bytes, at))),
    }
}

/// The input that a line sets, which isn't set in its cycle yet.
fn judge_leaf(
    reading: &Reading<'_>,
    progress: &Progress,
    cycle: u64,
    line: &SettingLine<'_>,
) -> Result<u32, StimFault>
    requires short { length reading.now.bytes.now < 2 ^ 32 - 1 }
    requires inside { IsInside reading.now.bytes.now line.now }
    requires names { KnowsNames reading.now.ports.now reading.now.names }
    ensures within { IfOk result (λ input. input < length reading.now.ports.now.inputs) }
    ensures answer { (said : Said) → IsSaid line.now said → AnswersLeaf reading.now.bytes.now reading.now.ports.now progress.now.set_in cycle said result }
{
    let at = line.leaf.at;
    match find(&reading.names, line.leaf.bytes) {
        None => Err(StimFault::LeafUnknown(place_of(reading.bytes, at))),
        Some(NamedLeaf::Other) => Err(StimFault::NotInput(place_of(reading.bytes, at))),
        Some(NamedLeaf::Input(input)) => {
            if is_set(progress, input, cycle) {
                Err(StimFault::LeafTwice(place_of(reading.bytes, at)))
            } else {
                Ok(input)
            }
        }
    }
}

/// Whether an input was set last in this cycle.
fn is_set(progress: &Progress, input: u32, cycle: u64) -> bool
    ensures { IsTrue result ↔ (slice_get progress.now.set_in input ≡ Some (Some cycle)) }
{
    matches!(progress.set_in.get(input as usize), Some(Some(set)) if *set == cycle)
}

/// The value of a line, which the leaf holds.
fn judge_value(
    reading: &Reading<'_>,
    leaf: &PortLeaf,
    line: &SettingLine<'_>,
) -> Result<Value, StimFault>
    requires short { length reading.now.bytes.now < 2 ^ 32 - 1 }
    requires inside { IsInside reading.now.bytes.now line.now }
    ensures { (said : Said) → IsSaid line.now said → AnswersValue reading.now.bytes.now leaf.now said result }
{
    match line.number {
        Some(number) if fits(number, leaf.kind, leaf.width.into()) => {
            Ok(value_from(leaf.kind, leaf.width, number))
        }
        _ => {
            let at = line.value_word.at;
            Err(StimFault::ValueRange(place_of(reading.bytes, at)))
        }
    }
}
