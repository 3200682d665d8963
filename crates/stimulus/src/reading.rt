//! Reading a stimulus.

ghost use Rattle.std.specs.Prelude.{◌≡◌, ◌⊎◌, ℕ, ◌+◌, ◌-◌, ◌<◌, ◌≤◌, ◌^◌, List as Listed, [], length, All, AllPairs, IfOk, IfErr, MatchResult};
ghost use Rattle.std.specs.List.{AllZip};
ghost use Rattle.place_text.specs.Places.{place};
ghost use Rattle.place_text.specs.Verdicts.{IsVerdict};
ghost use Rattle.bit_words.specs.Numbers.{Holds};
ghost use Rattle.stimulus.specs.declared.fault.StimFault.TheVariants.{CyclesRange as Cycles_range, NoMemory as No_memory};
ghost use Rattle.stimulus.specs.Words.{behind};
ghost use Rattle.stimulus.specs.Faults.{IsFault, place_of, rank_of, most_cycles};
ghost use Rattle.stimulus.specs.Stimuli.{IsStimulus, IsFormed, Sets};
ghost use Rattle.stimulus.specs.Reading.{line_at, lines_after, shown, IsFirstOfLines, AreRead};
ghost use Rattle.stimulus.specs.Naming.{KnowsNames};

use crate::fault::StimFault;
use crate::forms::{Heading, SettingLine, read_heading, read_setting};
use crate::judging::{Reading, judge};
use crate::names::names_of;
use crate::progress::{Progress, no_progress, note};
use crate::stimulus::{Setting, Stimulus};
use crate::words::{Word, next_line};
use bit_words::List;
use ground_net::Ports;
use place_text::place_of;
use std::alloc::{AllocError, Global};

/// The stimulus that a text writes for main's ports; or its first fault by line and then by column.
///
/// Words are separated by spaces and tabs, and blank lines and lines whose first word begins with `;` are skipped. The first other
/// line is `cycles N`, each further one `CYCLE LEAF VALUE`: from this cycle on the input has this value, a number word. Cycles don't
/// fall from line to line and are below N, which is at most 1,000,000; an input is set once in a cycle, to a value that it holds.
///
/// Takes memory in proportion to the settings and the ports, and time in proportion to the text, but for a logarithm of the ports.
pub fn read_stimulus(alloc: Global, bytes: &[u8], ports: &Ports) -> Result<Stimulus, StimFault>
    requires short { length bytes.now ≤ 4194304 }
    requires few { length ports.now.inputs < 2 ^ 32 }
    ensures verdict { IsVerdict place_of rank_of (IsFault bytes.now ports.now) (IsStimulus bytes.now ports.now) result }
    ensures formed { IfOk result (IsFormed ports.now) }
{
    let Some(first) = next_line(bytes, 0) else {
        return Err(bad_line(bytes, bytes.len()));
    };
    let heading = match read_heading(bytes, first) {
        Ok(heading) => heading,
        Err(at) => return Err(bad_line(bytes, at)),
    };
    let cycles = judge_cycles(bytes, &heading)?;
    let reading = Reading {
        bytes,
        ports,
        names: names_of(alloc, ports)?,
        cycles,
    };
    let settings = read_settings(alloc, &reading, heading.number)?;
    Ok(Stimulus { cycles, settings })
}

/// A line that lacks its form at an offset.
fn bad_line(bytes: &[u8], at: usize) -> StimFault
    requires short { length bytes.now ≤ 4194304 }
    requires within { at ≤ length bytes.now }
    ensures { result ≡ StimFault.BadLine (place bytes.now at) }
{
    StimFault::BadLine(place_of(bytes, at))
}

/// The number of cycles, which is within its limit.
fn judge_cycles(bytes: &[u8], heading: &Heading<'_>) -> Result<u64, StimFault>
    requires short { length bytes.now ≤ 4194304 }
    requires within { heading.now.number.at ≤ length bytes.now }
    ensures { (n : ℕ) → Holds heading.now.cycles n → MatchResult result (λ cycles. (cycles ≡ n) × (n ≤ most_cycles))
        (λ fault. (fault ≡ Cycles_range (place bytes.now heading.now.number.at)) × (most_cycles < n)) }
{
    match heading.cycles {
        Some(cycles) if cycles <= 1_000_000 => Ok(cycles as u64),
        _ => Err(StimFault::CyclesRange(place_of(bytes, heading.number.at))),
    }
}

/// The settings of the lines behind a word, the last one of its line.
fn read_settings(
    alloc: Global,
    reading: &Reading<'_>,
    word: Word<'_>,
) -> Result<List<Setting>, StimFault>
    requires short { length reading.now.bytes.now ≤ 4194304 }
    requires names { KnowsNames reading.now.ports.now reading.now.names }
    requires within { behind (shown word) ≤ length reading.now.bytes.now }
    requires last { line_at reading.now.bytes.now (behind (shown word)) ≡ [] }
    ensures ok { IfOk result (λ settings. AreRead reading.now.bytes.now reading.now.ports.now reading.now.cycles (lines_after reading.now.bytes.now (behind (shown word.entry))) settings) }
    ensures err { IfErr result (λ fault. (fault ≡ No_memory) ⊎ IsFirstOfLines reading.now.bytes.now reading.now.ports.now reading.now.cycles (lines_after reading.now.bytes.now (behind (shown word.entry))) fault) }
{
    let mut progress = no_progress(alloc, reading.ports.inputs.len())?;
    let mut at = word.at + word.bytes.len();
    'lines: while let Some(first) = next_line(reading.bytes, at) {
        let line = match read_setting(reading.bytes, first) {
            Ok(line) => line,
            Err(at) => return Err(bad_line(reading.bytes, at)),
        };
        let setting = judge(reading, &progress, &line)?;
        note(&mut progress, setting)?;
        at = line.value_word.at + line.value_word.bytes.len();
    }
    Ok(progress.settings)
}
