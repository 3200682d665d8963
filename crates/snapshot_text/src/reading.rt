//! Reading the text of a state.

ghost use Rattle.std.specs.Prelude.{◌≡◌, ◌⊎◌, ◌+◌, ◌<◌, ◌≤◌, ◌++◌, [], List as Listed, length, map, IfSome, IfNone, IfOk, IfErr};
ghost use Rattle.place_text.specs.Places.{place};
ghost use Rattle.place_text.specs.First.{IsFirst};
ghost use Rattle.place_text.specs.Verdicts.{IsVerdict};
ghost use Rattle.bit_words.specs.Values.{integer_of};
ghost use Rattle.ground_net.specs.Watching.{AreValuesOf};
ghost use Rattle.ground_net.specs.Nets.{IsNet};
ghost use Rattle.snapshot_text.specs.declared.fault.StateFault.TheVariants.{NoMemory as No_memory};
ghost use Rattle.snapshot_text.specs.Cells.{Cell as ACell, input_cell, state_cells, cells_of};
ghost use Rattle.snapshot_text.specs.Faults.{IsFault, place_of, rank_of};
ghost use Rattle.snapshot_text.specs.Snapshots.{IsSnapshot};
ghost use Rattle.snapshot_text.specs.Going.{AreHeadWords, HasNoHead, IsHead, IsFirstFrom, AreRead, AreHeld};

use crate::fault::StateFault;
use crate::lines::{cut, read_line};
use crate::printing::words_of;
use crate::snapshot::Snapshot;
use crate::walking::{first_cursor, input_line, next_line};
use bit_words::{Base, List, NumberFault, Row, digits_value, high_word, low_word};
use ground_net::{Net, PortLeaf, Ports};
use place_text::place_of;
use std::alloc::{AllocError, Global};

/// The most cycles that a state is read with.
const MOST_CYCLES: u128 = 999_999_000_000;

/// What the first line says: the number of cycles; and the offset behind the line.
#[derive(Clone, Copy)]
pub struct Head {
    pub cycle: u64,
    pub behind: usize,
}

/// The values of the inputs, and the offset behind their lines.
#[derive(Drop)]
pub struct HeldInputs {
    pub row: Row,
    pub behind: usize,
}

/// The words of what is kept, and the offset behind their lines.
#[derive(Drop)]
pub struct HeldWords {
    pub words: List<u64>,
    pub behind: usize,
}

/// The snapshot that a text is read as; or its first fault: by line, within a line a form that is lacking before all else, and then by
/// column.
///
/// The text has exactly the lines of this net's states in their order, each ended by a line feed, its words separated by one space; the
/// number of cycles is decimal and at most 999,999,000,000; and each value is a number word that fits its leaf. Takes memory in proportion to the state, and time in proportion to the text and the net.
pub fn read_state(
    alloc: Global,
    bytes: &[u8],
    net: &Net,
    ports: &Ports,
) -> Result<Snapshot, StateFault>
    requires short { length bytes.now ≤ 67108864 }
    requires net { IsNet net.now }
    ensures verdict { IsVerdict place_of rank_of (IsFault (cells_of net.now ports.now.inputs) bytes.now) (IsSnapshot net.now ports.now.inputs bytes.now) result }
{
    let head = read_head(bytes)?;
    let inputs = read_inputs(alloc, bytes, head.behind, ports.inputs.as_slice())?;
    let kept = read_words(alloc, bytes, inputs.behind, net)?;
    if kept.behind < bytes.len() {
        return Err(StateFault::BadLine(place_of(bytes, kept.behind)));
    }
    Ok(Snapshot {
        cycle: head.cycle,
        inputs: inputs.row,
        words: kept.words,
    })
}

/// What the first line says; or the first fault of a text.
fn read_head(bytes: &[u8]) -> Result<Head, StateFault>
    requires { length bytes.now ≤ 67108864 }
    ensures ok { IfOk result (λ head. IsHead bytes.now head.cycle head.behind) }
    ensures err { IfErr result (λ fault. (cells : Listed ACell) → IsFirst place_of rank_of (IsFault cells bytes.now) fault) }
{
    let Some((word, cycles)) = parse_head(bytes) else {
        return Err(StateFault::BadLine(place_of(bytes, 0)));
    };
    let number = match digits_value(Base::Decimal, cycles) {
        Ok(number) => Some(number),
        Err(NumberFault::Over) => None,
        Err(NumberFault::NotNumber) => return Err(StateFault::BadLine(place_of(bytes, 0))),
    };
    if word != b"state".as_slice() {
        return Err(StateFault::NameOrder(place_of(bytes, 0)));
    }
    let at = word.len() + 1;
    match number {
        Some(cycle) if cycle <= MOST_CYCLES => Ok(Head {
            cycle: cycle as u64,
            behind: at + cycles.len() + 1,
        }),
        _ => Err(StateFault::CyclesRange(place_of(bytes, at))),
    }
}

/// The two parts of the first line, where it is ended by a line feed and its first word isn't empty.
fn parse_head(bytes: &[u8]) -> Option<(&[u8], &[u8])>
    ensures some { IfSome result (λ parts. AreHeadWords bytes.now parts.0.now parts.1.now) }
    ensures none { IfNone result (HasNoHead bytes.now) }
{
    let (line, _) = cut(bytes, b'\n')?;
    let (word, cycles) = cut(line, b' ')?;
    if word.is_empty() {
        return None;
    }
    Some((word, cycles))
}

/// The values of the inputs' lines from an offset on.
fn read_inputs(
    alloc: Global,
    bytes: &[u8],
    at: usize,
    inputs: &[PortLeaf],
) -> Result<HeldInputs, StateFault>
    requires short { length bytes.now ≤ 67108864 }
    requires within { at ≤ length bytes.now }
    ensures row { IfOk result (λ held. AreValuesOf inputs.now held.row) }
    ensures read { IfOk result (λ held. AreRead bytes.now (map input_cell inputs.now) at (map integer_of held.row) held.behind) }
    ensures within { IfOk result (λ held. held.behind ≤ length bytes.now) }
    ensures err { IfErr result (λ fault. (fault ≡ No_memory) ⊎ ((more : Listed ACell) → IsFirstFrom bytes.now (map input_cell inputs.now ++ more) at fault)) }
{
    let mut row = List::new(alloc);
    let mut behind = at;
    for leaf in inputs {
        let told = read_line(bytes, behind, &input_line(leaf))?;
        row.push(told.value)?;
        behind = told.behind;
    }
    Ok(HeldInputs { row, behind })
}

/// The words of the values of the lines of what the net keeps, from an offset on.
fn read_words(alloc: Global, bytes: &[u8], at: usize, net: &Net) -> Result<HeldWords, StateFault>
    requires short { length bytes.now ≤ 67108864 }
    requires within { at ≤ length bytes.now }
    requires net { IsNet net.now }
    ensures held { IfOk result (λ held. AreHeld bytes.now (state_cells net.now) at held.words held.behind) }
    ensures within { IfOk result (λ held. held.behind ≤ length bytes.now) }
    ensures err { IfErr result (λ fault. (fault ≡ No_memory) ⊎ IsFirstFrom bytes.now (state_cells net.now) at fault) }
{
    let mut words = List::new(alloc);
    let mut behind = at;
    let mut cursor = first_cursor(net);
    'lines: while let Some((line, ahead)) = next_line(cursor) {
        let told = read_line(bytes, behind, &line)?;
        words.push(low_word(told.value))?;
        if words_of(&line) == 2 {
            words.push(high_word(told.value))?;
        }
        behind = told.behind;
        cursor = ahead;
    }
    Ok(HeldWords { words, behind })
}
