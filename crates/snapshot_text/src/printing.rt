//! The text of a state.

ghost use Rattle.std.specs.Prelude.{◌≡◌, ◌+◌, ◌≤◌, ◌++◌, [], length, map, IfOk, OnOk};
ghost use Rattle.bit_words.specs.declared.value.Value.{Value as OneValue};
ghost use Rattle.bit_words.specs.Values.{integer_of};
ghost use Rattle.ground_net.specs.Watching.{AreValuesOf};
ghost use Rattle.ground_net.specs.Cycles.{NetState};
ghost use Rattle.ground_net.specs.Nets.{IsNet};
ghost use Rattle.ground_net.specs.Words.{word_count, value_at};
ghost use Rattle.snapshot_text.specs.Cells.{input_cell, element_name, state_cells};
ghost use Rattle.snapshot_text.specs.Texts.{line_text, lines_text};
ghost use Rattle.snapshot_text.specs.Snapshots.{HoldsState, snapshot_text};
ghost use Rattle.snapshot_text.specs.Steps.{name_of, cell_of, shape_of_cell, count_cells, integers_at};

use crate::cells::{CellLine, ElementOf};
use crate::snapshot::Snapshot;
use crate::walking::{first_cursor, input_line, next_line};
use bit_words::{Value, from_words, push_decimal};
use ground_net::{Net, PortLeaf, Ports};
use itoa::Buffer;
use std::alloc::{AllocError, Global};

/// From this width on a value has two words.
const ONE_WORD: u8 = 64;

/// The text of a snapshot: the line `state CYCLES`, a line `input NAME VALUE` for each input in port order, `reg NAME VALUE` for each
/// register in flat order, `mem NAME[I]WAY VALUE` for each leaf of each element of each memory, and `read NAME VALUE` for each captured
/// read in flat order. Values are decimal.
///
/// The words are those of a state of the net, each within its width, and each input has a value of its kind and width. Takes memory and
/// time in proportion to the text.
pub fn print_state(
    alloc: Global,
    net: &Net,
    ports: &Ports,
    snapshot: &Snapshot,
) -> Result<Vec<u8>, AllocError>
    requires net { IsNet net.now }
    requires holds { (t : NetState) × HoldsState net.now ports.now.inputs t snapshot.now }
    ensures { (t : NetState) → HoldsState net.now ports.now.inputs t snapshot.now → IfOk result (λ text. text.items ≡ snapshot_text net.now ports.now.inputs t snapshot.now) }
{
    let mut digits = Buffer::new();
    let mut text = Vec::from_slice(alloc, b"state ")?;
    text.extend_from_slice(digits.format(snapshot.cycle).as_bytes())?;
    text.push(b'\n')?;
    push_inputs(
        &mut text,
        ports.inputs.as_slice(),
        snapshot.inputs.as_slice(),
    )?;
    push_words(&mut text, net, snapshot.words.as_slice())?;
    Ok(text)
}

/// Adds the lines of the inputs.
fn push_inputs(text: &mut Vec<u8>, inputs: &[PortLeaf], row: &[Value]) -> Result<(), AllocError>
    requires { length inputs.now ≤ length row.now }
    ensures { OnOk result (text.new.items ≡ text.old.items ++ lines_text (map input_cell inputs.now) (map integer_of row.now)) }
{
    for (number, leaf) in inputs.iter().enumerate() {
        push_line(text, &input_line(leaf), row[number])?;
    }
    Ok(())
}

/// Adds the lines of what the net keeps, which the words hold side by side.
fn push_words(text: &mut Vec<u8>, net: &Net, words: &[u64]) -> Result<(), AllocError>
    requires net { IsNet net.now }
    requires long { count_cells (state_cells net.now) ≤ length words.now }
    ensures { OnOk result (text.new.items ≡ text.old.items ++ lines_text (state_cells net.now) (integers_at (state_cells net.now) words.now 0)) }
{
    let mut cursor = first_cursor(net);
    let mut at = 0;
    'lines: while let Some((line, behind)) = next_line(cursor) {
        push_line(text, &line, value_from_words(words, at, &line))?;
        at += words_of(&line);
        cursor = behind;
    }
    Ok(())
}

/// How many words the value of a line has.
pub(crate) fn words_of(line: &CellLine<'_>) -> usize
    ensures is { result ≡ word_count (shape_of_cell (cell_of line.now)) }
    ensures few { result ≤ 2 }
{
    if line.width > ONE_WORD { 2 } else { 1 }
}

/// The value of a line, whose words stand at a place.
fn value_from_words(words: &[u64], at: usize, line: &CellLine<'_>) -> Value
    requires { at + word_count (shape_of_cell (cell_of line.now)) ≤ length words.now }
    ensures { integer_of result ≡ integer_of (value_at (shape_of_cell (cell_of line.now)) words.now at) }
{
    let high = if line.width > ONE_WORD {
        words[at + 1]
    } else {
        0
    };
    from_words(line.kind, line.width, words[at], high)
}

/// Adds a line.
fn push_line(text: &mut Vec<u8>, line: &CellLine<'_>, value: Value) -> Result<(), AllocError>
    ensures { OnOk result (text.new.items ≡ text.old.items ++ line_text (cell_of line.now) (integer_of value)) }
{
    text.extend_from_slice(line.word)?;
    text.push(b' ')?;
    push_name(text, line)?;
    text.push(b' ')?;
    push_decimal(text, value)?;
    text.push(b'\n')?;
    Ok(())
}

/// Adds the name of a line.
fn push_name(text: &mut Vec<u8>, line: &CellLine<'_>) -> Result<(), AllocError>
    ensures { OnOk result (text.new.items ≡ text.old.items ++ name_of line.now.name.now line.now.element) }
{
    text.extend_from_slice(line.name)?;
    if let Some(element) = line.element {
        push_element(text, element)?;
    }
    Ok(())
}

/// Adds the number of an element between brackets, and the way to a leaf in it.
fn push_element(text: &mut Vec<u8>, element: ElementOf<'_>) -> Result<(), AllocError>
    ensures { OnOk result (text.new.items ≡ text.old.items ++ element_name [] element.entry.index element.entry.path.now) }
{
    let mut digits = Buffer::new();
    text.push(b'[')?;
    text.extend_from_slice(digits.format(element.index).as_bytes())?;
    text.push(b']')?;
    text.extend_from_slice(element.path)?;
    Ok(())
}
