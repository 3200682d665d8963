//! The snapshot before the first cycle.

ghost use Rattle.std.specs.Prelude.{◌≡◌, map, IfOk, None};
ghost use Rattle.ground_net.specs.Watching.{inputs};
ghost use Rattle.ground_net.specs.Cycles.{first_state};
ghost use Rattle.ground_net.specs.Nets.{IsNet};
ghost use Rattle.ground_net.specs.Words.{words_of};
ghost use Rattle.stimulus.specs.Rows.{zero_of};
ghost use Rattle.circuit_texts.specs.Held.{IsStartOf};

use bit_words::{List, Row, Value};
use ground_net::{Net, PortLeaf, Ports};
use snapshot_text::Snapshot;
use snapshot_text::walking::{first_cursor, next_line};
use std::alloc::{AllocError, Global};

/// Above this width a value has two words.
const ONE_WORD: u8 = 64;

/// The snapshot before the first cycle: no cycle was run, the inputs have 0, and 0 is in all that is kept.
///
/// The ports have the net's inputs. Takes memory in proportion to the state, and time in proportion to the net and the state.
pub fn first_snapshot(alloc: Global, net: &Net, ports: &Ports) -> Result<Snapshot, AllocError>
    requires net { IsNet net.now }
    requires fed { ports.now.inputs ≡ inputs net.now }
    ensures { IfOk result (IsStartOf net.now None) }
{
    Ok(Snapshot {
        cycle: 0,
        inputs: zeros(alloc, ports.inputs.as_slice())?,
        words: first_words(alloc, net)?,
    })
}

/// A 0 for each input.
fn zeros(alloc: Global, inputs: &[PortLeaf]) -> Result<Row, AllocError>
    ensures { IfOk result (λ row. row ≡ map zero_of inputs.now) }
{
    let mut row = List::new(alloc);
    for leaf in inputs {
        row.push(Value {
            kind: leaf.kind,
            width: leaf.width,
            bits: 0,
        })?;
    }
    Ok(row)
}

/// The words of the first state: one for each line of the state's text, or two where its value is wider than a word.
fn first_words(alloc: Global, net: &Net) -> Result<List<u64>, AllocError>
    requires { IsNet net.now }
    ensures { IfOk result (λ words. words ≡ words_of net.now first_state) }
{
    let mut words = List::new(alloc);
    let mut cursor = first_cursor(net);
    'lines: while let Some((line, behind)) = next_line(cursor) {
        words.push(0)?;
        if line.width > ONE_WORD {
            words.push(0)?;
        }
        cursor = behind;
    }
    Ok(words)
}
