//! How long a frame is, how wide a row is, and where the outputs of a code stand in it.

ghost use Rattle.std.specs.Prelude.{◌≡◌, ◌+◌, ◌<◌, ◌≤◌, ℕ, length, slice_index, slice_index_or};
ghost use Rattle.flat_code.specs.declared.code.Code.{Code as Cod};
ghost use Rattle.flat_code.specs.Codes.{frame_length, most_publications};
ghost use Rattle.crew_workers.specs.Asked.{FewEach};
ghost use Rattle.crew_workers.specs.Spreads.{Apart, Placed, AreBelow};
ghost use Rattle.crew_workers.specs.Places.{Below, HasPlaces};
ghost use Rattle.crew_workers.specs.Scripts.{Runs};

use bit_words::{Rows, Value};
use flat_code::Code;

/// Puts the outputs of a code at their positions, of which no two are the same. Takes no memory.
pub fn place(positions: &[u32], outputs: &[Value], row: &mut [Value])
    requires many { length outputs.now ≡ length positions.now }
    requires apart { Apart positions.now }
    requires within { AreBelow (length row.old) positions.now }
    ensures { Placed positions.now outputs.now row.old row.new (length positions.now) }
{
    for j in 0..positions.len() {
        row[positions[j] as usize] = outputs[j];
    }
}

/// The length of the longest frame of these codes, 0 without a code. Takes no memory.
pub fn longest_frame(codes: &[Code]) -> usize
    ensures { (k : ℕ) (d : Cod) → k < length codes.now → frame_length (slice_index_or codes.now k d) ≤ result }
{
    let mut longest = 0;
    for k in 0..codes.len() {
        let code = &codes[k];
        let length = code.frame_length();
        if longest < length {
            longest = length;
        }
    }
    longest
}

/// The most that one of these codes publishes in a cycle, 0 without a code. Takes no memory.
pub fn most_published(codes: &[Code]) -> usize
    ensures each { (k : ℕ) (d : Cod) → k < length codes.now → most_publications (slice_index_or codes.now k d) ≤ result }
    ensures few { FewEach codes.now }
{
    let mut greatest = 0;
    for k in 0..codes.len() {
        let code = &codes[k];
        let most = code.most;
        if greatest < most {
            greatest = most;
        }
    }
    greatest
}

// The least number from `width` on that all these positions are below.
fn end_of(positions: &[u32], width: usize) -> usize
    ensures below { AreBelow result positions.now }
    ensures more { width ≤ result }
    ensures least { (n : ℕ) → width ≤ n → AreBelow n positions.now → result ≤ n }
{
    let mut end = width;
    for j in 0..positions.len() {
        let position = positions[j] as usize;
        if end <= position {
            end = position + 1;
        }
    }
    end
}

// The least number that the positions of all codes are below.
fn width_of(codes: &[Code]) -> usize
    ensures below { Below codes.now (length codes.now) result }
    ensures least { (n : ℕ) → Below codes.now (length codes.now) n → result ≤ n }
{
    let mut width = 0;
    for k in 0..codes.len() {
        let code = &codes[k];
        width = end_of(code.positions(), width);
    }
    width
}

/// How many values a row of outputs has: one for each position of a code. Takes no memory.
pub fn row_width(codes: &[Code], words: &[u64], rows: &Rows) -> usize
    requires runs { Runs codes.now words.now rows.now }
    ensures { HasPlaces codes.now result }
{
    // Only the contract speaks of the words and of the rows.
    let _ = words;
    let _ = rows;
    width_of(codes)
}
