//! The texts of an epoch's rows.

ghost use Rattle.std.specs.Prelude.{◌≡◌, ℕ, ◌+◌, ◌^◌, ◌<◌, ◌≤◌, ◌++◌, length, take, All, Some, IfOk, OnOk, IfSome, option_copied, slice_index_or, []};
ghost use Rattle.std.specs.List.{list_any};
ghost use Rattle.row_texts.specs.Tellings.{last_from, told_of, rows_text};

use crate::telling::{Spot, Teller};
use bit_words::{List, Row};
use std::alloc::{AllocError, Global};

/// The texts of the rows that were told, where the text stands behind them, and whether one of them ends the run.
#[derive(Drop)]
pub struct Lines {
    pub bytes: Vec<u8>,
    pub spot: Spot,
    pub ended: bool,
}

/// The texts of rows behind a place, up to the first one that ends the run, in one block.
pub fn tell_rows<T: Teller>(
    alloc: Global,
    teller: &T,
    spot: &Spot,
    rows: &[Row],
) -> Result<Lines, AllocError>
    requires reads { All (T.reads teller.now) rows.now }
    requires before { IfSome spot.now.before (T.reads teller.now) }
    requires numbers { spot.now.cycle + length rows.now < 2 ^ 64 }
    ensures text { IfOk result (λ lines. lines.bytes.items ≡ rows_text (T.tells teller.now) spot.now.cycle spot.now.before (told_of (T.tells teller.now).ends rows.now)) }
    ensures cycle { IfOk result (λ lines. lines.spot.cycle ≡ spot.now.cycle + length (told_of (T.tells teller.now).ends rows.now)) }
    ensures before { IfOk result (λ lines. lines.spot.before ≡ last_from spot.now.before (told_of (T.tells teller.now).ends rows.now)) }
    ensures read { IfOk result (λ lines. IfSome lines.spot.before (T.reads teller.now)) }
    ensures byte { IfOk result (λ lines. lines.spot.byte ≡ last_from spot.now.byte lines.bytes.items) }
    ensures ended { IfOk result (λ lines. lines.ended ≡ list_any (T.tells teller.now).ends rows.now) }
{
    let mut bytes = Vec::new(alloc);
    let mut told = 0;
    let mut ended = false;
    while told < rows.len() && !ended {
        push_told(teller, &mut bytes, spot, rows, told)?;
        ended = teller.ends(&rows[told]);
        told += 1;
    }
    let before = copied(alloc, row_before(spot, rows, told))?;
    let byte = last_byte(spot.byte, bytes.as_slice());
    Ok(Lines {
        bytes,
        spot: Spot {
            cycle: spot.cycle + told as u64,
            before,
            byte,
        },
        ended,
    })
}

/// Adds the text of the row of this number behind a place.
fn push_told<T: Teller>(
    teller: &T,
    text: &mut Vec<u8>,
    spot: &Spot,
    rows: &[Row],
    at: usize,
) -> Result<(), AllocError>
    requires reads { All (T.reads teller.now) rows.now }
    requires before { IfSome spot.now.before (T.reads teller.now) }
    requires numbers { spot.now.cycle + length rows.now < 2 ^ 64 }
    requires there { at < length rows.now }
    ensures { OnOk result (text.new.items ≡ text.old.items ++ (T.tells teller.now).row (spot.now.cycle + at) (last_from spot.now.before (take at rows.now)) (slice_index_or rows.now at [])) }
{
    let before = row_before(spot, rows, at);
    teller.push_row(text, spot.cycle + at as u64, before, &rows[at])
}

/// The row before the one of this number behind a place.
fn row_before<'s>(spot: &'s Spot, rows: &'s [Row], at: usize) -> Option<&'s Row>
    requires { at ≤ length rows.now }
    ensures { option_copied result ≡ last_from spot.now.before (take at rows.now) }
{
    if at == 0 {
        return spot.before.as_ref();
    }
    Some(&rows[at - 1])
}

/// A row in memory of its own.
fn copied(alloc: Global, row: Option<&Row>) -> Result<Option<Row>, AllocError>
    ensures { IfOk result (λ copy. copy ≡ option_copied row.entry) }
{
    match row {
        Some(row) => Ok(Some(List::from_slice(alloc, row.as_slice())?)),
        None => Ok(None),
    }
}

/// The last byte, and what stood before where there is none.
fn last_byte(before: Option<u8>, bytes: &[u8]) -> Option<u8>
    ensures { result ≡ last_from before bytes.now }
{
    if bytes.is_empty() {
        return before;
    }
    Some(bytes[bytes.len() - 1])
}
