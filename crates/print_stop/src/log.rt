//! The log of a run.

ghost use Rattle.std.specs.Prelude.{◌≡◌, ◌≤◌, ◌++◌, length, take, drop, map, IfOk, OnOk};
ghost use Rattle.print_stop.specs.Printed.{stopped_line, ended_line};
ghost use Rattle.print_stop.specs.Logging.{places, items_text, items_code, feed, last_line, IsLogRow};

use crate::text::{push_text, shown_values};
use bit_words::{List, Row, Value};
use fir_tree::PrintItem;
use itoa::Buffer;
use row_texts::{Spot, Teller};
use std::alloc::{AllocError, Global};

/// What the items of a run print, and where they stop it. In a row of it stand, for each item in order, the value of its wire and then
/// those of its arguments.
#[derive(Drop)]
pub struct Log<'a> {
    /// The items in the order in which they print: each as often as it stands in an instance.
    pub items: List<&'a PrintItem>,
}

impl<'a> Teller for Log<'a> {
    ghost use Rattle.std.specs.Prelude.{map};
    ghost use Rattle.print_stop.specs.Printed.{stopped_line, ended_line};
    ghost use Rattle.print_stop.specs.Logging.{log_telling, IsLogRow};

    ghost tells = { λ log. log_telling (map (λ item. item.now) log.items) };

    ghost reads = { λ log row. IsLogRow (map (λ item. item.now) log.items) row };

    fn head(&self, alloc: Global) -> Result<Vec<u8>, AllocError> {
        Ok(Vec::new(alloc))
    }

    fn push_row(
        &self,
        text: &mut Vec<u8>,
        _cycle: u64,
        _before: Option<&Row>,
        row: &Row,
    ) -> Result<(), AllocError> {
        push_items(text, self.items.as_slice(), row.as_slice())
    }

    fn ends(&self, row: &Row) -> bool {
        items_code(self.items.as_slice(), row.as_slice()).is_some()
    }

    fn foot(&self, alloc: Global, spot: &Spot) -> Result<Vec<u8>, AllocError> {
        let code = match &spot.before {
            Some(row) => items_code(self.items.as_slice(), row.as_slice()),
            None => None,
        };
        let mut text = feed(alloc, spot.byte)?;
        let line = last_line(alloc, spot.cycle, code)?;
        text.extend_from_slice(line.as_slice())?;
        Ok(text)
    }
}

/// Adds what all items print.
fn push_items(text: &mut Vec<u8>, items: &[&PrintItem], row: &[Value]) -> Result<(), AllocError>
    requires { IsLogRow (map (λ item. item.now) items.now) row.now }
    ensures { OnOk result (text.new.items ≡ text.old.items ++ items_text (map (λ item. item.now) items.now) row.now) }
{
    let mut rest = row;
    for item in items {
        let (own, behind) = split(item, rest);
        if own[0].bits == 1 {
            push_text(text, item.pieces.as_slice(), &own[1..])?;
        }
        rest = behind;
    }
    Ok(())
}

/// The code of the first `stop` that is enabled.
fn items_code(items: &[&PrintItem], row: &[Value]) -> Option<u128>
    requires { IsLogRow (map (λ item. item.now) items.now) row.now }
    ensures { result ≡ items_code (map (λ item. item.now) items.now) row.now }
{
    let mut rest = row;
    for item in items {
        let (own, behind) = split(item, rest);
        if own[0].bits == 1
            && let Some(code) = item.stop
        {
            return Some(code);
        }
        rest = behind;
    }
    None
}

/// The values of an item, and those behind them.
fn split<'r>(item: &PrintItem, row: &'r [Value]) -> (&'r [Value], &'r [Value])
    requires { places item.now ≤ length row.now }
    ensures own { result.0.now ≡ take (places item.now) row.now }
    ensures behind { result.1.now ≡ drop (places item.now) row.now }
{
    row.split_at(shown_values(item.pieces.as_slice()) + 1)
}

/// A line feed behind another byte.
fn feed(alloc: Global, byte: Option<u8>) -> Result<Vec<u8>, AllocError>
    ensures { IfOk result (λ text. text.items ≡ feed byte) }
{
    let mut text = Vec::new(alloc);
    if let Some(byte) = byte
        && byte != b'\n'
    {
        text.push(b'\n')?;
    }
    Ok(text)
}

/// The last line, where this is the number of the cycle that would come.
fn last_line(alloc: Global, cycle: u64, code: Option<u128>) -> Result<Vec<u8>, AllocError>
    ensures { IfOk result (λ line. line.items ≡ last_line cycle code) }
{
    match code {
        Some(code) => stopped_line(alloc, cycle.saturating_sub(1), code),
        None => ended_line(alloc, cycle),
    }
}

fn stopped_line(alloc: Global, cycle: u64, code: u128) -> Result<Vec<u8>, AllocError>
    ensures { IfOk result (λ line. line.items ≡ stopped_line cycle code) }
{
    let mut line = Vec::new(alloc);
    let mut digits = Buffer::new();
    line.extend_from_slice(b"stopped ")?;
    line.extend_from_slice(digits.format(cycle).as_bytes())?;
    line.push(b' ')?;
    line.extend_from_slice(digits.format(code).as_bytes())?;
    line.push(b'\n')?;
    Ok(line)
}

fn ended_line(alloc: Global, cycles: u64) -> Result<Vec<u8>, AllocError>
    ensures { IfOk result (λ line. line.items ≡ ended_line cycles) }
{
    let mut line = Vec::new(alloc);
    let mut digits = Buffer::new();
    line.extend_from_slice(b"ended ")?;
    line.extend_from_slice(digits.format(cycles).as_bytes())?;
    line.push(b'\n')?;
    Ok(line)
}
