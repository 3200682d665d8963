//! The text, with a table of the places where its lines begin.

ghost use Rattle.std.specs.Prelude.{◌≡◌, ◌≤◌, ◌<◌, ◌-◌, ◌^◌, length, leb, IfOk};
ghost use Rattle.place_text.specs.Places.{place};
ghost use Rattle.token_reader.specs.LineStarts.{AreLines, IsLine, line_starts};

use bit_words::List;
use place_text::{Place, place_of};
use std::alloc::{AllocError, Global};
use std::marker::Model;

/// A text with the offsets where its lines begin, or with an empty table. Contracts see the bytes.
#[derive(Drop)]
pub struct Text<'a> {
    bytes: &'a [u8],
    lines: &'a [u32],
}

impl<'a> Model for Text<'a> {
    ghost use Rattle.std.specs.Prelude.{List as Listed, ℕ};
    ghost use Rattle.std.specs.Coded.{coded_list, coded_ℕ};

    ghost Value = { Listed ℕ };

    ghost coded = { coded_list coded_ℕ };

    ghost view = { λ text. text.bytes.now };

    ghost use Rattle.token_reader.specs.LineStarts.{AreLines};

    ghost invariant = { λ text. AreLines text.bytes.now text.lines.now };
}

impl<'a> Text<'a> {
    /// The text of these bytes, with a table of its lines or with none.
    pub fn new(bytes: &'a [u8], lines: &'a [u32]) -> Text<'a>
        requires { AreLines bytes.now lines.now }
        ensures { result ≡ bytes.now }
    {
        Text { bytes, lines }
    }

    /// The bytes.
    pub fn bytes(&self) -> &'a [u8]
        ensures { result.now ≡ self.now }
    {
        self.bytes
    }

    /// The place of an offset. Takes time in proportion to the logarithm of the number of lines where there is a table, and
    /// else to the offset.
    pub fn place_at(&self, offset: u32) -> Place
        requires within { offset ≤ length self.now }
        requires short { length self.now < 2 ^ 32 - 1 }
        ensures { result ≡ place self.now offset }
    {
        if self.lines.is_empty() {
            place_of(self.bytes, offset as usize)
        } else {
            place_among(self.bytes, self.lines, offset)
        }
    }
}

/// The place of an offset in a text whose lines begin there.
fn place_among(text: &[u8], lines: &[u32], offset: u32) -> Place
    requires within { offset ≤ length text.now }
    requires short { length text.now < 2 ^ 32 - 1 }
    requires lines { lines.now ≡ line_starts text.now }
    ensures { result ≡ place text.now offset }
{
    let line = line_of(text, lines, offset);
    Place {
        line: line as u32,
        column: offset - lines[line - 1] + 1,
    }
}

/// The line of an offset, from 1: how many lines begin at or before it.
fn line_of(text: &[u8], lines: &[u32], offset: u32) -> usize
    requires within { offset ≤ length text.now }
    requires lines { lines.now ≡ line_starts text.now }
    ensures { IsLine text.now lines.now offset result }
{
    lines.partition_point(
        |start: &u32| -> bool
            ensures { result ≡ leb start.now offset }
        { *start <= offset },
    )
}

/// The offsets where the lines of a text begin.
pub fn lines_of(alloc: Global, text: &[u8]) -> Result<List<u32>, AllocError>
    requires { length text.now < 2 ^ 32 - 1 }
    ensures { IfOk result (λ lines. lines ≡ line_starts text.now) }
{
    let mut lines = List::new(alloc);
    lines.push(0)?;
    for (at, byte) in text.iter().enumerate() {
        if *byte == b'\n' {
            lines.push(at as u32 + 1)?;
        }
    }
    Ok(lines)
}
