//! The lines of a trace.

ghost use Rattle.std.specs.Prelude.{◌≡◌, ◌++◌, IfOk, OnOk};
ghost use Rattle.trace_print.specs.Trace.{header_of, trace_line_of};

use bit_words::{List, Row, Text, push_decimal};
use itoa::Buffer;
use std::alloc::{AllocError, Global};

/// The first line of a trace: `cycle` and the names of the watched leaves, with one space between them, and a line feed.
pub fn header(alloc: Global, names: &List<Text>) -> Result<Vec<u8>, AllocError>
    ensures { IfOk result (λ line. line.items ≡ header_of names.now) }
{
    let mut line = Vec::from_slice(alloc, b"cycle")?;
    for name in names.as_slice() {
        line.push(b' ')?;
        line.extend_from_slice(name.as_slice())?;
    }
    line.push(b'\n')?;
    Ok(line)
}

/// Adds the line of a cycle: its number and the values in decimal, with one space between them, and a line feed.
pub fn push_trace_line(lines: &mut Vec<u8>, cycle: u64, row: &Row) -> Result<(), AllocError>
    ensures { OnOk result (lines.new.items ≡ lines.old.items ++ trace_line_of cycle row.now) }
{
    let mut digits = Buffer::new();
    lines.extend_from_slice(digits.format(cycle).as_bytes())?;
    for value in row.as_slice() {
        lines.push(b' ')?;
        push_decimal(lines, *value)?;
    }
    lines.push(b'\n')?;
    Ok(())
}

/// The line of a cycle in a block of its own.
pub fn trace_line(alloc: Global, cycle: u64, row: &Row) -> Result<Vec<u8>, AllocError>
    ensures { IfOk result (λ line. line.items ≡ trace_line_of cycle row.now) }
{
    let mut line = Vec::new(alloc);
    push_trace_line(&mut line, cycle, row)?;
    Ok(line)
}
