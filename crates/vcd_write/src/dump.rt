//! The text of a dump, piece by piece: the header, the changes of each cycle, and the end.

ghost use Rattle.std.specs.Prelude.{◌≡◌, ◌∷◌, ◌++◌, length, map, flat_map, option_map, IfOk, OnOk};
ghost use Rattle.std.specs.Option.{ForSome};
ghost use Rattle.std.specs.List.{enumerate_from};
ghost use Rattle.vcd_write.specs.Changes.{Time, all_bits, changes, stamped};
ghost use Rattle.vcd_write.specs.Texts.{var_line, ended, bits_of_row};
ghost use Rattle.vcd_write.specs.Pieces.{HaveShapesOf, widths_of_row, entries_text, header_text, cycle_text, end_text};

use crate::pushing::{push_change, push_time, push_variable};
use bit_words::{List, Row, Value};
use ground_net::PortLeaf;
use std::alloc::{AllocError, Global};

/// The text before the first cycle: the unit of time, the name of the scope, and each variable with its wires and its identifier
/// (IEEE 1364, "Value change dump file").
pub fn vcd_header(alloc: Global, top: &str, vars: &List<PortLeaf>) -> Result<Vec<u8>, AllocError>
    ensures { IfOk result (λ text. text.items ≡ header_text top.now vars.now) }
{
    front(alloc, top.as_bytes(), vars)
}

/// The same by the bytes of the scope's name.
pub(crate) fn front(alloc: Global, top: &[u8], vars: &List<PortLeaf>) -> Result<Vec<u8>, AllocError>
    ensures { IfOk result (λ text. text.items ≡ header_text top.now vars.now) }
{
    let mut text = Vec::from_slice(alloc, b"$timescale 1 ns $end\n$scope module ")?;
    text.extend_from_slice(top)?;
    text.extend_from_slice(b" $end\n")?;
    push_variables(&mut text, vars.as_slice())?;
    text.extend_from_slice(b"$upscope $end\n$enddefinitions $end\n")?;
    Ok(text)
}

/// Adds what a cycle adds, from the row of the cycle before it and its own: its time and the values that changed, or nothing where none
/// did. Where no row stands before it, all its values. Both rows have values of the same kinds and widths.
///
/// Takes one comparison for each value, and memory for the changes alone.
pub fn push_cycle(
    text: &mut Vec<u8>,
    cycle: u64,
    before: Option<&Row>,
    row: &Row,
) -> Result<(), AllocError>
    requires { ForSome before (λ old. HaveShapesOf old.now row.now) }
    ensures { OnOk result (text.new.items ≡ text.old.items ++ cycle_text cycle (option_map (λ old. old.now) before.entry) row.now) }
{
    match before {
        Some(old) => push_changes(text, cycle, old.as_slice(), row.as_slice()),
        None => push_values(text, cycle, row.as_slice()),
    }
}

/// The last line: the number of cycles.
pub fn vcd_end(alloc: Global, cycles: u64) -> Result<Vec<u8>, AllocError>
    ensures { IfOk result (λ line. line.items ≡ end_text cycles) }
{
    let mut line = Vec::new(alloc);
    push_time(&mut line, cycles)?;
    Ok(line)
}

/// Adds the lines that declare the variables.
fn push_variables(text: &mut Vec<u8>, vars: &[PortLeaf]) -> Result<(), AllocError>
    ensures { OnOk result (text.new.items ≡ text.old.items ++ flat_map ended (map var_line (enumerate_from 0 vars.now))) }
{
    for (number, leaf) in vars.iter().enumerate() {
        push_variable(text, number, leaf)?;
    }
    Ok(())
}

/// Adds the time of a cycle and all its values.
fn push_values(text: &mut Vec<u8>, cycle: u64, row: &[Value]) -> Result<(), AllocError>
    ensures { OnOk result (text.new.items ≡ text.old.items ++ entries_text (widths_of_row row.now) (Time cycle ∷ all_bits 0 (bits_of_row row.now))) }
{
    push_time(text, cycle)?;
    for (number, value) in row.iter().enumerate() {
        push_change(text, number, *value)?;
    }
    Ok(())
}

/// Adds the time of a cycle and the values that differ from those before, or nothing where none does.
fn push_changes(
    text: &mut Vec<u8>,
    cycle: u64,
    before: &[Value],
    row: &[Value],
) -> Result<(), AllocError>
    requires { length before.now ≡ length row.now }
    ensures { OnOk result (text.new.items ≡ text.old.items ++ entries_text (widths_of_row row.now) (stamped cycle (changes 0 (bits_of_row before.now) (bits_of_row row.now)))) }
{
    let start = text.len();
    for (number, value) in row.iter().enumerate() {
        if before[number].bits != value.bits {
            if text.len() == start {
                push_time(text, cycle)?;
            }
            push_change(text, number, *value)?;
        }
    }
    Ok(())
}
