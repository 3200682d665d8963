//! The lines of a text, one at a time.

ghost use Rattle.std.specs.Prelude.{◌≡◌, ◌∷◌, ◌++◌, ◌↔◌, ◌+◌, ◌<◌, ◌≤◌, ℕ, List, [], IsTrue, length, IfSome, IfNone, IfOk, IfErr};
ghost use Rattle.bit_words.specs.Values.{integer_of};
ghost use Rattle.place_text.specs.Places.{place};
ghost use Rattle.snapshot_text.specs.Cells.{Cell as ACell, element_name};
ghost use Rattle.snapshot_text.specs.Steps.{cell_of, name_of, Lacks};
ghost use Rattle.snapshot_text.specs.Going.{IsParsed, SaysNothing, IsTold, IsFirstFrom};

use crate::cells::{CellLine, ElementOf};
use crate::fault::StateFault;
use bit_words::{Number, NumberFault, Value, fits, read_number, value_from};
use itoa::Buffer;
use place_text::place_of;

/// The words of a line: two, and a number word with its number, or none where the magnitude is over `2^128 - 1`.
#[derive(Clone, Copy)]
pub struct Parsed<'a> {
    pub word: &'a [u8],
    pub name: &'a [u8],
    pub value: &'a [u8],
    pub number: Option<Number>,
}

/// The value that a line says, and the offset behind the line.
#[derive(Clone, Copy)]
pub struct Told {
    pub value: Value,
    pub behind: usize,
}

/// The value of the line at an offset; or its first fault, by which no fault of later lines comes before.
pub fn read_line(bytes: &[u8], at: usize, line: &CellLine<'_>) -> Result<Told, StateFault>
    requires short { length bytes.now ≤ 67108864 }
    requires within { at ≤ length bytes.now }
    ensures told { IfOk result (λ told. IsTold bytes.now (cell_of line.now) at (integer_of told.value) told.behind) }
    ensures kind { IfOk result (λ told. told.value.kind ≡ line.now.kind) }
    ensures width { IfOk result (λ told. told.value.width ≡ line.now.width) }
    ensures err { IfErr result (λ fault. (more : List ACell) → IsFirstFrom bytes.now (cell_of line.now ∷ more) at fault) }
{
    let parsed = match parse(&bytes[at..]) {
        Some(parsed) => parsed,
        None => return Err(StateFault::BadLine(place_of(bytes, at))),
    };
    if is_missing(line, parsed.name) {
        return Err(StateFault::BadLine(place_of(bytes, at)));
    }
    if parsed.word != line.word {
        return Err(StateFault::NameOrder(place_of(bytes, at)));
    }
    let name = at + parsed.word.len() + 1;
    if !is_name(line, parsed.name) {
        return Err(StateFault::NameOrder(place_of(bytes, name)));
    }
    let value = name + parsed.name.len() + 1;
    match parsed.number {
        Some(number) if fits(number, line.kind, line.width.into()) => Ok(Told {
            value: value_from(line.kind, line.width, number),
            behind: value + parsed.value.len() + 1,
        }),
        _ => Err(StateFault::ValueRange(place_of(bytes, value))),
    }
}

/// The words of the first line of a text, where it is one of three words whose first one isn't empty and whose third one is a number
/// word, ended by a line feed.
fn parse(bytes: &[u8]) -> Option<Parsed<'_>>
    ensures some { IfSome result (IsParsed bytes.now) }
    ensures none { IfNone result (SaysNothing bytes.now) }
{
    let (line, _) = cut(bytes, b'\n')?;
    let (word, rest) = cut(line, b' ')?;
    let (name, value) = cut(rest, b' ')?;
    if word.is_empty() {
        return None;
    }
    let number = match read_number(value) {
        Ok(number) => Some(number),
        Err(NumberFault::Over) => None,
        Err(NumberFault::NotNumber) => return None,
    };
    Some(Parsed {
        word,
        name,
        value,
        number,
    })
}

/// What stands before the first byte of this sort, and what stands behind it.
pub(crate) fn cut(bytes: &[u8], byte: u8) -> Option<(&[u8], &[u8])>
    ensures some { IfSome result (λ parts. (bytes.now ≡ parts.0.now ++ byte ∷ parts.1.now) × Lacks byte parts.0.now) }
    ensures none { IfNone result (Lacks byte bytes.now) }
{
    let mut at = 0;
    while at < bytes.len() {
        if bytes[at] == byte {
            return Some((&bytes[..at], &bytes[at + 1..]));
        }
        at += 1;
    }
    None
}

/// Whether a name is empty, and that of a line isn't.
fn is_missing(line: &CellLine<'_>, name: &[u8]) -> bool
    ensures { IsTrue result ↔ ((name.now ≡ []) × ¬ (name.now ≡ (cell_of line.now).name)) }
{
    name.is_empty() && !is_name(line, name)
}

/// Whether this is the name of a line.
fn is_name(line: &CellLine<'_>, name: &[u8]) -> bool
    ensures { IsTrue result ↔ (name.now ≡ (cell_of line.now).name) }
{
    match line.element {
        Some(element) => match behind(name, line.name) {
            Some(rest) => is_element(element, rest),
            None => false,
        },
        None => name == line.name,
    }
}

/// Whether this is the number of an element between brackets, with the way to a leaf in it.
fn is_element(element: ElementOf<'_>, name: &[u8]) -> bool
    ensures { IsTrue result ↔ (name.now ≡ element_name [] element.entry.index element.entry.path.now) }
{
    let mut digits = Buffer::new();
    let Some(number) = behind(name, b"[") else {
        return false;
    };
    let Some(bracket) = behind(number, digits.format(element.index).as_bytes()) else {
        return false;
    };
    match behind(bracket, b"]") {
        Some(path) => path == element.path,
        None => false,
    }
}

/// What stands behind these bytes, where a text begins with them.
fn behind<'a>(text: &'a [u8], front: &[u8]) -> Option<&'a [u8]>
    ensures some { IfSome result (λ rest. text.now ≡ front.now ++ rest.now) }
    ensures none { IfNone result ((rest : List ℕ) → ¬ (text.now ≡ front.now ++ rest)) }
{
    text.strip_prefix(front)
}
