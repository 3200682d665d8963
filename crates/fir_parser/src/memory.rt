//! Memories: their lines (FIRRTL specification 3.0, "Memories").

ghost use Rattle.std.specs.Prelude.{◌≡◌, [], ◌∷◌, codes, OnOk};
ghost use Rattle.fir_grammar.specs.Grammar.{Is, Its_place, The_word, Statement, Memory_line, Memory_lines, Under_write, arrow};
ghost use Rattle.fir_parser.specs.Taking.{StandsAt, InBlocks, IsFresh, Reads, ReadsAll, ReadsToEnd};
ghost use Rattle.fir_parser.specs.Keys.{IsKeyAt, word_of};
ghost use Rattle.fir_parser.specs.Expected.{Meets};

use crate::header::read_named;
use crate::symbols::{
    Expected, meets, take, take_close, take_name, take_number, take_open, take_placed_word,
    take_type,
};
use bit_words::List;
use fir_expr::Reader;
use fir_tree::{ParseFault, Stmt};
use fir_types::{MemLine, Memory, Name, PortMode, Under};
use item_lines::Line;
use place_text::Place;
use std::alloc::Global;

/// A memory with its lines. So many blocks are open before it.
pub fn read_memory(alloc: Global, reader: &mut Reader, blocks: u32) -> Result<Line, ParseFault>
    requires inside { InBlocks blocks reader.old }
    requires word { Meets (The_word (codes "mem")) reader.old }
    ensures { Reads Statement reader.old reader.new result }
{
    let name = read_named(reader, "mem", b':')?;
    take(reader, Expected::LineEnd)?;
    take_open(reader, blocks)?;
    let lines = read_lines(alloc, reader)?;
    Ok(Line::Plain(Stmt::Mem(Memory { name, lines })))
}

/// The lines of a memory, up to the end of their block.
fn read_lines(alloc: Global, reader: &mut Reader) -> Result<List<MemLine>, ParseFault>
    requires at { StandsAt reader.old }
    ensures { ReadsToEnd Memory_lines reader.old reader.new result }
{
    let mut lines = List::new(alloc);
    while !meets(reader, Expected::Close) {
        let line = read_line(alloc, reader)?;
        take(reader, Expected::LineEnd)?;
        lines.push(line)?;
    }
    take_close(reader)?;
    Ok(lines)
}

/// What a line of a memory says.
#[derive(Clone, Copy)]
pub enum Key {
    Element,
    Depth,
    ReadLatency,
    WriteLatency,
    ReadUnder,
    Port(PortMode),
}

/// What the line at the reader's place says, by its word: a port that reads and writes where it is none of the others.
fn key_here(reader: &Reader) -> Key
    requires { StandsAt reader.now }
    ensures { IsKeyAt result reader.now }
{
    if meets(reader, Expected::Word("data-type")) {
        return Key::Element;
    }
    if meets(reader, Expected::Word("depth")) {
        return Key::Depth;
    }
    if meets(reader, Expected::Word("read-latency")) {
        return Key::ReadLatency;
    }
    if meets(reader, Expected::Word("write-latency")) {
        return Key::WriteLatency;
    }
    if meets(reader, Expected::Word("read-under-write")) {
        return Key::ReadUnder;
    }
    if meets(reader, Expected::Word("reader")) {
        return Key::Port(PortMode::Reader);
    }
    if meets(reader, Expected::Word("writer")) {
        return Key::Port(PortMode::Writer);
    }
    Key::Port(PortMode::ReadWriter)
}

/// The word that a line begins with.
fn key_word(key: Key) -> &'static str
    ensures { result.now ≡ word_of key }
{
    match key {
        Key::Element => "data-type",
        Key::Depth => "depth",
        Key::ReadLatency => "read-latency",
        Key::WriteLatency => "write-latency",
        Key::ReadUnder => "read-under-write",
        Key::Port(PortMode::Reader) => "reader",
        Key::Port(PortMode::Writer) => "writer",
        Key::Port(PortMode::ReadWriter) => "readwriter",
    }
}

/// A line of a memory.
fn read_line(alloc: Global, reader: &mut Reader) -> Result<MemLine, ParseFault>
    requires at { StandsAt reader.old }
    ensures { Reads Memory_line reader.old reader.new result }
{
    let key = key_here(reader);
    let place = read_key(reader, key_word(key))?;
    match key {
        Key::Element => Ok(MemLine::Element(place, take_type(alloc, reader)?)),
        Key::Depth => Ok(MemLine::Depth(place, take_number(reader)?)),
        Key::ReadLatency => Ok(MemLine::ReadLatency(place, take_number(reader)?)),
        Key::WriteLatency => Ok(MemLine::WriteLatency(place, take_number(reader)?)),
        Key::ReadUnder => Ok(MemLine::ReadUnder(place, read_under(reader)?)),
        Key::Port(mode) => Ok(MemLine::MemPort(place, mode, take_name(reader)?)),
    }
}

/// The word of a line, and `=>`.
fn read_key(reader: &mut Reader, word: &str) -> Result<Place, ParseFault>
    requires at { StandsAt reader.old }
    ensures reads { ReadsAll (Is Its_place (The_word word.now) ∷ arrow ∷ []) (λ place. (place, tt)) reader.old reader.new result }
    ensures fresh { OnOk result (IsFresh reader.new) }
{
    let place = take_placed_word(reader, word)?;
    take(reader, Expected::Arrow)?;
    Ok(place)
}

/// `old`, `new` or `undefined`.
fn read_under(reader: &mut Reader) -> Result<Under, ParseFault>
    requires at { StandsAt reader.old }
    ensures { Reads Under_write reader.old reader.new result }
{
    if meets(reader, Expected::Word("old")) {
        take(reader, Expected::Word("old"))?;
        return Ok(Under::Old);
    }
    if meets(reader, Expected::Word("new")) {
        take(reader, Expected::Word("new"))?;
        return Ok(Under::New);
    }
    take(reader, Expected::Word("undefined"))?;
    Ok(Under::Undefined)
}
