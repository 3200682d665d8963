//! Statements other than `when`.

ghost use Rattle.std.specs.Prelude.{[], ◌∷◌, codes};
ghost use Rattle.fir_grammar.specs.Grammar.{The_word, Statement, word_at, line_end};
ghost use Rattle.fir_parser.specs.Taking.{StandsAt, InBlocks, Reads, ReadsAll};
ghost use Rattle.fir_parser.specs.Expected.{Meets, Begins};

use crate::header::{read_named, read_typed};
use crate::item::{read_print, read_stop};
use crate::memory::read_memory;
use crate::symbols::{
    Expected, meets, take, take_expression, take_name, take_placed_word, take_reference,
};
use fir_expr::Reader;
use fir_tree::{ParseFault, Stmt};
use item_lines::Line;
use place_text::Place;
use std::alloc::Global;

/// A statement other than a `when`.
pub fn read_plain(alloc: Global, reader: &mut Reader, blocks: u32) -> Result<Line, ParseFault>
    requires inside { InBlocks blocks reader.old }
    requires other { ¬ (Meets (The_word (codes "when")) reader.old) }
    ensures { Reads Statement reader.old reader.new result }
{
    if meets(reader, Expected::Word("wire")) {
        return read_wire(alloc, reader);
    }
    if meets(reader, Expected::Word("node")) {
        return read_node(alloc, reader);
    }
    if meets(reader, Expected::Word("mem")) {
        return read_memory(alloc, reader, blocks);
    }
    if meets(reader, Expected::Word("reg")) {
        return read_reg(alloc, reader);
    }
    if meets(reader, Expected::Word("regreset")) {
        return read_regreset(alloc, reader);
    }
    if meets(reader, Expected::Word("inst")) {
        return read_inst(reader);
    }
    if meets(reader, Expected::Word("connect")) {
        return read_connect(alloc, reader);
    }
    if meets(reader, Expected::Word("invalidate")) {
        return read_invalidate(alloc, reader);
    }
    if meets(reader, Expected::Call("printf")) {
        return read_print(alloc, reader);
    }
    if meets(reader, Expected::Call("stop")) {
        return read_stop(alloc, reader);
    }
    let place = read_skip(reader)?;
    Ok(Line::Plain(Stmt::Skip(place)))
}

/// A wire with its type.
fn read_wire(alloc: Global, reader: &mut Reader) -> Result<Line, ParseFault>
    requires { Begins "wire" reader.old }
    ensures { Reads Statement reader.old reader.new result }
{
    let typed = read_typed(alloc, reader, "wire")?;
    take(reader, Expected::LineEnd)?;
    let (name, typ) = typed;
    Ok(Line::Plain(Stmt::Wire(name, typ)))
}

/// A register with its type and its clock.
fn read_reg(alloc: Global, reader: &mut Reader) -> Result<Line, ParseFault>
    requires { Begins "reg" reader.old }
    ensures { Reads Statement reader.old reader.new result }
{
    let typed = read_typed(alloc, reader, "reg")?;
    let clock = take_expression(alloc, reader)?;
    take(reader, Expected::LineEnd)?;
    let (name, typ) = typed;
    Ok(Line::Plain(Stmt::Reg(name, typ, clock)))
}

/// A register with its type, its clock, its reset and its value after a reset.
fn read_regreset(alloc: Global, reader: &mut Reader) -> Result<Line, ParseFault>
    requires { Begins "regreset" reader.old }
    ensures { Reads Statement reader.old reader.new result }
{
    let typed = read_typed(alloc, reader, "regreset")?;
    let clock = take_expression(alloc, reader)?;
    let reset = take_expression(alloc, reader)?;
    let init = take_expression(alloc, reader)?;
    take(reader, Expected::LineEnd)?;
    let (name, typ) = typed;
    Ok(Line::Plain(Stmt::RegReset(name, typ, clock, reset, init)))
}

/// An instance of a module.
fn read_inst(reader: &mut Reader) -> Result<Line, ParseFault>
    requires { Begins "inst" reader.old }
    ensures { Reads Statement reader.old reader.new result }
{
    take(reader, Expected::Word("inst"))?;
    let name = take_name(reader)?;
    take(reader, Expected::Word("of"))?;
    let of = take_name(reader)?;
    take(reader, Expected::LineEnd)?;
    Ok(Line::Plain(Stmt::Inst(name, of)))
}

/// A node with its value.
fn read_node(alloc: Global, reader: &mut Reader) -> Result<Line, ParseFault>
    requires { Begins "node" reader.old }
    ensures { Reads Statement reader.old reader.new result }
{
    let name = read_named(reader, "node", b'=')?;
    let value = take_expression(alloc, reader)?;
    take(reader, Expected::LineEnd)?;
    Ok(Line::Plain(Stmt::Node(name, value)))
}

/// An invalidation.
fn read_invalidate(alloc: Global, reader: &mut Reader) -> Result<Line, ParseFault>
    requires { Begins "invalidate" reader.old }
    ensures { Reads Statement reader.old reader.new result }
{
    take(reader, Expected::Word("invalidate"))?;
    let driven = take_reference(alloc, reader)?;
    take(reader, Expected::LineEnd)?;
    Ok(Line::Plain(Stmt::Invalidate(driven)))
}

/// A connection: the driven side, then the source.
fn read_connect(alloc: Global, reader: &mut Reader) -> Result<Line, ParseFault>
    requires { Begins "connect" reader.old }
    ensures { Reads Statement reader.old reader.new result }
{
    take(reader, Expected::Word("connect"))?;
    let driven = take_reference(alloc, reader)?;
    let source = take_expression(alloc, reader)?;
    take(reader, Expected::LineEnd)?;
    Ok(Line::Plain(Stmt::Connect(driven, source)))
}

/// The word `skip` and the end of its line.
fn read_skip(reader: &mut Reader) -> Result<Place, ParseFault>
    requires at { StandsAt reader.old }
    ensures { ReadsAll (word_at "skip" ∷ line_end ∷ []) (λ place. (place, tt)) reader.old reader.new result }
{
    let place = take_placed_word(reader, "skip")?;
    take(reader, Expected::LineEnd)?;
    Ok(place)
}
