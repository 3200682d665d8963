//! The items of a module: `printf` and `stop`.

ghost use Rattle.std.specs.Prelude.{◌≡◌, [], ◌∷◌, MatchBool};
ghost use Rattle.fir_grammar.specs.Grammar.{A, The_mark, Statement, Printed, Item_end, Expression, Expressions};
ghost use Rattle.item_lines.specs.Formats.{shows};
ghost use Rattle.fir_parser.specs.Taking.{StandsAt, Reads, ReadsAll};
ghost use Rattle.fir_parser.specs.Expected.{Meets, BeginsItem};

use crate::symbols::{Expected, meets, take, take_call, take_expression, take_format, take_number};
use bit_words::List;
use fir_expr::Reader;
use fir_tree::{Expr, ParseFault, Piece};
use item_lines::Line;
use std::alloc::Global;

/// A `printf`.
pub fn read_print(alloc: Global, reader: &mut Reader) -> Result<Line, ParseFault>
    requires { BeginsItem "printf" reader.old }
    ensures { Reads Statement reader.old reader.new result }
{
    let place = take_call(reader, "printf")?;
    let enable = read_enable(alloc, reader)?;
    let what = read_printed(alloc, reader)?;
    read_end(reader)?;
    let (clock, condition) = enable;
    let (pieces, arguments) = what;
    Ok(Line::Print(place, clock, condition, pieces, arguments))
}

/// A `stop`.
pub fn read_stop(alloc: Global, reader: &mut Reader) -> Result<Line, ParseFault>
    requires { BeginsItem "stop" reader.old }
    ensures { Reads Statement reader.old reader.new result }
{
    let place = take_call(reader, "stop")?;
    let enable = read_enable(alloc, reader)?;
    let code = take_number(reader)?;
    take(reader, Expected::Mark(b')'))?;
    read_end(reader)?;
    let (clock, condition) = enable;
    Ok(Line::Stop(place, clock, condition, code))
}

/// The clock of an item and its condition.
fn read_enable(alloc: Global, reader: &mut Reader) -> Result<(Expr, Expr), ParseFault>
    requires at { StandsAt reader.old }
    ensures { ReadsAll (A Expression ∷ A Expression ∷ []) (λ it. (it.0, (it.1, tt))) reader.old reader.new result }
{
    let clock = take_expression(alloc, reader)?;
    let condition = take_expression(alloc, reader)?;
    Ok((clock, condition))
}

/// What a `printf` prints: a format, and the values that it shows.
type Shown = (List<Piece>, List<Expr>);

/// A format, as many expressions as it shows, and the `)` behind them.
fn read_printed(alloc: Global, reader: &mut Reader) -> Result<Shown, ParseFault>
    requires at { StandsAt reader.old }
    ensures { Reads Printed reader.old reader.new result }
{
    let pieces = take_format(alloc, reader)?;
    let arguments = read_arguments(alloc, reader, pieces.as_slice())?;
    take(reader, Expected::Mark(b')'))?;
    Ok((pieces, arguments))
}

/// As many expressions as these pieces show.
fn read_arguments(
    alloc: Global,
    reader: &mut Reader,
    pieces: &[Piece],
) -> Result<List<Expr>, ParseFault>
    requires at { StandsAt reader.old }
    ensures { ReadsAll (A (Expressions (shows pieces.now)) ∷ []) (λ it. (it, tt)) reader.old reader.new result }
{
    let mut arguments = List::new(alloc);
    for piece in pieces {
        if !is_shown(piece) {
            continue;
        }
        let argument = take_expression(alloc, reader)?;
        arguments.push(argument)?;
    }
    Ok(arguments)
}

/// Whether a piece shows a value.
fn is_shown(piece: &Piece) -> bool
    ensures { MatchBool result (shows (piece.now ∷ []) ≡ 1) (shows (piece.now ∷ []) ≡ 0) }
{
    matches!(piece, Piece::Show(_))
}

/// The end of an item's line, behind its label where it has one.
fn read_end(reader: &mut Reader) -> Result<(), ParseFault>
    requires at { StandsAt reader.old }
    ensures { Reads Item_end reader.old reader.new result }
{
    if meets(reader, Expected::Mark(b':')) {
        return read_label(reader);
    }
    take(reader, Expected::LineEnd)?;
    Ok(())
}

/// A `:`, a label, and the end of the line. The label is no name of the circuit.
fn read_label(reader: &mut Reader) -> Result<(), ParseFault>
    requires at { StandsAt reader.old }
    requires colon { Meets (The_mark 58) reader.old }
    ensures { Reads Item_end reader.old reader.new result }
{
    take(reader, Expected::Mark(b':'))?;
    take(reader, Expected::Name)?;
    take(reader, Expected::LineEnd)?;
    Ok(())
}
