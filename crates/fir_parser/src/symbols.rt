//! Single symbols of the grammar.

ghost use Rattle.std.specs.Prelude.{◌≡◌, ◌<◌, ◌≤◌, ◌+◌, ◌-◌, ◌^◌, ◌++◌, ◌↔◌, ℕ, true, [], ◌∷◌, List as Listed, length, codes, slice_get, Some, IsTrue, IfOk, IfErr, IfSome, IfNone, OnOk, OnErr, MatchBool};
ghost use Rattle.fir_layout.specs.declared.laid.Laid.{Laid as TheLaid};
ghost use Rattle.place_text.specs.Places.{place};
ghost use Rattle.fir_layout.specs.Pieces.{bytes_of, piece_of};
ghost use Rattle.fir_grammar.specs.Grammar.{Is, Nothing, Its_place, Its_pieces, A_format, name, number, open_block, close_block, Type_of, Expression, Reference, The_word, The_call, Takes, start_of};
ghost use Rattle.fir_grammar.specs.Faults.{most, is_item};
ghost use Rattle.item_lines.specs.Formats.{shows};
ghost use Rattle.token_reader.specs.Standing.{IsLaidFrom};
ghost use Rattle.fir_parser.specs.Taking.{StandsAt, InBlocks, IsFresh, Steps, IsInText, Passes, Refuses, Answers, Reads, ReadsAll, blocks_at};
ghost use Rattle.fir_parser.specs.Expected.{terminal, IsQuiet, Meets, MeetsNext, NamesHere, IsFormatHere};

use bit_words::List;
use fir_expr::{Reader, read_expr, read_reference, read_type};
use fir_layout::Laid;
use fir_lexer::{Token, TokenKind};
use fir_tree::{Expr, ParseFault, Piece};
use fir_types::{FirType, Name};
use item_lines::read_format;
use place_text::Place;
use std::alloc::{AllocError, Global};
use token_reader::before_bracket;

/// How many blocks may be open.
const MOST_BLOCKS: u32 = 128;

/// What is asked of a part of the list: a word with this text, a word with this text and its `(`, a word or a quoted name, a mark of
/// this byte, and so on.
#[derive(Clone, Copy)]
pub enum Expected<'a> {
    Word(&'a str),
    Call(&'a str),
    Name,
    Mark(u8),
    Arrow,
    LineEnd,
    Open,
    Close,
    End,
}

/// The part of the list at the reader's place.
fn part(reader: &Reader) -> Option<Laid>
    requires laid { IsLaidFrom reader.now.bytes.now reader.now.laid.now }
    ensures part { result ≡ slice_get reader.now.laid.now reader.now.at }
    ensures inside { IfSome result (λ l. IsInText reader.now.bytes.now l) }
{
    reader.laid.get(reader.at).copied()
}

/// The bytes of a token.
fn token_bytes(bytes: &[u8], token: Token) -> &[u8]
    requires ordered { token.start ≤ token.end }
    requires within { token.end ≤ length bytes.now }
    ensures { result.now ≡ bytes_of bytes.now token }
{
    &bytes[token.start as usize..token.end as usize]
}

/// The place of the part that stands at the reader's place.
#[tactic(auto, using(crate::proofs::Steps::part_begins))]
fn place_here(reader: &Reader) -> Place
    requires short { length reader.now.bytes.now < 2 ^ 32 - 1 }
    requires laid { IsLaidFrom reader.now.bytes.now reader.now.laid.now }
    requires within { reader.now.at < length reader.now.laid.now }
    ensures { (l : TheLaid) → slice_get reader.now.laid.now reader.now.at ≡ Some l → result ≡ place reader.now.bytes.now (start_of l) }
{
    match part(reader) {
        Some(part) => reader.place_of(part),
        None => unreachable!(),
    }
}

/// Whether a part of the list is what is expected.
fn is(bytes: &[u8], part: Laid, expected: Expected) -> bool
    requires inside { IsInText bytes.now part }
    ensures { MatchBool result (Takes (terminal expected.entry) (piece_of bytes.now part)) (¬ (Takes (terminal expected.entry) (piece_of bytes.now part))) }
{
    match (expected, part) {
        (Expected::Word(text), Laid::Item(token)) => {
            token.kind == TokenKind::Word && token_bytes(bytes, token) == text.as_bytes()
        }
        (Expected::Call(text), Laid::Item(token)) => {
            token.kind == TokenKind::Call && is_call(token_bytes(bytes, token), text)
        }
        (Expected::Name, Laid::Item(token)) => {
            token.kind == TokenKind::Word || token.kind == TokenKind::Quoted
        }
        (Expected::Mark(mark), Laid::Item(token)) => token.kind == TokenKind::Mark(mark),
        (Expected::Arrow, Laid::Item(token)) => token.kind == TokenKind::Arrow,
        (Expected::LineEnd, Laid::LineEnd(_))
        | (Expected::Open, Laid::Open(_))
        | (Expected::Close, Laid::Close(_))
        | (Expected::End, Laid::End(_)) => true,
        _ => false,
    }
}

/// Whether a word with its `(` has this text before it.
fn is_call(call: &[u8], text: &str) -> bool
    ensures { IsTrue result ↔ (call.now ≡ text.now ++ codes "(") }
{
    match before_bracket(call) {
        Some(word) => word == text.as_bytes(),
        None => false,
    }
}

/// Whether what is expected stands at the reader's place.
pub fn meets(reader: &Reader, expected: Expected) -> bool
    requires laid { IsLaidFrom reader.now.bytes.now reader.now.laid.now }
    ensures { MatchBool result (Meets (terminal expected.entry) reader.now) (¬ (Meets (terminal expected.entry) reader.now)) }
{
    match part(reader) {
        Some(part) => is(reader.bytes, part, expected),
        None => false,
    }
}

/// Whether what is expected stands behind the part at the reader's place.
pub fn meets_next(reader: &Reader, expected: Expected) -> bool
    requires laid { IsLaidFrom reader.now.bytes.now reader.now.laid.now }
    requires within { reader.now.at < length reader.now.laid.now }
    ensures { MatchBool result (MeetsNext (terminal expected.entry) reader.now) (¬ (MeetsNext (terminal expected.entry) reader.now)) }
{
    match next_part(reader) {
        Some(part) => is(reader.bytes, part, expected),
        None => false,
    }
}

/// The part of the list behind that at the reader's place.
fn next_part(reader: &Reader) -> Option<Laid>
    requires laid { IsLaidFrom reader.now.bytes.now reader.now.laid.now }
    requires within { reader.now.at < length reader.now.laid.now }
    ensures part { result ≡ slice_get reader.now.laid.now (reader.now.at + 1) }
    ensures inside { IfSome result (λ l. IsInText reader.now.bytes.now l) }
{
    reader.laid.get(reader.at + 1).copied()
}

/// The fault of the part at the reader's place as one that can't continue the text.
pub fn fault_here(reader: &Reader) -> ParseFault
    requires short { length reader.now.bytes.now < 2 ^ 32 - 1 }
    requires laid { IsLaidFrom reader.now.bytes.now reader.now.laid.now }
    ensures { NamesHere reader.now result }
{
    reader.refusal_here()
}

/// Moves behind a part.
pub fn advance(reader: &mut Reader)
    requires { reader.old.at < length reader.old.laid.now }
    ensures { Steps reader.old reader.new }
{
    reader.at += 1;
}

/// Takes a piece that opens and closes nothing.
pub fn take(reader: &mut Reader, expected: Expected) -> Result<(), ParseFault>
    requires at { StandsAt reader.old }
    requires quiet { IsQuiet expected }
    ensures reads { ReadsAll (Is Nothing (terminal expected.entry) ∷ []) (λ _. tt) reader.old reader.new result }
    ensures fresh { OnOk result (IsFresh reader.old → IsFresh reader.new) }
    ensures missed { OnErr result (¬ (Meets (terminal expected.entry) reader.old)) }
    ensures met { OnOk result (Meets (terminal expected.entry) reader.old) }
{
    if !meets(reader, expected) {
        return Err(fault_here(reader));
    }
    advance(reader);
    Ok(())
}

/// Takes a word and gives its place.
pub fn take_placed_word(reader: &mut Reader, text: &str) -> Result<Place, ParseFault>
    requires at { StandsAt reader.old }
    ensures reads { ReadsAll (Is Its_place (The_word text.now) ∷ []) (λ at. (at, tt)) reader.old reader.new result }
    ensures fresh { OnOk result (IsFresh reader.new) }
{
    if !meets(reader, Expected::Word(text)) {
        return Err(fault_here(reader));
    }
    let place = place_here(reader);
    advance(reader);
    Ok(place)
}

/// Takes the word of an item with its `(`, which isn't counted among the open brackets, and gives its place.
pub fn take_call(reader: &mut Reader, text: &str) -> Result<Place, ParseFault>
    requires at { StandsAt reader.old }
    requires item { is_item (text.now ++ codes "(") ≡ true }
    ensures { ReadsAll (Is Its_place (The_call text.now) ∷ []) (λ at. (at, tt)) reader.old reader.new result }
{
    if !meets(reader, Expected::Call(text)) {
        return Err(fault_here(reader));
    }
    let place = place_here(reader);
    advance(reader);
    Ok(place)
}

/// Takes a format and gives its pieces.
pub fn take_format(alloc: Global, reader: &mut Reader) -> Result<List<Piece>, ParseFault>
    requires at { StandsAt reader.old }
    ensures here { IfOk result (λ pieces. IsFormatHere reader.old pieces) }
    ensures ok { IfOk result (λ pieces. Passes (Is Its_pieces (A_format (shows pieces)) ∷ []) reader.old reader.new (blocks_at reader.old) (pieces, tt)) }
    ensures refused { IfErr result (λ fault. (n : ℕ) → Refuses (Is Its_pieces (A_format n) ∷ []) reader.old fault) }
{
    let Some(pieces) = format_here(alloc, reader)? else {
        return Err(fault_here(reader));
    };
    advance(reader);
    Ok(pieces)
}

/// The pieces of the format at the reader's place, where one stands there.
fn format_here(alloc: Global, reader: &Reader) -> Result<Option<List<Piece>>, AllocError>
    requires laid { IsLaidFrom reader.now.bytes.now reader.now.laid.now }
    ensures some { IfOk result (λ read. IfSome read (λ pieces. IsFormatHere reader.now pieces)) }
    ensures none { IfOk result (λ read. IfNone read ((n : ℕ) → ¬ (Meets (A_format n) reader.now))) }
{
    let Some(Laid::Item(token)) = part(reader) else {
        return Ok(None);
    };
    if token.kind != TokenKind::Text {
        return Ok(None);
    }
    match between_quotes(token_bytes(reader.bytes, token)) {
        Some(inside) => read_format(alloc, inside),
        None => Ok(None),
    }
}

/// What stands between the quotes of a string.
fn between_quotes(string: &[u8]) -> Option<&[u8]>
    ensures some { IfSome result (λ inside. string.now ≡ 34 ∷ (inside.now ++ 34 ∷ [])) }
    ensures none { IfNone result ((inside : Listed ℕ) → ¬ (string.now ≡ 34 ∷ (inside ++ 34 ∷ []))) }
{
    match string {
        [b'"', inside @ .., b'"'] => Some(inside),
        _ => None,
    }
}

/// Takes a name.
pub fn take_name(reader: &mut Reader) -> Result<Name, ParseFault>
    requires at { StandsAt reader.old }
    ensures reads { ReadsAll (name ∷ []) (λ id. (id, tt)) reader.old reader.new result }
    ensures fresh { OnOk result (IsFresh reader.new) }
{
    let name = reader.take_name()?;
    Ok(name)
}

/// Takes a number.
pub fn take_number(reader: &mut Reader) -> Result<u128, ParseFault>
    requires at { StandsAt reader.old }
    ensures { ReadsAll (number ∷ []) (λ n. (n, tt)) reader.old reader.new result }
{
    let Some(number) = reader.number_here() else {
        return Err(fault_here(reader));
    };
    let (_place, magnitude) = number;
    advance(reader);
    Ok(magnitude)
}

/// Takes the beginning of a block, where so many blocks are open.
pub fn take_open(reader: &mut Reader, blocks: u32) -> Result<(), ParseFault>
    requires { InBlocks blocks reader.old }
    ensures reads { Answers (open_block ∷ []) (λ _. tt) (blocks + 1) reader.old reader.new result }
    ensures few { OnOk result (blocks < most) }
{
    if !meets(reader, Expected::Open) {
        return Err(fault_here(reader));
    }
    if blocks >= MOST_BLOCKS {
        return Err(ParseFault::TooDeep(place_here(reader)));
    }
    advance(reader);
    Ok(())
}

/// Takes the end of a block.
pub fn take_close(reader: &mut Reader) -> Result<(), ParseFault>
    requires at { StandsAt reader.old }
    ensures { Answers (close_block ∷ []) (λ _. tt) (blocks_at reader.old - 1) reader.old reader.new result }
{
    if !meets(reader, Expected::Close) {
        return Err(fault_here(reader));
    }
    advance(reader);
    Ok(())
}

/// Takes a type.
pub fn take_type(alloc: Global, reader: &mut Reader) -> Result<FirType, ParseFault>
    requires at { StandsAt reader.old }
    requires fresh { IsFresh reader.old }
    ensures { Reads Type_of reader.old reader.new result }
{
    let it = read_type(alloc, reader)?;
    Ok(it)
}

/// Takes an expression.
pub fn take_expression(alloc: Global, reader: &mut Reader) -> Result<Expr, ParseFault>
    requires at { StandsAt reader.old }
    ensures { Reads Expression reader.old reader.new result }
{
    let it = read_expr(alloc, reader)?;
    Ok(it)
}

/// Takes a reference.
pub fn take_reference(alloc: Global, reader: &mut Reader) -> Result<Expr, ParseFault>
    requires at { StandsAt reader.old }
    ensures { Reads Reference reader.old reader.new result }
{
    let it = read_reference(alloc, reader)?;
    Ok(it)
}
