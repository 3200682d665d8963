//! Literals, and what tells one form of expression from another (FIRRTL specification 3.0, "Expressions").

ghost use Rattle.std.specs.Prelude.{◌≡◌, ◌+◌, ◌∷◌, [], ℕ, List, IfOk, IfErr, IfSome, IfNone, codes};
ghost use Rattle.fir_layout.specs.Pieces.{piece_of, pieces_of};
ghost use Rattle.fir_grammar.specs.Reading.{IsRefused};
ghost use Rattle.fir_grammar.specs.Grammar.{A, Numbers, Expression, The_word, The_call, The_mark};
ghost use Rattle.token_reader.specs.Standing.{StandsIn};
ghost use Rattle.fir_expr.specs.LiteralParts.{AddsNumbers};
ghost use Rattle.fir_expr.specs.LiteralHeads.{IsHeadBefore, IsHeadOfCall, IsHeadOfWord};
ghost use Rattle.token_reader.specs.Parts.{IsSource, StartsWith};
ghost use Rattle.fir_expr.specs.Parts.{Answers, IsHeadAt, kind_name};

use crate::Read;
use crate::integers::integer;
use bit_words::{Kind, List};
use fir_layout::Laid;
use fir_lexer::TokenKind;
use fir_tree::{Expr, Form, ParseFault};
use prim_ops::{Prim, named};
use std::alloc::Global;
use token_reader::{
    Text, before_bracket, bytes, is_mark, open_bracket, open_call, part_at, place_of_part,
    take_mark, take_number,
};

/// What the first tokens say an expression is.
#[derive(Clone, Copy)]
pub enum Head {
    /// A reference, or nothing that an expression can begin with.
    Component,
    /// `mux(`
    Mux,
    /// `UInt(` or `SInt(`
    Literal(Kind),
    /// `UInt` or `SInt` and a `<`
    WideLiteral(Kind),
    /// An operation with its `(`.
    Operation(Prim),
}

/// What the expression at a place is. Reads the next two tokens.
pub fn head_at(text: &Text, laid: &[Laid], at: usize) -> Result<Head, ParseFault>
    requires { IsSource text.now laid.now }
    ensures ok { IfOk result (λ head. IsHeadAt head text.now laid.now at) }
    ensures err { IfErr result (λ fault. fault ≡ ParseFault.NoMemory) }
{
    let part = part_at(laid, at)?;
    let Laid::Item(token) = part else {
        return Ok(Head::Component);
    };
    match token.kind {
        TokenKind::Call => Ok(head_of_call(bytes(text, token))),
        TokenKind::Word => match literal_kind(bytes(text, token)) {
            Some(kind) => {
                let next = part_at(laid, at + 1)?;
                Ok(head_before(kind, next))
            }
            None => Ok(Head::Component),
        },
        _ => Ok(Head::Component),
    }
}

/// What a word is that names a kind and stands before this part.
fn head_before(kind: Kind, next: Laid) -> Head
    ensures { (text : List ℕ) → IsHeadBefore kind (piece_of text next) result }
{
    if is_mark(next, b'<') {
        Head::WideLiteral(kind)
    } else {
        Head::Component
    }
}

/// What a word with its `(` is.
fn head_of_call(call: &[u8]) -> Head
    ensures { IsHeadOfCall call.now result }
{
    match before_bracket(call) {
        Some(word) => head_of_word(word),
        None => Head::Component,
    }
}

/// What a word is that stands before a `(`.
fn head_of_word(word: &[u8]) -> Head
    ensures { IsHeadOfWord word.now result }
{
    if word == "mux".as_bytes() {
        return Head::Mux;
    }
    match literal_kind(word) {
        Some(kind) => Head::Literal(kind),
        None => match named(word) {
            Some(prim) => Head::Operation(prim),
            None => Head::Component,
        },
    }
}

/// The kind that a word names.
fn literal_kind(word: &[u8]) -> Option<Kind>
    ensures some { IfSome result (λ kind. word.now ≡ kind_name kind) }
    ensures unsigned { IfNone result (¬ (word.now ≡ codes "UInt")) }
    ensures signed { IfNone result (¬ (word.now ≡ codes "SInt")) }
{
    match word {
        b"UInt" => Some(Kind::Unsigned),
        b"SInt" => Some(Kind::Signed),
        _ => None,
    }
}

/// Reads so many numbers.
pub fn numbers(alloc: Global, text: &Text, laid: &[Laid], at: usize, count: u32) -> Read<List<u128>>
    requires source { IsSource text.now laid.now }
    requires stands { (brackets : ℕ) × StandsIn (pieces_of text.now laid.now) at brackets }
    ensures { (major : ℕ) (names : List (List ℕ)) → Answers major (Numbers count) text.now laid.now at names result names }
{
    let mut list = List::new(alloc);
    let end = push_numbers(text, laid, &mut list, at, count)?;
    Ok((list, end))
}

/// Reads so many numbers, and adds them to the list.
fn push_numbers(
    text: &Text,
    laid: &[Laid],
    list: &mut List<u128>,
    at: usize,
    count: u32,
) -> Result<usize, ParseFault>
    requires source { IsSource text.now laid.now }
    requires stands { (brackets : ℕ) × StandsIn (pieces_of text.now laid.now) at brackets }
    ensures ok { IfOk result (λ end. AddsNumbers text.now laid.now at count list.old list.new end) }
    ensures err { IfErr result (λ fault. IsRefused (A (Numbers count) ∷ []) text.now laid.now at fault) }
{
    let _first = part_at(laid, at)?;
    if count == 0 {
        return Ok(at);
    }
    let (_place, number) = take_number(text, laid, at)?;
    list.push(number)?;
    let end = push_numbers(text, laid, list, at + 1, count - 1)?;
    Ok(end)
}

/// Reads `UInt(` or `SInt(`, an integer and `)`. So many brackets are open before it.
pub fn literal(text: &Text, laid: &[Laid], at: usize, kind: Kind, brackets: u32) -> Read<Expr>
    requires source { IsSource text.now laid.now }
    requires stands { StandsIn (pieces_of text.now laid.now) at brackets }
    requires head { StartsWith (The_call (kind_name kind)) text.now laid.now at }
    ensures { (major : ℕ) (names : List (List ℕ)) → Answers major Expression text.now laid.now at names result names }
{
    let call = open_call(text, laid, at, brackets)?;
    let (number, close) = integer(text, laid, at + 1)?;
    let _bracket = take_mark(text, laid, close, b')')?;
    let literal = Expr {
        place: place_of_part(text, call),
        form: Form::Literal(kind, None, number),
    };
    Ok((literal, close + 1))
}

/// Reads `UInt` or `SInt`, a width between `<` and `>`, and an integer between brackets.
pub fn wide_literal(text: &Text, laid: &[Laid], at: usize, kind: Kind, brackets: u32) -> Read<Expr>
    requires source { IsSource text.now laid.now }
    requires stands { StandsIn (pieces_of text.now laid.now) at brackets }
    requires head { StartsWith (The_word (kind_name kind)) text.now laid.now at }
    requires next { StartsWith (The_mark 60) text.now laid.now (at + 1) }
    ensures { (major : ℕ) (names : List (List ℕ)) → Answers major Expression text.now laid.now at names result names }
{
    let word = part_at(laid, at)?;
    let less = at + 1;
    let _less = take_mark(text, laid, less, b'<')?;
    let number = less + 1;
    let (_place, width) = take_number(text, laid, number)?;
    let greater = number + 1;
    let _greater = take_mark(text, laid, greater, b'>')?;
    let bracket = greater + 1;
    let _bracket = open_bracket(text, laid, bracket, b'(', brackets)?;
    let (number, close) = integer(text, laid, bracket + 1)?;
    let _close = take_mark(text, laid, close, b')')?;
    let literal = Expr {
        place: place_of_part(text, word),
        form: Form::Literal(kind, Some(width), number),
    };
    Ok((literal, close + 1))
}
