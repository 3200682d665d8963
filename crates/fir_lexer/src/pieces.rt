//! The piece at the front of a text.

ghost use Rattle.std.specs.Prelude.{◌≡◌, ◌<◌, ◌≤◌, IfSome, IfNone};
ghost use Rattle.std.specs.List.{prefix_len};
ghost use Rattle.fir_lexer.specs.Bytes.{in_digits, in_word, in_line};
ghost use Rattle.fir_lexer.specs.Scan.{Leads, LeadsNone, IsRest, HasNoRest, front_kind};
ghost use Rattle.fir_lexer.specs.Pieces.{IsLongest, BeginsNone};
ghost use Rattle.fir_lexer.specs.declared.pieces.PieceKind.TheVariants.{Annotation, TokenOf as Token_of};
ghost use Rattle.fir_lexer.specs.declared.token.TokenKind.TheVariants.{Word, Quoted, Text, Mark};

use crate::closing::{bracket_rest, info_rest, string_rest};
use crate::token::TokenKind;

/// The kinds of piece. A text is a list of pieces, and all but tokens count as white space.
#[derive(Clone, Copy)]
pub enum PieceKind {
    /// A space, a tab or a comma.
    Blank,
    /// A carriage return directly before a line feed.
    Return,
    /// A line feed.
    LineFeed,
    /// From `;` up to the end of the line.
    Comment,
    /// From `@[` up to the first `]` on the line with no backslash directly before it.
    Info,
    /// From `%[` up to the `]` that closes it. Brackets inside strings don't count.
    Annotation,
    TokenOf(TokenKind),
}

/// The longest piece at the front of a text, and how many bytes it has; none where no piece begins there.
pub fn piece(bytes: &[u8]) -> Option<(PieceKind, usize)>
    ensures some { IfSome result (λ p. IsLongest bytes.now p.0 p.1) }
    ensures none { IfNone result (BeginsNone bytes.now) }
{
    let [first, rest @ ..] = bytes else {
        return None;
    };
    let Some(begun) = kind_begun(*first) else {
        return None;
    };
    let Some((kind, more)) = rest_of(begun, rest) else {
        return None;
    };
    Some((kind, more + 1))
}

/// The kind of piece that a byte begins. A word stands for calls as well, and `=` for the arrow.
fn kind_begun(byte: u8) -> Option<PieceKind>
    ensures some { IfSome result (λ kind. Leads kind byte) }
    ensures none { IfNone result (LeadsNone byte) }
{
    match byte {
        b' ' | b'\t' | b',' => Some(PieceKind::Blank),
        b'\r' => Some(PieceKind::Return),
        b'\n' => Some(PieceKind::LineFeed),
        b';' => Some(PieceKind::Comment),
        b'@' => Some(PieceKind::Info),
        b'%' => Some(PieceKind::Annotation),
        b'`' => Some(PieceKind::TokenOf(TokenKind::Quoted)),
        b'"' => Some(PieceKind::TokenOf(TokenKind::Text)),
        b'A'..=b'Z' | b'a'..=b'z' | b'_' | b'$' => Some(PieceKind::TokenOf(TokenKind::Word)),
        b'0'..=b'9' => Some(PieceKind::TokenOf(TokenKind::Digits)),
        b':' | b'.' | b'[' | b']' | b'(' | b')' | b'<' | b'>' | b'{' | b'}' | b'=' | b'-' | b'|' =>
            { Some(PieceKind::TokenOf(TokenKind::Mark(byte))) }
        _ => None,
    }
}

/// The longest rest of a piece whose first byte begins a kind, with the kind that it turns out to be.
fn rest_of(kind: PieceKind, rest: &[u8]) -> Option<(PieceKind, usize)>
    requires { front_kind kind ≡ kind }
    ensures some { IfSome result (λ p. IsRest kind rest.now p.0 p.1) }
    ensures none { IfNone result (HasNoRest kind rest.now) }
{
    match kind {
        PieceKind::Blank | PieceKind::LineFeed => Some((kind, 0)),
        PieceKind::Return => match rest {
            [b'\n', ..] => Some((kind, 0)),
            _ => None,
        },
        PieceKind::Comment => Some((kind, line_len(rest))),
        PieceKind::Info => Some((kind, info_rest(rest)?)),
        PieceKind::Annotation => Some((kind, annotation_rest(rest)?)),
        PieceKind::TokenOf(token) => token_rest(token, rest),
    }
}

fn token_rest(token: TokenKind, rest: &[u8]) -> Option<(PieceKind, usize)>
    requires { front_kind (Token_of token) ≡ Token_of token }
    ensures some { IfSome result (λ p. IsRest (Token_of token) rest.now p.0 p.1) }
    ensures none { IfNone result (HasNoRest (Token_of token) rest.now) }
{
    match token {
        TokenKind::Word | TokenKind::Call => {
            let (kind, n) = word_rest(rest);
            Some((PieceKind::TokenOf(kind), n))
        }
        TokenKind::Quoted => Some((PieceKind::TokenOf(token), quoted_rest(rest)?)),
        TokenKind::Digits => Some((PieceKind::TokenOf(token), digits_len(rest))),
        TokenKind::Text => Some((PieceKind::TokenOf(token), text_rest(rest)?)),
        TokenKind::Mark(byte) => {
            let (kind, n) = mark_rest(byte, rest);
            Some((PieceKind::TokenOf(kind), n))
        }
        TokenKind::Arrow => Some((PieceKind::TokenOf(token), 1)),
    }
}

/// What follows a `%`: a bracket, and all up to the one that closes it.
fn annotation_rest(rest: &[u8]) -> Option<usize>
    ensures some { IfSome result (λ n. IsRest Annotation rest.now Annotation n) }
    ensures none { IfNone result (HasNoRest Annotation rest.now) }
{
    let [b'[', inner @ ..] = rest else {
        return None;
    };
    Some(bracket_rest(inner)? + 1)
}

/// A word, or a call where a `(` follows it.
fn word_rest(rest: &[u8]) -> (TokenKind, usize)
    ensures { IsRest (Token_of Word) rest.now (Token_of result.0) result.1 }
{
    let n = word_len(rest);
    match rest.get(n) {
        Some(b'(') => (TokenKind::Call, n + 1),
        _ => (TokenKind::Word, n),
    }
}

/// What follows a backquote: a name of one byte at least, and a backquote.
fn quoted_rest(rest: &[u8]) -> Option<usize>
    ensures some { IfSome result (λ n. IsRest (Token_of Quoted) rest.now (Token_of Quoted) n) }
    ensures none { IfNone result (HasNoRest (Token_of Quoted) rest.now) }
{
    let n = word_len(rest);
    match rest.get(n) {
        Some(b'`') if n > 0 => Some(n + 1),
        _ => None,
    }
}

/// What follows a quotation mark, up to and with the next one on its line.
fn text_rest(rest: &[u8]) -> Option<usize>
    ensures some { IfSome result (λ n. IsRest (Token_of Text) rest.now (Token_of Text) n) }
    ensures none { IfNone result (HasNoRest (Token_of Text) rest.now) }
{
    let Some(n) = string_rest(rest) else {
        return None;
    };
    if n <= line_len(rest) { Some(n) } else { None }
}

/// A mark, or an arrow where a `>` follows a `=`.
fn mark_rest(byte: u8, rest: &[u8]) -> (TokenKind, usize)
    ensures { IsRest (Token_of (Mark byte)) rest.now (Token_of result.0) result.1 }
{
    match (byte, rest) {
        (b'=', [b'>', ..]) => (TokenKind::Arrow, 1),
        _ => (TokenKind::Mark(byte), 0),
    }
}

/// How many bytes stand before the line's end.
fn line_len(bytes: &[u8]) -> usize
    ensures { result ≡ prefix_len in_line bytes.now }
{
    bytes.iter().take_while(|byte| **byte != b'\n').count()
}

/// How many bytes at the front may stand in a word.
fn word_len(bytes: &[u8]) -> usize
    ensures { result ≡ prefix_len in_word bytes.now }
{
    bytes
        .iter()
        .take_while(|byte| is_digits_byte(**byte) || **byte == b'-')
        .count()
}

/// How many bytes at the front may stand in a token that a digit begins.
fn digits_len(bytes: &[u8]) -> usize
    ensures { result ≡ prefix_len in_digits bytes.now }
{
    bytes
        .iter()
        .take_while(|byte| is_digits_byte(**byte))
        .count()
}

fn is_digits_byte(byte: u8) -> bool
    ensures { result ≡ in_digits byte }
{
    matches!(byte, b'A'..=b'Z' | b'a'..=b'z' | b'0'..=b'9' | b'_' | b'$')
}
