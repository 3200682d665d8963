//! The tokens of a text.

ghost use Rattle.std.specs.Prelude.{◌≡◌, ◌≢◌, ℕ, ◌+◌, ◌∷◌, slice_index, Err, ◌-◌, ◌<◌, ◌≤◌, ◌^◌, ◌⊎◌, ◌↔◌, ◌++◌, List, [], take, drop, length, IsTrue, Some, IfSome, IfNone, IfOk, IfErr, OnOk, MatchResult};
ghost use Rattle.bit_words.specs.Numbers.{WritesDigits, IsMagnitude, letter};
ghost use Rattle.bit_words.specs.declared.number.Base.{Base as TheBase};
ghost use Rattle.bit_words.specs.declared.number.NumberFault.TheVariants.{Over};
ghost use Rattle.place_text.specs.Places.{place};
ghost use Rattle.fir_lexer.specs.Tokens.{IsPiece, IsPastRange, AreTokens, IsWrong, IsFault, token_of, QuotesNumber, IsQuotedBase};
ghost use Rattle.fir_lexer.specs.declared.fault.LexFault.{LexFault as AFault};
ghost use Rattle.fir_lexer.specs.declared.fault.LexFault.TheVariants.{NoMemory};
ghost use Rattle.fir_lexer.specs.Faults.{place_of as stands_at};
ghost use Rattle.fir_lexer.specs.declared.token.Token.{Token as TheToken};

use crate::fault::LexFault;
use crate::pieces::{PieceKind, piece};
use crate::token::{Token, TokenKind};
use bit_words::{Base, NumberFault, digits_value, read_magnitude};
use place_text::place_of;
use std::alloc::{AllocError, AllocFailed, Global};

/// The tokens of a text, in order, each with its kind and where it begins and ends.
///
/// The fault is the first one from the left. Takes memory in proportion to the tokens, and time in proportion to the text.
pub fn lex(alloc: Global, bytes: &[u8]) -> Result<Vec<Token>, LexFault>
    requires { length bytes.now < 2 ^ 32 - 1 }
    ensures ok { IfOk result (λ tokens. AreTokens bytes.now tokens.items) }
    ensures fault { IfErr result (λ fault. (fault ≡ NoMemory) ⊎ ((at : ℕ) × IsFault bytes.now at fault)) }
    // a text with tokens is refused for want of memory alone
    ensures accepts { (tokens : List TheToken) → AreTokens bytes.now tokens → MatchResult result (λ given. given.items ≡ tokens) (λ fault. fault ≡ NoMemory) }
    // and a text with a fault is answered by it, or by want of memory
    ensures refuses { (at : ℕ) (fault : AFault) → IsFault bytes.now at fault → MatchResult result (λ tokens. ⊥) (λ given. (given ≡ NoMemory) ⊎ (given ≡ fault)) }
{
    read_tokens(alloc, bytes)
}

fn read_tokens(alloc: Global, bytes: &[u8]) -> Result<Vec<Token>, LexFault>
    requires { length bytes.now < 2 ^ 32 - 1 }
    ensures ok { IfOk result (λ tokens. AreTokens bytes.now tokens.items) }
    ensures fault { IfErr result (λ fault. (fault ≡ NoMemory) ⊎ ((at : ℕ) × IsFault bytes.now at fault)) }
{
    let mut tokens = Vec::new(alloc);
    let mut at = 0;
    while at < bytes.len() {
        let (kind, length) = good_piece(bytes, at)?;
        push(&mut tokens, kind, at as u32, (at + length) as u32)?;
        at += length;
    }
    Ok(tokens)
}

/// The piece at an offset, or the fault there.
fn good_piece(bytes: &[u8], at: usize) -> Result<(PieceKind, usize), LexFault>
    requires within { at < length bytes.now }
    requires short { length bytes.now < 2 ^ 32 - 1 }
    ensures ok { IfOk result (λ p. IsPiece (drop at bytes.now) p.0 p.1) }
    ensures fault { IfErr result (λ fault. IsWrong fault (drop at bytes.now) × (stands_at fault ≡ Some (place bytes.now at))) }
{
    let rest = &bytes[at..];
    let Some((kind, length)) = piece(rest) else {
        let place = place_of(bytes, at);
        return Err(match bytes[at] {
            b'"' | b'`' | b'@' | b'%' => LexFault::BadToken(place),
            _ => LexFault::BadByte(place),
        });
    };
    if is_past_range(kind, &rest[..length]) {
        return Err(LexFault::NumberRange(place_of(bytes, at)));
    }
    Ok((kind, length))
}

/// Adds a token, unless the piece is white space.
fn push(tokens: &mut Vec<Token>, kind: PieceKind, start: u32, end: u32) -> Result<(), AllocError>
    ensures { OnOk result (tokens.new.items ≡ tokens.old.items ++ token_of kind start end) }
{
    if let PieceKind::TokenOf(kind) = kind {
        tokens.push(Token { kind, start, end })?;
    }
    Ok(())
}

/// Whether a piece writes a number whose magnitude is over 2^128 - 1.
fn is_past_range(kind: PieceKind, bytes: &[u8]) -> bool
    ensures { IsTrue result ↔ IsPastRange kind bytes.now }
{
    match kind {
        PieceKind::TokenOf(TokenKind::Digits) => is_past_range_number(bytes),
        PieceKind::TokenOf(TokenKind::Text) => is_past_range_quoted(bytes),
        _ => false,
    }
}

fn is_past_range_number(bytes: &[u8]) -> bool
    ensures { IsTrue result ↔ ((magnitude : ℕ) × IsMagnitude bytes.now magnitude × (2 ^ 128 ≤ magnitude)) }
{
    is_over(read_magnitude(bytes))
}

fn is_past_range_quoted(bytes: &[u8]) -> bool
    ensures { IsTrue result ↔ ((magnitude : ℕ) × QuotesNumber bytes.now magnitude × (2 ^ 128 ≤ magnitude)) }
{
    match quoted_digits(bytes) {
        Some((base, digits)) => is_over(digits_value(base, digits)),
        None => false,
    }
}

fn is_over(magnitude: Result<u128, NumberFault>) -> bool
    ensures { IsTrue result ↔ (magnitude ≡ Err Over) }
{
    match magnitude {
        Err(NumberFault::Over) => true,
        Err(NumberFault::NotNumber) | Ok(_) => false,
    }
}

/// The base and the digits of a string, with its quotation marks, that has the form of a number but for the digits.
fn quoted_digits(bytes: &[u8]) -> Option<(Base, &[u8])>
    ensures some { IfSome result (λ p. (magnitude : ℕ) → QuotesNumber bytes.now magnitude ↔ WritesDigits p.0 p.1.now magnitude) }
    ensures none { IfNone result ((magnitude : ℕ) → ¬ (QuotesNumber bytes.now magnitude)) }
{
    let [b'"', letter, rest @ ..] = bytes else {
        return None;
    };
    let [inner @ .., b'"'] = rest else {
        return None;
    };
    let Some(base) = quoted_base(*letter) else {
        return None;
    };
    Some((base, behind_minus(inner)))
}

/// The base that a letter names in a string.
fn quoted_base(byte: u8) -> Option<Base>
    ensures some { IfSome result (λ base. (letter base ≡ byte) × IsQuotedBase base) }
    ensures none { IfNone result ((base : TheBase) → IsQuotedBase base → letter base ≢ byte) }
{
    match byte {
        b'h' => Some(Base::Hexadecimal),
        b'o' => Some(Base::Octal),
        b'b' => Some(Base::Binary),
        _ => None,
    }
}

fn behind_minus(bytes: &[u8]) -> &[u8]
    ensures { (bytes.now ≡ 45 ∷ result.now) ⊎ ((slice_index bytes.now 0 ≢ 45) × (result.now ≡ bytes.now)) }
{
    match bytes {
        [b'-', digits @ ..] => digits,
        _ => bytes,
    }
}
