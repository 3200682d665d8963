//! Integers of literals (FIRRTL specification 3.0, "Expressions").

ghost use Rattle.std.specs.Prelude.{◌≡◌, ◌≢◌, ◌+◌, ◌∷◌, ◌++◌, ◌⊎◌, [], ℕ, Bool, true, false, List, slice_index, IfSome, IfNone, IsTrue, ◌↔◌};
ghost use Rattle.bit_words.specs.Numbers.{letter};
ghost use Rattle.bit_words.specs.declared.number.Base.{Base as TheBase};
ghost use Rattle.fir_lexer.specs.Tokens.{IsPastRange, IsQuotedBase};
ghost use Rattle.fir_lexer.specs.declared.token.Token.{Token as TheToken};
ghost use Rattle.fir_lexer.specs.declared.pieces.PieceKind.TheVariants.{TokenOf};
ghost use Rattle.fir_layout.specs.Pieces.{piece_of, pieces_of, bytes_of};
ghost use Rattle.fir_grammar.specs.Grammar.{Integer, IsQuotedNumber, A_quoted_number, Takes};
ghost use Rattle.token_reader.specs.Standing.{StandsIn};
ghost use Rattle.fir_expr.specs.LiteralIntegers.{IsString};
ghost use Rattle.token_reader.specs.Parts.{IsSource, IsPartOf};
ghost use Rattle.fir_expr.specs.Parts.{Answers};

use crate::Read;
use bit_words::{Base, Number, digits_value};
use fir_layout::Laid;
use fir_lexer::TokenKind;
use token_reader::{Text, bytes, is_mark, part_at, refusal_at, take_number};

/// Reads an integer: a number, a minus and a number, or a string of quoted number form.
pub(crate) fn integer(text: &Text, laid: &[Laid], at: usize) -> Read<Number>
    requires source { IsSource text.now laid.now }
    requires stands { (brackets : ℕ) × StandsIn (pieces_of text.now laid.now) at brackets }
    ensures { (major : ℕ) (names : List (List ℕ)) → Answers major Integer text.now laid.now at names result names }
{
    let part = part_at(laid, at)?;
    if is_mark(part, b'-') {
        let number = at + 1;
        let (_place, magnitude) = take_number(text, laid, number)?;
        return Ok((signed(true, magnitude), number + 1));
    }
    if is_string(part) {
        return match quoted_part(text, part) {
            Some(number) => Ok((number, at + 1)),
            None => Err(refusal_at(text, laid, at)),
        };
    }
    let (_place, magnitude) = take_number(text, laid, at)?;
    Ok((signed(false, magnitude), at + 1))
}

/// The number of this sign and magnitude.
fn signed(negative: bool, magnitude: u128) -> Number
    ensures { result ≡ record { negative = negative; magnitude = magnitude } }
{
    Number {
        negative,
        magnitude,
    }
}

/// Whether a part is a string.
fn is_string(part: Laid) -> bool
    ensures { (text : List ℕ) → IsTrue result ↔ IsString (piece_of text part) }
{
    matches!(part, Laid::Item(token) if token.kind == TokenKind::Text)
}

/// The number of a part that is a string of quoted number form.
fn quoted_part(text: &Text, part: Laid) -> Option<Number>
    requires { IsPartOf text.now part }
    ensures some { IfSome result (λ n. (token : TheToken) × (part ≡ Laid.Item token) × (token.kind ≡ TokenKind.Text) × IsQuotedNumber (bytes_of text.now token) n.negative n.magnitude) }
    ensures none { IfNone result (¬ (Takes A_quoted_number (piece_of text.now part))) }
{
    let Laid::Item(token) = part else {
        return None;
    };
    match token.kind {
        TokenKind::Text => quoted_number(bytes(text, token)),
        _ => None,
    }
}

/// The number of a string of quoted number form, with its quotation marks.
fn quoted_number(string: &[u8]) -> Option<Number>
    requires { ¬ (IsPastRange (TokenOf TokenKind.Text) string.now) }
    ensures some { IfSome result (λ n. IsQuotedNumber string.now n.negative n.magnitude) }
    ensures none { IfNone result ((negative : Bool) (magnitude : ℕ) → ¬ (IsQuotedNumber string.now negative magnitude)) }
{
    let Some((base, inner)) = between_quotes(string) else {
        return None;
    };
    let (negative, digits) = split_minus(inner);
    match digits_value(base, digits) {
        Ok(magnitude) => Some(signed(negative, magnitude)),
        Err(_fault) => None,
    }
}

/// The base that a string names behind its quotation mark, and the bytes up to the other mark.
fn between_quotes(string: &[u8]) -> Option<(Base, &[u8])>
    ensures some { IfSome result (λ p. IsQuotedBase p.0 × (string.now ≡ 34 ∷ letter p.0 ∷ (p.1.now ++ 34 ∷ []))) }
    ensures none { IfNone result ((base : TheBase) (inner : List ℕ) → IsQuotedBase base → ¬ (string.now ≡ 34 ∷ letter base ∷ (inner ++ 34 ∷ []))) }
{
    let [b'"', letter, rest @ ..] = string else {
        return None;
    };
    let [inner @ .., b'"'] = rest else {
        return None;
    };
    match *letter {
        b'h' => Some((Base::Hexadecimal, inner)),
        b'o' => Some((Base::Octal, inner)),
        b'b' => Some((Base::Binary, inner)),
        _ => None,
    }
}

/// Whether a minus stands first, and the bytes behind it or all of them.
fn split_minus(bytes: &[u8]) -> (bool, &[u8])
    ensures { ((result.0 ≡ true) × (bytes.now ≡ 45 ∷ result.1.now)) ⊎ ((result.0 ≡ false) × (slice_index bytes.now 0 ≢ 45) × (result.1.now ≡ bytes.now)) }
{
    match bytes {
        [b'-', digits @ ..] => (true, digits),
        _ => (false, bytes),
    }
}
