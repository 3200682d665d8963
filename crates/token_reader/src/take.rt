//! Single tokens of a laid list: what the grammar asks for is taken, and anything else is refused with its kind and place.

ghost use Rattle.std.specs.Prelude.{◌≡◌, ◌≤◌, ◌<◌, ◌+◌, ◌-◌, ◌^◌, length, slice_get, Some, IsTrue, IfOk, IfErr, IfSome, IfNone, ◌↔◌, ◌++◌, ℕ, List, codes, map, Contains};
ghost use Rattle.place_text.specs.Places.{place};
ghost use Rattle.fir_layout.specs.Pieces.{piece_of, bytes_of};
ghost use Rattle.fir_tree.specs.declared.fault.ParseFault.TheVariants.{NoMemory};
ghost use Rattle.fir_grammar.specs.Grammar.{Terminal, The_word, The_mark, A_field, A_number, Takes, start_of, name_in};
ghost use Rattle.fir_tree.specs.Numbered.{AddsName};
ghost use Rattle.bit_words.specs.Numbers.{IsMagnitude};
ghost use Rattle.fir_layout.specs.declared.laid.Laid.{Laid as TheLaid};
ghost use Rattle.fir_lexer.specs.declared.token.Token.{Token as TheToken};
ghost use Rattle.token_reader.specs.Standing.{wanted};
ghost use Rattle.fir_grammar.specs.Faults.{IsNamed, IsListed, listed_words};
ghost use Rattle.token_reader.specs.Parts.{IsSource, IsTokenIn, IsPartOf, AnswersPiece, IsNotTaken, IsNumberAt, IsNameAt, is_flat, terminal_of};

use crate::text::Text;
use bit_words::read_magnitude;
use fir_layout::Laid;
use fir_lexer::{Token, TokenKind};
use fir_tree::{Names, ParseFault};
use fir_types::Name;
use place_text::Place;

/// The part that stands at a place, where one does.
fn standing(laid: &[Laid], at: usize) -> Option<Laid>
    ensures { result ≡ slice_get laid.now at }
{
    laid.get(at).copied()
}

/// The part at a place. Behind the last one there is no token to name.
pub fn part_at(laid: &[Laid], at: usize) -> Result<Laid, ParseFault>
    ensures ok { IfOk result (λ part. slice_get laid.now at ≡ Some part) }
    ensures within { IfOk result (λ _. at < length laid.now) }
    ensures err { IfErr result (λ fault. fault ≡ NoMemory) }
{
    standing(laid, at).ok_or(ParseFault::NoMemory)
}

/// The offset where a part begins.
pub fn start(part: Laid) -> u32
    ensures { result ≡ start_of part }
{
    match part {
        Laid::Item(token) => token.start,
        Laid::LineEnd(at) | Laid::Open(at) | Laid::Close(at) | Laid::End(at) => at,
    }
}

/// The place of a part.
pub fn place_of_part(text: &Text, part: Laid) -> Place
    requires short { length text.now < 2 ^ 32 - 1 }
    requires inside { IsPartOf text.now part }
    ensures { result ≡ place text.now (start_of part) }
{
    text.place_at(start(part))
}

/// The bytes of a token.
pub fn bytes<'a>(text: &Text<'a>, token: Token) -> &'a [u8]
    requires { IsTokenIn text.now token }
    ensures { result.now ≡ bytes_of text.now token }
{
    let all = text.bytes();
    &all[token.start as usize..token.end as usize]
}

/// The fault of a part that can't continue the text.
pub fn refusal(text: &Text, part: Laid) -> ParseFault
    requires short { length text.now < 2 ^ 32 - 1 }
    requires inside { IsPartOf text.now part }
    ensures { IsNamed (piece_of text.now part) (place text.now (start_of part)) result }
{
    let place = place_of_part(text, part);
    if is_listed(text, part) {
        ParseFault::Unsupported(place)
    } else {
        ParseFault::BadSyntax(place)
    }
}

/// Whether a part names what isn't supported.
fn is_listed(text: &Text, part: Laid) -> bool
    requires { IsPartOf text.now part }
    ensures { IsTrue result ↔ IsListed (piece_of text.now part) }
{
    let Laid::Item(token) = part else {
        return false;
    };
    match token.kind {
        TokenKind::Word => is_listed_word(bytes(text, token)),
        TokenKind::Call => is_listed_call(bytes(text, token)),
        TokenKind::Mark(mark) => mark == b'|',
        _ => false,
    }
}

/// Whether a word with its `(` is one of a construct that isn't supported.
fn is_listed_call(call: &[u8]) -> bool
    ensures { IsTrue result ↔ Contains (map (λ text. text ++ codes "(") listed_words) call.now }
{
    match before_bracket(call) {
        Some(word) => is_listed_word(word),
        None => false,
    }
}

/// The word of a call, without the `(` behind it.
pub fn before_bracket(call: &[u8]) -> Option<&[u8]>
    ensures some { IfSome result (λ word. call.now ≡ word.now ++ codes "(") }
    ensures none { IfNone result ((word : List ℕ) → ¬ (call.now ≡ word ++ codes "(")) }
{
    match call {
        [word @ .., b'('] => Some(word),
        _ => None,
    }
}

/// The words of constructs that aren't supported.
const LISTED_WORDS: [&str; 43] = [
    "extmodule",
    "intmodule",
    "parameter",
    "defname",
    "intrinsic",
    "layer",
    "layerblock",
    "group",
    "declgroup",
    "type",
    "option",
    "Probe",
    "RWProbe",
    "probe",
    "rwprobe",
    "read",
    "define",
    "force",
    "force_initial",
    "release",
    "release_initial",
    "Analog",
    "attach",
    "match",
    "const",
    "validif",
    "asClock",
    "assert",
    "assume",
    "cover",
    "cmem",
    "smem",
    "infer",
    "mport",
    "write",
    "rdwr",
    "propassign",
    "Integer",
    "String",
    "class",
    "object",
    "AsyncReset",
    "asAsyncReset",
];

/// Whether a word is the name of a construct that isn't supported.
fn is_listed_word(word: &[u8]) -> bool
    ensures { IsTrue result ↔ Contains listed_words word.now }
{
    is_one_of(&LISTED_WORDS, word)
}

/// Whether a word is one of these.
fn is_one_of(words: &[&str], word: &[u8]) -> bool
    ensures { IsTrue result ↔ Contains (map (λ text. text.now) words.now) word.now }
{
    for listed in words {
        if listed.as_bytes() == word {
            return true;
        }
    }
    false
}

/// Whether a part is this mark.
pub fn is_mark(part: Laid, mark: u8) -> bool
    ensures { (text : List ℕ) → IsTrue result ↔ Takes (The_mark mark) (piece_of text part) }
{
    matches!(part, Laid::Item(Token { kind: TokenKind::Mark(byte), .. }) if byte == mark)
}

/// What may stand where a name is wanted.
#[derive(Clone, Copy)]
pub enum NameSort {
    /// A word, or one between backquotes.
    Plain,
    /// One of these, or digits.
    Field,
}

/// Whether a part may stand where a name of this sort is wanted.
fn is_name(part: Laid, sort: NameSort) -> bool
    ensures { (text : List ℕ) → IsTrue result ↔ Takes (terminal_of sort) (piece_of text part) }
{
    let Laid::Item(token) = part else {
        return false;
    };
    match token.kind {
        TokenKind::Word | TokenKind::Quoted => true,
        TokenKind::Digits => matches!(sort, NameSort::Field),
        _ => false,
    }
}

/// The fault of the part at a place, which can't continue the text there.
pub fn refusal_at(text: &Text, laid: &[Laid], at: usize) -> ParseFault
    requires { IsSource text.now laid.now }
    ensures { (s : Terminal) → ((l : TheLaid) → slice_get laid.now at ≡ Some l → ¬ (Takes s (piece_of text.now l))) → IsNotTaken s text.now laid.now at result }
{
    match part_at(laid, at) {
        Ok(part) => refusal(text, part),
        Err(fault) => fault,
    }
}

/// The part at a place, which has to be this mark.
#[tactic(auto, using(crate::proofs::Takes::not_taken_memory))]
pub fn mark_at(text: &Text, laid: &[Laid], at: usize, mark: u8) -> Result<Laid, ParseFault>
    requires { IsSource text.now laid.now }
    ensures here { IfOk result (λ part. slice_get laid.now at ≡ Some part) }
    ensures takes { IfOk result (λ part. Takes (The_mark mark) (piece_of text.now part)) }
    ensures within { IfOk result (λ _. at < length laid.now) }
    ensures err { IfErr result (λ fault. IsNotTaken (The_mark mark) text.now laid.now at fault) }
{
    let part = part_at(laid, at)?;
    if is_mark(part, mark) {
        Ok(part)
    } else {
        Err(refusal_at(text, laid, at))
    }
}

/// Takes a mark that opens no bracket and begins no suffix.
#[tactic(auto, using(crate::proofs::Takes::flat_mark_taken))]
pub fn take_mark(text: &Text, laid: &[Laid], at: usize, mark: u8) -> Result<Laid, ParseFault>
    requires source { IsSource text.now laid.now }
    requires flat { IsTrue (is_flat mark) }
    ensures taken { AnswersPiece (The_mark mark) text.now laid.now at result }
    ensures within { IfOk result (λ _. at < length laid.now) }
{
    let part = mark_at(text, laid, at, mark)?;
    Ok(part)
}

/// Takes a number. The answer has its place and its magnitude.
pub fn take_number(text: &Text, laid: &[Laid], at: usize) -> Result<(Place, u128), ParseFault>
    requires { IsSource text.now laid.now }
    ensures ok { IfOk result (λ n. IsNumberAt text.now laid.now at n.0 n.1) }
    ensures within { IfOk result (λ _. at < length laid.now) }
    ensures err { IfErr result (λ fault. IsNotTaken A_number text.now laid.now at fault) }
{
    match number_at(text, laid, at) {
        Some(number) => Ok(number),
        None => Err(refusal_at(text, laid, at)),
    }
}

/// The number that stands at a place, with its own place.
pub fn number_at(text: &Text, laid: &[Laid], at: usize) -> Option<(Place, u128)>
    requires { IsSource text.now laid.now }
    ensures some { IfSome result (λ n. IsNumberAt text.now laid.now at n.0 n.1) }
    ensures within { IfSome result (λ _. at < length laid.now) }
    ensures none { IfNone result ((l : TheLaid) → slice_get laid.now at ≡ Some l → ¬ (Takes A_number (piece_of text.now l))) }
{
    let Some(part) = standing(laid, at) else {
        return None;
    };
    let Some(magnitude) = magnitude(text, part) else {
        return None;
    };
    Some((place_of_part(text, part), magnitude))
}

/// The magnitude of a part that is a number.
fn magnitude(text: &Text, part: Laid) -> Option<u128>
    requires { IsPartOf text.now part }
    ensures some { IfSome result (λ n. (token : TheToken) × (part ≡ Laid.Item token) × (token.kind ≡ TokenKind.Digits) × IsMagnitude (bytes_of text.now token) n) }
    ensures none { IfNone result (¬ (Takes A_number (piece_of text.now part))) }
{
    let Laid::Item(token) = part else {
        return None;
    };
    match token.kind {
        TokenKind::Digits => match read_magnitude(bytes(text, token)) {
            Ok(magnitude) => Some(magnitude),
            Err(_fault) => None,
        },
        _ => None,
    }
}

/// Takes a name, or what may stand for one, which is added to the names.
#[tactic(auto, using(crate::proofs::Takes::not_taken_memory, crate::proofs::Sources::source_part))]
pub fn take_name(
    text: &Text,
    laid: &[Laid],
    names: &mut Names,
    at: usize,
    sort: NameSort,
) -> Result<Name, ParseFault>
    requires source { IsSource text.now laid.now }
    requires room { wanted names.old laid.now at < 2 ^ 32 - 1 }
    ensures ok { IfOk result (λ name. IsNameAt (terminal_of sort) text.now laid.now at names.old name names.new) }
    ensures within { IfOk result (λ _. at < length laid.now) }
    ensures err { IfErr result (λ fault. IsNotTaken (terminal_of sort) text.now laid.now at fault) }
{
    match part_at(laid, at)? {
        Laid::Item(token) if is_name(Laid::Item(token), sort) => {
            let name = add_name(text, names, token)?;
            Ok(name)
        }
        _ => Err(refusal_at(text, laid, at)),
    }
}

/// The name of a token, which is added to the names. The bytes of names and digits are ASCII.
fn add_name(text: &Text, names: &mut Names, token: Token) -> Result<Name, ParseFault>
    requires short { length text.now < 2 ^ 32 - 1 }
    requires inside { IsTokenIn text.now token }
    requires named { Takes A_field (piece_of text.now (Laid.Item token)) }
    requires room { length names.old < 2 ^ 32 - 1 }
    ensures adds { IfOk result (λ name. AddsName names.old names.new (name_in token.kind (bytes_of text.now token)) name.id) }
    ensures place { IfOk result (λ name. name.place ≡ place text.now token.start) }
    ensures grows { IfOk result (λ _. length names.new ≤ length names.old + 1) }
    ensures err { IfErr result (λ fault. fault ≡ NoMemory) }
{
    let Ok(name) = std::str::from_utf8(name_text(text, token)) else {
        unreachable!()
    };
    let id = names.add(name)?;
    Ok(Name {
        id,
        place: place_of_part(text, Laid::Item(token)),
    })
}

/// The text of a name: a quoted one stands between backquotes.
fn name_text<'a>(text: &Text<'a>, token: Token) -> &'a [u8]
    requires { IsTokenIn text.now token }
    ensures { result.now ≡ name_in token.kind (bytes_of text.now token) }
{
    let all = bytes(text, token);
    match token.kind {
        TokenKind::Quoted => &all[1..all.len() - 1],
        _ => all,
    }
}

/// Whether a part is this word, not between backquotes.
pub fn is_word(text: &Text, part: Laid, word: &str) -> bool
    requires { IsPartOf text.now part }
    ensures { IsTrue result ↔ Takes (The_word word.now) (piece_of text.now part) }
{
    match part {
        Laid::Item(token) => match token.kind {
            TokenKind::Word => bytes(text, token) == word.as_bytes(),
            _ => false,
        },
        _ => false,
    }
}
