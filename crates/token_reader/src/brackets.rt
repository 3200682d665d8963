//! Tokens that open a bracket or begin a suffix: they may go too deep.

ghost use Rattle.std.specs.Prelude.{◌≡◌, ◌<◌, ◌++◌, ℕ, false, codes, List, length, take, IfOk, IsTrue};
ghost use Rattle.fir_layout.specs.Pieces.{pieces_of};
ghost use Rattle.fir_grammar.specs.Grammar.{The_call, The_mark};
ghost use Rattle.fir_grammar.specs.Faults.{most, levels, last_suffixes, is_item};
ghost use Rattle.token_reader.specs.Standing.{StandsIn};
ghost use Rattle.token_reader.specs.Parts.{IsSource, AnswersPiece, StartsWith, is_opening, is_suffix_mark};

use crate::take::{mark_at, part_at, place_of_part};
use crate::text::Text;
use fir_layout::Laid;
use fir_tree::ParseFault;

/// How many brackets may be open, and how many `.` and `[` a reference or type may have.
pub const MOST: u32 = 128;

/// Takes a mark that opens a bracket and begins no suffix: `(` or `{`. So many brackets are open before it.
#[tactic(auto, using(crate::proofs::Takes::not_taken_memory, crate::proofs::Sources::source_part, crate::proofs::Takes::opening_deep, crate::proofs::Takes::opening_taken))]
pub fn open_bracket(
    text: &Text,
    laid: &[Laid],
    at: usize,
    mark: u8,
    brackets: u32,
) -> Result<Laid, ParseFault>
    requires source { IsSource text.now laid.now }
    requires opens { IsTrue (is_opening mark) }
    requires stands { StandsIn (pieces_of text.now laid.now) at brackets }
    ensures taken { AnswersPiece (The_mark mark) text.now laid.now at result }
    ensures few { IfOk result (λ _. brackets < most) }
    ensures within { IfOk result (λ _. at < length laid.now) }
{
    let part = mark_at(text, laid, at, mark)?;
    if brackets >= MOST {
        return Err(ParseFault::TooDeep(place_of_part(text, part)));
    }
    Ok(part)
}

/// Takes a word with its `(`, whichever it is. So many brackets are open before it.
#[tactic(auto, using(crate::proofs::Takes::not_taken_memory, crate::proofs::Sources::source_part, crate::proofs::Suffixes::call_deep, crate::proofs::Suffixes::call_taken))]
pub fn open_call(text: &Text, laid: &[Laid], at: usize, brackets: u32) -> Result<Laid, ParseFault>
    requires source { IsSource text.now laid.now }
    requires stands { StandsIn (pieces_of text.now laid.now) at brackets }
    ensures taken { (name : List ℕ) → is_item (name ++ codes "(") ≡ false → StartsWith (The_call name) text.now laid.now at → AnswersPiece (The_call name) text.now laid.now at result }
    ensures within { IfOk result (λ _. at < length laid.now) }
    ensures few { IfOk result (λ _. brackets < most) }
{
    let part = part_at(laid, at)?;
    if brackets >= MOST {
        return Err(ParseFault::TooDeep(place_of_part(text, part)));
    }
    Ok(part)
}

/// Takes a `.` or a `[` of a reference or type that has so many suffixes, where so many brackets are open.
#[tactic(auto, using(crate::proofs::Takes::not_taken_memory, crate::proofs::Sources::source_part, crate::proofs::Suffixes::suffix_many, crate::proofs::Suffixes::suffix_inner, crate::proofs::Suffixes::suffix_taken))]
pub fn take_suffix(
    text: &Text,
    laid: &[Laid],
    at: usize,
    mark: u8,
    brackets: u32,
    suffixes: u32,
) -> Result<Laid, ParseFault>
    requires source { IsSource text.now laid.now }
    requires stands { StandsIn (pieces_of text.now laid.now) at brackets }
    requires counted { last_suffixes (levels (take at (pieces_of text.now laid.now))).suffixes ≡ suffixes }
    requires suffix { IsTrue (is_suffix_mark mark) }
    ensures taken { AnswersPiece (The_mark mark) text.now laid.now at result }
    ensures within { IfOk result (λ _. at < length laid.now) }
    ensures few { IfOk result (λ _. suffixes < most) }
    ensures few_brackets { IfOk result (λ _. mark ≡ 91 → brackets < most) }
{
    let part = mark_at(text, laid, at, mark)?;
    if suffixes >= MOST {
        return Err(ParseFault::TooDeep(place_of_part(text, part)));
    }
    if mark == b'[' && brackets >= MOST {
        return Err(ParseFault::TooDeep(place_of_part(text, part)));
    }
    Ok(part)
}
