//! The laid list of a text.

ghost use Rattle.std.specs.Prelude.{◌≡◌, ◌≢◌, ℕ, ◌+◌, ◌-◌, ◌<◌, ◌≤◌, ◌^◌, ◌⊎◌, ◌==◌, ◌++◌, ◌∷◌, List, [], drop, take, length, nat_lt, map, replicate, IfOk, IfErr, OnOk, MatchBool, MatchResult, slice_index};
ghost use Rattle.std.specs.List.{prefix_len, suffix_len};
ghost use Rattle.place_text.specs.Places.{place};
ghost use Rattle.fir_lexer.specs.Tokens.{AreTokens};
ghost use Rattle.fir_layout.specs.declared.laid.Laid.{Laid as ALaid};
ghost use Rattle.fir_layout.specs.declared.laid.Laid.TheVariants.{Close as A_close, End as An_end};
ghost use Rattle.fir_layout.specs.declared.fault.LayoutFault.TheVariants.{BadIndent as Bad_indent, NoMemory};
ghost use Rattle.fir_layout.specs.Layout.{Line, Turns, OfLine, items, level, deeper_count, content, end_of, IsLaidOut, IsBadIndent, tokens_in, EndsOnce};

use crate::fault::LayoutFault;
use crate::laid::Laid;
use crate::lines::line_end;
use fir_lexer::Token;
use place_text::place_of;
use std::alloc::{AllocError, Global};

/// The tokens of a text line by line, with an `Open` or the `Close`s before a line whose indent changes.
///
/// The tokens are those that `lex` gives for these bytes. Takes memory in proportion to the tokens, and time in proportion
/// to the text.
pub fn lay_out(alloc: Global, bytes: &[u8], tokens: &[Token]) -> Result<Vec<Laid>, LayoutFault>
    requires short { length bytes.now < 2 ^ 32 - 1 }
    requires lexed { AreTokens bytes.now tokens.now }
    ensures ok { IfOk result (λ laid. IsLaidOut bytes.now laid.items) }
    ensures fault { IfErr result (λ fault. (fault ≡ NoMemory) ⊎ ((at : ℕ) × IsBadIndent bytes.now at × (fault ≡ Bad_indent (place bytes.now at)))) }
    // a text with a layout is refused for want of memory alone
    ensures accepts { (laid : List ALaid) → IsLaidOut bytes.now laid → MatchResult result (λ given. given.items ≡ laid) (λ fault. fault ≡ NoMemory) }
    // and a text with a bad indent is answered by it, or by want of memory
    ensures refuses { (at : ℕ) → IsBadIndent bytes.now at → MatchResult result (λ given. ⊥) (λ fault. (fault ≡ NoMemory) ⊎ (fault ≡ Bad_indent (place bytes.now at))) }
    ensures items { IfOk result (λ laid. tokens_in laid.items ≡ tokens.now) }
    ensures ends { IfOk result (λ laid. EndsOnce (length bytes.now) laid.items) }
{
    walk(alloc, bytes, tokens)
}

fn walk(alloc: Global, bytes: &[u8], tokens: &[Token]) -> Result<Vec<Laid>, LayoutFault>
    requires short { length bytes.now < 2 ^ 32 - 1 }
    requires lexed { AreTokens bytes.now tokens.now }
    ensures ok { IfOk result (λ laid. IsLaidOut bytes.now laid.items) }
    ensures fault { IfErr result (λ fault. (fault ≡ NoMemory) ⊎ ((at : ℕ) × IsBadIndent bytes.now at × (fault ≡ Bad_indent (place bytes.now at)))) }
{
    let mut laid = Vec::new(alloc);
    let mut blocks = Vec::new(alloc);
    let mut start = 0;
    let mut next = 0;
    while start < bytes.len() {
        let (behind, after) = line_end(bytes, tokens, start, next);
        lay_line(&mut laid, &mut blocks, bytes, start, &tokens[next..after])?;
        start = behind;
        next = after;
    }
    end(&mut laid, blocks.len(), bytes.len() as u32)?;
    Ok(laid)
}

/// Lays out a line with these tokens that begins at an offset.
fn lay_line(
    laid: &mut Vec<Laid>,
    blocks: &mut Vec<u32>,
    bytes: &[u8],
    start: usize,
    tokens: &[Token],
) -> Result<(), LayoutFault>
    requires short { length bytes.now < 2 ^ 32 - 1 }
    requires within { start ≤ length bytes.now }
    ensures ok { OnOk result ((more : List ALaid) × OfLine bytes.now blocks.old.items (record { start = start; tokens = tokens.now }) more blocks.new.items × (laid.new.items ≡ laid.old.items ++ more)) }
    ensures fault { IfErr result (λ fault. (fault ≡ NoMemory) ⊎ (((more : List ALaid) (after : List ℕ) → ¬ (OfLine bytes.now blocks.old.items (record { start = start; tokens = tokens.now }) more after)) × (fault ≡ Bad_indent (place bytes.now (content bytes.now (record { start = start; tokens = tokens.now })))))) }
{
    if tokens.is_empty() {
        return Ok(());
    }
    let indent = spaces(bytes, start);
    let content = start + indent;
    if is_tab(bytes, content) {
        return Err(LayoutFault::BadIndent(place_of(bytes, content)));
    }
    let fits = turn(laid, blocks, indent as u32, content as u32)?;
    if fits {
        push_items(laid, tokens)?;
        Ok(())
    } else {
        Err(LayoutFault::BadIndent(place_of(bytes, content)))
    }
}

/// How many spaces stand from an offset on.
fn spaces(bytes: &[u8], start: usize) -> usize
    requires { start ≤ length bytes.now }
    ensures count { result ≡ prefix_len (λ b. b == 32) (drop start bytes.now) }
    ensures within { start + result ≤ length bytes.now }
{
    space_count(&bytes[start..])
}

fn space_count(bytes: &[u8]) -> usize
    ensures count { result ≡ prefix_len (λ b. b == 32) bytes.now }
    ensures within { result ≤ length bytes.now }
{
    bytes.iter().take_while(|byte| **byte == b' ').count()
}

fn is_tab(bytes: &[u8], at: usize) -> bool
    ensures { MatchBool result (slice_index bytes.now at ≡ 9) (slice_index bytes.now at ≢ 9) }
{
    matches!(bytes.get(at), Some(b'\t'))
}

/// Opens or closes blocks for a line with an indent. False where no open block has the indent.
fn turn(
    laid: &mut Vec<Laid>,
    blocks: &mut Vec<u32>,
    indent: u32,
    at: u32,
) -> Result<bool, AllocError>
    ensures { IfOk result (λ fits. MatchBool fits ((more : List ALaid) × Turns blocks.old.items indent at more blocks.new.items × (laid.new.items ≡ laid.old.items ++ more)) ((more : List ALaid) (after : List ℕ) → ¬ (Turns blocks.old.items indent at more after))) }
{
    let deeper = deeper(blocks, indent);
    if deeper > 0 {
        blocks.truncate(blocks.len() - deeper);
        close(laid, deeper, at)?;
        return Ok(level_of(blocks) == indent);
    }
    if level_of(blocks) < indent {
        blocks.push(indent)?;
        laid.push(Laid::Open(at))?;
    }
    Ok(true)
}

/// How many of the last blocks are deeper than an indent.
fn deeper(blocks: &[u32], indent: u32) -> usize
    ensures count { result ≡ deeper_count indent blocks.now }
    ensures within { result ≤ length blocks.now }
{
    blocks
        .iter()
        .rev()
        .take_while(|block| indent < **block)
        .count()
}

/// The indent of the last block, 0 where none is open.
fn level_of(blocks: &[u32]) -> u32
    ensures { result ≡ level blocks.now }
{
    match blocks.last() {
        Some(block) => *block,
        None => 0,
    }
}

/// Adds so many closed blocks.
fn close(laid: &mut Vec<Laid>, count: usize, at: u32) -> Result<(), AllocError>
    ensures { OnOk result (laid.new.items ≡ laid.old.items ++ replicate count (A_close at)) }
{
    for _ in 0..count {
        laid.push(Laid::Close(at))?;
    }
    Ok(())
}

/// Adds the end of the text, where so many blocks are open.
fn end(laid: &mut Vec<Laid>, count: usize, at: u32) -> Result<(), AllocError>
    ensures { OnOk result (laid.new.items ≡ (laid.old.items ++ replicate count (A_close at)) ++ An_end at ∷ []) }
{
    close(laid, count, at)?;
    laid.push(Laid::End(at))?;
    Ok(())
}

/// Adds a line's tokens and its end.
fn push_items(laid: &mut Vec<Laid>, tokens: &[Token]) -> Result<(), AllocError>
    ensures { OnOk result (laid.new.items ≡ laid.old.items ++ items tokens.now) }
{
    push_tokens(laid, tokens)?;
    laid.push(Laid::LineEnd(end_of(tokens)))?;
    Ok(())
}

fn push_tokens(laid: &mut Vec<Laid>, tokens: &[Token]) -> Result<(), AllocError>
    ensures { OnOk result (laid.new.items ≡ laid.old.items ++ map Laid.Item tokens.now) }
{
    for token in tokens {
        laid.push(Laid::Item(*token))?;
    }
    Ok(())
}

/// The offset behind the last token.
fn end_of(tokens: &[Token]) -> u32
    ensures { result ≡ end_of tokens.now }
{
    match tokens.last() {
        Some(token) => token.end,
        None => 0,
    }
}
