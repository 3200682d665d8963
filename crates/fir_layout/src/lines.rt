//! From line to line over the tokens of a text.

ghost use Rattle.std.specs.Prelude.{◌≡◌, ℕ, ◌<◌, ◌≤◌, List, length};
ghost use Rattle.fir_lexer.specs.declared.pieces.PieceKind.{PieceKind as TheKind};
ghost use Rattle.fir_lexer.specs.Tokens.{token_of};
ghost use Rattle.fir_layout.specs.Layout.{ends_line};
ghost use Rattle.fir_layout.specs.Walk.{Ahead, PassesLine};

use fir_lexer::{PieceKind, Token, piece};

/// Where the line that begins at an offset ends, and the index of the first token behind it. The line begins at the token
/// `next`, or has none. An LF that ends it belongs to it.
pub fn line_end(bytes: &[u8], tokens: &[Token], start: usize, next: usize) -> (usize, usize)
    requires within { start < length bytes.now }
    requires ahead { (pieces : List (TheKind × ℕ)) × Ahead bytes.now tokens.now start next pieces }
    ensures { (pieces : List (TheKind × ℕ)) → Ahead bytes.now tokens.now start next pieces → PassesLine bytes.now tokens.now start next pieces result.0 result.1 }
{
    let mut at = start;
    let mut after = next;
    while at < bytes.len() {
        let Some((kind, length)) = piece(&bytes[at..]) else {
            return (at, after);
        };
        at += length;
        if ends_line(kind) {
            return (at, after);
        }
        after += token_count(kind);
    }
    (at, after)
}

fn ends_line(kind: PieceKind) -> bool
    ensures { result ≡ ends_line kind }
{
    matches!(kind, PieceKind::LineFeed)
}

/// How many tokens a piece is: one or none.
fn token_count(kind: PieceKind) -> usize
    ensures { result ≡ length (token_of kind 0 0) }
{
    match kind {
        PieceKind::TokenOf(_) => 1,
        _ => 0,
    }
}
