//! What a token is.

/// The kinds of token.
#[derive(Clone, Copy, PartialEq, Eq)]
pub enum TokenKind {
    /// A letter, `_` or `$`, then letters, digits, `_`, `$` and `-`.
    Word,
    /// A word with a `(` directly after it, which belongs to the token.
    Call,
    /// A name between backquotes.
    Quoted,
    /// A digit, then letters, digits, `_` and `$`.
    Digits,
    /// A string between quotation marks.
    Text,
    /// `=>`.
    Arrow,
    /// One of `: . [ ] ( ) < > { } = -` and the vertical bar: that byte.
    Mark(u8),
}

/// A token: its kind, and where its bytes begin and end in the text, as offsets from 0. The byte at `end` is behind it.
#[derive(Clone, Copy)]
pub struct Token {
    pub kind: TokenKind,
    pub start: u32,
    pub end: u32,
}
