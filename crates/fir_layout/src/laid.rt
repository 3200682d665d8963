//! What the laid list of a text is made of.

use fir_lexer::Token;

/// One part of the laid list. The numbers are offsets into the text, from 0.
#[derive(Clone, Copy)]
pub enum Laid {
    /// A token.
    Item(Token),
    /// The end of a line that has a token, directly after its last token.
    LineEnd(u32),
    /// A block opens: the next line's first byte after its spaces.
    Open(u32),
    /// A block closes: the next line's first byte after its spaces, or the end of the text.
    Close(u32),
    /// The end of the text.
    End(u32),
}
