//! The tokens of a circuit text: what a token is, and the reader that cuts a text into them by the longest match.
//! Keeps the contract that a text is the list of its pieces, and that its tokens, or its first fault, are exactly theirs.
#![tactic(auto)]

mod closing;
pub mod fault;
mod laws;
pub mod lexing;
pub mod pieces;
pub mod token;

pub use fault::LexFault;
pub use laws::{texts_have_one_fault, texts_have_one_reading};
pub use lexing::lex;
pub use pieces::{PieceKind, piece};
pub use token::{Token, TokenKind};
