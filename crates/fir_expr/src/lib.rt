//! Types and expressions read from a laid list: the longest one from a place, or the first token that can't continue it.
//! The contract of each call is that of a reader of the grammar: what it takes is the spelling of its answer, and a
//! refusal is the grammar's token, with its kind and place. Places are looked up in a table of the lines, once it has been made.
#![tactic(auto)]

mod expressions;
mod integers;
mod literals;
pub mod reader;
mod source;
mod types;

/// What is read, and the place behind it.
type Read<T> = Result<(T, usize), fir_tree::ParseFault>;

pub use reader::{Reader, read_expr, read_reference, read_type};
