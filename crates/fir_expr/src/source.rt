//! What types and expressions are read from.

use fir_layout::Laid;
use std::alloc::Global;
use token_reader::Text;

/// A text with its laid list, and where what is read is kept.
#[derive(Drop)]
pub struct Source<'a> {
    /// Where what is read is kept.
    pub alloc: Global,
    /// The text.
    pub text: &'a Text<'a>,
    /// The laid list of the text.
    pub laid: &'a [Laid],
    /// The first number of the text's version.
    pub major: u8,
}
