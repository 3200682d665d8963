//! What the code of a part is made from, and what is made of it so far.

use crate::captured::CapturedRead;
use crate::words::FirstWords;
use bit_words::List;
use code_draft::{Draft, Sources};
use flat_code::{Location, Span};
use ground_net::Net;

/// A net with its watched leaves, the first words of what it keeps, and its captured reads.
#[derive(Drop)]
pub struct Plan<'a> {
    pub net: &'a Net,
    pub watch: &'a [u32],
    pub words: &'a FirstWords,
    pub reads: &'a [CapturedRead],
}

/// A plan, and where the values of the net are found once a part's assignments are evaluated.
#[derive(Drop)]
pub struct Work<'a> {
    pub plan: &'a Plan<'a>,
    pub sources: &'a Sources,
}

/// Code with the locations that it shows, their positions in the watch list, and the words that it owns.
#[derive(Drop)]
pub struct Made {
    pub draft: Draft,
    pub shown: List<Location>,
    pub positions: List<u32>,
    pub owned: List<Span>,
}
