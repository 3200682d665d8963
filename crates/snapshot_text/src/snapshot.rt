//! Snapshots as data.

use bit_words::{List, Row};

/// What a run goes on from: how many cycles were run, what the inputs had in the last of them, and the words of the state.
#[derive(Drop)]
pub struct Snapshot {
    pub cycle: u64,
    pub inputs: Row,
    pub words: List<u64>,
}
