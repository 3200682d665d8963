//! The script of a run, and the state of its barrier, its words and its views.

use bit_words::List;

/// A word that gets a value.
#[derive(Clone, Copy)]
pub struct Publication {
    /// The number of the word, from 0.
    pub word: u32,
    /// What it holds from then on.
    pub value: u64,
}

/// What the workers of a run publish, cycle by cycle.
#[derive(Drop)]
pub struct Script {
    /// The number of workers, at least 1.
    pub workers: u32,
    /// The number of cycles. Twice the workers times the cycles stays below `2 ^ 64`.
    pub cycles: u64,
    /// The words at the beginning.
    pub first: List<u64>,
    /// The worker that owns each word.
    pub owners: List<u32>,
    /// `rounds[c][w]` is what worker w publishes in cycle c, in order: only words that it owns.
    pub rounds: List<List<List<Publication>>>,
}

/// What is known of the workers from `low` up to `high`, without `high`.
#[derive(Debug, Clone, Copy, PartialEq, Eq)]
pub struct View {
    /// The first worker.
    pub low: u32,
    /// The worker behind the last.
    pub high: u32,
    /// How often each of them arrived at the barrier.
    pub arrivals: u64,
    /// How often each of them passed it: the number of its phase.
    pub passed: u64,
    /// How many publications of this phase are stored.
    pub done: u64,
}

/// The state of a run.
#[derive(Drop)]
pub struct PhaseState {
    /// The number of arrivals of all workers.
    pub barrier: u64,
    /// The words that the workers share.
    pub words: List<u64>,
    /// The views. One that was joined into another is `None`.
    pub views: List<Option<View>>,
    /// Whether the run is over.
    pub closed: bool,
}

/// One atomic action of the view with that number.
#[derive(Debug, Clone, Copy)]
pub enum Step {
    /// Cuts a view that never arrived into the workers below `at` and the rest, which becomes a new last view.
    Split { view: u32, at: u32 },
    /// Finds the barrier too small to pass.
    Stay { view: u32 },
    /// Finds the barrier large enough, and enters the next phase.
    Pass { view: u32 },
    /// Ends the phase of one worker, and raises the barrier by 1.
    Arrive { view: u32 },
    /// Reads a word in an even phase.
    Load { view: u32, word: u32 },
    /// Stores the next publication of one worker in an odd phase.
    Publish { view: u32 },
    /// Gives a view the workers of another, which begins where it ends. Both have passed the last phase.
    Join { view: u32, other: u32 },
    /// Ends the run. The view has all workers, and has passed the last phase.
    Close { view: u32 },
}
