//! Whether a script has its shape, for callers that were given one.

ghost use Rattle.std.specs.Prelude.{◌≡◌, ◌*◌, ◌^◌, ◌<◌, ◌≤◌, ◌↔◌, ℕ, [], length, slice_index_or, IsTrue};
ghost use Rattle.phase_core.specs.Script.{owner, round_of, IsPart, OwnRound, OwnRounds, HasOwners, IsScript};

use crate::model::{Publication, Script};
use bit_words::List;

// The owner of the word, or 0 where none is given.
fn owner_of(script: &Script, word: u32) -> u32
    ensures { result ≡ owner script.now word }
{
    match script.owners.get(word as usize) {
        Some(found) => *found,
        None => 0,
    }
}

// Whether the word is there and the worker owns it.
fn owns(script: &Script, worker: usize, word: u32) -> bool
    ensures { IsTrue result ↔ ((word < length script.now.first) × (owner script.now word ≡ worker)) }
{
    (word as usize) < script.first.len() && owner_of(script, word) as usize == worker
}

fn owns_part(script: &Script, worker: usize, part: &[Publication]) -> bool
    ensures { IsTrue result ↔ IsPart script.now worker part.now }
{
    let count = part.len();
    for i in 0..count {
        if !owns(script, worker, part[i].word) {
            return false;
        }
    }
    true
}

fn owns_round(script: &Script, round: &[List<Publication>]) -> bool
    ensures { IsTrue result ↔ OwnRound script.now round.now }
{
    for worker in 0..round.len() {
        if !owns_part(script, worker, round[worker].as_slice()) {
            return false;
        }
    }
    true
}

fn owns_rounds(script: &Script) -> bool
    ensures { IsTrue result ↔ OwnRounds script.now }
{
    let rounds = script.rounds.as_slice();
    for cycle in 0..rounds.len() {
        let round = rounds[cycle].as_slice();
        if round.len() != script.workers as usize {
            return false;
        }
        if !owns_round(script, round) {
            return false;
        }
    }
    true
}

fn has_owners(script: &Script) -> bool
    ensures { IsTrue result ↔ HasOwners script.now }
{
    for found in script.owners.as_slice() {
        if *found >= script.workers {
            return false;
        }
    }
    true
}

/// Whether the script has its shape: at least one worker, an owner below the number of workers for each word, a part of
/// each worker for each cycle, publications of words that the worker owns, and `2 * workers * cycles` below `2 ^ 64`.
pub fn is_script(script: &Script) -> bool
    ensures { IsTrue result ↔ IsScript script.now }
{
    let fits = 2 * script.cycles as u128 * (script.workers as u128) < 1 << 64;
    let owned = script.owners.len() == script.first.len();
    let cycled = script.rounds.len() as u64 == script.cycles;
    let owners = has_owners(script);
    let parts = owns_rounds(script);
    (script.workers >= 1) & fits & owned & cycled & owners & parts
}
