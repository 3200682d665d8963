//! How many words a state has.

ghost use Rattle.std.specs.Prelude.{◌≡◌, ◌<◌, ◌≤◌, ◌+◌, ◌^◌, IsTrue, length, sum_by};
ghost use Rattle.ground_net.specs.Nets.{register_shapes};
ghost use Rattle.ground_net.specs.Cycles.{captures};
ghost use Rattle.ground_net.specs.Words.{count_words, memory_words, state_words, SaysItsWords};

use crate::words::element_words;
use ground_net::Net;

/// Words have numbers below this.
const NUMBERS: u128 = 4_294_967_296;

/// Whether the words of a state surely have numbers of 32 bits, where the net has so many captured reads: each of these is taken to
/// have two words, and so is each register of a net that has no memory.
pub(crate) fn has_few_words(net: &Net, reads: usize) -> bool
    requires said { SaysItsWords net.now }
    requires reads { reads ≡ length (captures net.now) }
    ensures { IsTrue result → state_words net.now < 2 ^ 32 }
{
    behind_memories(net).saturating_add(2 * reads as u128) < NUMBERS
}

/// A number that the words of the registers and the memories don't exceed, where it is small.
fn behind_memories(net: &Net) -> u128
    requires said { SaysItsWords net.now }
    ensures { result < 2 ^ 32 → count_words (register_shapes net.now) + sum_by memory_words net.now.memories ≤ result }
{
    let count = net.memories.len();
    if count == 0 {
        return 2 * net.registers.len() as u128;
    }
    let Some(last) = net.memories.get(count - 1) else {
        unreachable!();
    };
    let words = last.depth.saturating_mul(element_words(last));
    words.saturating_add(last.word as u128)
}
