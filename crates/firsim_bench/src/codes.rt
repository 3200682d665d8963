//! Runs or lists code over a mix of all operations. The words are how many blocks of 21 instructions there are,
//! how many instructions a window has in which they are put in order, 0 for the order that they are made in and 1 for order and places as a
//! run has them, and how many cycles are run. It writes a word that all publications go into, and with no third word the code itself.

mod listing;
mod mix;
mod running;

ghost use Rattle.std.specs.Prelude.{◌<◌, ◌≤◌};

use crate::codes::listing::list;
use crate::codes::mix::mixed;
use crate::codes::running::cycles;
use crate::lines::Words;
use code_order::{arrange, reorder};
use flat_code::{Code, with_runs};
use std::alloc::Global;

/// Does what the words say.
pub fn run(rt: &HostRuntime, words: &mut Words<'_>) -> Option<()> {
    let blocks: u32 = words.number()?;
    let window: usize = words.number()?;
    if blocks == 0 || blocks > 1_000_000 {
        return None;
    }
    let code = with_runs(rt.alloc(), code_of(rt.alloc(), blocks, window)?).ok()?;
    let Some(count) = words.word() else {
        return list(rt, &code);
    };
    let word = cycles(rt.alloc(), &code, count.parse().ok()?)?;
    println!(rt; "{word}").ok()
}

/// The code, in order where a window has instructions, and in few slots too where it has one: two for each block, as if it were an
/// assignment that is live to the end, or as many as are live at once.
fn code_of(alloc: Global, blocks: u32, window: usize) -> Option<Code>
    requires some { 0 < blocks }
    requires few { blocks ≤ 1000000 }
{
    let code = mixed(alloc, blocks).ok()??;
    match window {
        0 => Some(code),
        1 => arrange(alloc, code, 2 * blocks).ok(),
        _ => reorder(alloc, code, window).ok(),
    }
}
