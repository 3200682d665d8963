//! The sources of a net.

ghost use Rattle.std.specs.Prelude.{◌≡◌, ◌+◌, ◌*◌, ◌^◌, ◌<◌, ◌≤◌, ℕ, IfOk, length, pos};
ghost use Rattle.prim_ops.specs.Values.{fitted};
ghost use Rattle.ground_net.specs.Nets.{IsNet};
ghost use Rattle.ground_net.specs.Words.{element_words as words_in_element, memory_words, state_words, SaysItsWords};
ghost use Rattle.part_compile.specs.FirstWords.{AreFirst, HaveNumbers};
ghost use Rattle.part_compile.specs.Complete.{AreAllOf};
ghost use Rattle.part_compile.specs.KeptRows.{IsLeafOf, IsSourceOf, AreSourcesOf, AreElementsOf, AreMemoriesOf, kept_as};

use crate::words::{FirstWords, element_words, words_of_width};
use bit_words::{List, Value, from_words};
use code_draft::{Elements, Kept, Source, Sources};
use flat_code::Region;
use ground_net::{Leaf, Net, NetMemory, Role};
use std::alloc::{AllocError, Global};

/// The sources of a net whose words have numbers of 32 bits: of each leaf but the assignments, by its role, and of each leaf of an
/// element of a memory.
pub fn sources_of(alloc: Global, net: &Net, words: &FirstWords) -> Result<Sources, AllocError>
    requires net { IsNet net.now }
    requires said { SaysItsWords net.now }
    requires few { state_words net.now < 2 ^ 32 }
    requires elements { HaveNumbers net.now.memories }
    requires words { AreFirst net.now words.now }
    ensures { IfOk result (AreAllOf net.now) }
{
    let leaves = leaf_sources(alloc, net, words)?;
    let memories = memory_sources(alloc, net)?;
    Ok(Sources { leaves, memories })
}

/// The sources of the leaves.
fn leaf_sources(
    alloc: Global,
    net: &Net,
    words: &FirstWords,
) -> Result<List<Option<Source>>, AllocError>
    requires net { IsNet net.now }
    requires words { AreFirst net.now words.now }
    ensures { IfOk result (AreSourcesOf net.now (length net.now.leaves)) }
{
    let mut sources = List::new(alloc);
    for leaf in net.leaves.as_slice() {
        sources.push(source_of(net, words, leaf))?;
    }
    Ok(sources)
}

/// The source of a leaf, where it is no assignment.
fn source_of(net: &Net, words: &FirstWords, leaf: &Leaf) -> Option<Source>
    requires net { IsNet net.now }
    requires words { AreFirst net.now words.now }
    requires leaf { IsLeafOf net.now leaf.now }
    ensures { IsSourceOf net.now leaf.now result }
{
    match leaf.role {
        Role::Input(number) => Some(Source::Input(kept(leaf, number))),
        Role::Clock => Some(Source::Constant(zero(leaf))),
        Role::Assigned => None,
        Role::Register(number) => {
            let word = words.registers.as_slice()[number as usize];
            Some(Source::Word(kept(leaf, word)))
        }
        Role::Captured(number) => {
            let word = words.captured.as_slice()[number as usize];
            Some(Source::Word(kept(leaf, word)))
        }
    }
}

/// 0 of a leaf.
fn zero(leaf: &Leaf) -> Value
    ensures { result ≡ fitted leaf.now.kind leaf.now.width (pos 0) }
{
    from_words(leaf.kind, leaf.width, 0, 0)
}

/// A leaf that is kept under a number.
fn kept(leaf: &Leaf, number: u32) -> Kept
    ensures { kept_as leaf.now number result }
{
    Kept {
        kind: leaf.kind,
        width: leaf.width,
        number,
    }
}

/// The sources of the memories' elements.
fn memory_sources(alloc: Global, net: &Net) -> Result<List<List<Elements>>, AllocError>
    requires few { state_words net.now < 2 ^ 32 }
    requires elements { HaveNumbers net.now.memories }
    ensures { IfOk result (AreMemoriesOf net.now.memories (length net.now.memories)) }
{
    let mut sources = List::new(alloc);
    for memory in net.memories.as_slice() {
        sources.push(elements_of(alloc, memory)?)?;
    }
    Ok(sources)
}

/// The sources of the leaves of a memory's elements.
fn elements_of(alloc: Global, memory: &NetMemory) -> Result<List<Elements>, AllocError>
    requires few { memory_words memory.now < 2 ^ 32 }
    requires first { memory.now.word + words_in_element memory.now < 2 ^ 32 }
    ensures { IfOk result (AreElementsOf memory.now (length memory.now.elements)) }
{
    let mut sources = List::new(alloc);
    if memory.elements.is_empty() {
        return Ok(sources);
    }
    let depth = memory.depth as u32;
    let stride = element_words(memory) as u32;
    let mut base = memory.word;
    for leaf in memory.elements.as_slice() {
        sources.push(Elements {
            kind: leaf.kind,
            width: leaf.width,
            region: Region {
                base,
                stride,
                depth,
            },
        })?;
        base += words_of_width(leaf.width);
    }
    Ok(sources)
}
