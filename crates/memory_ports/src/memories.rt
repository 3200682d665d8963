//! The memories of nets, with their first words.

ghost use Rattle.std.specs.Prelude.{◌≡◌, ◌+◌, ◌*◌, ◌≤◌, ◌∷◌, [], ℕ, map, take, sum_by, length, nat_lt, slice_get, Some, IfOk, if◌then◌else◌};
ghost use Rattle.ground_net.specs.declared.net.NetMemory.{NetMemory as TheMemory};
ghost use Rattle.ground_net.specs.Nets.{shape_or_none, element_shape};
ghost use Rattle.ground_net.specs.Words.{count_words, memory_words};
ghost use Rattle.memory_ports.specs.Placing.{without_word};

use bit_words::List;
use ground_net::{
    ElementLeaf, GroundMemory, Leaf, NetMemory, NetRegister, copied_elements, copied_ports,
    copied_text,
};
use std::alloc::{AllocError, Global};

/// How many words the registers of these leaves take.
pub fn register_words(leaves: &[Leaf], registers: &[NetRegister]) -> u128
    ensures { result ≡ count_words (map (λ register. shape_or_none (slice_get leaves.now register.leaf)) registers.now) }
{
    let mut words = 0;
    for register in registers {
        words += words_at(leaves, register.leaf);
    }
    words
}

/// How many words the leaf of this number takes.
fn words_at(leaves: &[Leaf], leaf: u32) -> u128
    ensures words { result ≡ count_words (shape_or_none (slice_get leaves.now leaf) ∷ []) }
    ensures few { result ≤ 2 }
{
    match leaves.get(leaf as usize) {
        Some(leaf) => words_of(leaf.width),
        None => words_of(0),
    }
}

/// How many words a leaf of this width takes.
fn words_of(width: u8) -> u128
    ensures words { result ≡ (if nat_lt 64 width then 2 else 1) }
    ensures few { result ≤ 2 }
{
    if 64 < width { 2 } else { 1 }
}

/// The memories of a circuit as those of a net, where the first one begins at this word.
pub fn placed_memories(
    alloc: Global,
    memories: &[GroundMemory],
    mut word: u128,
) -> Result<List<NetMemory>, AllocError>
    ensures memories { IfOk result (λ placed. map without_word placed ≡ memories.now) }
    ensures words { IfOk result (λ placed. (m : ℕ) (memory : TheMemory) → slice_get placed m ≡ Some memory → memory.word ≡ word + sum_by memory_words (take m placed)) }
{
    let mut placed = List::new(alloc);
    for memory in memories {
        let one = placed_memory(alloc, memory, word)?;
        word = word_behind(memory, word)?;
        placed.push(one)?;
    }
    Ok(placed)
}

/// A memory that begins at this word.
fn placed_memory(alloc: Global, memory: &GroundMemory, word: u128) -> Result<NetMemory, AllocError>
    ensures memory { IfOk result (λ placed. without_word placed ≡ memory.now) }
    ensures word { IfOk result (λ placed. placed.word ≡ word) }
{
    let Ok(word) = u32::try_from(word) else {
        return Err(AllocError);
    };
    Ok(NetMemory {
        name: copied_text(alloc, &memory.name)?,
        before: memory.first,
        depth: memory.depth,
        word,
        elements: copied_elements(alloc, memory.elements.as_slice())?,
        ports: copied_ports(alloc, memory.ports.as_slice())?,
    })
}

/// The word behind a memory that begins at this one.
fn word_behind(memory: &GroundMemory, word: u128) -> Result<u128, AllocError>
    ensures { IfOk result (λ behind. behind ≡ word + memory.now.depth * count_words (map element_shape memory.now.elements)) }
{
    let element = element_words(memory.elements.as_slice());
    let Some(words) = memory.depth.checked_mul(element) else {
        return Err(AllocError);
    };
    let Some(behind) = word.checked_add(words) else {
        return Err(AllocError);
    };
    Ok(behind)
}

/// How many words an element takes.
fn element_words(elements: &[ElementLeaf]) -> u128
    ensures { result ≡ count_words (map element_shape elements.now) }
{
    let mut words = 0;
    for element in elements {
        words += words_of(element.width);
    }
    words
}
