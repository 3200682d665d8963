//! The first words of what is kept from cycle to cycle.

ghost use Rattle.std.specs.Prelude.{◌≡◌, ◌+◌, ◌*◌, ◌^◌, ◌<◌, ◌≤◌, ℕ, length, map, take, slice_get, slice_index, sum_by, nat_lt, if◌then◌else◌, IsTrue, ◌↔◌, IfOk};
ghost use Rattle.ground_net.specs.Nets.{shape_or_none, register_shapes};
ghost use Rattle.ground_net.specs.Words.{word_count, count_words, element_words as words_in_element, memory_words as words_in_memory, state_words, SaysItsWords};
ghost use Rattle.part_compile.specs.FirstWords.{AreFirst, HaveNumbers};
ghost use Rattle.part_compile.specs.KeptRows.{shapes_at};

use crate::captured::{CapturedRead, captured_reads};
use bit_words::List;
use ground_net::{Net, NetMemory};
use std::alloc::{AllocError, Global};

/// Words have numbers below this.
const NUMBERS: u128 = 4_294_967_296;

/// The first words of a net's registers and of its captured reads, by their numbers, and behind each list the word behind its last.
#[derive(Drop)]
pub struct FirstWords {
    pub registers: List<u32>,
    pub captured: List<u32>,
}

/// The first words of a net whose words have numbers of 32 bits.
pub fn first_words(alloc: Global, net: &Net) -> Result<FirstWords, AllocError>
    requires said { SaysItsWords net.now }
    requires few { state_words net.now < 2 ^ 32 }
    ensures { IfOk result (AreFirst net.now) }
{
    let leaves = register_leaves(alloc, net)?;
    let registers = words_from(alloc, net, leaves.as_slice(), 0)?;
    let behind = registers.as_slice()[leaves.len()];
    let reads = captured_reads(alloc, net)?;
    let shown = shown_leaves(alloc, reads.as_slice())?;
    let captured = words_from(alloc, net, shown.as_slice(), behind_memories(net, behind))?;
    Ok(FirstWords {
        registers,
        captured,
    })
}

/// The leaves of the registers.
fn register_leaves(alloc: Global, net: &Net) -> Result<List<u32>, AllocError>
    ensures { IfOk result (λ leaves. leaves ≡ map (λ register. register.leaf) net.now.registers) }
{
    let mut leaves = List::new(alloc);
    for register in net.registers.as_slice() {
        leaves.push(register.leaf)?;
    }
    Ok(leaves)
}

/// The leaves that show captured reads.
fn shown_leaves(alloc: Global, reads: &[CapturedRead]) -> Result<List<u32>, AllocError>
    ensures { IfOk result (λ leaves. leaves ≡ map (λ read. read.leaf) reads.now) }
{
    let mut leaves = List::new(alloc);
    for read in reads {
        leaves.push(read.leaf)?;
    }
    Ok(leaves)
}

/// The first words of leaves that are kept side by side from a word on, and the word behind the last.
fn words_from(alloc: Global, net: &Net, leaves: &[u32], first: u32) -> Result<List<u32>, AllocError>
    requires few { first + count_words (shapes_at net.now leaves.now) < 2 ^ 32 }
    ensures counted { IfOk result (λ words. length words ≡ length leaves.now + 1) }
    ensures each { IfOk result (λ words. (k : ℕ) → k ≤ length leaves.now → slice_index words k ≡ first + count_words (take k (shapes_at net.now leaves.now))) }
{
    let mut words = List::new(alloc);
    words.push(first)?;
    let mut next = first;
    for leaf in leaves {
        next += words_of(net, *leaf);
        words.push(next)?;
    }
    Ok(words)
}

/// How many words a leaf takes.
fn words_of(net: &Net, leaf: u32) -> u32
    ensures { result ≡ word_count (shape_or_none (slice_get net.now.leaves leaf)) }
{
    match net.leaves.get(leaf as usize) {
        Some(leaf) => words_of_width(leaf.width),
        None => 1,
    }
}

/// How many words a width takes.
pub(crate) fn words_of_width(width: u8) -> u32
    ensures words { result ≡ (if nat_lt 64 width then 2 else 1) }
    ensures few { result ≤ 2 }
{
    if width > 64 { 2 } else { 1 }
}

/// The word behind those of the memories.
fn behind_memories(net: &Net, first: u32) -> u32
    requires said { SaysItsWords net.now }
    requires few { state_words net.now < 2 ^ 32 }
    requires first { first ≡ count_words (register_shapes net.now) }
    ensures { result ≡ count_words (register_shapes net.now) + sum_by words_in_memory net.now.memories }
{
    let count = net.memories.len();
    if count == 0 {
        return first;
    }
    let Some(last) = net.memories.get(count - 1) else {
        unreachable!();
    };
    last.word + memory_words(last)
}

/// How many words an element of a memory takes.
pub fn element_words(memory: &NetMemory) -> u128
    ensures words { result ≡ words_in_element memory.now }
    ensures few { result < 2 ^ 65 }
{
    let mut words: u128 = 0;
    for leaf in memory.elements.as_slice() {
        words += words_of_width(leaf.width) as u128;
    }
    words
}

/// Whether from each memory's first word on the words of an element have numbers of 32 bits.
pub fn have_numbers(memories: &[NetMemory]) -> bool
    ensures { IsTrue result ↔ HaveNumbers memories.now }
{
    for memory in memories {
        let behind = memory.word as u128 + element_words(memory);
        if behind >= NUMBERS {
            return false;
        }
    }
    true
}

/// How many words a memory takes, of fewer than 2^32.
pub fn memory_words(memory: &NetMemory) -> u32
    requires { words_in_memory memory.now < 2 ^ 32 }
    ensures { result ≡ words_in_memory memory.now }
{
    (memory.depth * element_words(memory)) as u32
}
