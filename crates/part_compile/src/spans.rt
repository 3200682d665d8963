//! The words of sinks as spans.

ghost use Rattle.std.specs.Prelude.{◌≡◌, ◌++◌, ◌^◌, ◌<◌, ◌↔◌, IsTrue, ℕ, length, map, OnOk, List};
ghost use Rattle.ground_net.specs.Cones.{A_register, A_memory};
ghost use Rattle.ground_net.specs.Words.{state_words, SaysItsWords};
ghost use Rattle.ground_net.specs.Cycles.{captures};
ghost use Rattle.part_compile.specs.FirstWords.{AreFirst, told_of};
ghost use Rattle.part_compile.specs.PartRows.{OwnsMore, OwnsRead};

use crate::captured::CapturedRead;
use crate::words::{FirstWords, memory_words};
use bit_words::List;
use flat_code::Span;
use ground_net::Net;
use std::alloc::AllocError;

/// Adds the words of a register.
pub fn own_register(
    owned: &mut List<Span>,
    net: &Net,
    words: &FirstWords,
    register: usize,
) -> Result<(), AllocError>
    requires words { AreFirst net.now words.now }
    requires within { register < length net.now.registers }
    ensures { OnOk result (OwnsMore net.now (A_register register) owned.old owned.new) }
{
    let first = words.registers.as_slice()[register];
    let behind = words.registers.as_slice()[register + 1];
    owned.push(Span {
        first,
        count: behind - first,
    })?;
    Ok(())
}

/// Adds the words of a memory: those of its elements, and those of its captured reads.
pub fn own_memory(
    owned: &mut List<Span>,
    net: &Net,
    words: &FirstWords,
    reads: &[CapturedRead],
    memory: usize,
) -> Result<(), AllocError>
    requires said { SaysItsWords net.now }
    requires few { state_words net.now < 2 ^ 32 }
    requires words { AreFirst net.now words.now }
    requires reads { reads.now ≡ map told_of (captures net.now) }
    requires within { memory < length net.now.memories }
    ensures { OnOk result (OwnsMore net.now (A_memory memory) owned.old owned.new) }
{
    let Some(it) = net.memories.get(memory) else {
        unreachable!();
    };
    owned.push(Span {
        first: it.word,
        count: memory_words(it),
    })?;
    for number in 0..reads.len() {
        own_read(owned, net, words, reads, (memory, number))?;
    }
    Ok(())
}

/// Adds the words of the captured read of the second number, where it is of the memory of the first.
fn own_read(
    owned: &mut List<Span>,
    net: &Net,
    words: &FirstWords,
    reads: &[CapturedRead],
    numbers: (usize, usize),
) -> Result<(), AllocError>
    requires words { AreFirst net.now words.now }
    requires reads { reads.now ≡ map told_of (captures net.now) }
    requires within { numbers.1 < length reads.now }
    ensures { OnOk result (OwnsRead net.now numbers.0 numbers.1 owned.old owned.new) }
{
    let (memory, number) = numbers;
    let read = reads[number];
    if read.memory != memory {
        return Ok(());
    }
    let first = words.captured.as_slice()[number];
    let behind = words.captured.as_slice()[number + 1];
    owned.push(Span {
        first,
        count: behind - first,
    })?;
    Ok(())
}
