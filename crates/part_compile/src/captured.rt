//! Captured reads in flat order.

ghost use Rattle.std.specs.Prelude.{◌≡◌, ◌++◌, map, IfOk, OnOk};
ghost use Rattle.ground_net.specs.Cycles.{captures};
ghost use Rattle.part_compile.specs.FirstWords.{told_of};
ghost use Rattle.part_compile.specs.KeptRows.{told_by, told_by_ports};

use bit_words::List;
use ground_net::{Net, NetPort};
use std::alloc::{AllocError, Global};

/// A captured read: the number of its memory, and the leaf of the net that shows it.
#[derive(Clone, Copy)]
pub struct CapturedRead {
    pub memory: usize,
    pub leaf: u32,
}

/// The captured reads of a net in flat order.
pub fn captured_reads(alloc: Global, net: &Net) -> Result<List<CapturedRead>, AllocError>
    ensures { IfOk result (λ reads. reads ≡ map told_of (captures net.now)) }
{
    let mut reads = List::new(alloc);
    for number in 0..net.memories.len() {
        let Some(memory) = net.memories.get(number) else {
            unreachable!();
        };
        push_ports(&mut reads, number, memory.ports.as_slice())?;
    }
    Ok(reads)
}

/// Adds the captured reads of ports of a memory.
fn push_ports(
    reads: &mut List<CapturedRead>,
    memory: usize,
    ports: &[NetPort],
) -> Result<(), AllocError>
    ensures { OnOk result (reads.new ≡ reads.old ++ told_by_ports memory ports.now) }
{
    for port in ports {
        push_port(reads, memory, port)?;
    }
    Ok(())
}

/// Adds the captured reads of a port.
fn push_port(
    reads: &mut List<CapturedRead>,
    memory: usize,
    port: &NetPort,
) -> Result<(), AllocError>
    ensures { OnOk result (reads.new ≡ reads.old ++ told_by memory port.now.read) }
{
    match &port.read {
        Some(read) if read.captured => push_leaves(reads, memory, read.leaves.as_slice()),
        _ => Ok(()),
    }
}

/// Adds the captured reads that these leaves show.
fn push_leaves(
    reads: &mut List<CapturedRead>,
    memory: usize,
    leaves: &[u32],
) -> Result<(), AllocError>
    ensures { OnOk result (reads.new ≡ reads.old ++ map (λ x. record { memory = memory; leaf = x }) leaves.now) }
{
    for leaf in leaves {
        reads.push(CapturedRead {
            memory,
            leaf: *leaf,
        })?;
    }
    Ok(())
}
