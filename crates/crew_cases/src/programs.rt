//! The top call over shelves and sinks in memory that take one byte a call.

use crew_workers::Gate;
use shelf_io::{ShelfMemory, SinkMemory};
use sim_top::run_program;
use std::alloc::{AllocError, Global};
use std::sync::Wait;
use std::sync::atomic::AtomicU64;
use std::sync::atomic::Ordering::SeqCst;
use std::test::Fail;
use std::thread::Threads;

pub const CIRCUIT: &str = "FIRRTL version 3.0.0
circuit M :
  module M :
    input clock : Clock
    input reset : UInt<1>
    output out : UInt<4>
    regreset r : UInt<4>, clock, reset, UInt<4>(0)
    connect r, tail(add(r, UInt<4>(1)), 1)
    connect out, r
";

pub const STIMULUS: &str = "cycles 4
0 reset 1
1 reset 0
";

pub const TRACE: &str = "cycle out\n0 0\n1 0\n2 1\n3 2\n";

/// The summary of 2,049 cycles of a ring of two registers: two whole epochs and one of a cycle.
const LONG_SUMMARY: &str = "bytes 18280\n2048 2048\n";

pub const PRINTING: &str = "FIRRTL version 3.0.0
circuit M :
  module M :
    input clock : Clock
    input reset : UInt<1>
    output out : UInt<4>
    regreset r : UInt<4>, clock, reset, UInt<4>(0)
    connect r, tail(add(r, UInt<4>(1)), 1)
    connect out, r
    printf(clock, UInt<1>(1), \"r=%d %b\\n\", r, r) : p
    when eq(r, UInt<4>(1)) :
      stop(clock, UInt<1>(1), 7) : s
";

pub const LONG_STIMULUS: &str = "cycles 9
0 reset 1
1 reset 0
";

pub const LOG: &str = "r=0 0\nr=0 0\nr=1 1\nstopped 2 7\n";

/// A gate that counts how often workers enter it.
#[derive(Drop)]
struct Counter {
    entered: AtomicU64,
}

impl Gate for Counter {
    fn enter(&self, _worker: u32, _cycle: u64) {
        let _before = self.entered.fetch_add(1, SeqCst);
    }
}

/// Texts that stand on a shelf, the calls at which the shelf and the sink fail, and the bytes that the sink has room for. The circuit and
/// the stimulus stand there joined, as `-`, and each by itself.
#[derive(Clone, Copy)]
pub struct Outside<'a> {
    pub circuit: &'a str,
    pub stimulus: &'a str,
    pub state: &'a str,
    pub read: &'a [u64],
    pub write: &'a [u64],
    pub room: usize,
}

/// These texts, where nothing fails.
pub fn holding<'a>(circuit: &'a str, stimulus: &'a str) -> Outside<'a> {
    Outside {
        circuit,
        stimulus,
        state: "",
        read: &[],
        write: &[],
        room: 100,
    }
}

/// A text with its name.
fn named(alloc: Global, name: &str, text: &[u8]) -> Result<(String, Vec<u8>), AllocError> {
    Ok((
        String::from_str(alloc, name)?,
        Vec::from_slice(alloc, text)?,
    ))
}

/// The shelf.
fn shelf(alloc: Global, outside: Outside<'_>) -> Result<ShelfMemory, AllocError> {
    let mut joined = String::from_str(alloc, outside.circuit)?;
    joined.push_str("%stimulus\n")?;
    joined.push_str(outside.stimulus)?;
    let mut texts = Vec::new(alloc);
    texts.push(named(alloc, "-", joined.as_bytes())?)?;
    texts.push(named(alloc, "circuit", outside.circuit.as_bytes())?)?;
    texts.push(named(alloc, "stimulus", outside.stimulus.as_bytes())?)?;
    texts.push(named(alloc, "state", outside.state.as_bytes())?)?;
    let fails = Vec::from_slice(alloc, outside.read)?;
    Ok(ShelfMemory::new(texts, 1, fails))
}

/// The status of a command line and what it wrote.
pub fn answer<R: Threads + Wait + Sync, G: Gate + Sync>(
    rt: &R,
    alloc: Global,
    gate: &G,
    words: &[&str],
    outside: Outside<'_>,
) -> Result<(u8, Vec<u8>), AllocError> {
    let mut all = Vec::new(alloc);
    for word in words {
        all.push(String::from_str(alloc, word)?)?;
    }
    let mut shelf = shelf(alloc, outside)?;
    let mut sink = SinkMemory::new(
        alloc,
        outside.room,
        1,
        Vec::from_slice(alloc, outside.write)?,
    )?;
    let status = run_program(rt, alloc, &all, &mut shelf, &mut sink, gate);
    Ok((status, Vec::from_slice(alloc, sink.bytes())?))
}

#[test]
fn each_worker_enters_the_gate_in_each_cycle(rt: HostRuntime) -> Result<(), Fail> {
    for (workers, times) in [("1", 4), ("2", 8), ("5", 20), ("64", 256)] {
        let gate = Counter {
            entered: AtomicU64::new(0),
        };
        let words = ["run", "--workers", workers];
        let (status, written) = answer(&rt, rt.alloc(), &gate, &words, holding(CIRCUIT, STIMULUS))?;
        assert_eq!(rt; status, 0);
        assert_eq!(rt; written.as_slice(), TRACE.as_bytes());
        assert_eq!(rt; gate.entered.load(SeqCst), times);
    }
    Ok(())
}

#[test]
fn each_worker_of_a_made_circuit_enters_the_gate(rt: HostRuntime) -> Result<(), Fail> {
    for (workers, times) in [("1", 2049), ("3", 6147)] {
        let gate = Counter {
            entered: AtomicU64::new(0),
        };
        let words = ["make", "--workers", workers, "--cycles", "2049", "2"];
        let (status, written) = answer(&rt, rt.alloc(), &gate, &words, holding(CIRCUIT, STIMULUS))?;
        assert_eq!(rt; status, 0);
        assert_eq!(rt; written.as_slice(), LONG_SUMMARY.as_bytes());
        assert_eq!(rt; gate.entered.load(SeqCst), times);
    }
    Ok(())
}
