//! Traces of crews that get fewer threads than they ask for. By as many as they ask for the built program writes them, in tests/.

use crate::circuits::{CASES, Case};
use crate::gates::Counting;
use crate::reading::{Force, read, traced_by};
use std::alloc::Global;
use std::process::Abort;
use std::sync::Wait;
use std::sync::atomic::{AtomicU64, Ordering};
use std::thread::Threads;

/// What a crew wrote, and how often a worker came to the gate.
#[derive(Drop)]
struct Written {
    trace: Vec<u8>,
    entries: u64,
}

/// The trace of a case by workers.
fn told<R: Threads + Wait + Sync>(
    rt: &R,
    alloc: Global,
    case: Case,
    force: Force,
) -> Option<Written> {
    let gate = Counting {
        entries: AtomicU64::new(0),
    };
    let given = read(alloc, case.circuit.as_bytes(), case.stimulus.as_bytes())?;
    let trace = traced_by(rt, alloc, &given, force, &gate)?;
    let entries = gate.entries.load(Ordering::SeqCst);
    Some(Written { trace, entries })
}

/// Compares the trace of a case by workers with the one that is wanted. Each worker comes to the gate once a cycle.
fn expect<R: Threads + Wait + Sync + Abort>(rt: &R, alloc: Global, case: Case, force: Force) {
    match told(rt, alloc, case, force) {
        Some(written) => {
            assert_eq!(rt;
                written.trace.as_slice(),
                case.trace.as_bytes(),
                "{force:?}"
            );
            let entries = u64::from(force.workers).checked_mul(case.cycles);
            assert_eq!(rt; Some(written.entries), entries, "{force:?}");
        }
        None => assert!(rt; false, "no trace at {}", case.circuit),
    }
}

// where no thread is started, the caller drives all workers, in one list
#[test]
fn workers_without_a_thread_are_driven_by_the_caller(rt: HostRuntime) {
    for case in CASES {
        for (workers, threads) in [(1, 0), (2, 0), (5, 0), (5, 1), (5, 3)] {
            expect(&rt, rt.alloc(), case, Force { workers, threads });
        }
    }
}
