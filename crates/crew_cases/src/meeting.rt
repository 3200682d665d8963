//! Two workers run at once.

use crate::circuits::{EXCHANGE, INVERTED};
use crate::gates::Meeting;
use crate::programs::{answer, holding};
use crate::reading::{Force, read, traced_by};
use std::alloc::Global;
use std::sync::Wait;
use std::test::Fail;
use std::thread::Threads;

/// In each cycle a worker looks so many times for the other one.
const LOOKS: u64 = 100_000_000;

// A program that drives both workers on one thread fails it: the worker that enters first sees no other.
#[test]
fn two_workers_of_the_program_see_each_other(rt: HostRuntime) -> Result<(), Fail> {
    let meeting = Meeting::new(1, LOOKS);
    let outside = holding(INVERTED.circuit, "cycles 1\n0 reset 1\n");
    let words = ["run", "--workers", "2"];
    let (status, written) = answer(&rt, rt.alloc(), &meeting, &words, outside)?;
    assert_eq!(rt; status, 0);
    assert_eq!(rt; written.as_slice(), b"cycle x\n0 0\n".as_slice());
    assert_eq!(rt; meeting.seen(), 2);
    Ok(())
}

/// How many of two workers see the other at the gate in a run of the exchange, where so many threads are started.
fn seen<R: Threads + Wait + Sync>(rt: &R, alloc: Global, threads: usize, meeting: &Meeting) -> u64 {
    let case = EXCHANGE;
    let Some(given) = read(alloc, case.circuit.as_bytes(), case.stimulus.as_bytes()) else {
        return 0;
    };
    let force = Force {
        workers: 2,
        threads,
    };
    let Some(_trace) = traced_by(rt, alloc, &given, force, meeting) else {
        return 0;
    };
    meeting.seen()
}

#[test]
fn on_one_thread_the_first_sees_no_other(rt: HostRuntime) {
    let meeting = Meeting::new(3, 1_000);
    assert_eq!(rt; seen(&rt, rt.alloc(), 0, &meeting), 1);
}
