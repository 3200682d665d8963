//! Workers that one thread drives, phase by phase.

ghost use Rattle.std.specs.Prelude.{◌≡◌, ◌+◌, ◌*◌, ◌/◌, ◌^◌, ◌<◌, ◌≤◌, length};
ghost use Rattle.crew_workers.specs.Standing.{At, AtStart, AtEnd, Arrived, FrameFits, Each, SameDuties};

use crate::gate::Gate;
use crate::worker::Worker;
use register_table::{Plan, RegisterTable};
use std::sync::Wait;

/// The cycles that workers are driven through, and the gate that is told their numbers.
#[derive(Drop)]
pub struct Stint<'g, G> {
    /// The number that the gate is told of the first cycle.
    pub first: u64,
    /// How many cycles there are.
    pub cycles: u64,
    /// What each worker calls before an evaluation.
    pub gate: &'g G,
}

// The even phase of the cycle, up to the arrival.
fn evaluate_one<N: Plan, G: Gate>(
    worker: &mut Worker<N>,
    table: &RegisterTable<N>,
    frame: &mut [u64],
    stint: &Stint<G>,
    cycle: u64,
)
    requires cycle { cycle < N.script.cycles }
    requires number { stint.now.first + cycle < 2 ^ 64 }
    requires at { At table.now worker.old (2 * cycle) (2 * cycle) 0 cycle }
    requires frame { FrameFits (length frame.old) worker.old }
    ensures at { Arrived table.now worker.new (2 * cycle) (cycle + 1) }
    ensures duty { worker.new.desk.duty ≡ worker.old.desk.duty }
    ensures frame { length frame.new ≡ length frame.old }
{
    stint
        .gate
        .enter(worker.desk.duty.number, stint.first + cycle);
    worker.evaluate(table, frame, cycle);
    worker.arrive(table);
}

fn evaluate_all<N: Plan, G: Gate>(
    workers: &mut [Worker<N>],
    table: &RegisterTable<N>,
    frame: &mut [u64],
    stint: &Stint<G>,
    cycle: u64,
)
    requires cycle { cycle < N.script.cycles }
    requires number { stint.now.first + cycle < 2 ^ 64 }
    requires at { Each (λ w. At table.now w (2 * cycle) (2 * cycle) 0 cycle) workers.old }
    requires frame { Each (FrameFits (length frame.old)) workers.old }
    ensures at { Each (λ w. Arrived table.now w (2 * cycle) (cycle + 1)) workers.new }
    ensures duties { SameDuties workers.old workers.new }
    ensures frame { length frame.new ≡ length frame.old }
{
    for i in 0..workers.len() {
        evaluate_one(&mut workers[i], table, frame, stint, cycle);
    }
}

// The odd phase of the cycle, up to the arrival.
fn publish_one<N: Plan>(worker: &mut Worker<N>, table: &RegisterTable<N>, cycle: u64)
    requires cycle { cycle < N.script.cycles }
    requires at { At table.now worker.old (2 * cycle + 1) (2 * cycle + 1) 0 (cycle + 1) }
    ensures at { Arrived table.now worker.new (2 * cycle + 1) (cycle + 1) }
    ensures duty { worker.new.desk.duty ≡ worker.old.desk.duty }
{
    worker.publish_all(table);
    worker.arrive(table);
}

fn publish_all<N: Plan>(workers: &mut [Worker<N>], table: &RegisterTable<N>, cycle: u64)
    requires cycle { cycle < N.script.cycles }
    requires at { Each (λ w. At table.now w (2 * cycle + 1) (2 * cycle + 1) 0 (cycle + 1)) workers.old }
    ensures at { Each (λ w. Arrived table.now w (2 * cycle + 1) (cycle + 1)) workers.new }
    ensures duties { SameDuties workers.old workers.new }
{
    for i in 0..workers.len() {
        publish_one(&mut workers[i], table, cycle);
    }
}

fn pass_one<N: Plan, R: Wait>(rt: &R, worker: &mut Worker<N>, table: &RegisterTable<N>, phase: u64)
    requires at { Arrived table.now worker.old phase (phase / 2 + 1) }
    ensures at { At table.now worker.new (phase + 1) (phase + 1) 0 (phase / 2 + 1) }
    ensures duty { worker.new.desk.duty ≡ worker.old.desk.duty }
{
    worker.pass(rt, table);
}

fn pass_all<N: Plan, R: Wait>(
    rt: &R,
    workers: &mut [Worker<N>],
    table: &RegisterTable<N>,
    phase: u64,
)
    requires at { Each (λ w. Arrived table.now w phase (phase / 2 + 1)) workers.old }
    ensures at { Each (λ w. At table.now w (phase + 1) (phase + 1) 0 (phase / 2 + 1)) workers.new }
    ensures duties { SameDuties workers.old workers.new }
{
    for i in 0..workers.len() {
        pass_one(rt, &mut workers[i], table, phase);
    }
}

/// Drives the workers through all cycles. In each phase all do their work and arrive before the first passes.
///
/// The gate is told the number of the cycle from `first` on.
pub fn drive<N: Plan, R: Wait, G: Gate>(
    rt: &R,
    table: &RegisterTable<N>,
    workers: &mut [Worker<N>],
    frame: &mut [u64],
    first: u64,
    cycles: u64,
    gate: &G,
)
    requires cycles { cycles ≡ N.script.cycles }
    requires numbers { first + cycles < 2 ^ 64 }
    requires at { Each (λ w. At table.now w 0 0 0 0) workers.old }
    requires frame { Each (FrameFits (length frame.old)) workers.old }
    ensures at { Each (λ w. At table.now w (2 * N.script.cycles) (2 * N.script.cycles) 0 N.script.cycles) workers.new }
    ensures duties { SameDuties workers.old workers.new }
    ensures frame { length frame.new ≡ length frame.old }
{
    let stint = Stint {
        first,
        cycles,
        gate,
    };
    for cycle in 0..cycles {
        evaluate_all(workers, table, frame, &stint, cycle);
        pass_all(rt, workers, table, 2 * cycle);
        publish_all(workers, table, cycle);
        pass_all(rt, workers, table, 2 * cycle + 1);
    }
}

/// The same for one worker, which it gives back.
pub fn drive_one<'a, N: Plan, R: Wait, G: Gate>(
    rt: &R,
    table: &RegisterTable<N>,
    mut worker: Worker<'a, N>,
    frame: &mut [u64],
    stint: &Stint<G>,
) -> Worker<'a, N>
    requires cycles { stint.now.cycles ≡ N.script.cycles }
    requires numbers { stint.now.first + stint.now.cycles < 2 ^ 64 }
    requires at { AtStart table.now worker }
    requires frame { FrameFits (length frame.old) worker }
    ensures duty { result.desk.duty ≡ worker.entry.desk.duty }
    ensures at { AtEnd table.now result }
{
    for cycle in 0..stint.cycles {
        evaluate_one(&mut worker, table, frame, stint, cycle);
        pass_one(rt, &mut worker, table, 2 * cycle);
        publish_one(&mut worker, table, cycle);
        pass_one(rt, &mut worker, table, 2 * cycle + 1);
    }
    worker
}
