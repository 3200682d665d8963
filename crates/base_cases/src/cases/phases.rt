//! Steps of the two phases, one by one and as a list.

ghost use Rattle.phase_core.specs.Script.{IsScript};

use super::telling::expect;
use bit_words::List;
use phase_core::{PhaseState, Publication, Script, Step, View, apply, begin, is_script, run_steps};
use std::alloc::{AllocError, Global};
use std::process::Abort;

// A script in which the worker w owns the word w, and publishes `rows[c][w]` in it in cycle c.
fn script_of(
    alloc: Global,
    workers: u32,
    first: &[u64],
    rows: &[&[u64]],
) -> Result<Script, AllocError> {
    let mut owners = List::new(alloc);
    for (owner, _) in (0u32..).zip(first) {
        owners.push(owner)?;
    }
    let mut rounds = List::new(alloc);
    for row in rows {
        let mut round = List::new(alloc);
        for (word, value) in (0u32..).zip(*row) {
            let publication = Publication {
                word,
                value: *value,
            };
            round.push(List::from_slice(alloc, &[publication])?)?;
        }
        rounds.push(round)?;
    }
    Ok(Script {
        workers,
        cycles: rows.len() as u64,
        first: List::from_slice(alloc, first)?,
        owners,
        rounds,
    })
}

// Takes the steps one by one, compares each answer, and compares the state with that of the whole list.
fn take_steps(
    rt: &impl Abort,
    alloc: Global,
    script: &Script,
    steps: &[(Step, bool)],
) -> Result<PhaseState, AllocError>
    requires { IsScript script.now }
{
    let mut state = begin(alloc, script)?;
    let mut list = Vec::new(alloc);
    for (step, holds) in steps {
        let taken = apply(alloc, script, &mut state, *step)?;
        expect(rt, *step, taken, *holds);
        list.push(*step)?;
    }
    let all = run_steps(alloc, script, list.as_slice())?;
    expect(rt, steps, told(&all), told(&state));
    Ok(state)
}

/// The barrier, the words, the views and whether the end was reached.
fn told(state: &PhaseState) -> (u64, &[u64], &[Option<View>], bool) {
    let (words, views) = (state.words.as_slice(), state.views.as_slice());
    (state.barrier, words, views, state.closed)
}

/// Workers, their first words, and what each publishes in each cycle.
#[derive(Clone, Copy)]
struct Plan {
    workers: u32,
    first: &'static [u64],
    rows: &'static [&'static [u64]],
}

/// A plan, steps with whether each holds, and the barrier, the words and whether the end was reached behind them.
#[derive(Clone, Copy)]
struct Run {
    plan: Plan,
    steps: &'static [(Step, bool)],
    barrier: u64,
    words: &'static [u64],
    closed: bool,
}

/// One worker with one word.
const ONE_WORKER: Plan = Plan {
    workers: 1,
    first: &[3],
    rows: &[&[8]],
};

/// No cycle.
const AT_ONCE: Run = Run {
    plan: Plan {
        workers: 1,
        first: &[],
        rows: &[],
    },
    steps: &[(Step::Close { view: 0 }, true)],
    barrier: 0,
    words: &[],
    closed: true,
};

/// One cycle of one worker.
const ONE_CYCLE: Run = Run {
    plan: ONE_WORKER,
    steps: &[
        (Step::Arrive { view: 0 }, true),
        (Step::Pass { view: 0 }, true),
        (Step::Publish { view: 0 }, true),
        (Step::Arrive { view: 0 }, true),
        (Step::Pass { view: 0 }, true),
        (Step::Load { view: 0, word: 0 }, true),
        (Step::Close { view: 0 }, true),
    ],
    barrier: 2,
    words: &[8],
    closed: true,
};

/// What isn't published keeps the worker in its phase.
const UNPUBLISHED: Run = Run {
    plan: ONE_WORKER,
    steps: &[
        (Step::Arrive { view: 0 }, true),
        (Step::Pass { view: 0 }, true),
        (Step::Arrive { view: 0 }, false),
        (Step::Pass { view: 0 }, false),
        (Step::Load { view: 0, word: 0 }, false),
        (Step::Close { view: 0 }, false),
    ],
    barrier: 1,
    words: &[3],
    closed: false,
};

/// A worker waits for one that hasn't arrived.
const UNARRIVED: Run = Run {
    plan: Plan {
        workers: 2,
        first: &[5, 6],
        rows: &[&[9, 7]],
    },
    steps: &[
        (Step::Split { view: 0, at: 1 }, true),
        (Step::Load { view: 0, word: 0 }, true),
        (Step::Arrive { view: 0 }, true),
        (Step::Pass { view: 0 }, false),
    ],
    barrier: 1,
    words: &[5, 6],
    closed: false,
};

/// The worker 2 enters a phase only when the others have ended it.
const THREE_WORKERS: Run = Run {
    plan: Plan {
        workers: 3,
        first: &[1, 2, 3],
        rows: &[&[10, 20, 30], &[40, 50, 60]],
    },
    steps: &[
        (Step::Split { view: 0, at: 1 }, true),
        (Step::Split { view: 1, at: 2 }, true),
        (Step::Arrive { view: 0 }, true),
        (Step::Arrive { view: 1 }, true),
        (Step::Stay { view: 1 }, true),
        (Step::Arrive { view: 2 }, true),
        (Step::Stay { view: 1 }, false),
        (Step::Pass { view: 0 }, true),
        (Step::Pass { view: 1 }, true),
        (Step::Publish { view: 0 }, true),
        (Step::Publish { view: 1 }, true),
        (Step::Arrive { view: 0 }, true),
        (Step::Arrive { view: 1 }, true),
        (Step::Pass { view: 0 }, false),
        (Step::Pass { view: 2 }, true),
        (Step::Publish { view: 2 }, true),
        (Step::Publish { view: 2 }, false),
        (Step::Arrive { view: 2 }, true),
        (Step::Pass { view: 0 }, true),
        (Step::Pass { view: 1 }, true),
        (Step::Load { view: 0, word: 2 }, true),
        (Step::Load { view: 2, word: 2 }, false),
        (Step::Arrive { view: 0 }, true),
        (Step::Arrive { view: 1 }, true),
        (Step::Pass { view: 2 }, true),
        (Step::Load { view: 2, word: 0 }, true),
        (Step::Arrive { view: 2 }, true),
        (Step::Pass { view: 0 }, true),
        (Step::Publish { view: 0 }, true),
        (Step::Arrive { view: 0 }, true),
        (Step::Pass { view: 1 }, true),
        (Step::Publish { view: 1 }, true),
        (Step::Arrive { view: 1 }, true),
        (Step::Pass { view: 2 }, true),
        (Step::Publish { view: 2 }, true),
        (Step::Arrive { view: 2 }, true),
        (Step::Pass { view: 0 }, true),
        (Step::Pass { view: 1 }, true),
        (Step::Join { view: 0, other: 2 }, false),
        (Step::Pass { view: 2 }, true),
        (Step::Join { view: 0, other: 1 }, true),
        (Step::Close { view: 0 }, false),
        (Step::Join { view: 0, other: 2 }, true),
        (Step::Close { view: 0 }, true),
    ],
    barrier: 12,
    words: &[40, 50, 60],
    closed: true,
};

/// The state behind these steps, where the plan makes a script.
fn state_after(
    rt: &impl Abort,
    alloc: Global,
    plan: Plan,
    steps: &[(Step, bool)],
) -> Option<PhaseState> {
    let script = script_of(alloc, plan.workers, plan.first, plan.rows).ok()?;
    if is_script(&script) {
        take_steps(rt, alloc, &script, steps).ok()
    } else {
        None
    }
}

#[test]
fn steps_lead_to_states(rt: HostRuntime) {
    for run in [AT_ONCE, ONE_CYCLE, UNPUBLISHED, UNARRIVED, THREE_WORKERS] {
        match state_after(&rt, rt.alloc(), run.plan, run.steps) {
            Some(state) => {
                let found = (state.barrier, state.words.as_slice(), state.closed);
                expect(&rt, run.steps, found, (run.barrier, run.words, run.closed));
            }
            None => assert!(rt; false, "no script"),
        }
    }
}

#[test]
fn views_are_joined_into_the_first(rt: HostRuntime) {
    let run = THREE_WORKERS;
    let last = View {
        low: 0,
        high: 3,
        arrivals: 4,
        passed: 4,
        done: 0,
    };
    let views = match state_after(&rt, rt.alloc(), run.plan, run.steps) {
        Some(state) => state.views,
        None => List::new(rt.alloc()),
    };
    let wanted = [Some(last), None, None];
    expect(&rt, run.steps, views.as_slice(), &wanted);
}

#[test]
fn refuses_what_is_no_script(rt: HostRuntime) {
    let nobody = Plan {
        workers: 0,
        first: &[],
        rows: &[],
    };
    assert!(rt; state_after(&rt, rt.alloc(), nobody, &[]).is_none());
    let missing = Plan {
        workers: 2,
        first: &[5, 6],
        rows: &[&[9]],
    };
    assert!(rt; state_after(&rt, rt.alloc(), missing, &[]).is_none());
}
