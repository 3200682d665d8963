//! The steps, taken on plain data.

ghost use Rattle.std.specs.Prelude.{◌≡◌, ◌+◌, ◌-◌, ◌*◌, ◌/◌, ◌^◌, ◌<◌, ◌≤◌, ℕ, false, [], ◌∷◌, Some, take, length, IfOk, IfErr, IsSome, OnSome};
ghost use Rattle.phase_core.specs.Script.{publications, IsScript};
ghost use Rattle.phase_core.specs.Sound.{view};
ghost use Rattle.phase_core.specs.Steps.{SoundState, live_view, may_split, may_stay, may_pass, may_arrive, may_load, may_publish, may_join, may_close, next_of, one_worker, split_step, stay_step, pass_step, arrive_step, load_step, publish_step, join_step, close_step, stepped, or_else, taken, run, begun, at_end};

use crate::model::{PhaseState, Publication, Script, Step, View};
use bit_words::List;
use std::alloc::{AllocError, Global};

/// The state at the beginning: one view of all workers, all counts 0, the first words.
pub fn begin(alloc: Global, script: &Script) -> Result<PhaseState, AllocError>
    requires { IsScript script.now }
    ensures state { IfOk result (λ t. t ≡ begun script.now) }
    ensures sound { IfOk result (λ t. SoundState script.now t) }
{
    let words = List::from_slice(alloc, script.first.as_slice())?;
    let mut views = List::new(alloc);
    views.push(Some(View {
        low: 0,
        high: script.workers,
        arrivals: 0,
        passed: 0,
        done: 0,
    }))?;
    Ok(PhaseState {
        barrier: 0,
        words,
        views,
        closed: false,
    })
}

// The view with this number, where the run is not over and the view is live.
fn live(state: &PhaseState, index: u32) -> Option<View>
    ensures view { result ≡ live_view state.now index }
    ensures within { OnSome result (index < length state.now.views) }
{
    if state.closed {
        return None;
    }
    match state.views.get(index as usize) {
        Some(found) => *found,
        None => None,
    }
}

// What the worker publishes in the cycle.
fn part(script: &Script, cycle: u64, worker: u32) -> &[Publication]
    ensures { result.now ≡ publications script.now cycle worker }
{
    match script.rounds.get(cycle as usize) {
        Some(round) => match round.get(worker as usize) {
            Some(found) => found.as_slice(),
            None => &[],
        },
        None => &[],
    }
}

// The next publication of the view's worker.
fn next(script: &Script, held: View) -> Option<Publication>
    ensures value { result ≡ next_of script.now held }
    ensures room { OnSome result (held.done + 1 < 2 ^ 64) }
{
    let all = part(script, held.passed / 2, held.low);
    if (held.done as usize) < all.len() {
        Some(all[held.done as usize])
    } else {
        None
    }
}

fn is_one_worker(held: View) -> bool
    ensures { result ≡ one_worker held }
{
    held.high as u64 == held.low as u64 + 1
}

fn is_at_end(script: &Script, held: View) -> bool
    ensures { result ≡ at_end script.now held }
{
    let last = 2 * script.cycles as u128;
    held.arrivals as u128 == last && held.passed as u128 == last
}

fn allows_pass(script: &Script, state: &PhaseState, held: View) -> bool
    ensures { result ≡ may_pass script.now state.now held }
{
    let phases = held.passed as u128 + 1;
    held.arrivals as u128 == phases && script.workers as u128 * phases <= state.barrier as u128
}

fn allows_arrive(script: &Script, held: View) -> bool
    ensures { result ≡ may_arrive script.now held }
{
    is_one_worker(held)
        && held.arrivals == held.passed
        && (held.passed as u128) < 2 * script.cycles as u128
        && (held.passed % 2 == 0
            || held.done as usize == part(script, held.passed / 2, held.low).len())
}

fn split(state: &mut PhaseState, index: u32, at: u32) -> Result<bool, AllocError>
    ensures taken { IfOk result (λ b. b ≡ taken (split_step state.old index at)) }
    ensures state { IfOk result (λ b. state.new ≡ or_else (split_step state.old index at) state.old) }
    ensures refused { IfErr result (λ e. state.new ≡ state.old) }
{
    let Some(held) = live(state, index) else {
        return Ok(false);
    };
    if held.arrivals != 0 || at <= held.low || held.high <= at {
        return Ok(false);
    }
    let rest = View {
        low: at,
        high: held.high,
        arrivals: 0,
        passed: 0,
        done: 0,
    };
    state.views.push(Some(rest))?;
    state
        .views
        .set(index as usize, Some(View { high: at, ..held }));
    Ok(true)
}

fn stay(script: &Script, state: &PhaseState, index: u32) -> bool
    ensures taken { result ≡ taken (stay_step script.now state.now index) }
    ensures same { or_else (stay_step script.now state.now index) state.now ≡ state.now }
{
    let Some(held) = live(state, index) else {
        return false;
    };
    let phases = held.passed as u128 + 1;
    held.arrivals as u128 == phases && (state.barrier as u128) < script.workers as u128 * phases
}

fn pass(script: &Script, state: &mut PhaseState, index: u32) -> bool
    ensures taken { result ≡ taken (pass_step script.now state.old index) }
    ensures state { state.new ≡ or_else (pass_step script.now state.old index) state.old }
{
    let Some(held) = live(state, index) else {
        return false;
    };
    if !allows_pass(script, state, held) {
        return false;
    }
    let passed = View {
        passed: held.arrivals,
        done: 0,
        ..held
    };
    state.views.set(index as usize, Some(passed));
    true
}

fn arrive(script: &Script, state: &mut PhaseState, index: u32) -> bool
    requires script { IsScript script.now }
    requires sound { SoundState script.now state.old }
    ensures taken { result ≡ taken (arrive_step script.now state.old index) }
    ensures state { state.new ≡ or_else (arrive_step script.now state.old index) state.old }
{
    let Some(held) = live(state, index) else {
        return false;
    };
    if !allows_arrive(script, held) {
        return false;
    }
    let arrived = View {
        arrivals: held.arrivals + 1,
        ..held
    };
    state.barrier += 1;
    state.views.set(index as usize, Some(arrived));
    true
}

fn load(state: &PhaseState, index: u32, word: u32) -> bool
    ensures taken { result ≡ taken (load_step state.now index word) }
    ensures same { or_else (load_step state.now index word) state.now ≡ state.now }
{
    let Some(held) = live(state, index) else {
        return false;
    };
    held.arrivals == held.passed && held.passed % 2 == 0 && (word as usize) < state.words.len()
}

fn publish(script: &Script, state: &mut PhaseState, index: u32) -> bool
    requires script { IsScript script.now }
    requires sound { SoundState script.now state.old }
    ensures taken { result ≡ taken (publish_step script.now state.old index) }
    ensures state { state.new ≡ or_else (publish_step script.now state.old index) state.old }
{
    let Some(held) = live(state, index) else {
        return false;
    };
    let Some(found) = next(script, held) else {
        return false;
    };
    if !(is_one_worker(held) && held.arrivals == held.passed && held.passed % 2 == 1) {
        return false;
    }
    let published = View {
        done: held.done + 1,
        ..held
    };
    state.words.set(found.word as usize, found.value);
    state.views.set(index as usize, Some(published));
    true
}

fn join(script: &Script, state: &mut PhaseState, index: u32, other: u32) -> bool
    ensures taken { result ≡ taken (join_step script.now state.old index other) }
    ensures state { state.new ≡ or_else (join_step script.now state.old index other) state.old }
{
    let Some(held) = live(state, index) else {
        return false;
    };
    let Some(theirs) = live(state, other) else {
        return false;
    };
    if !(is_at_end(script, held) && is_at_end(script, theirs) && held.high == theirs.low) {
        return false;
    }
    let united = View {
        high: theirs.high,
        ..held
    };
    state.views.set(index as usize, Some(united));
    state.views.set(other as usize, None);
    true
}

fn close(script: &Script, state: &mut PhaseState, index: u32) -> bool
    ensures taken { result ≡ taken (close_step script.now state.old index) }
    ensures state { state.new ≡ or_else (close_step script.now state.old index) state.old }
{
    let Some(held) = live(state, index) else {
        return false;
    };
    if held.low != 0
        || held.high != script.workers
        || held.passed as u128 != 2 * script.cycles as u128
    {
        return false;
    }
    state.closed = true;
    true
}

/// Takes the step and answers true exactly where its condition holds; else the state stays as it was.
///
/// A split may need memory, which the list of views takes from its own allocator. Where it is refused the state stays
/// as it was.
pub fn apply(
    _alloc: Global,
    script: &Script,
    state: &mut PhaseState,
    step: Step,
) -> Result<bool, AllocError>
    requires script { IsScript script.now }
    requires sound { SoundState script.now state.old }
    ensures taken { IfOk result (λ b. b ≡ taken (stepped script.now state.old step)) }
    ensures state { IfOk result (λ b. state.new ≡ or_else (stepped script.now state.old step) state.old) }
    ensures refused { IfErr result (λ e. state.new ≡ state.old) }
    ensures sound { SoundState script.now state.new }
{
    match step {
        Step::Split { view, at } => {
            let taken = split(state, view, at)?;
            Ok(taken)
        }
        Step::Stay { view } => Ok(stay(script, state, view)),
        Step::Pass { view } => Ok(pass(script, state, view)),
        Step::Arrive { view } => Ok(arrive(script, state, view)),
        Step::Load { view, word } => Ok(load(state, view, word)),
        Step::Publish { view } => Ok(publish(script, state, view)),
        Step::Join { view, other } => Ok(join(script, state, view, other)),
        Step::Close { view } => Ok(close(script, state, view)),
    }
}

/// Takes the steps in order, but for those whose condition does not hold.
pub fn run_steps(alloc: Global, script: &Script, steps: &[Step]) -> Result<PhaseState, AllocError>
    requires { IsScript script.now }
    ensures state { IfOk result (λ t. t ≡ run script.now (begun script.now) steps.now) }
    ensures sound { IfOk result (λ t. (n : ℕ) → SoundState script.now (run script.now (begun script.now) (take n steps.now))) }
{
    let mut state = begin(alloc, script)?;
    for step in steps {
        apply(alloc, script, &mut state, *step)?;
    }
    Ok(state)
}
