//! What the workers of an epoch leave.

ghost use Rattle.std.specs.Prelude.{◌≡◌, ℕ, ◌+◌, ◌*◌, ◌^◌, ◌<◌, ◌≤◌, length, vec_len, vec_capacity, slice_index_or, MatchOption, IfSome};
ghost use Rattle.phase_core.specs.Sound.{view};
ghost use Rattle.register_table.specs.Shown.{ComesFrom};
ghost use Rattle.flat_code.specs.declared.code.Code.{Code as Cod};
ghost use Rattle.crew_workers.specs.Codes.{Recorded};
ghost use Rattle.worker_crew.specs.Crew.{task_of, Answered, Fresh, Done, IsDuty, PlaceOk, Places, Parts};
ghost use Rattle.crew_workers.specs.Standing.{Each};
ghost use Rattle.worker_crew.specs.Numbers.{same, held, lent, there, Manned, AllThere};
ghost use Rattle.worker_crew.specs.Threads.{Promised};

use crate::crew::{Lent, Shared};
use crate::crowd::{Roster, take_answer};
use bit_words::Rows;
use crew_workers::{Gate, Stint, Worker, drive};
use register_table::{Plan, Post};
use std::sync::Wait;
use std::thread::{PromisedHandle, Threads};

fn next_done<'a, N: Plan>(
    shared: &Shared<N>,
    workers: &mut Vec<Worker<'a, N>>,
) -> Option<Worker<'a, N>>
    requires { Each (Done shared.now) workers.old.items }
    ensures rest { Each (Done shared.now) workers.new.items }
    ensures last { MatchOption result (vec_len workers.new ≡ 0) (λ w. Done shared.now w) }
    ensures len { MatchOption result (vec_len workers.old ≡ 0) (λ w. vec_len workers.old ≡ vec_len workers.new + 1) }
    ensures numbers { IfSome result (λ w. (k : ℕ) → held k workers.old.items ≡ held k workers.new.items + same k w.desk.duty.number) }
    ensures room { vec_capacity workers.new ≡ vec_capacity workers.old }
{
    workers.pop()
}

fn keep_done<'a, N: Plan>(shared: &Shared<N>, worker: Worker<'a, N>, done: &mut Vec<Worker<'a, N>>)
    requires worker { Done shared.now worker }
    requires room { vec_len done.old < vec_capacity done.old }
    requires done { Each (Done shared.now) done.old.items }
    ensures done { Each (Done shared.now) done.new.items }
    ensures len { vec_len done.new ≡ vec_len done.old + 1 }
    ensures numbers { (k : ℕ) → held k done.new.items ≡ held k done.old.items + same k worker.entry.desk.duty.number }
    ensures room { vec_capacity done.new ≡ vec_capacity done.old }
{
    done.push_reserved(worker);
}

// Drives the caller's workers to their end.
fn drive_mine<N: Plan, R: Wait, G: Gate>(
    rt: &R,
    shared: &Shared<N>,
    frame: &mut [u64],
    mine: &mut Vec<Worker<N>>,
    stint: &Stint<G>,
)
    requires cycles { stint.now.cycles ≡ N.script.cycles }
    requires numbers { stint.now.first + stint.now.cycles < 2 ^ 64 }
    requires frame { length frame.old ≡ shared.now.room }
    requires mine { Each (Fresh shared.now) mine.old.items }
    ensures mine { Each (Done shared.now) mine.new.items }
    ensures len { vec_len mine.new ≡ vec_len mine.old }
    ensures numbers { (k : ℕ) → held k mine.new.items ≡ held k mine.old.items }
    ensures room { vec_capacity mine.new ≡ vec_capacity mine.old }
    ensures frame { length frame.new ≡ length frame.old }
{
    let workers = mine.as_mut_slice();
    drive(
        rt,
        shared.table,
        workers,
        frame,
        stint.first,
        stint.cycles,
        stint.gate,
    );
}

// Drives the caller's workers and puts them with those that are done.
pub(crate) fn settle<'a, N: Plan, R: Wait, G: Gate>(
    rt: &R,
    shared: &Shared<N>,
    frame: &mut [u64],
    roster: &mut Roster<'a, N>,
    stint: &Stint<G>,
)
    requires cycles { stint.now.cycles ≡ N.script.cycles }
    requires numbers { stint.now.first + stint.now.cycles < 2 ^ 64 }
    requires frame { length frame.old ≡ shared.now.room }
    requires room { vec_len roster.old.mine + vec_len roster.old.done ≤ vec_capacity roster.old.done }
    requires mine { Each (Fresh shared.now) roster.old.mine.items }
    requires done { Each (Done shared.now) roster.old.done.items }
    ensures empty { vec_len roster.new.mine ≡ 0 }
    ensures done { Each (Done shared.now) roster.new.done.items }
    ensures len { vec_len roster.new.done ≡ vec_len roster.old.done + vec_len roster.old.mine }
    ensures numbers { (k : ℕ) → held k roster.new.done.items ≡ held k roster.old.done.items + held k roster.old.mine.items }
    ensures room { (vec_capacity roster.new.done ≡ vec_capacity roster.old.done) × (vec_capacity roster.new.mine ≡ vec_capacity roster.old.mine) }
    ensures frame { length frame.new ≡ length frame.old }
{
    drive_mine(rt, shared, frame, &mut roster.mine, stint);
    while let Some(worker) = next_done(shared, &mut roster.mine) {
        keep_done(shared, worker, &mut roster.done);
    }
}

fn join_one<'a, N: Plan, R: Threads>(
    rt: &R,
    shared: &Shared<N>,
    handle: PromisedHandle<Worker<'a, N>, Lent<'a, N>>,
) -> Worker<'a, N>
    requires table { handle.promise.table.value ≡ shared.now.table.now }
    requires duty { IsDuty (task_of shared.now) handle.promise.duty.value }
    ensures answer { Answered shared.now.table.now result.desk.duty result }
    ensures duty { IsDuty (task_of shared.now) result.desk.duty }
    ensures number { result.desk.duty.number ≡ handle.entry.promise.duty.value.number }
{
    handle.join(rt)
}

fn next_handle<'a, N: Plan>(
    shared: &Shared<N>,
    started: &mut Vec<PromisedHandle<Worker<'a, N>, Lent<'a, N>>>,
) -> Option<PromisedHandle<Worker<'a, N>, Lent<'a, N>>>
    requires { Promised shared.now started.old.items }
    ensures rest { Promised shared.now started.new.items }
    ensures last { MatchOption result (vec_len started.new ≡ 0) (λ h. (h.promise.table.value ≡ shared.now.table.now) × IsDuty (task_of shared.now) h.promise.duty.value) }
    ensures len { MatchOption result (vec_len started.old ≡ 0) (λ h. vec_len started.old ≡ vec_len started.new + 1) }
    ensures numbers { IfSome result (λ h. (k : ℕ) → lent k started.old.items ≡ lent k started.new.items + same k h.promise.duty.value.number) }
{
    started.pop()
}

// Joins the threads.
pub(crate) fn join_all<'a, N: Plan, R: Threads>(
    rt: &R,
    shared: &Shared<N>,
    mut started: Vec<PromisedHandle<Worker<'a, N>, Lent<'a, N>>>,
    roster: &mut Roster<'a, N>,
)
    requires room { (vec_len started + vec_len roster.old.mine + vec_len roster.old.done ≤ vec_capacity roster.old.mine) × (vec_len started + vec_len roster.old.mine + vec_len roster.old.done ≤ vec_capacity roster.old.done) }
    requires started { Promised shared.now started.items }
    requires mine { Each (Fresh shared.now) roster.old.mine.items }
    requires done { Each (Done shared.now) roster.old.done.items }
    ensures mine { Each (Fresh shared.now) roster.new.mine.items }
    ensures done { Each (Done shared.now) roster.new.done.items }
    ensures len { vec_len roster.new.mine + vec_len roster.new.done ≡ vec_len roster.old.mine + vec_len roster.old.done + vec_len started.entry }
    ensures numbers { (k : ℕ) → held k roster.new.mine.items + held k roster.new.done.items ≡ held k roster.old.mine.items + held k roster.old.done.items + lent k started.entry.items }
    ensures room { (vec_capacity roster.new.mine ≡ vec_capacity roster.old.mine) × (vec_capacity roster.new.done ≡ vec_capacity roster.old.done) }
{
    while let Some(handle) = next_handle(shared, &mut started) {
        let answer = join_one(rt, shared, handle);
        take_answer(shared, answer, roster);
    }
}

// Puts each worker at the place of its number.
fn place<'a, N: Plan>(
    shared: &Shared<N>,
    worker: Worker<'a, N>,
    places: &mut Vec<Option<Worker<'a, N>>>,
)
    requires worker { Done shared.now worker }
    requires many { vec_len places.old ≡ length shared.now.codes.now }
    requires places { Places shared.now places.old.items }
    ensures places { Places shared.now places.new.items }
    ensures many { vec_len places.new ≡ vec_len places.old }
    ensures kept { (k : ℕ) → there (slice_index_or places.old.items k None) ≤ there (slice_index_or places.new.items k None) }
    ensures filled { (k : ℕ) → same k worker.entry.desk.duty.number ≤ there (slice_index_or places.new.items k None) }
{
    let number = worker.duty().number as usize;
    places[number] = Some(worker);
}

// Puts all workers at their places, which fills them.
pub(crate) fn place_all<'a, N: Plan>(
    shared: &Shared<N>,
    mut done: Vec<Worker<'a, N>>,
    mut places: Vec<Option<Worker<'a, N>>>,
) -> Vec<Option<Worker<'a, N>>>
    requires done { Each (Done shared.now) done.items }
    requires manned { Manned (length shared.now.codes.now) done.items }
    requires many { vec_len places ≡ length shared.now.codes.now }
    requires places { Places shared.now places.items }
    ensures places { Places shared.now result.items }
    ensures many { vec_len result ≡ length shared.now.codes.now }
    ensures full { AllThere result.items }
{
    while let Some(worker) = next_done(shared, &mut done) {
        place(shared, worker, &mut places);
    }
    places
}

// What a worker leaves.
fn take_parts<'a, N: Plan>(
    shared: &Shared<N>,
    number: usize,
    place: Option<Worker<'a, N>>,
) -> (Post<N>, Rows)
    requires number { number < length shared.now.codes.now }
    requires place { PlaceOk shared.now number place }
    requires filled { there place ≡ 1 }
    ensures table { ComesFrom result.0 shared.now.table.now }
    ensures view { result.0.view ≡ view number (number + 1) (2 * N.script.cycles) (2 * N.script.cycles) 0 }
    ensures outputs { (d : Cod) → Recorded N.script (slice_index_or shared.now.codes.now number d) shared.now.rows.now result.1 }
    ensures many { length result.1 ≡ N.script.cycles }
{
    let Some(worker) = place else {
        unreachable!();
    };
    worker.into_parts()
}

// Keeps the outputs of the worker `number`, where those of the workers above are kept.
fn put_part<N: Plan>(shared: &Shared<N>, parts: &mut Vec<Rows>, number: usize, part: Rows)
    requires number { number < length shared.now.codes.now }
    requires all { vec_len parts.old ≡ length shared.now.codes.now }
    requires above { Parts N.script (task_of shared.now) parts.old.items (number + 1) }
    requires here { (d : Cod) → Recorded N.script (slice_index_or shared.now.codes.now number d) shared.now.rows.now part }
    requires many { length part ≡ N.script.cycles }
    ensures above { Parts N.script (task_of shared.now) parts.new.items number }
    ensures all { vec_len parts.new ≡ vec_len parts.old }
{
    // Only the contract speaks of the codes and of the rows.
    let _ = shared;
    parts[number] = part;
}

// Unites the post of the worker `number` with that of the workers above, and keeps its outputs.
fn unite_next<'a, N: Plan>(
    shared: &Shared<N>,
    number: usize,
    place: Option<Worker<'a, N>>,
    upper: Option<Post<N>>,
    parts: &mut Vec<Rows>,
) -> Post<N>
    requires number { number < length shared.now.codes.now }
    requires all { vec_len parts.old ≡ length shared.now.codes.now }
    requires place { PlaceOk shared.now number place }
    requires filled { there place ≡ 1 }
    requires upper { MatchOption upper (number + 1 ≡ length shared.now.codes.now) (λ u. ComesFrom u shared.now.table.now × (u.view ≡ view (number + 1) (length shared.now.codes.now) (2 * N.script.cycles) (2 * N.script.cycles) 0)) }
    requires above { Parts N.script (task_of shared.now) parts.old.items (number + 1) }
    ensures all { vec_len parts.new ≡ vec_len parts.old }
    ensures table { ComesFrom result shared.now.table.now }
    ensures view { result.view ≡ view number (length shared.now.codes.now) (2 * N.script.cycles) (2 * N.script.cycles) 0 }
    ensures parts { Parts N.script (task_of shared.now) parts.new.items number }
{
    let (mut post, part) = take_parts(shared, number, place);
    put_part(shared, parts, number, part);
    if let Some(upper) = upper {
        post.unite(shared.table, upper);
    }
    post
}

// Unites the posts from the last on, and keeps the outputs.
pub(crate) fn unite_all<'a, N: Plan>(
    shared: &Shared<N>,
    mut places: Vec<Option<Worker<'a, N>>>,
    parts: &mut Vec<Rows>,
) -> Post<N>
    requires some { 1 ≤ length shared.now.codes.now }
    requires full { AllThere places.items }
    requires all { (vec_len places ≡ length shared.now.codes.now) × (vec_len parts.old ≡ length shared.now.codes.now) }
    requires places { Places shared.now places.items }
    ensures all { vec_len parts.new ≡ length shared.now.codes.now }
    ensures table { ComesFrom result shared.now.table.now }
    ensures view { result.view ≡ view 0 (length shared.now.codes.now) (2 * N.script.cycles) (2 * N.script.cycles) 0 }
    ensures parts { Parts N.script (task_of shared.now) parts.new.items 0 }
{
    let mut upper = None;
    while let Some(place) = places.pop() {
        let number = places.len();
        let post = unite_next(shared, number, place, upper, parts);
        upper = Some(post);
    }
    let Some(post) = upper else {
        unreachable!();
    };
    post
}
