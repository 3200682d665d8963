//! The whole epoch.

ghost use Rattle.std.specs.Prelude.{◌≡◌, ℕ, ◌+◌, ◌*◌, ◌^◌, ◌<◌, ◌≤◌, length, slice_index_or, vec_len, vec_capacity, IfOk};
ghost use Rattle.flat_code.specs.declared.code.Code.{Code as Cod};
ghost use Rattle.phase_core.specs.Script.{values};
ghost use Rattle.phase_core.specs.Sound.{view};
ghost use Rattle.register_table.specs.Shown.{ComesFrom, closed_script};
ghost use Rattle.worker_crew.specs.Crew.{task_of, Fresh, Done, Places, Parts};
ghost use Rattle.crew_workers.specs.Turns.{Serves};
ghost use Rattle.worker_crew.specs.Frames.{Frames};
ghost use Rattle.worker_crew.specs.Numbers.{Manned};
ghost use Rattle.worker_crew.specs.Joins.{AreInTurn};
ghost use Rattle.crew_workers.specs.Scripts.{script_of, Runs, Outputs};
ghost use Rattle.crew_workers.specs.Standing.{Each};

use crate::collect::{place_all, unite_all};
use crate::crew::{Orders, Shared};
use crate::crowd::{Hired, Job, Rooms, Roster, run_in};
use crate::hire::hire_all;
use crate::limit::ThreadLimit;
use crate::rows::{are_in_turn, join_rows};
use bit_words::{List, Rows};
use crew_workers::{Gate, Stint, Worker, longest_frame, most_published, row_width};
use flat_code::Code;
use register_table::{Closed, Plan, Post, RegisterTable};
use std::alloc::{AllocError, Global};
use std::marker::Brand;
use std::sync::Wait;
use std::sync::atomic::AtomicU64;
use std::thread;
use std::thread::Threads;

/// What an epoch leaves.
#[derive(Drop)]
pub struct Epoch {
    /// The words behind the last cycle.
    pub words: List<u64>,
    /// The outputs of all codes, one row per cycle, each at its position in the watch list.
    pub outputs: Rows,
    /// The table that was closed.
    pub closed: Closed,
}

/// What the workers of an epoch run on.
#[derive(Drop)]
pub struct Machine<'m, R, G> {
    /// What starts the threads, and waits.
    pub rt: &'m R,
    /// What each worker calls before an evaluation.
    pub gate: &'m G,
    /// The number that the gate is told of the first cycle.
    pub first: u64,
    /// A bound on the threads beside the caller's.
    pub limit: ThreadLimit,
}

fn start_words(alloc: Global, many: usize) -> Result<Vec<AtomicU64>, AllocError>
    ensures { IfOk result (λ v. vec_len v ≡ many) }
{
    let mut starts = Vec::new(alloc);
    for _ in 0..many {
        starts.push(AtomicU64::new(0))?;
    }
    Ok(starts)
}

fn new_frames(alloc: Global, many: usize, room: usize) -> Result<Vec<Vec<u64>>, AllocError>
    ensures many { IfOk result (λ v. vec_len v ≡ many) }
    ensures room { IfOk result (λ v. Frames room v.items) }
{
    let mut frames = Vec::with_capacity(alloc, many)?;
    for _ in 0..many {
        let frame = Vec::from_elem(alloc, 0u64, room)?;
        frames.push(frame)?;
    }
    Ok(frames)
}

fn empty_places<'a, N: Plan>(
    alloc: Global,
    shared: &Shared<N>,
) -> Result<Vec<Option<Worker<'a, N>>>, AllocError>
    ensures many { IfOk result (λ v. vec_len v ≡ length shared.now.codes.now) }
    ensures places { IfOk result (λ v. Places shared.now v.items) }
{
    let mut places = Vec::new(alloc);
    for _ in 0..shared.codes.len() {
        places.push(None)?;
    }
    Ok(places)
}

fn empty_parts(alloc: Global, many: usize) -> Result<Vec<Rows>, AllocError>
    ensures { IfOk result (λ v. vec_len v ≡ many) }
{
    let mut parts = Vec::new(alloc);
    for _ in 0..many {
        parts.push(List::new(alloc))?;
    }
    Ok(parts)
}

// The codes' frames all have the length of the longest.
fn frame_room(codes: &[Code]) -> usize
    ensures { Serves codes.now result }
{
    longest_frame(codes)
}

// The rows of an epoch of one code whose positions are 0, 1, 2 and so on: its own.
fn own_rows<N: Plan>(shared: &Shared<N>, words: &[u64], mut parts: Vec<Rows>) -> Rows
    requires script { N.script ≡ script_of shared.now.codes.now words.now shared.now.rows.now }
    requires one { length shared.now.codes.now ≡ 1 }
    requires in_turn { (d : Cod) → AreInTurn (slice_index_or shared.now.codes.now 0 d).positions }
    requires all { vec_len parts ≡ length shared.now.codes.now }
    requires parts { Parts N.script (task_of shared.now) parts.items 0 }
    ensures { Outputs (script_of shared.now.codes.now words.now shared.now.rows.now) shared.now.codes.now shared.now.rows.now result (length shared.now.rows.now) }
{
    // Only the contract speaks of the codes and of the words.
    let _ = shared;
    let _ = words;
    let Some(rows) = parts.pop() else {
        unreachable!();
    };
    rows
}

// The rows of an epoch, joined cycle by cycle.
fn joined_rows<N: Plan>(
    alloc: Global,
    shared: &Shared<N>,
    words: &[u64],
    parts: &mut [Rows],
) -> Result<Rows, AllocError>
    requires script { N.script ≡ script_of shared.now.codes.now words.now shared.now.rows.now }
    requires runs { Runs shared.now.codes.now words.now shared.now.rows.now }
    requires all { length parts.old ≡ length shared.now.codes.now }
    requires parts { Parts N.script (task_of shared.now) parts.old 0 }
    ensures { IfOk result (λ rows. Outputs (script_of shared.now.codes.now words.now shared.now.rows.now) shared.now.codes.now shared.now.rows.now rows (length shared.now.rows.now)) }
{
    let width = row_width(shared.codes, words, shared.rows);
    let rows = join_rows(alloc, shared.codes, parts, shared.rows.len(), width)?;
    Ok(rows)
}

// The rows of the epoch. No two values of one output are held at a time but those of one cycle.
fn output_rows<N: Plan>(
    alloc: Global,
    shared: &Shared<N>,
    words: &[u64],
    mut parts: Vec<Rows>,
) -> Result<Rows, AllocError>
    requires script { N.script ≡ script_of shared.now.codes.now words.now shared.now.rows.now }
    requires runs { Runs shared.now.codes.now words.now shared.now.rows.now }
    requires all { vec_len parts ≡ length shared.now.codes.now }
    requires parts { Parts N.script (task_of shared.now) parts.items 0 }
    ensures { IfOk result (λ rows. Outputs (script_of shared.now.codes.now words.now shared.now.rows.now) shared.now.codes.now shared.now.rows.now rows (length shared.now.rows.now)) }
{
    let codes = shared.codes;
    if codes.len() == 1 {
        let code = &codes[0];
        if are_in_turn(code.positions()) {
            return Ok(own_rows(shared, words, parts));
        }
    }
    joined_rows(alloc, shared, words, parts.as_mut_slice())
}

// The workers of all codes, with the memory that they need.
fn hire_crew<'a, N: Plan>(
    alloc: Global,
    shared: &Shared<'_, 'a, N>,
    words: &[u64],
    post: Post<N>,
) -> Result<Hired<'a, N>, AllocError>
    requires script { N.script ≡ script_of shared.now.codes.now words.now shared.now.rows.now }
    requires runs { Runs shared.now.codes.now words.now shared.now.rows.now }
    requires few { length shared.now.codes.now ≤ 64 }
    requires serves { Serves shared.now.codes.now shared.now.room }
    requires table { ComesFrom post shared.now.table.now }
    requires view { post.view ≡ view 0 (length shared.now.codes.now) 0 0 0 }
    ensures many { IfOk result (λ h. vec_len h.workers ≡ length shared.now.codes.now) }
    ensures fresh { IfOk result (λ h. Each (Fresh shared.now) h.workers.items) }
    ensures manned { IfOk result (λ h. Manned (length shared.now.codes.now) h.workers.items) }
    ensures frames { IfOk result (λ h. (vec_len h.workers ≤ vec_len h.frames) × Frames shared.now.room h.frames.items) }
    ensures frame { IfOk result (λ h. vec_len h.frame ≡ shared.now.room) }
    ensures empty { IfOk result (λ h. (vec_len h.rooms.started ≡ 0) × (vec_len h.rooms.roster.mine ≡ 0) × (vec_len h.rooms.roster.done ≡ 0)) }
    ensures room { IfOk result (λ h. (vec_len h.workers ≤ vec_capacity h.rooms.started) × (vec_len h.workers ≤ vec_capacity h.rooms.roster.mine) × (vec_len h.workers ≤ vec_capacity h.rooms.roster.done)) }
{
    let many = shared.codes.len();
    let workers = hire_all(alloc, shared, words, post)?;
    let frames = new_frames(alloc, many, shared.room)?;
    let frame = Vec::from_elem(alloc, 0u64, shared.room)?;
    let roster = Roster {
        mine: Vec::with_capacity(alloc, many)?,
        done: Vec::with_capacity(alloc, many)?,
    };
    let rooms = Rooms {
        started: Vec::with_capacity(alloc, many)?,
        roster,
    };
    Ok(Hired {
        workers,
        frames,
        frame,
        rooms,
    })
}

fn in_threads<'t, 'a, N: Plan + Send + Sync, R: Threads + Wait + Sync, G: Gate + Sync>(
    rt: &R,
    job: Job<'t, 'a, N, R, G>,
) -> Vec<Worker<'a, N>>
    requires cycles { job.orders.now.stint.cycles ≡ N.script.cycles }
    requires numbers { job.orders.now.stint.first + job.orders.now.stint.cycles < 2 ^ 64 }
    requires frames { (vec_len job.hired.workers ≤ vec_len job.hired.frames) × Frames job.orders.now.shared.now.room job.hired.frames.items }
    requires frame { vec_len job.hired.frame ≡ job.orders.now.shared.now.room }
    requires starts { vec_len job.hired.workers ≤ length job.orders.now.starts.now }
    requires empty { (vec_len job.hired.rooms.started ≡ 0) × (vec_len job.hired.rooms.roster.mine ≡ 0) × (vec_len job.hired.rooms.roster.done ≡ 0) }
    requires room { (vec_len job.hired.workers ≤ vec_capacity job.hired.rooms.started) × (vec_len job.hired.workers ≤ vec_capacity job.hired.rooms.roster.mine) × (vec_len job.hired.workers ≤ vec_capacity job.hired.rooms.roster.done) }
    requires fresh { Each (Fresh job.orders.now.shared.now) job.hired.workers.items }
    requires manned { Manned (length job.orders.now.shared.now.codes.now) job.hired.workers.items }
    ensures done { Each (Done job.entry.orders.now.shared.now) result.items }
    ensures manned { Manned (length job.entry.orders.now.shared.now.codes.now) result.items }
{
    thread::scope(
        thread::scope_env(),
        rt,
        move |scope|
            requires cycles { job.orders.now.stint.cycles ≡ N.script.cycles }
            requires numbers { job.orders.now.stint.first + job.orders.now.stint.cycles < 2 ^ 64 }
            requires frames { (vec_len job.hired.workers ≤ vec_len job.hired.frames) × Frames job.orders.now.shared.now.room job.hired.frames.items }
            requires frame { vec_len job.hired.frame ≡ job.orders.now.shared.now.room }
            requires starts { vec_len job.hired.workers ≤ length job.orders.now.starts.now }
            requires empty { (vec_len job.hired.rooms.started ≡ 0) × (vec_len job.hired.rooms.roster.mine ≡ 0) × (vec_len job.hired.rooms.roster.done ≡ 0) }
            requires room { (vec_len job.hired.workers ≤ vec_capacity job.hired.rooms.started) × (vec_len job.hired.workers ≤ vec_capacity job.hired.rooms.roster.mine) × (vec_len job.hired.workers ≤ vec_capacity job.hired.rooms.roster.done) }
            requires fresh { Each (Fresh job.orders.now.shared.now) job.hired.workers.items }
            requires manned { Manned (length job.orders.now.shared.now.codes.now) job.hired.workers.items }
            ensures done { Each (Done job.entry.orders.now.shared.now) result.items }
            ensures manned { Manned (length job.entry.orders.now.shared.now.codes.now) result.items }
        { run_in(scope, job) },
    )
}

// What the threads of an epoch go by, over all of its rows.
fn orders_of<'t, 'a, N: Plan, R, G>(
    machine: &'t Machine<'t, R, G>,
    shared: &'t Shared<'t, 'a, N>,
    starts: &'t [AtomicU64],
) -> Orders<'t, 'a, N, R, G>
    ensures shared { result.shared.now ≡ shared.now }
    ensures first { result.stint.first ≡ machine.now.first }
    ensures cycles { result.stint.cycles ≡ length shared.now.rows.now }
    ensures starts { result.starts.now ≡ starts.now }
{
    Orders {
        rt: machine.rt,
        shared,
        stint: Stint {
            first: machine.first,
            cycles: shared.rows.len() as u64,
            gate: machine.gate,
        },
        starts,
        most: machine.limit.most(),
    }
}

fn named_epoch<'a, N: Plan + Send + Sync, R: Threads + Wait + Sync, G: Gate + Sync>(
    alloc: Global,
    machine: &Machine<'_, R, G>,
    codes: &'a [Code],
    words: &[u64],
    rows: &'a Rows,
) -> Result<Epoch, AllocError>
    requires script { N.script ≡ script_of codes.now words.now rows.now }
    requires runs { Runs codes.now words.now rows.now }
    requires few { length codes.now ≤ 64 }
    requires numbers { machine.now.first + length rows.now < 2 ^ 64 }
    ensures words { IfOk result (λ e. e.words ≡ values (script_of codes.now words.now rows.now) (length rows.now)) }
    ensures outputs { IfOk result (λ e. Outputs (script_of codes.now words.now rows.now) codes.now rows.now e.outputs (length rows.now)) }
    ensures closed { IfOk result (λ e. closed_script e.closed ≡ script_of codes.now words.now rows.now) }
{
    let cycles = rows.len() as u64;
    let many = codes.len();
    let room = frame_room(codes);
    // That each code's publications are counted in a word, which a script asks.
    let _published = most_published(codes);
    let (table, post) = RegisterTable::<N>::open(alloc, many as u32, cycles, words)?;
    let shared = Shared {
        table: &table,
        codes,
        rows,
        room,
    };
    let hired = hire_crew(alloc, &shared, words, post)?;
    let places = empty_places(alloc, &shared)?;
    let mut parts = empty_parts(alloc, many)?;
    let mut last = Vec::from_elem(alloc, 0u64, words.len())?;
    let starts = start_words(alloc, many)?;
    let orders = orders_of(machine, &shared, starts.as_slice());
    let job = Job {
        orders: &orders,
        hired,
    };
    let done = in_threads(machine.rt, job);
    let places = place_all(&shared, done, places);
    let post = unite_all(&shared, places, &mut parts);
    let outputs = output_rows(alloc, &shared, words, parts)?;
    let closed = table.finish(post, last.as_mut_slice());
    Ok(Epoch {
        words: List::from_vec(last),
        outputs,
        closed,
    })
}

/// Runs the codes from these words on, one cycle per input row, each code in a worker of its own. The gate is told the
/// number of the cycle, from `first` on.
///
/// The codes are all codes of one cut, the words are as many as its net has, and the rows match its inputs. A worker whose
/// thread is refused is driven by the caller, beside its own.
pub fn run_epoch<R: Threads + Wait + Sync, G: Gate + Sync>(
    rt: &R,
    alloc: Global,
    codes: &List<Code>,
    words: &List<u64>,
    rows: &Rows,
    first: u64,
    gate: &G,
) -> Result<Epoch, AllocError>
    requires runs { Runs codes.now words.now rows.now }
    requires numbers { first + length rows.now < 2 ^ 64 }
    ensures words { IfOk result (λ e. e.words ≡ values (script_of codes.now words.now rows.now) (length rows.now)) }
    ensures outputs { IfOk result (λ e. Outputs (script_of codes.now words.now rows.now) codes.now rows.now e.outputs (length rows.now)) }
    ensures closed { IfOk result (λ e. closed_script e.closed ≡ script_of codes.now words.now rows.now) }
{
    let machine = Machine {
        rt,
        gate,
        first,
        limit: ThreadLimit::none(),
    };
    run_epoch_within(alloc, &machine, codes, words, rows)
}

/// The same on a machine that may have a bound on its threads.
pub fn run_epoch_within<R: Threads + Wait + Sync, G: Gate + Sync>(
    alloc: Global,
    machine: &Machine<'_, R, G>,
    codes: &List<Code>,
    words: &List<u64>,
    rows: &Rows,
) -> Result<Epoch, AllocError>
    requires runs { Runs codes.now words.now rows.now }
    requires numbers { machine.now.first + length rows.now < 2 ^ 64 }
    ensures words { IfOk result (λ e. e.words ≡ values (script_of codes.now words.now rows.now) (length rows.now)) }
    ensures outputs { IfOk result (λ e. Outputs (script_of codes.now words.now rows.now) codes.now rows.now e.outputs (length rows.now)) }
    ensures closed { IfOk result (λ e. closed_script e.closed ≡ script_of codes.now words.now rows.now) }
{
    named_epoch::<Brand, R, G>(alloc, machine, codes.as_slice(), words.as_slice(), rows)
}
