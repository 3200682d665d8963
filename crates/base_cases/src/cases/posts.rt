//! Posts at a register table, on one thread and in threads.

ghost use Rattle.std.specs.Prelude.{◌≡◌, ◌+◌, ◌*◌, ◌<◌, ◌≤◌, length, slice_index, IfOk};
ghost use Rattle.phase_core.specs.Script.{IsScript, values, publications};
ghost use Rattle.register_table.specs.Shown.{Stands};

use super::telling::expect;
use bit_words::List;
use phase_core::{Publication, Script, is_script};
use register_table::{Plan, Post, RegisterTable};
use std::alloc::{AllocError, Global};
use std::marker::Brand;
use std::sync::Wait;
use std::test::Fail;
use std::thread;
use std::thread::Threads;

// A script in which the worker w owns the word w, and publishes what `rows[c]` has for it in cycle c.
fn script_of(alloc: Global, first: &[u64], rows: &[[&[u64]; 2]]) -> Result<Script, AllocError> {
    let mut rounds = List::new(alloc);
    for row in rows {
        let mut round = List::new(alloc);
        for (word, part) in (0u32..).zip(row) {
            let mut publications = List::new(alloc);
            for value in *part {
                publications.push(Publication {
                    word,
                    value: *value,
                })?;
            }
            round.push(publications)?;
        }
        rounds.push(round)?;
    }
    let mut owners = List::new(alloc);
    for (owner, _) in (0u32..).zip(first) {
        owners.push(owner)?;
    }
    Ok(Script {
        workers: 2,
        cycles: rows.len() as u64,
        first: List::from_slice(alloc, first)?,
        owners,
        rounds,
    })
}

fn part(script: &Script, cycle: u64, worker: u32) -> &[Publication]
    ensures { result.now ≡ publications script.now cycle worker }
{
    match script.rounds.get(cycle as usize) {
        Some(round) => match round.get(worker as usize) {
            Some(found) => found.as_slice(),
            None => &[],
        },
        None => &[],
    }
}

// Reads a word in the even phase of the cycle, and arrives.
fn evaluate<N: Plan>(
    post: &mut Post<N>,
    table: &RegisterTable<N>,
    worker: u32,
    cycle: u64,
    word: u32,
) -> u64
    requires at { Stands table.now post.old worker (worker + 1) (2 * cycle) (2 * cycle) 0 }
    requires cycle { cycle < N.script.cycles }
    requires word { word < length N.script.first }
    ensures at { Stands table.now post.new worker (worker + 1) (2 * cycle + 1) (2 * cycle) 0 }
    ensures value { result ≡ slice_index (values N.script cycle) word }
{
    let value = post.read(table, word);
    post.arrive(table);
    value
}

// Publishes the worker's part in the odd phase of the cycle, and arrives.
fn publish<N: Plan>(
    post: &mut Post<N>,
    table: &RegisterTable<N>,
    script: &Script,
    worker: u32,
    cycle: u64,
)
    requires script { N.script ≡ script.now }
    requires at { Stands table.now post.old worker (worker + 1) (2 * cycle + 1) (2 * cycle + 1) 0 }
    requires cycle { cycle < N.script.cycles }
    ensures at { Stands table.now post.new worker (worker + 1) (2 * cycle + 2) (2 * cycle + 1) (length (publications N.script cycle worker)) }
{
    for publication in part(script, cycle, worker) {
        post.publish(table, publication.word, publication.value);
    }
    post.arrive(table);
}

// Drives the worker's post through all cycles.
fn drive<N: Plan, R: Wait>(
    rt: &R,
    table: &RegisterTable<N>,
    script: &Script,
    mut post: Post<N>,
    worker: u32,
) -> Post<N>
    requires script { N.script ≡ script.now }
    requires word { worker < length N.script.first }
    requires at { Stands table.now post worker (worker + 1) 0 0 0 }
    ensures { Stands table.now result worker (worker + 1) (2 * N.script.cycles) (2 * N.script.cycles) 0 }
{
    for cycle in 0..script.cycles {
        evaluate(&mut post, table, worker, cycle, worker);
        post.pass(rt, table);
        publish(&mut post, table, script, worker, cycle);
        post.pass(rt, table);
    }
    post
}

// What the two posts read at the beginning, what the first reads at the end, and the last words.
#[derive(Drop)]
struct Seen {
    first: u64,
    second: u64,
    last: u64,
    words: [u64; 1],
}

// Two workers run one cycle on one thread, phase by phase.
fn run_by_hand<N: Plan, R: Wait>(rt: &R, alloc: Global, script: &Script) -> Result<Seen, AllocError>
    requires script { N.script ≡ script.now }
    requires shape { IsScript N.script }
    requires numbers { (N.script.workers ≡ 2) × (N.script.cycles ≡ 1) × (length N.script.first ≡ 1) }
{
    let (table, mut post) = RegisterTable::<N>::open(alloc, 2, 1, script.first.as_slice())?;
    let mut other = post.share(&table, 1);
    let first = evaluate(&mut post, &table, 0, 0, 0);
    let second = evaluate(&mut other, &table, 1, 0, 0);
    post.pass(rt, &table);
    other.pass(rt, &table);
    publish(&mut post, &table, script, 0, 0);
    publish(&mut other, &table, script, 1, 0);
    post.pass(rt, &table);
    other.pass(rt, &table);
    let last = post.read(&table, 0);
    post.unite(&table, other);
    let mut words = [0];
    table.finish(post, &mut words);
    Ok(Seen {
        first,
        second,
        last,
        words,
    })
}

#[test]
fn two_posts_on_one_thread(rt: HostRuntime) -> Result<(), Fail> {
    let script = script_of(rt.alloc(), &[5], &[[&[9], &[]]])?;
    assert!(rt; is_script(&script));
    assert!(rt; script.workers == 2 && script.cycles == 1 && script.first.len() == 1);
    let seen = run_by_hand::<Brand, _>(&rt, rt.alloc(), &script)?;
    let found = (seen.first, seen.second, seen.last, seen.words);
    expect(&rt, "two posts", found, (5, 5, 9, [9]));
    Ok(())
}

// What a thread drives.
#[derive(Drop)]
struct Job<'t, N: Plan, R> {
    rt: &'t R,
    table: &'t RegisterTable<N>,
    script: &'t Script,
    post: Post<N>,
    worker: u32,
}

impl<'t, N: Plan, R: Wait> Job<'t, N, R> {
    fn run(self) -> Post<N>
        requires script { N.script ≡ self.script.now }
        requires word { self.worker < length N.script.first }
        requires at { Stands self.table.now self.post self.worker (self.worker + 1) 0 0 0 }
        ensures { Stands self.entry.table.now result self.entry.worker (self.entry.worker + 1) (2 * N.script.cycles) (2 * N.script.cycles) 0 }
    {
        drive(self.rt, self.table, self.script, self.post, self.worker)
    }
}

// Two workers run all cycles, each in a thread of its own.
fn run_in_threads<N: Plan + Send + Sync, R: Threads + Wait + Sync>(
    rt: &R,
    alloc: Global,
    script: &Script,
) -> Result<[u64; 2], AllocError>
    requires script { N.script ≡ script.now }
    requires shape { IsScript N.script }
    requires numbers { (N.script.workers ≡ 2) × (length N.script.first ≡ 2) }
{
    let first = script.first.as_slice();
    let (table, mut post) = RegisterTable::<N>::open(alloc, 2, script.cycles, first)?;
    let other = post.share(&table, 1);
    let table_ref = &table;
    let one = Job {
        rt,
        table: table_ref,
        script,
        post,
        worker: 0,
    };
    let two = Job {
        rt,
        table: table_ref,
        script,
        post: other,
        worker: 1,
    };
    let (mut post, other) = thread::join(
        rt,
        move || -> Post<N>
            requires script { N.script ≡ one.script.now }
            requires word { one.worker < length N.script.first }
            requires at { Stands one.table.now one.post one.worker (one.worker + 1) 0 0 0 }
            ensures { Stands one.entry.table.now result one.entry.worker (one.entry.worker + 1) (2 * N.script.cycles) (2 * N.script.cycles) 0 }
        { one.run() },
        move || -> Post<N>
            requires script { N.script ≡ two.script.now }
            requires word { two.worker < length N.script.first }
            requires at { Stands two.table.now two.post two.worker (two.worker + 1) 0 0 0 }
            ensures { Stands two.entry.table.now result two.entry.worker (two.entry.worker + 1) (2 * N.script.cycles) (2 * N.script.cycles) 0 }
        { two.run() },
    );
    post.unite(&table, other);
    let mut words = [0, 0];
    table.finish(post, &mut words);
    Ok(words)
}

#[test]
fn two_posts_in_threads(rt: HostRuntime) -> Result<(), Fail> {
    let script = script_of(
        rt.alloc(),
        &[1, 2],
        &[[&[10], &[20, 21]], [&[30], &[]], [&[50], &[60]]],
    )?;
    assert!(rt; is_script(&script));
    assert!(rt; script.workers == 2 && script.first.len() == 2);
    let words = run_in_threads::<Brand, _>(&rt, rt.alloc(), &script)?;
    expect(&rt, "two threads", words, [50, 60]);
    Ok(())
}
