//! The calls of a table and of its posts, each but `pass` one atomic step.

ghost use Rattle.std.specs.Prelude.{◌≡◌, ℕ, ◌+◌, ◌*◌, ◌/◌, ◌%◌, ◌<◌, ◌≤◌, [], ◌∷◌, length, slice_index, IfOk};
ghost use mathlib.Core.Option.{some};
ghost use lib.ListN.{get_elem?};
ghost use Rattle.std.specs.Mem.Slots.{slots_items, slots_len, IsFull};
ghost use Rattle.phase_core.specs.Script.{values, publications, IsScript};
ghost use Rattle.phase_core.specs.Sound.{part_of};
ghost use Rattle.phase_core.specs.Steps.{left_part, right_part, after_pass, after_arrival, after_publication, both};
ghost use Rattle.register_table.specs.Shown.{ComesFrom, word_count, closed_script, closed_words};
ghost use Rattle.register_table.specs.Rule.{seated, begin_view};

use crate::plan::Plan;
use crate::plays::{Arrive, Cut, Held, Load, Look, Place, Publish, Unite};
use crate::table::{Closed, Post, RegisterTable, Size};
use atomic_table::{Seat, Table};
use phase_core::View;
use std::alloc::{AllocError, Global};
use std::marker::{Brand, PhantomData};
use std::snapshot::Snapshot;
use std::sync::Wait;
use std::thread;

// How often `pass` loads the barrier before it yields to the scheduler between two loads.
const LOADS_BEFORE_A_YIELD: u32 = 64;

// The words of a new table: the barrier at 0, and the first words.
fn new_words(alloc: Global, first: &[u64]) -> Result<Vec<u64>, AllocError>
    ensures { IfOk result (λ v. v.items ≡ 0 ∷ first.now) }
{
    let mut words = Vec::new(alloc);
    words.push(0)?;
    words.extend_from_slice(first)?;
    Ok(words)
}

impl<N: Plan> RegisterTable<N> {
    /// A table in its first state, the barrier at 0 and the words as given, and a post for all workers.
    ///
    /// The numbers and the words are those of the table's script.
    pub fn open(
        alloc: Global,
        workers: u32,
        cycles: u64,
        first: &[u64],
    ) -> Result<(RegisterTable<N>, Post<N>), AllocError>
        requires script { IsScript N.script }
        requires numbers { (workers ≡ N.script.workers) × (cycles ≡ N.script.cycles) }
        requires words { first.now ≡ N.script.first }
        ensures table { IfOk result (λ r. ComesFrom r.1 r.0) }
        ensures view { IfOk result (λ r. r.1.view ≡ begin_view N.script) }
        ensures words { IfOk result (λ r. word_count r.0 ≡ length first.now) }
    {
        // Only the contract speaks of the number of cycles.
        let _ = cycles;
        let words = new_words(alloc, first)?;
        let (table, seat) = Table::of_words(alloc, words.as_slice(), &())?;
        let size = Size {
            workers,
            words: first.len(),
            of: PhantomData,
        };
        let post = Post {
            seat,
            view: View {
                low: 0,
                high: workers,
                arrivals: 0,
                passed: 0,
                done: 0,
            },
            of: PhantomData,
        };
        Ok((RegisterTable { table, size }, post))
    }
}

// Cuts the seat's view at `at`, which the caller picks.
fn cut<B: Place, N: Plan>(
    table: &RegisterTable<N>,
    seat: &mut Seat<(), Held>,
    view: View,
    at: u32,
) -> Seat<(), Held>
    requires place { at ≡ B.at }
    requires table { seat.old.table_id ≡ table.now.table.shared.table_id }
    requires view { seat.old.me ≡ (seated view N.script, []) }
    requires fresh { view.arrivals ≡ 0 }
    requires inside { (view.low < at) × (at < view.high) }
    ensures table { (seat.new.table_id ≡ seat.old.table_id) × (result.table_id ≡ seat.old.table_id) }
    ensures left { seat.new.me ≡ (seated (left_part view at) N.script, []) }
    ensures right { result.me ≡ (seated (right_part view at) N.script, []) }
{
    table.table.shared.split_seat::<Cut<B>>(seat)
}

// Loads the barrier until the view may pass.
fn wait_for<N: Plan, R: Wait>(
    rt: &R,
    table: &RegisterTable<N>,
    seat: &mut Seat<(), Held>,
    view: View,
)
    requires table { seat.old.table_id ≡ table.now.table.shared.table_id }
    requires view { seat.old.me ≡ (seated view N.script, []) }
    requires arrived { view.arrivals ≡ view.passed + 1 }
    ensures table { seat.new.table_id ≡ seat.old.table_id }
    ensures view { seat.new.me ≡ (seated (after_pass view) N.script, []) }
{
    let enough = table.size.workers as u128 * view.arrivals as u128;
    let mut left = LOADS_BEFORE_A_YIELD;
    for _ in rt.forever() {
        let found = table.table.shared.load::<Look<N>>(seat, 0);
        if enough <= found as u128 {
            break;
        }
        if left == 0 {
            thread::yield_now();
        } else {
            left -= 1;
        }
    }
}

impl<N: Plan> Post<N> {
    /// Cuts a post that never arrived: it keeps the workers below `at`, and the new post has the rest.
    pub fn share(&mut self, table: &RegisterTable<N>, at: u32) -> Post<N>
        requires table { ComesFrom self.old table.now }
        requires fresh { self.old.view.arrivals ≡ 0 }
        requires inside { (self.old.view.low < at) × (at < self.old.view.high) }
        ensures table { ComesFrom self.new table.now × ComesFrom result table.now }
        ensures left { self.new.view ≡ left_part self.old.view at }
        ensures right { result.view ≡ right_part self.old.view at }
    {
        let held = self.view;
        let seat = cut::<Brand, N>(table, &mut self.seat, held, at);
        self.view.high = at;
        Post {
            seat,
            view: View {
                low: at,
                high: held.high,
                arrivals: 0,
                passed: 0,
                done: 0,
            },
            of: PhantomData,
        }
    }

    /// The word at the beginning of the cycle `passed / 2`, in an even phase in which the post has not arrived yet.
    pub fn read(&mut self, table: &RegisterTable<N>, word: u32) -> u64
        requires table { ComesFrom self.old table.now }
        requires rest { self.old.view.arrivals ≡ self.old.view.passed }
        requires even { self.old.view.passed % 2 ≡ 0 }
        requires word { word < word_count table.now }
        ensures value { result ≡ slice_index (values N.script (self.old.view.passed / 2)) word }
        ensures table { ComesFrom self.new table.now }
        ensures view { self.new.view ≡ self.old.view }
    {
        table
            .table
            .shared
            .load::<Load<N>>(&mut self.seat, word as usize + 1)
    }

    /// Stores the script's next publication of the post's one worker, in an odd phase in which it has not arrived yet.
    pub fn publish(&mut self, table: &RegisterTable<N>, word: u32, value: u64)
        requires table { ComesFrom self.old table.now }
        requires one { self.old.view.high ≡ self.old.view.low + 1 }
        requires rest { self.old.view.arrivals ≡ self.old.view.passed }
        requires odd { self.old.view.passed % 2 ≡ 1 }
        requires next { get_elem? (part_of N.script self.old.view) self.old.view.done ≡ some (record { word = word; value = value }) }
        ensures table { ComesFrom self.new table.now }
        ensures view { self.new.view ≡ after_publication self.old.view }
    {
        table
            .table
            .shared
            .store::<Publish>(&mut self.seat, word as usize + 1, value);
        self.view.done += 1;
    }

    /// Ends the phase of the post's one worker, an odd phase once all is published.
    pub fn arrive(&mut self, table: &RegisterTable<N>)
        requires table { ComesFrom self.old table.now }
        requires one { self.old.view.high ≡ self.old.view.low + 1 }
        requires rest { self.old.view.arrivals ≡ self.old.view.passed }
        requires before { self.old.view.passed < 2 * N.script.cycles }
        requires all { self.old.view.passed % 2 ≡ 1 → self.old.view.done ≡ length (part_of N.script self.old.view) }
        ensures table { ComesFrom self.new table.now }
        ensures view { self.new.view ≡ after_arrival self.old.view }
    {
        table.table.shared.fetch_add::<Arrive>(&mut self.seat, 0, 1);
        self.view.arrivals += 1;
    }

    /// Waits until all workers have arrived as often as this post, and enters the next phase.
    ///
    /// It loads the barrier again and again, and after some loads yields to the scheduler before each further one.
    pub fn pass<R: Wait>(&mut self, rt: &R, table: &RegisterTable<N>)
        requires table { ComesFrom self.old table.now }
        requires arrived { self.old.view.arrivals ≡ self.old.view.passed + 1 }
        ensures table { ComesFrom self.new table.now }
        ensures view { self.new.view ≡ after_pass self.old.view }
    {
        wait_for(rt, table, &mut self.seat, self.view);
        self.view.passed = self.view.arrivals;
        self.view.done = 0;
    }

    /// Takes the workers of another post, which begins where this one ends. Both have passed the last phase.
    pub fn unite(&mut self, table: &RegisterTable<N>, other: Post<N>)
        requires table { ComesFrom self.old table.now × ComesFrom other table.now }
        requires last { (self.old.view.arrivals ≡ 2 * N.script.cycles) × (self.old.view.passed ≡ 2 * N.script.cycles) }
        requires other_last { (other.view.arrivals ≡ 2 * N.script.cycles) × (other.view.passed ≡ 2 * N.script.cycles) }
        requires beside { self.old.view.high ≡ other.view.low }
        ensures table { ComesFrom self.new table.now }
        ensures view { self.new.view ≡ both self.old.view other.view }
    {
        let Post {
            seat,
            view: theirs,
            of: _,
        } = other;
        table
            .table
            .shared
            .join_seat::<Unite<N>>(&mut self.seat, seat);
        self.view.high = theirs.high;
    }
}

// The words behind the barrier.
fn copy_words(closed: &atomic_table::Closed<(), Global>, into: &mut [u64])
    requires full { IsFull closed.now.words }
    requires room { length into.old + 1 ≡ slots_len closed.now.words }
    ensures { (i : ℕ) → i < length into.old → slice_index into.new i ≡ slice_index (slots_items closed.now.words) (i + 1) }
{
    for i in 0..into.len() {
        into[i] = closed.word(i + 1);
    }
}

impl<N: Plan> RegisterTable<N> {
    /// Closes the table with a post of all workers that has passed the last phase, and writes the words behind the last
    /// cycle into `into`, which has as many.
    pub fn finish(self, post: Post<N>, into: &mut [u64]) -> Closed
        requires table { ComesFrom post self }
        requires all { (post.view.low ≡ 0) × (post.view.high ≡ N.script.workers) }
        requires last { post.view.passed ≡ 2 * N.script.cycles }
        requires room { length into.old ≡ word_count self }
        ensures words { into.new ≡ values N.script N.script.cycles }
        ensures script { closed_script result ≡ N.script }
        ensures closed { closed_words result ≡ into.new }
    {
        let RegisterTable { table, size: _ } = self;
        let Post {
            seat,
            view: _,
            of: _,
        } = post;
        let last = Snapshot::of(&seat);
        let closed = table.close_with(seat);
        let end = Snapshot::of(&closed);
        copy_words(&closed, into);
        closed.free();
        Closed { last, end }
    }
}
