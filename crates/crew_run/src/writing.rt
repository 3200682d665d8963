//! A run that is written.

ghost use Rattle.std.specs.Prelude.{◌≡◌, ◌≢◌, ◌⊎◌, ℕ, ◌+◌, ◌^◌, ◌<◌, ◌≤◌, List as Listed, length, true, false, take, map, Err, IfOk, IfSome, OnOk, OnErr};
ghost use Rattle.bit_words.specs.declared.value.Value.{Value as OneValue};
ghost use Rattle.shelf_io.specs.Outside.{Appends, Rose};
ghost use Rattle.ground_net.specs.declared.net.Ordered.{Ordered as OneNet};
ghost use Rattle.ground_net.specs.declared.net.CutPart.{CutPart as OnePart};
ghost use Rattle.ground_net.specs.Cycles.{NetState};
ghost use Rattle.register_table.specs.Shown.{closed_script};
ghost use Rattle.circuit_run.specs.NetRuns.{inputs_from};
ghost use Rattle.circuit_run.specs.declared.fault.RunFault.TheVariants.{WriteFault};
ghost use Rattle.crew_run.specs.Runs.{IsRun};
ghost use Rattle.crew_run.specs.RunTexts.{IsRunText};
ghost use Rattle.crew_run.specs.Epochs.{Reaches, Advances, IsScriptFrom, AreEpochsFrom};
ghost use Rattle.crew_run.specs.Progress.{CanTell, Progress, Went};
ghost use Rattle.crew_run.specs.Lengths.{epoch_length};

use crate::feed::Feed;
use crate::plan::Host;
use crate::run::Run;
use bit_words::{List, Rows};
use circuit_run::RunFault;
use crew_workers::Gate;
use register_table::Closed;
use row_texts::{Spot, Teller, tell_rows};
use shelf_io::{Sink, put_all};
use std::alloc::{AllocError, Global};
use std::sync::Wait;
use std::thread::Threads;

/// An epoch has at most this many cycles, and at most this many values of watched leaves.
const MOST_CYCLES: u64 = 1024;

const MOST_VALUES: usize = 4_194_304;

/// What the inputs of a run are given, what its rows write, and how many cycles an epoch has at most, from 1 to 1,024.
#[derive(Drop)]
pub struct Course<'a, F, T> {
    pub feed: &'a F,
    pub teller: &'a T,
    pub most: u64,
}

/// What a run leaves whose rows were written.
#[derive(Drop)]
struct Ending {
    tables: List<Closed>,
    spot: Spot,
    ended: bool,
}

/// So many cycles from a first one on.
#[derive(Clone, Copy)]
struct Span {
    first: u64,
    count: u64,
}

/// How many cycles an epoch has at most where so many leaves are watched: as many as give at most 4,194,304 values, from 1 to 1,024.
pub fn epoch_of(watched: usize) -> u64
    ensures is { result ≡ epoch_length watched }
    ensures some { 1 ≤ result }
    ensures few { result ≤ 1024 }
{
    if watched == 0 {
        return MOST_CYCLES;
    }
    let most = (MOST_VALUES / watched) as u64;
    most.min(MOST_CYCLES).max(1)
}

/// Writes the text of a run: its head, the text of the row of each cycle, and its end. The run goes on from where it is, through all the
/// cycles of its feed, or up to the epoch of the first row that ends it. Answers the closed tables of the epochs, in order.
///
/// The feed's rows match the inputs of the run's net, and all values that settle in it can be told. An epoch's rows and texts are in
/// memory at once, and are written before the next epoch begins. A fault leaves a prefix of the text in the sink.
pub fn write_run<R: Threads + Wait + Sync, G: Gate + Sync, F: Feed, T: Teller, K: Sink>(
    alloc: Global,
    host: &Host<'_, R, G>,
    run: &mut Run<'_>,
    course: &Course<'_, F, T>,
    sink: &mut K,
) -> Result<List<Closed>, RunFault>
    requires asks { (ordered : OneNet) × (watched : Listed ℕ) × (parts : Listed OnePart) × (s : NetState) × IsRun ordered watched parts s run.old × F.feeds course.now.feed.now ordered.net × CanTell ordered.net watched (T.reads course.now.teller.now) }
    requires numbers { run.old.cycle + F.many course.now.feed.now < 2 ^ 64 }
    requires some { 1 ≤ course.now.most }
    requires few { course.now.most ≤ 1024 }
    ensures text { (ordered : OneNet) (watched : Listed ℕ) (parts : Listed OnePart) (s : NetState) → IsRun ordered watched parts s run.old → F.feeds course.now.feed.now ordered.net
        → (bytes : Listed ℕ) × IsRunText ordered.net watched s (inputs_from (F.given course.now.feed.now) 0 (F.many course.now.feed.now)) (T.tells course.now.teller.now) run.old.cycle bytes
        × (OnOk result (Appends (K.written sink.old) (K.written sink.new) bytes))
        × (OnErr result ((n : ℕ) × Appends (K.written sink.old) (K.written sink.new) (take n bytes))) }
    ensures rose { result ≡ Err WriteFault → Rose (K.faults sink.old) (K.faults sink.new) }
    ensures spared { result ≢ Err WriteFault → K.faults sink.new ≡ K.faults sink.old }
    ensures behind { (ordered : OneNet) (watched : Listed ℕ) (parts : Listed OnePart) (s : NetState) → IsRun ordered watched parts s run.old → F.feeds course.now.feed.now ordered.net → ((row : Listed OneValue) → (T.tells course.now.teller.now).ends row ≡ false)
        → OnOk result ((t : NetState) × Reaches ordered.net s (inputs_from (F.given course.now.feed.now) 0 (F.many course.now.feed.now)) t × IsRun ordered watched parts t run.new × (run.new.cycle ≡ run.old.cycle + F.many course.now.feed.now)) }
    ensures closed { (ordered : OneNet) (watched : Listed ℕ) (parts : Listed OnePart) (s : NetState) → IsRun ordered watched parts s run.old → F.feeds course.now.feed.now ordered.net → ((row : Listed OneValue) → (T.tells course.now.teller.now).ends row ≡ false)
        → IfOk result (λ tables. AreEpochsFrom ordered.net watched s (F.given course.now.feed.now) parts 0 (map closed_script tables) (F.many course.now.feed.now)) }
{
    let head = course.teller.head(alloc)?;
    put_all(sink, head.as_slice())?;
    let ending = write_epochs(alloc, host, run, course, sink)?;
    let foot = course.teller.foot(alloc, &ending.spot)?;
    put_all(sink, foot.as_slice())?;
    Ok(ending.tables)
}

/// Writes the texts of the rows, epoch by epoch.
fn write_epochs<R: Threads + Wait + Sync, G: Gate + Sync, F: Feed, T: Teller, K: Sink>(
    alloc: Global,
    host: &Host<'_, R, G>,
    run: &mut Run<'_>,
    course: &Course<'_, F, T>,
    sink: &mut K,
) -> Result<Ending, RunFault>
    requires asks { (ordered : OneNet) × (watched : Listed ℕ) × (parts : Listed OnePart) × (s : NetState) × IsRun ordered watched parts s run.old × F.feeds course.now.feed.now ordered.net × CanTell ordered.net watched (T.reads course.now.teller.now) }
    requires numbers { run.old.cycle + F.many course.now.feed.now < 2 ^ 64 }
    requires some { 1 ≤ course.now.most }
    requires few { course.now.most ≤ 1024 }
    ensures went { (ordered : OneNet) (watched : Listed ℕ) (parts : Listed OnePart) (s : NetState) → IsRun ordered watched parts s run.old → F.feeds course.now.feed.now ordered.net
        → IfOk result (λ ending. (n : ℕ) × (lines : Listed ℕ) × (n ≤ F.many course.now.feed.now) × ((n ≡ F.many course.now.feed.now) ⊎ (ending.ended ≡ true))
        × Went ordered watched parts s (F.given course.now.feed.now) (T.tells course.now.teller.now) run.old.cycle n run.new ending.tables lines ending.spot ending.ended × Appends (K.written sink.old) (K.written sink.new) lines) }
    ensures read { IfOk result (λ ending. IfSome ending.spot.before (T.reads course.now.teller.now)) }
    ensures front { (ordered : OneNet) (watched : Listed ℕ) (parts : Listed OnePart) (s : NetState) → IsRun ordered watched parts s run.old → F.feeds course.now.feed.now ordered.net
        → OnErr result ((n : ℕ) × (lines : Listed ℕ) × (u : NetState) × (n ≤ F.many course.now.feed.now) × Progress ordered.net watched s (F.given course.now.feed.now) (T.tells course.now.teller.now) run.old.cycle n lines u
        × (k : ℕ) × Appends (K.written sink.old) (K.written sink.new) (take k lines)) }
    ensures rose { result ≡ Err WriteFault → Rose (K.faults sink.old) (K.faults sink.new) }
    ensures spared { result ≢ Err WriteFault → K.faults sink.new ≡ K.faults sink.old }
{
    let cycles = course.feed.cycles();
    let mut tables = List::new(alloc);
    let mut spot = Spot {
        cycle: run.cycle(),
        before: None,
        byte: None,
    };
    let mut ended = false;
    let mut first = 0;
    while first < cycles && !ended {
        let count = (cycles - first).min(course.most);
        let told = run_cycles(alloc, host, run, course.feed, Span { first, count })?;
        let (rows, closed) = told;
        tables.push(closed)?;
        let lines = tell_rows(alloc, course.teller, &spot, rows.as_slice())?;
        put_all(sink, lines.bytes.as_slice())?;
        spot = lines.spot;
        ended = lines.ended;
        first += count;
    }
    Ok(Ending {
        tables,
        spot,
        ended,
    })
}

/// Runs these cycles of a feed: the rows of the watched leaves, and the table that was closed.
fn run_cycles<R: Threads + Wait + Sync, G: Gate + Sync, F: Feed>(
    alloc: Global,
    host: &Host<'_, R, G>,
    run: &mut Run<'_>,
    feed: &F,
    span: Span,
) -> Result<(Rows, Closed), AllocError>
    requires asks { (ordered : OneNet) × (watched : Listed ℕ) × (parts : Listed OnePart) × (t : NetState) × IsRun ordered watched parts t run.old × F.feeds feed.now ordered.net }
    requires within { span.first + span.count ≤ F.many feed.now }
    requires numbers { run.old.cycle + span.count < 2 ^ 64 }
    requires few { span.count ≤ 1024 }
    ensures rows { (ordered : OneNet) (watched : Listed ℕ) (parts : Listed OnePart) (t : NetState) → IsRun ordered watched parts t run.old → F.feeds feed.now ordered.net
        → IfOk result (λ told. (u : NetState) × Advances ordered.net watched t (inputs_from (F.given feed.now) span.first span.count) told.0 u × IsRun ordered watched parts u run.new) }
    ensures count { IfOk result (λ told. length told.0 ≡ span.count) }
    ensures closed { (ordered : OneNet) (watched : Listed ℕ) (parts : Listed OnePart) (t : NetState) → IsRun ordered watched parts t run.old → F.feeds feed.now ordered.net
        → IfOk result (λ told. IsScriptFrom ordered.net watched t (λ c. F.given feed.now (span.first + c)) parts 0 (closed_script told.1)) }
    ensures cycles { IfOk result (λ told. (closed_script told.1).cycles ≡ span.count) }
    ensures cycle { IfOk result (λ told. run.new.cycle ≡ run.old.cycle + span.count) }
{
    let inputs = feed.rows(alloc, span.first, span.count)?;
    run.advance(alloc, host.rt, &inputs, host.gate)
}
