//! A run that is held between its cycles.

ghost use Rattle.std.specs.Prelude.{◌≡◌, ℕ, ◌+◌, ◌*◌, ◌^◌, ◌<◌, ◌≤◌, List as Listed, length, IfOk, OnErr};
ghost use Rattle.ground_net.specs.declared.net.Ordered.{Ordered as OneNet};
ghost use Rattle.ground_net.specs.declared.net.Cut.{Cut as OneCut};
ghost use Rattle.ground_net.specs.declared.net.CutPart.{CutPart as OnePart};
ghost use Rattle.ground_net.specs.Cycles.{NetState, Inputs, first_state};
ghost use Rattle.cone_cutter.specs.Cuts.{IsCut};
ghost use Rattle.cone_cutter.specs.Splits.{IsSplit};
ghost use Rattle.register_table.specs.Shown.{closed_script};
ghost use Rattle.crew_workers.specs.Scripts.{script_of};
ghost use Rattle.circuit_run.specs.NetRuns.{inputs_from};
ghost use Rattle.crew_run.specs.Epochs.{Advances, IsScriptFrom};
ghost use Rattle.crew_run.specs.Runs.{MayStart, AreWordsOf, IsRun, MatchGiven};

use crate::crew::{cut_of, first_words};
use bit_words::{List, Rows};
use crew_workers::Gate;
use flat_code::Code;
use ground_net::{Cut, Ordered};
use part_compile::compile;
use register_table::Closed;
use std::alloc::{AllocError, Global};
use std::sync::Wait;
use std::thread::Threads;
use worker_crew::{Machine, ThreadLimit, run_epoch_within};

/// A run of a net between two of its cycles: the codes of its workers, the words of its state, and how many cycles were run.
#[derive(Drop)]
pub struct Run<'a> {
    ordered: &'a Ordered,
    codes: List<Code>,
    words: List<u64>,
    cycle: u64,
    limit: ThreadLimit,
}

/// Where a run begins: the words of a state, and how many cycles were run before.
#[derive(Clone, Copy)]
pub struct Held<'a> {
    pub words: &'a List<u64>,
    pub cycle: u64,
}

impl<'a> Run<'a> {
    /// A run by 1 to 64 workers in which these leaves are watched, each by its number. All of its state is 0, and no cycle was run.
    ///
    /// The net is cut into as many parts as there are workers. More leaves or sinks than a `u32` numbers are a want of memory.
    pub fn start(
        alloc: Global,
        ordered: &'a Ordered,
        watch: &[u32],
        workers: u32,
    ) -> Result<Run<'a>, AllocError>
        requires may { MayStart ordered.now watch.now }
        requires some { 1 ≤ workers }
        requires few { workers ≤ 64 }
        ensures run { IfOk result (λ run. (it : OneCut) × IsCut ordered.now watch.now workers it × IsRun ordered.now watch.now it.parts first_state run) }
        ensures cycle { IfOk result (λ run. run.cycle ≡ 0) }
    {
        let parts = cut_of(alloc, ordered, watch, workers)?;
        Run::start_cut(alloc, ordered, watch, &parts)
    }

    /// The same by a given cut, a worker for each of its 1 to 64 parts.
    pub fn start_cut(
        alloc: Global,
        ordered: &'a Ordered,
        watch: &[u32],
        cut: &Cut,
    ) -> Result<Run<'a>, AllocError>
        requires may { MayStart ordered.now watch.now }
        requires split { IsSplit ordered.now watch.now cut.now.parts }
        requires some { 1 ≤ length cut.now.parts }
        requires few { length cut.now.parts ≤ 64 }
        ensures run { IfOk result (IsRun ordered.now watch.now cut.now.parts first_state) }
        ensures cycle { IfOk result (λ run. run.cycle ≡ 0) }
    {
        let codes = compile(alloc, ordered, watch, cut)?;
        let words = first_words(alloc, ordered, codes.as_slice())?;
        Ok(Run {
            ordered,
            codes,
            words,
            cycle: 0,
            limit: ThreadLimit::none(),
        })
    }

    /// The same as `start`, from the words of any state on and behind at most 999,999,000,000 cycles.
    ///
    /// The words are those of the net, each within its width.
    pub fn start_at(
        alloc: Global,
        ordered: &'a Ordered,
        watch: &[u32],
        workers: u32,
        held: &Held<'_>,
    ) -> Result<Run<'a>, AllocError>
        requires may { MayStart ordered.now watch.now }
        requires some { 1 ≤ workers }
        requires few { workers ≤ 64 }
        requires words { (t : NetState) × AreWordsOf ordered.now.net t held.now.words.now }
        requires cycle { held.now.cycle ≤ 999999000000 }
        ensures run { (t : NetState) → AreWordsOf ordered.now.net t held.now.words.now → IfOk result (λ run. (it : OneCut) × IsCut ordered.now watch.now workers it × IsRun ordered.now watch.now it.parts t run) }
        ensures cycle { IfOk result (λ run. run.cycle ≡ held.now.cycle) }
    {
        let parts = cut_of(alloc, ordered, watch, workers)?;
        let codes = compile(alloc, ordered, watch, &parts)?;
        let words = List::from_slice(alloc, held.words.as_slice())?;
        Ok(Run {
            ordered,
            codes,
            words,
            cycle: held.cycle,
            limit: ThreadLimit::none(),
        })
    }

    /// Runs one cycle for each row of the inputs' values: row by row the values of the watched leaves, and the table that was closed
    /// behind the last one. The gate is told the number of each cycle.
    ///
    /// The rows match the net's inputs. Twice the number of workers times that of the rows, and the number of all cycles, are below 2^64.
    /// Where memory is wanted the run stays as it was.
    pub fn advance<R: Threads + Wait + Sync, G: Gate + Sync>(
        &mut self,
        alloc: Global,
        rt: &R,
        rows: &Rows,
        gate: &G,
    ) -> Result<(Rows, Closed), AllocError>
        requires run { (ordered : OneNet) × (watched : Listed ℕ) × (parts : Listed OnePart) × (t : NetState) × IsRun ordered watched parts t self.old }
        requires matched { (given : ℕ → Inputs) × MatchGiven self.old.ordered.now.net given rows.now }
        requires fits { 2 * length rows.now * length self.old.codes < 2 ^ 64 }
        requires numbers { self.old.cycle + length rows.now < 2 ^ 64 }
        ensures rows { (ordered : OneNet) (watched : Listed ℕ) (parts : Listed OnePart) (t : NetState) (given : ℕ → Inputs) → IsRun ordered watched parts t self.old → MatchGiven ordered.net given rows.now
            → IfOk result (λ told. (u : NetState) × Advances ordered.net watched t (inputs_from given 0 (length rows.now)) told.0 u × IsRun ordered watched parts u self.new) }
        ensures script { IfOk result (λ told. closed_script told.1 ≡ script_of self.old.codes self.old.words rows.now) }
        ensures closed { (ordered : OneNet) (watched : Listed ℕ) (parts : Listed OnePart) (t : NetState) (given : ℕ → Inputs) → IsRun ordered watched parts t self.old → MatchGiven ordered.net given rows.now
            → IfOk result (λ told. IsScriptFrom ordered.net watched t given parts 0 (closed_script told.1)) }
        ensures cycle { IfOk result (λ told. self.new.cycle ≡ self.old.cycle + length rows.now) }
        ensures kept { OnErr result (self.new ≡ self.old) }
    {
        let machine = Machine {
            rt,
            gate,
            first: self.cycle,
            limit: self.limit,
        };
        let epoch = run_epoch_within(alloc, &machine, &self.codes, &self.words, rows)?;
        self.words = epoch.words;
        self.cycle += rows.len() as u64;
        Ok((epoch.outputs, epoch.closed))
    }

    /// How many cycles were run.
    pub fn cycle(&self) -> u64
        ensures { result ≡ self.now.cycle }
    {
        self.cycle
    }

    /// The words of the state.
    pub fn words(&self) -> &List<u64>
        ensures { result.now ≡ self.now.words }
    {
        &self.words
    }

    /// Bounds the threads that later cycles start. Without it there are as many as workers.
    pub fn limit(&mut self, limit: ThreadLimit)
        ensures run { (ordered : OneNet) (watched : Listed ℕ) (parts : Listed OnePart) (t : NetState) → IsRun ordered watched parts t self.old → IsRun ordered watched parts t self.new }
        ensures cycle { self.new.cycle ≡ self.old.cycle }
    {
        self.limit = limit;
    }
}
