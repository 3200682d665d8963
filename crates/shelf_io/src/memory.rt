//! The traits over memory, with calls that fail on demand.

ghost use Rattle.std.specs.Prelude.{◌≡◌, ℕ, ◌<◌, ◌≤◌, ◌↔◌, ◌⊎◌, ◌+◌, IsTrue, List, [], Some, None, true, false, length, take, min, IfOk, OnOk, OnErr, IsErr, MatchOption, vec_len, vec_capacity};
ghost use Rattle.shelf_io.specs.HeldTexts.{text_of, left_of, has_name};

use crate::traits::{Shelf, ShelfFailed, Sink, SinkFailed};
use std::alloc::{AllocError, Global};

/// Which calls fail: those that `fails` lists, counted from 1.
#[derive(Drop)]
struct FailPlan {
    fails: Vec<u64>,
    calls: u64,
}

impl FailPlan {
    ghost use Rattle.shelf_io.specs.FailPlan.{NextFails, plan_after};

    /// Counts a call, and says whether it is one that fails.
    fn count(&mut self) -> bool
        ensures listed { IsTrue result ↔ NextFails self.old }
        ensures counts { self.new ≡ plan_after self.old }
    {
        self.calls = self.calls.saturating_add(1);
        self.fails.contains(&self.calls)
    }
}

/// A sink over memory, whose room was reserved once.
#[derive(Drop)]
pub struct SinkMemory {
    bytes: Vec<u8>,
    room: usize,
    step: usize,
    plan: FailPlan,
    faults: u64,
    ghost within: { vec_len bytes ≤ room },
    ghost reserved: { room ≤ vec_capacity bytes },
    ghost moves: { 0 < step },
}

impl SinkMemory {
    ghost use Rattle.shelf_io.specs.FailPlan.{IsNewPlan};
    ghost use Rattle.shelf_io.specs.SinkMemory.{plan_of, step_of, room_left};

    /// Reserves room for `room` bytes. A write takes at most `step` bytes and at most the room that is left; with none left
    /// it fails, and so do the calls of `write` that `fails` lists, counted from 1.
    pub fn new(
        alloc: Global,
        room: usize,
        step: usize,
        fails: Vec<u64>,
    ) -> Result<SinkMemory, AllocError>
        requires { 0 < step }
        ensures empty { IfOk result (λ sink. ⟦<SinkMemory as Sink>⟧.written sink ≡ Some []) }
        ensures faultless { IfOk result (λ sink. ⟦<SinkMemory as Sink>⟧.faults sink ≡ 0) }
        ensures room { IfOk result (λ sink. room_left sink ≡ room) }
        ensures step { IfOk result (λ sink. step_of sink ≡ step) }
        ensures plan { IfOk result (λ sink. IsNewPlan (plan_of sink) fails.items) }
    {
        Ok(SinkMemory {
            bytes: Vec::with_capacity(alloc, room)?,
            room,
            step,
            plan: FailPlan { fails, calls: 0 },
            faults: 0,
        })
    }

    /// What was written.
    pub fn bytes(&self) -> &[u8]
        ensures { ⟦<SinkMemory as Sink>⟧.written self.now ≡ Some result.now }
    {
        self.bytes.as_slice()
    }
}

impl Sink for SinkMemory {
    ghost use Rattle.std.specs.Prelude.{Some};
    ghost use Rattle.shelf_io.specs.FailPlan.{NextFails, plan_after};
    ghost use Rattle.shelf_io.specs.Outside.{Rose, Appends, counted};
    ghost use Rattle.shelf_io.specs.SinkMemory.{plan_of, step_of, room_left};

    ghost written = { λ s. Some s.bytes.items };

    ghost faults = { λ s. s.faults };

    /// Fails exactly where the call is listed or no room is left.
    fn write(&mut self, bytes: &[u8]) -> Result<usize, SinkFailed>
        requires { 0 < length bytes.now }
        ensures within { IfOk result (λ n. (0 < n) × (n ≤ length bytes.now)) }
        ensures appended { IfOk result (λ n. Appends (⟦<SinkMemory as Sink>⟧.written self.old) (⟦<SinkMemory as Sink>⟧.written self.new) (take n bytes.now)) }
        ensures unwritten { OnErr result (⟦<SinkMemory as Sink>⟧.written self.new ≡ ⟦<SinkMemory as Sink>⟧.written self.old) }
        ensures rose { OnErr result (Rose (⟦<SinkMemory as Sink>⟧.faults self.old) (⟦<SinkMemory as Sink>⟧.faults self.new)) }
        ensures never_falls { ⟦<SinkMemory as Sink>⟧.faults self.old ≤ ⟦<SinkMemory as Sink>⟧.faults self.new }

        ensures refused { IsErr result ↔ (NextFails (plan_of self.old) ⊎ (room_left self.old ≡ 0)) }
        ensures one_fault { OnErr result (⟦<SinkMemory as Sink>⟧.faults self.new ≡ counted (⟦<SinkMemory as Sink>⟧.faults self.old)) }
        ensures no_fault { OnOk result (⟦<SinkMemory as Sink>⟧.faults self.new ≡ ⟦<SinkMemory as Sink>⟧.faults self.old) }
        ensures most { IfOk result (λ n. n ≡ min (min (length bytes.now) (step_of self.old)) (room_left self.old)) }
        ensures room { IfOk result (λ n. room_left self.old ≡ room_left self.new + n) }
        ensures kept_room { OnErr result (room_left self.new ≡ room_left self.old) }
        ensures step { step_of self.new ≡ step_of self.old }
        ensures plan { plan_of self.new ≡ plan_after (plan_of self.old) }
    {
        let count = bytes.len().min(self.step).min(self.room - self.bytes.len());
        if self.plan.count() || count == 0 {
            self.faults = self.faults.saturating_add(1);
            return Err(SinkFailed);
        }
        match self.bytes.extend_from_slice(&bytes[..count]) {
            Ok(()) => Ok(count),
            Err(AllocError) => unreachable!(),
        }
    }
}

/// A shelf over memory.
#[derive(Drop)]
pub struct ShelfMemory {
    texts: Vec<(String, Vec<u8>)>,
    step: usize,
    plan: FailPlan,
    faults: u64,
    opened: Option<usize>,
    at: usize,
    ghost moves: { 0 < step },
}

impl ShelfMemory {
    ghost use Rattle.shelf_io.specs.FailPlan.{IsNewPlan};
    ghost use Rattle.shelf_io.specs.ShelfMemory.{plan_of, step_of};

    /// A shelf of these names and texts; of two equal names the first counts. A read gives at most `step` bytes. Calls of
    /// `open` and `read` are numbered together from 1, and those that `fails` lists fail. Takes no memory.
    pub fn new(texts: Vec<(String, Vec<u8>)>, step: usize, fails: Vec<u64>) -> ShelfMemory
        requires { 0 < step }
        ensures holds { ⟦<ShelfMemory as Shelf>⟧.held result ≡ Some (λ name. text_of texts.items name) }
        ensures closed { (name : List ℕ) → ⟦<ShelfMemory as Shelf>⟧.is_open result name ≡ false }
        ensures faultless { (name : List ℕ) → ⟦<ShelfMemory as Shelf>⟧.faults result name ≡ 0 }
        ensures step { step_of result ≡ step }
        ensures plan { IsNewPlan (plan_of result) fails.items }
    {
        ShelfMemory {
            texts,
            step,
            plan: FailPlan { fails, calls: 0 },
            faults: 0,
            opened: None,
            at: 0,
        }
    }
}

impl Shelf for ShelfMemory {
    ghost use Rattle.std.specs.Prelude.{Some};
    ghost use Rattle.shelf_io.specs.FailPlan.{NextFails, plan_after};
    ghost use Rattle.shelf_io.specs.HeldTexts.{text_of, left_of, has_name};
    ghost use Rattle.shelf_io.specs.Outside.{Rose, OpensText, Takes, counted};
    ghost use Rattle.shelf_io.specs.ShelfMemory.{plan_of, step_of, held_by};

    ghost held = { λ s. Some (λ name. text_of s.texts.items name) };

    ghost left = { λ s. left_of s.texts.items s.opened s.at };

    ghost is_open = { λ s name. has_name s.texts.items s.opened name };

    ghost faults = { λ s name. s.faults };

    /// Fails exactly where the call is listed or the name holds no text.
    fn open(&mut self, name: &str) -> Result<(), ShelfFailed>
        ensures opened { OnOk result (⟦<ShelfMemory as Shelf>⟧.is_open self.new name.now ≡ true) }
        ensures whole { OnOk result (OpensText (⟦<ShelfMemory as Shelf>⟧.held self.old) name.now (⟦<ShelfMemory as Shelf>⟧.left self.new)) }
        ensures closed { OnErr result ((n : List ℕ) → ⟦<ShelfMemory as Shelf>⟧.is_open self.new n ≡ false) }
        ensures rose { OnErr result (Rose (⟦<ShelfMemory as Shelf>⟧.faults self.old name.now) (⟦<ShelfMemory as Shelf>⟧.faults self.new name.now)) }
        ensures holds { ⟦<ShelfMemory as Shelf>⟧.held self.new ≡ ⟦<ShelfMemory as Shelf>⟧.held self.old }
        ensures never_falls { (n : List ℕ) → ⟦<ShelfMemory as Shelf>⟧.faults self.old n ≤ ⟦<ShelfMemory as Shelf>⟧.faults self.new n }

        ensures refused { IsErr result ↔ (NextFails (plan_of self.old) ⊎ (held_by self.old name.now ≡ None)) }
        ensures one_fault { OnErr result ((n : List ℕ) → ⟦<ShelfMemory as Shelf>⟧.faults self.new n ≡ counted (⟦<ShelfMemory as Shelf>⟧.faults self.old n)) }
        ensures no_fault { OnOk result ((n : List ℕ) → ⟦<ShelfMemory as Shelf>⟧.faults self.new n ≡ ⟦<ShelfMemory as Shelf>⟧.faults self.old n) }
        ensures step { step_of self.new ≡ step_of self.old }
        ensures plan { plan_of self.new ≡ plan_after (plan_of self.old) }
    {
        self.opened = None;
        self.at = 0;
        if !self.plan.count() {
            self.opened = find(&self.texts, name);
            if self.opened.is_some() {
                return Ok(());
            }
        }
        self.faults = self.faults.saturating_add(1);
        Err(ShelfFailed)
    }

    /// Fails exactly where the call is listed.
    fn read(&mut self, buf: &mut [u8]) -> Result<usize, ShelfFailed>
        requires open { (name : List ℕ) × (⟦<ShelfMemory as Shelf>⟧.is_open self.old name ≡ true) }
        requires room { 0 < length buf.old }
        ensures within { IfOk result (λ n. n ≤ length buf.old) }
        ensures taken { IfOk result (λ n. Takes (⟦<ShelfMemory as Shelf>⟧.left self.old) (⟦<ShelfMemory as Shelf>⟧.left self.new) (take n buf.new) n) }
        ensures unread { OnErr result (⟦<ShelfMemory as Shelf>⟧.left self.new ≡ ⟦<ShelfMemory as Shelf>⟧.left self.old) }
        ensures rose { OnErr result ((name : List ℕ) → ⟦<ShelfMemory as Shelf>⟧.is_open self.old name ≡ true → Rose (⟦<ShelfMemory as Shelf>⟧.faults self.old name) (⟦<ShelfMemory as Shelf>⟧.faults self.new name)) }
        ensures stays { (name : List ℕ) → ⟦<ShelfMemory as Shelf>⟧.is_open self.new name ≡ ⟦<ShelfMemory as Shelf>⟧.is_open self.old name }
        ensures holds { ⟦<ShelfMemory as Shelf>⟧.held self.new ≡ ⟦<ShelfMemory as Shelf>⟧.held self.old }
        ensures never_falls { (n : List ℕ) → ⟦<ShelfMemory as Shelf>⟧.faults self.old n ≤ ⟦<ShelfMemory as Shelf>⟧.faults self.new n }

        ensures refused { IsErr result ↔ NextFails (plan_of self.old) }
        ensures one_fault { OnErr result ((n : List ℕ) → ⟦<ShelfMemory as Shelf>⟧.faults self.new n ≡ counted (⟦<ShelfMemory as Shelf>⟧.faults self.old n)) }
        ensures no_fault { OnOk result ((n : List ℕ) → ⟦<ShelfMemory as Shelf>⟧.faults self.new n ≡ ⟦<ShelfMemory as Shelf>⟧.faults self.old n) }
        ensures most { IfOk result (λ n. (text : List ℕ) → ⟦<ShelfMemory as Shelf>⟧.left self.old ≡ Some text → n ≡ min (min (length text) (length buf.old)) (step_of self.old)) }
        ensures step { step_of self.new ≡ step_of self.old }
        ensures plan { plan_of self.new ≡ plan_after (plan_of self.old) }
    {
        if self.plan.count() {
            self.faults = self.faults.saturating_add(1);
            return Err(ShelfFailed);
        }
        match self.opened {
            None => Ok(0),
            Some(i) => {
                let text = self.texts[i].1.as_slice();
                let start = self.at.min(text.len());
                let rest = &text[start..];
                let count = rest.len().min(buf.len()).min(self.step);
                buf[..count].copy_from_slice(&rest[..count]);
                self.at = start + count;
                Ok(count)
            }
        }
    }
}

/// The number of the first text of the name.
fn find(texts: &[(String, Vec<u8>)], name: &str) -> Option<usize>
    ensures { MatchOption result (text_of texts.now name.now ≡ None) (λ i. (has_name texts.now (Some i) name.now ≡ true)
        × ((text : List ℕ) × (text_of texts.now name.now ≡ Some text) × (left_of texts.now (Some i) 0 ≡ Some text))) }
{
    for (i, text) in texts.iter().enumerate() {
        if text.0.as_str() == name {
            return Some(i);
        }
    }
    None
}
