//! The shelf and the sink of this process: the edge to the operating system, of whose contents nothing is told.

ghost use Rattle.std.specs.Prelude.{◌≡◌, ℕ, ◌<◌, ◌≤◌, List, Option, true, false, length, take, codes, IsTrue, IfOk, IsErr, OnOk, OnErr};

use crate::traits::{Shelf, ShelfFailed, Sink, SinkFailed};
use std::fs::{self, OpenFile};
use std::io::{self, Read, Write};
use std::rt::Files;

/// Where the open text comes from.
#[derive(Drop)]
enum Source<F> {
    Input,
    File(F),
}

/// Files by name, and standard input as `-`, which can be opened once.
#[derive(Drop)]
pub struct ShelfReal<'a, R: Files> {
    rt: &'a R,
    opened: Option<Source<R::File>>,
    input_used: bool,
    faults: u64,
}

impl<'a, R: Files + Input> ShelfReal<'a, R> {
    ghost use Rattle.shelf_io.specs.ShelfReal.{input_used};

    /// The shelf of the process. No text is open.
    pub fn new(rt: &'a R) -> ShelfReal<'a, R>
        ensures closed { (name : List ℕ) → ⟦<ShelfReal<'a, R> as Shelf>⟧.is_open result name ≡ false }
        ensures faultless { (name : List ℕ) → ⟦<ShelfReal<'a, R> as Shelf>⟧.faults result name ≡ 0 }
        ensures unused { input_used result ≡ false }
    {
        ShelfReal {
            rt,
            opened: None,
            input_used: false,
            faults: 0,
        }
    }
}

impl<'a, R: Files + Input> Shelf for ShelfReal<'a, R> {
    ghost use Rattle.std.specs.Prelude.{None, is_some};
    ghost use Rattle.shelf_io.specs.Outside.{Rose, OpensText, Takes, counted};
    ghost use Rattle.shelf_io.specs.ShelfReal.{input_used};

    ghost held = { λ _. None };

    ghost left = { λ _. None };

    ghost is_open = { λ s _. is_some s.opened };

    ghost faults = { λ s _. s.faults };

    fn open(&mut self, name: &str) -> Result<(), ShelfFailed>
        ensures opened { OnOk result (⟦<ShelfReal<'a, R> as Shelf>⟧.is_open self.new name.now ≡ true) }
        ensures whole { OnOk result (OpensText (⟦<ShelfReal<'a, R> as Shelf>⟧.held self.old) name.now (⟦<ShelfReal<'a, R> as Shelf>⟧.left self.new)) }
        ensures closed { OnErr result ((n : List ℕ) → ⟦<ShelfReal<'a, R> as Shelf>⟧.is_open self.new n ≡ false) }
        ensures rose { OnErr result (Rose (⟦<ShelfReal<'a, R> as Shelf>⟧.faults self.old name.now) (⟦<ShelfReal<'a, R> as Shelf>⟧.faults self.new name.now)) }
        ensures holds { ⟦<ShelfReal<'a, R> as Shelf>⟧.held self.new ≡ ⟦<ShelfReal<'a, R> as Shelf>⟧.held self.old }
        ensures never_falls { (n : List ℕ) → ⟦<ShelfReal<'a, R> as Shelf>⟧.faults self.old n ≤ ⟦<ShelfReal<'a, R> as Shelf>⟧.faults self.new n }
        ensures one_fault { OnErr result ((n : List ℕ) → ⟦<ShelfReal<'a, R> as Shelf>⟧.faults self.new n ≡ counted (⟦<ShelfReal<'a, R> as Shelf>⟧.faults self.old n)) }
        ensures no_fault { OnOk result ((n : List ℕ) → ⟦<ShelfReal<'a, R> as Shelf>⟧.faults self.new n ≡ ⟦<ShelfReal<'a, R> as Shelf>⟧.faults self.old n) }

        // Standard input is opened at most once.
        ensures once { name.now ≡ codes "-" → IsTrue (input_used self.old) → IsErr result }
        ensures used { name.now ≡ codes "-" → IsTrue (input_used self.new) }
        ensures stays_used { IsTrue (input_used self.old) → IsTrue (input_used self.new) }
    {
        self.opened = None;
        if name != "-" {
            if let Ok(file) = fs::open(self.rt, name) {
                self.opened = Some(Source::File(file));
                return Ok(());
            }
        } else if !self.input_used {
            self.input_used = true;
            self.opened = Some(Source::Input);
            return Ok(());
        }
        self.faults = self.faults.saturating_add(1);
        Err(ShelfFailed)
    }

    fn read(&mut self, buf: &mut [u8]) -> Result<usize, ShelfFailed>
        requires open { (name : List ℕ) × (⟦<ShelfReal<'a, R> as Shelf>⟧.is_open self.old name ≡ true) }
        requires room { 0 < length buf.old }
        ensures within { IfOk result (λ n. n ≤ length buf.old) }
        ensures taken { IfOk result (λ n. Takes (⟦<ShelfReal<'a, R> as Shelf>⟧.left self.old) (⟦<ShelfReal<'a, R> as Shelf>⟧.left self.new) (take n buf.new) n) }
        ensures unread { OnErr result (⟦<ShelfReal<'a, R> as Shelf>⟧.left self.new ≡ ⟦<ShelfReal<'a, R> as Shelf>⟧.left self.old) }
        ensures rose { OnErr result ((name : List ℕ) → ⟦<ShelfReal<'a, R> as Shelf>⟧.is_open self.old name ≡ true → Rose (⟦<ShelfReal<'a, R> as Shelf>⟧.faults self.old name) (⟦<ShelfReal<'a, R> as Shelf>⟧.faults self.new name)) }
        ensures stays { (name : List ℕ) → ⟦<ShelfReal<'a, R> as Shelf>⟧.is_open self.new name ≡ ⟦<ShelfReal<'a, R> as Shelf>⟧.is_open self.old name }
        ensures holds { ⟦<ShelfReal<'a, R> as Shelf>⟧.held self.new ≡ ⟦<ShelfReal<'a, R> as Shelf>⟧.held self.old }
        ensures never_falls { (n : List ℕ) → ⟦<ShelfReal<'a, R> as Shelf>⟧.faults self.old n ≤ ⟦<ShelfReal<'a, R> as Shelf>⟧.faults self.new n }
        ensures one_fault { OnErr result ((n : List ℕ) → ⟦<ShelfReal<'a, R> as Shelf>⟧.faults self.new n ≡ counted (⟦<ShelfReal<'a, R> as Shelf>⟧.faults self.old n)) }
        ensures no_fault { OnOk result ((n : List ℕ) → ⟦<ShelfReal<'a, R> as Shelf>⟧.faults self.new n ≡ ⟦<ShelfReal<'a, R> as Shelf>⟧.faults self.old n) }
        ensures stays_used { input_used self.new ≡ input_used self.old }
    {
        let count = match &mut self.opened {
            None => Err(ShelfFailed),
            Some(Source::Input) => self.rt.reader().read(buf).map_err(|_| ShelfFailed),
            Some(Source::File(file)) => file.read(buf).map_err(|_| ShelfFailed),
        };
        if count.is_err() {
            self.faults = self.faults.saturating_add(1);
        }
        count
    }
}

/// Standard output.
#[derive(Drop)]
pub struct SinkReal<'a, R> {
    rt: &'a R,
    faults: u64,
}

impl<'a, R: Print> SinkReal<'a, R> {
    /// The standard output of the process.
    pub fn new(rt: &'a R) -> SinkReal<'a, R>
        ensures { ⟦<SinkReal<'a, R> as Sink>⟧.faults result ≡ 0 }
    {
        SinkReal { rt, faults: 0 }
    }
}

impl<'a, R: Print> Sink for SinkReal<'a, R> {
    ghost use Rattle.std.specs.Prelude.{None};
    ghost use Rattle.shelf_io.specs.Outside.{Rose, Appends, counted};

    ghost written = { λ _. None };

    ghost faults = { λ s. s.faults };

    fn write(&mut self, bytes: &[u8]) -> Result<usize, SinkFailed>
        requires { 0 < length bytes.now }
        ensures within { IfOk result (λ n. (0 < n) × (n ≤ length bytes.now)) }
        ensures appended { IfOk result (λ n. Appends (⟦<SinkReal<'a, R> as Sink>⟧.written self.old) (⟦<SinkReal<'a, R> as Sink>⟧.written self.new) (take n bytes.now)) }
        ensures unwritten { OnErr result (⟦<SinkReal<'a, R> as Sink>⟧.written self.new ≡ ⟦<SinkReal<'a, R> as Sink>⟧.written self.old) }
        ensures rose { OnErr result (Rose (⟦<SinkReal<'a, R> as Sink>⟧.faults self.old) (⟦<SinkReal<'a, R> as Sink>⟧.faults self.new)) }
        ensures never_falls { ⟦<SinkReal<'a, R> as Sink>⟧.faults self.old ≤ ⟦<SinkReal<'a, R> as Sink>⟧.faults self.new }
        ensures one_fault { OnErr result (⟦<SinkReal<'a, R> as Sink>⟧.faults self.new ≡ counted (⟦<SinkReal<'a, R> as Sink>⟧.faults self.old)) }
        ensures no_fault { OnOk result (⟦<SinkReal<'a, R> as Sink>⟧.faults self.new ≡ ⟦<SinkReal<'a, R> as Sink>⟧.faults self.old) }
    {
        match io::writer(self.rt).write(bytes) {
            Ok(count) if count > 0 => Ok(count),
            _ => {
                self.faults = self.faults.saturating_add(1);
                Err(SinkFailed)
            }
        }
    }
}
