//! Ranks of the vertices, by the parts of the graph in which each vertex reads each other one through others (Tarjan).

ghost use Rattle.std.specs.Prelude.{◌≡◌, ◌+◌, ◌^◌, ◌<◌, length, IfOk, OnOk};
ghost use Rattle.comb_order.specs.Graph.{AreVertices};
ghost use Rattle.comb_order.specs.Parts.{IsWithin};

use std::alloc::{AllocError, Global};

/// The low of a vertex that wasn't met.
const NEW: u32 = 0;
/// The low of a vertex whose part was found.
const FOUND: u32 = u32::MAX;

/// A rank for each vertex: the number of its part, in the order in which the parts are found, so that no vertex reads one of a
/// higher rank, and one that is on no loop reads only ones of lower ranks. This is not promised, and nothing rests on it but
/// the time that a search for loops takes.
pub fn ranks_of(alloc: Global, reads: &[Vec<u32>]) -> Result<Vec<u32>, AllocError>
    requires vertices { AreVertices reads.now }
    requires few { length reads.now < 4294967296 }
    ensures { IfOk result (λ ranks. length ranks.items ≡ length reads.now) }
{
    let mut parts = Parts::new(alloc, reads)?;
    let most = most_turns(reads);
    for root in 0..reads.len() {
        if parts.lows[root] == NEW {
            parts.open(root as u32)?;
        }
        for _ in 0..most {
            match parts.path.pop() {
                Some(step) => parts.turn(reads, step)?,
                None => break,
            }
        }
    }
    Ok(parts.ranks)
}

/// At most so many turns empty a path: each vertex is opened and closed once, and each of its reads is passed once.
fn most_turns(reads: &[Vec<u32>]) -> usize {
    let mut turns: usize = 0;
    for row in reads {
        turns = turns.saturating_add(row.len()).saturating_add(2);
    }
    turns
}

/// A vertex on the path.
#[derive(Clone, Copy)]
struct Step {
    vertex: u32,
    /// Vertices are numbered in the order in which they are met, from 1.
    number: u32,
    /// How many of its reads were passed.
    passed: usize,
}

/// A search for the parts.
#[derive(Drop)]
struct Parts {
    /// The least number of a vertex that is known to be in the same part.
    lows: Vec<u32>,
    ranks: Vec<u32>,
    path: Vec<Step>,
    /// Vertices that left the path before their part was found.
    waiting: Vec<u32>,
    met: u32,
    found: u32,
}

impl Parts {
    fn new(alloc: Global, reads: &[Vec<u32>]) -> Result<Parts, AllocError>
        ensures { IfOk result (IsWithin (length reads.now)) }
    {
        Ok(Parts {
            lows: vec![in alloc; NEW; reads.len()]?,
            ranks: vec![in alloc; 0; reads.len()]?,
            path: Vec::new(alloc),
            waiting: Vec::new(alloc),
            met: 0,
            found: 0,
        })
    }

    /// Puts a vertex that wasn't met on the path.
    fn open(&mut self, vertex: u32) -> Result<(), AllocError>
        requires within { IsWithin (length self.old.lows.items) self.old }
        requires vertex { vertex < length self.old.lows.items }
        ensures { OnOk result (IsWithin (length self.old.lows.items) self.new) }
    {
        self.met = self.met.saturating_add(1);
        self.lows[vertex as usize] = self.met;
        self.path.push(Step {
            vertex,
            number: self.met,
            passed: 0,
        })?;
        Ok(())
    }

    /// Goes on from the last vertex of the path: to the next one that it reads, or back.
    fn turn(&mut self, reads: &[Vec<u32>], step: Step) -> Result<(), AllocError>
        requires vertices { AreVertices reads.now }
        requires within { IsWithin (length reads.now) self.old }
        requires vertex { step.vertex < length reads.now }
        ensures { OnOk result (IsWithin (length reads.now) self.new) }
    {
        let row = &reads[step.vertex as usize];
        if step.passed < row.len() {
            self.look(step, row[step.passed])
        } else {
            self.close(step)
        }
    }

    /// Looks at a vertex that the last one of the path reads. It is passed unless it is new.
    fn look(&mut self, step: Step, next: u32) -> Result<(), AllocError>
        requires within { IsWithin (length self.old.lows.items) self.old }
        requires vertex { step.vertex < length self.old.lows.items }
        requires next { next < length self.old.lows.items }
        requires more { step.passed + 1 < 2 ^ 64 }
        ensures { OnOk result (IsWithin (length self.old.lows.items) self.new) }
    {
        if self.lows[next as usize] == NEW {
            self.path.push(step)?;
            return self.open(next);
        }
        let low = self.lows[next as usize].min(self.lows[step.vertex as usize]);
        self.lows[step.vertex as usize] = low;
        self.path.push(Step {
            passed: step.passed + 1,
            ..step
        })?;
        Ok(())
    }

    /// A vertex leaves the path. Where it is the first of its part that was met, the others of the part are those that wait and
    /// were met after it.
    fn close(&mut self, step: Step) -> Result<(), AllocError>
        requires within { IsWithin (length self.old.lows.items) self.old }
        requires vertex { step.vertex < length self.old.lows.items }
        ensures { OnOk result (IsWithin (length self.old.lows.items) self.new) }
    {
        self.waiting.push(step.vertex)?;
        if self.lows[step.vertex as usize] < step.number {
            return Ok(());
        }
        self.found = self.found.saturating_add(1);
        'taking: while let Some(vertex) = self.waiting.pop() {
            if self.lows[vertex as usize] < step.number {
                self.waiting.push(vertex)?;
                break;
            }
            self.lows[vertex as usize] = FOUND;
            self.ranks[vertex as usize] = self.found;
        }
        Ok(())
    }
}
