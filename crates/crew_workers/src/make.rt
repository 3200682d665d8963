//! How a worker begins and ends.

ghost use Rattle.std.specs.Prelude.{◌≡◌, ◌+◌, ◌*◌, ◌<◌, ◌≤◌, ℕ, length, vec_len, vec_capacity, slice_index_or, IfOk};
ghost use Rattle.phase_core.specs.Sound.{view};
ghost use Rattle.register_table.specs.Shown.{SameTable};
ghost use Rattle.crew_workers.specs.Codes.{Follows, Recorded};
ghost use Rattle.crew_workers.specs.Standing.{recorded};

use crate::worker::{Desk, Duty, Worker};
use bit_words::{List, Rows, Value};
use flat_code::Code;
use register_table::{Plan, Post};
use std::alloc::{AllocError, Global};
use std::marker::PhantomData;

// Lists without a value, each with this much room.
fn spare_rows(alloc: Global, many: usize, room: usize) -> Result<Vec<Vec<Value>>, AllocError>
    ensures many { IfOk result (λ v. vec_len v ≡ many) }
    ensures room { IfOk result (λ v. (k : ℕ) (d : _) → k < vec_len v → room ≤ vec_capacity (slice_index_or v.items k d)) }
{
    let mut rows = Vec::with_capacity(alloc, many)?;
    for _ in 0..many {
        let row: Vec<Value> = Vec::with_capacity(alloc, room)?;
        rows.push(row)?;
    }
    Ok(rows)
}

impl<'a, N: Plan> Worker<'a, N> {
    /// A worker for the code, with all the memory that its cycles need.
    pub fn new(
        alloc: Global,
        number: u32,
        code: &'a Code,
        post: Post<N>,
        rows: &'a Rows,
    ) -> Result<Worker<'a, N>, AllocError>
        requires follows { Follows N.script number code.now rows.now }
        requires view { post.view ≡ view number (number + 1) 0 0 0 }
        ensures table { IfOk result (λ w. SameTable w.post post) }
        ensures view { IfOk result (λ w. w.post.view ≡ post.view) }
        ensures recorded { IfOk result (λ w. recorded w ≡ 0) }
        ensures duty { IfOk result (λ w. (w.desk.duty.number ≡ number) × (w.desk.duty.code.now ≡ code.now) × (w.desk.duty.rows.now ≡ rows.now)) }
    {
        let cycles = rows.len();
        let effects = code.effects(alloc)?;
        let spares = spare_rows(alloc, cycles, code.shown.len())?;
        let outputs = Vec::with_capacity(alloc, cycles)?;
        let duty = Duty { number, code, rows };
        let desk = Desk {
            duty,
            effects,
            spares,
            outputs,
            of: PhantomData,
        };
        Ok(Worker { desk, post })
    }

    /// What the worker has to do. Takes no memory.
    pub fn duty(&self) -> &Duty<'a>
        ensures { result.now ≡ self.now.desk.duty }
    {
        &self.desk.duty
    }

    /// How often the worker passed the barrier. Takes no memory.
    pub fn passed(&self) -> u64
        ensures { result ≡ self.now.post.view.passed }
    {
        self.post.view.passed
    }

    /// The post of a worker that has passed its last phase, and its code's outputs, one row per cycle.
    pub fn into_parts(self) -> (Post<N>, Rows)
        requires last { self.post.view.passed ≡ 2 * N.script.cycles }
        ensures table { SameTable result.0 self.entry.post }
        ensures view { result.0.view ≡ self.entry.post.view }
        ensures outputs { Recorded N.script self.entry.desk.duty.code.now self.entry.desk.duty.rows.now result.1 }
        ensures many { length result.1 ≡ N.script.cycles }
    {
        let Worker { desk, post } = self;
        let Desk {
            duty: _,
            effects: _,
            spares: _,
            outputs,
            of: _,
        } = desk;
        (post, List::from_vec(outputs))
    }
}
