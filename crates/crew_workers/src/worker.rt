//! A worker: what it has to do, what it works with, and its post.

ghost use Rattle.std.specs.Prelude.{◌≡◌, ◌+◌, ◌≤◌, vec_capacity, vec_len};
ghost use Rattle.flat_code.specs.Codes.{most_publications, most_outputs};
ghost use Rattle.crew_workers.specs.Codes.{Follows, Recorded, Spare, Kept, Pace};

use bit_words::{Row, Rows, Value};
use flat_code::{Code, Effects};
use register_table::{Plan, Post};
use std::marker::PhantomData;

/// What a worker has to do: the code of its number under these input rows, one per cycle.
#[derive(Drop)]
pub struct Duty<'a> {
    /// The worker's number, which is that of its code.
    pub number: u32,
    /// The code.
    pub code: &'a Code,
    /// The values of the inputs, a row for each cycle.
    pub rows: &'a Rows,
}

// What a worker works with. It stands apart from the post since a ghost field names no member of a parameter that the
// type of another field takes.
#[derive(Drop)]
pub(crate) struct Desk<'a, N: Plan> {
    pub(crate) duty: Duty<'a>,
    pub(crate) effects: Effects,
    // Room for the outputs of a cycle each.
    pub(crate) spares: Vec<Vec<Value>>,
    // The outputs of the cycles that were evaluated.
    pub(crate) outputs: Vec<Row>,
    pub(crate) of: PhantomData<N>,
    ghost follows: { Follows N.script duty.number duty.code.now duty.rows.now },
    ghost right: { Recorded N.script duty.code.now duty.rows.now outputs.items },
    ghost publications_room: { most_publications duty.code.now ≤ vec_capacity effects.publications },
    ghost outputs_room: { most_outputs duty.code.now ≤ vec_capacity effects.outputs },
    ghost rows_room: { N.script.cycles ≤ vec_capacity outputs },
    ghost spares_many: { N.script.cycles ≤ vec_len spares + vec_len outputs },
    ghost spare_room: { Spare duty.code.now spares.items },
    ghost kept: { Kept N.script duty.number (vec_len outputs) effects.publications.items },
}

/// One worker of a table: its code, its input rows, its post, and the memory that its cycles need.
#[derive(Drop)]
pub struct Worker<'a, N: Plan> {
    pub(crate) desk: Desk<'a, N>,
    pub(crate) post: Post<N>,
    ghost low: { post.view.low ≡ desk.duty.number },
    ghost high: { post.view.high ≡ desk.duty.number + 1 },
    ghost pace: { Pace post.view (vec_len desk.outputs) },
}
