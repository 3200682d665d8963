//! The calls of a worker.

ghost use Rattle.std.specs.Prelude.{◌≡◌, ◌+◌, ◌*◌, ◌/◌, ◌%◌, ◌<◌, ◌≤◌, length, vec_capacity, vec_len};
ghost use Rattle.phase_core.specs.Script.{values};
ghost use Rattle.phase_core.specs.Sound.{part_of};
ghost use Rattle.phase_core.specs.Steps.{after_arrival, after_pass};
ghost use Rattle.register_table.specs.Shown.{ComesFrom};
ghost use Rattle.flat_code.specs.Codes.{published_by, outputs_by, most_publications, most_outputs, frame_length};
ghost use Rattle.crew_workers.specs.Standing.{recorded, after_publications};

use crate::reading::Reading;
use crate::worker::{Desk, Worker};
use bit_words::{List, Row};
use flat_code::{Code, Effects, step};
use phase_core::Publication;
use register_table::{Plan, Post, RegisterTable};
use std::mem::replace;
use std::sync::Wait;

// A code with the inputs of a cycle.
#[derive(Clone, Copy)]
struct Fed<'f> {
    code: &'f Code,
    inputs: &'f Row,
}

// The effects of the code in the cycle that the post is in.
fn compute<N: Plan>(
    post: &mut Post<N>,
    table: &RegisterTable<N>,
    fed: &Fed,
    frame: &mut [u64],
    effects: &mut Effects,
)
    requires table { ComesFrom post.old table.now }
    requires rest { post.old.view.arrivals ≡ post.old.view.passed }
    requires even { post.old.view.passed % 2 ≡ 0 }
    requires words { length N.script.first ≡ fed.now.code.now.words }
    requires frame { frame_length fed.now.code.now ≤ length frame.old }
    requires publications { most_publications fed.now.code.now ≤ vec_capacity effects.old.publications }
    requires outputs { most_outputs fed.now.code.now ≤ vec_capacity effects.old.outputs }
    ensures table { ComesFrom post.new table.now }
    ensures view { post.new.view ≡ post.old.view }
    ensures publications { effects.new.publications.items ≡ published_by fed.now.code.now (values N.script (post.old.view.passed / 2)) fed.now.inputs.now }
    ensures outputs { effects.new.outputs.items ≡ outputs_by fed.now.code.now (values N.script (post.old.view.passed / 2)) fed.now.inputs.now }
    ensures publications_room { most_publications fed.now.code.now ≤ vec_capacity effects.new.publications }
    ensures outputs_room { most_outputs fed.now.code.now ≤ vec_capacity effects.new.outputs }
    ensures frame { length frame.new ≡ length frame.old }
{
    let mut reading = Reading { post, table };
    step(fed.code, frame, &mut reading, fed.inputs, effects);
}

// Publishes all publications of a phase.
fn publish_each<N: Plan>(post: &mut Post<N>, table: &RegisterTable<N>, publications: &[Publication])
    requires table { ComesFrom post.old table.now }
    requires one { post.old.view.high ≡ post.old.view.low + 1 }
    requires rest { post.old.view.arrivals ≡ post.old.view.passed }
    requires odd { post.old.view.passed % 2 ≡ 1 }
    requires none { post.old.view.done ≡ 0 }
    requires all { publications.now ≡ part_of N.script post.old.view }
    ensures table { ComesFrom post.new table.now }
    ensures view { post.new.view ≡ after_publications post.old.view (length publications.now) }
{
    for publication in publications {
        post.publish(table, publication.word, publication.value);
    }
}

impl<'a, N: Plan> Desk<'a, N> {
    // Evaluates the cycle that the post is in: keeps what the code publishes, and records what it puts out.
    fn record(
        &mut self,
        post: &mut Post<N>,
        table: &RegisterTable<N>,
        frame: &mut [u64],
        cycle: u64,
    )
        requires table { ComesFrom post.old table.now }
        requires cycle { cycle < N.script.cycles }
        requires rest { post.old.view.arrivals ≡ post.old.view.passed }
        requires even { post.old.view.passed ≡ 2 * cycle }
        requires recorded { vec_len self.old.outputs ≡ cycle }
        requires frame { frame_length self.old.duty.code.now ≤ length frame.old }
        ensures table { ComesFrom post.new table.now }
        ensures view { post.new.view ≡ post.old.view }
        ensures recorded { vec_len self.new.outputs ≡ cycle + 1 }
        ensures duty { self.new.duty ≡ self.old.duty }
        ensures frame { length frame.new ≡ length frame.old }
    {
        let Some(inputs) = self.duty.rows.get(cycle as usize) else {
            return;
        };
        let fed = Fed {
            code: self.duty.code,
            inputs,
        };
        compute(post, table, &fed, frame, &mut self.effects);
        let Some(spare) = self.spares.pop() else {
            return;
        };
        let outputs = replace(&mut self.effects.outputs, spare);
        self.outputs.push_reserved(List::from_vec(outputs));
    }

    // Publishes what the last evaluation kept.
    fn publish(&self, post: &mut Post<N>, table: &RegisterTable<N>)
        requires table { ComesFrom post.old table.now }
        requires low { post.old.view.low ≡ self.now.duty.number }
        requires high { post.old.view.high ≡ post.old.view.low + 1 }
        requires rest { post.old.view.arrivals ≡ post.old.view.passed }
        requires odd { post.old.view.passed % 2 ≡ 1 }
        requires none { post.old.view.done ≡ 0 }
        requires recorded { vec_len self.now.outputs ≡ post.old.view.passed / 2 + 1 }
        ensures table { ComesFrom post.new table.now }
        ensures view { post.new.view ≡ after_publications post.old.view (length (part_of N.script post.old.view)) }
    {
        publish_each(post, table, self.effects.publications.as_slice());
    }
}

impl<'a, N: Plan> Worker<'a, N> {
    /// Evaluates the cycle: it keeps what the code publishes, and records what it puts out.
    pub fn evaluate(&mut self, table: &RegisterTable<N>, frame: &mut [u64], cycle: u64)
        requires table { ComesFrom self.old.post table.now }
        requires rest { self.old.post.view.arrivals ≡ self.old.post.view.passed }
        requires even { self.old.post.view.passed ≡ 2 * cycle }
        requires cycle { cycle < N.script.cycles }
        requires recorded { recorded self.old ≡ cycle }
        requires frame { frame_length self.old.desk.duty.code.now ≤ length frame.old }
        ensures table { ComesFrom self.new.post table.now }
        ensures view { self.new.post.view ≡ self.old.post.view }
        ensures recorded { recorded self.new ≡ cycle + 1 }
        ensures duty { self.new.desk.duty ≡ self.old.desk.duty }
        ensures frame { length frame.new ≡ length frame.old }
    {
        self.desk.record(&mut self.post, table, frame, cycle);
    }

    /// Publishes what the last evaluation kept.
    pub fn publish_all(&mut self, table: &RegisterTable<N>)
        requires table { ComesFrom self.old.post table.now }
        requires rest { self.old.post.view.arrivals ≡ self.old.post.view.passed }
        requires odd { self.old.post.view.passed % 2 ≡ 1 }
        requires none { self.old.post.view.done ≡ 0 }
        ensures table { ComesFrom self.new.post table.now }
        ensures view { self.new.post.view ≡ after_publications self.old.post.view (length (part_of N.script self.old.post.view)) }
        ensures desk { self.new.desk ≡ self.old.desk }
    {
        self.desk.publish(&mut self.post, table);
    }

    /// Ends the phase.
    pub fn arrive(&mut self, table: &RegisterTable<N>)
        requires table { ComesFrom self.old.post table.now }
        requires rest { self.old.post.view.arrivals ≡ self.old.post.view.passed }
        requires before { self.old.post.view.passed < 2 * N.script.cycles }
        requires all { self.old.post.view.passed % 2 ≡ 1 → self.old.post.view.done ≡ length (part_of N.script self.old.post.view) }
        requires recorded { self.old.post.view.passed % 2 ≡ 0 → recorded self.old ≡ self.old.post.view.passed / 2 + 1 }
        ensures table { ComesFrom self.new.post table.now }
        ensures view { self.new.post.view ≡ after_arrival self.old.post.view }
        ensures desk { self.new.desk ≡ self.old.desk }
    {
        self.post.arrive(table);
    }

    /// Waits until all workers have ended the phase, and enters the next.
    pub fn pass<R: Wait>(&mut self, rt: &R, table: &RegisterTable<N>)
        requires table { ComesFrom self.old.post table.now }
        requires arrived { self.old.post.view.arrivals ≡ self.old.post.view.passed + 1 }
        ensures table { ComesFrom self.new.post table.now }
        ensures view { self.new.post.view ≡ after_pass self.old.post.view }
        ensures desk { self.new.desk ≡ self.old.desk }
    {
        self.post.pass(rt, table);
    }
}
