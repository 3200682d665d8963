//! The table and the posts.

ghost use Rattle.std.specs.Prelude.{◌≡◌, ◌+◌, ◌≤◌, [], drop, length};
ghost use Rattle.std.specs.Mem.Slots.{slots_items};
ghost use Rattle.phase_core.specs.Script.{IsScript, values};
ghost use Rattle.register_table.specs.Rule.{seated};

use crate::plan::Plan;
use crate::plays::{Held, Rule};
use atomic_table::{Seat, Table};
use phase_core::View;
use std::alloc::Global;
use std::marker::PhantomData;
use std::snapshot::Snapshot;

// The numbers of the script, and its shape. They stand apart since a ghost field names no member of a parameter that the
// type of another field takes.
#[derive(Drop)]
pub(crate) struct Size<N: Plan> {
    pub(crate) workers: u32,
    pub(crate) words: usize,
    pub(crate) of: PhantomData<N>,
    ghost workers_are: { workers ≡ N.script.workers },
    ghost words_are: { words ≡ length N.script.first },
    ghost shape: { IsScript N.script },
}

/// A barrier word and the words of the script, shared by posts.
#[derive(Drop)]
pub struct RegisterTable<N: Plan> {
    pub(crate) table: Table<(), Held, (), Rule<N>, Global>,
    pub(crate) size: Size<N>,
    ghost words_are: { table.shared.table_id.words ≡ size.words + 1 },
    ghost no_slots: { table.shared.table_id.slots ≡ 0 },
}

/// A place at a table, for the workers of its view. One that is dropped takes no further step.
#[derive(Drop)]
pub struct Post<N: Plan> {
    pub(crate) seat: Seat<(), Held>,
    /// The workers, and where they stand.
    pub view: View,
    pub(crate) of: PhantomData<N>,
    ghost held: { seat.me ≡ (seated view N.script, []) },
    ghost behind: { view.passed ≤ view.arrivals },
    ghost fresh: { view.arrivals ≡ 0 → view.done ≡ 0 },
}

/// A table that was closed behind its last cycle. `RegisterTable::finish` alone makes one: it takes what the table's close
/// gave, whose data words are those behind the last cycle of the script.
#[derive(Drop)]
pub struct Closed {
    pub(crate) last: Snapshot<Seat<(), Held>>,
    pub(crate) end: Snapshot<Ended>,
    ghost words_are: { drop 1 (slots_items end.value.words) ≡ values last.value.me.0.script last.value.me.0.script.cycles },
}

/// What the close of a table gives. Nothing else makes one.
pub(crate) type Ended = atomic_table::Closed<(), Global>;
