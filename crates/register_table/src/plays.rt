//! The rule of the table, and what each step tells.

ghost use Rattle.std.specs.Prelude.{ℕ};
ghost use Rattle.register_table.specs.Rule.{Holds, seated, begin_view, looked, arrived, loaded, published, left_of, right_of, both_of, spent_of};

use crate::plan::Plan;
use atomic_table::{Join, Play, Split, TableRule};
use phase_core::{Script, View};
use std::marker::{Brand, PhantomData};

// What a seat at the table knows. No value of it is made.
pub struct Held {
    pub view: Option<View>,
    pub script: Script,
}

// The words and the live views are sound for the plan's script.
pub struct Rule<N> {
    of: PhantomData<N>,
}

impl<N: Plan> TableRule<(), Held, ()> for Rule<N> {
    ghost holds = { λ _ st. Holds N.script st.words st.views };

    ghost first = { λ _. seated (begin_view N.script) N.script };
}

// A load of the barrier, which stays or passes.
pub(crate) struct Look<N> {
    of: PhantomData<N>,
}

impl<N: Plan> Play<(), Held> for Look<N> {
    ghost then = { looked N.script };
}

// An addition to the barrier.
pub(crate) struct Arrive;

impl Play<(), Held> for Arrive {
    ghost then = { arrived };
}

// A load of a data word.
pub(crate) struct Load<N> {
    of: PhantomData<N>,
}

impl<N: Plan> Play<(), Held> for Load<N> {
    ghost then = { loaded N.script };
}

// A store in a data word.
pub(crate) struct Publish;

impl Play<(), Held> for Publish {
    ghost then = { published };
}

// Where a view is cut: a call picks the place.
pub(crate) trait Place {
    ghost at: { ℕ };
}

impl Place for Brand {
    ghost at = { 0 };
}

pub(crate) struct Cut<B> {
    of: PhantomData<B>,
}

impl<B: Place> Split<Held> for Cut<B> {
    ghost left = { left_of B.at };

    ghost right = { right_of B.at };
}

// The view of a post and that of one beside it.
pub(crate) struct Unite<N> {
    of: PhantomData<N>,
}

impl<N: Plan> Join<Held> for Unite<N> {
    ghost both = { both_of };

    ghost spent = { spent_of N.script };
}
