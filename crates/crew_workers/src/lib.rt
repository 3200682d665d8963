//! Workers at the posts of a register table: each evaluates its code in the even phases and publishes in the odd ones; and the codes of one
//! cut on one thread, the plain program that an epoch in threads is compared with.
//!
//! Keeps the contract that `drive`, if it returns, leaves each worker behind its last phase, with its code's outputs of all cycles, as the
//! script of the table says, and that an epoch on one thread gives the same. `Worker::pass` and `drive` wait; nothing else does.
#![tactic(auto)]

mod calls;
pub mod crew_laws;
mod gate;
mod make;
mod phases;
mod places;
mod reading;
mod turns;
mod worker;

pub use gate::{Gate, OpenGate};
pub use phases::{Stint, drive, drive_one};
pub use places::{longest_frame, most_published, place, row_width};
pub use turns::{Work, run_in_turns};
pub use worker::{Duty, Worker};
