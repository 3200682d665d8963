//! The net that the passes make of an initialized circuit is the circuit's and has all that a net needs: each of its leaves, drivers, reads,
//! registers and memories. Keeps the contracts of laws; the functions do nothing.
#![tactic(auto)]

pub mod laws;
pub mod sound_laws;
