//! A run of a circuit by workers in threads. It is held between its cycles, begins with any words, by the cut that its workers ask for or
//! by a given one, and shows any leaves that are watched. What a row writes is a trait, whose first case is the trace: the names of the
//! watched leaves, and then a line for each cycle.
//!
//! Keeps the contract that a run advances by settled values and next states, and that its tables were closed behind these cycles; that
//! what is written is the text of its rows, or after a fault a prefix of it; that a trace is that of the circuit under the stimulus, the
//! same for every number of workers; and that `summarize` answers the summary of that trace.
#![tactic(auto)]

pub mod crew;
pub mod feed;
mod kept;
pub mod laws;
mod plan;
pub mod run;
pub mod running;
pub mod summary;
pub mod trace_summary;
pub mod trace_text;
pub mod writing;

pub use crew::{codes_of, watched_numbers};
pub use feed::{Feed, Stimulated};
pub use plan::{CutPlan, Host, Plan};
pub use row_texts::{Spot, Teller};
pub use run::{Held, Run};
pub use running::{simulate, simulate_cut, simulate_within};
pub use summary::summarize;
pub use trace_text::{TraceText, names_of};
pub use worker_crew::ThreadLimit;
pub use writing::{Course, epoch_of, write_run};
