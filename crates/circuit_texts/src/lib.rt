//! What a run writes beside its trace: the value change dump of the leaves that words name, the state that a run goes on from or leads to, and
//! the log of `printf` and `stop` lines.
//!
//! Keeps the contracts that what is written is the dump, the trace from the state that a text says, the text of the state to which the
//! cycles lead, or the log of the circuit under the stimulus, or after a fault a prefix of it, the same for every number of workers; that a
//! circuit has at most one such text under a stimulus; that a dump and a state are read back; and that a run comes in two parts at any cycle.
#![tactic(auto)]

pub mod dump_laws;
pub mod dumping;
mod feeding;
pub mod log_laws;
pub mod logging;
pub mod naming;
pub mod parts;
pub mod resuming;
pub mod run_laws;
pub mod saving;
pub mod starting;
pub mod state_laws;
pub mod stimulus_laws;
mod vars;

pub use dumping::simulate_vcd;
pub use feeding::Resumed;
pub use logging::{LogPlan, simulate_log};
pub use naming::variables;
pub use parts::{Span, rows_from};
pub use resuming::resume;
pub use saving::save;
pub use starting::first_snapshot;
