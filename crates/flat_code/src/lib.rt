//! Code of a partition as flat instructions over the words of a frame: what an instruction means, and a step of a code. Keeps the
//! contract that a step's effects are a function of the code, the shared words and the inputs, whatever the frame held.
#![tactic(auto)]

pub mod changes;
pub mod code;
pub mod evaluation;
pub mod instr;
pub mod laws;
pub mod loads;
pub mod running;
pub mod runs;

pub use changes::publishing_changes;
pub use code::{Code, Span};
pub use instr::{Form, Instr, Location, Op, Port, Region, Run, Wide};
pub use loads::Loads;
pub use running::{Effects, step};
pub use runs::with_runs;
