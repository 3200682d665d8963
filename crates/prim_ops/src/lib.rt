//! The primitive operations: how they are written, how many operands and parameters each takes, and the kind, the width and
//! the value of its result. The contracts give for each operation exactly its row of the table. Beside them stands what the
//! meaning of a circuit and the meaning of its net both say of values: the value that an integer is fitted to, the value of
//! an operation, when a condition holds, and what the ports of a memory write and read, with laws of these definitions.
#![tactic(auto)]

mod bitwise;
pub mod cycle_laws;
pub mod kinds;
pub mod laws;
pub mod operation;
mod orders;
mod places;
mod quotients;
mod sums;
pub mod values;
pub mod widths;
mod words;

pub use kinds::kind_of;
pub use operation::{PrimOp as Prim, arity, in_version, named};
pub use values::value_of;
pub use widths::{Width, params_fit, width_of};
