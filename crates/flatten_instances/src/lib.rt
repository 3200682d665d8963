//! One flat circuit in place of modules and their instances: all leaves of a run in flat order, each with its driver. Keeps the
//! contract of `flatten`: a leaf has the driver that its module gives it, or, as the input of an instance, that of the
//! instance's holder, with the flat numbers of the leaves that the module sees.
#![tactic(auto)]

mod circuit;
mod drivers;
pub mod laws;
mod leaves;
mod memories;
mod plan;
mod registers;
mod walk;

pub use circuit::flatten;
