//! Texts that are read by name, and bytes that are written.
//!
//! The traits `Shelf` and `Sink` say what each call on the outside does and which count of faults rises where it fails.
//! `take_text` takes exactly the named text, and `put_all` writes all bytes, or a prefix of them where a write failed, over
//! every shelf and every sink. `ShelfMemory` and `SinkMemory` keep the traits' promises over memory, with calls that fail on
//! demand, and `ShelfReal` and `SinkReal` over the files and the standard streams of the process.
#![tactic(auto)]

pub mod memory;
pub mod real;
pub mod take;
pub mod traits;

pub use memory::{ShelfMemory, SinkMemory};
pub use real::{ShelfReal, SinkReal};
pub use take::{TakeFault, take_text};
pub use traits::{Shelf, ShelfFailed, Sink, SinkFailed, put_all};
