//! What the items of a circuit print, its `printf` and `stop` lines: the text of a `printf` with the values of its arguments, and of a run the
//! texts of all items, cycle by cycle, with the line at its end. Keeps the contract that each is, byte by byte, the text that the
//! definitions say; and what a log of a run is, with laws of which items print and when. Such a law is a function that does nothing, whose
//! contract is the law.
#![tactic(auto)]

pub mod digits;
pub mod log;
pub mod log_laws;
pub mod print_laws;
pub mod text;

pub use item_lines::{head_stmts, item_stmts, read_format};
pub use log::Log;
pub use text::print_text;
