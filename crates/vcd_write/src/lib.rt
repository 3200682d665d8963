//! Value change dumps (IEEE 1364, "Value change dump file"; scalar and vector changes alone): the front, what each cycle adds, and the
//! end. Keeps the contract that these together are, byte by byte, the text of the rows, and that this text is read as exactly these rows.
#![tactic(auto)]

pub mod dump;
pub mod examples;
pub mod laws;
mod pushing;
pub mod text;

pub use dump::{push_cycle, vcd_end, vcd_header};
pub use text::DumpText;
