//! Lines and listings: the lines of a trace, and the listing of a circuit's widths. Keeps the contract that each is, byte by
//! byte, the text of what it is made from.
#![tactic(auto)]

pub mod component;
pub mod declarations;
mod leaf_lines;
mod listing;
mod trace;

pub use component::Component;
pub use declarations::components;
pub use listing::widths_text;
pub use trace::{header, push_trace_line, trace_line};
