//! The layout of a circuit text: its tokens line by line, with a mark where a block opens and closes.
//! Keeps the contract that the laid list, or the first bad indent, is exactly that of the text's lines.
#![tactic(auto)]

pub mod fault;
pub mod laid;
pub mod layout;
mod lines;

pub use fault::LayoutFault;
pub use laid::Laid;
pub use layout::lay_out;
