//! Expressions over components, leaf by leaf, as expressions over numbered leaves. Keeps the contract that each leaf's expression has, at
//! every instant in range, the value of that leaf, its kind and width, and mentions the same leaves; and that what is read and set of a
//! part is, at every instant, the leaf that the indices pick.
#![tactic(auto)]

pub mod choice;
pub mod component;
pub mod constants;
pub mod exprs;
pub mod fitting;
pub mod inside;
pub mod operation;
pub mod part;
pub mod part_sources;
pub mod reading;
pub mod source;
pub mod stepping;
pub mod views;

pub use component::Component;
pub use exprs::lower_expr;
pub use part::{Part, Pick};
pub use source::Source;
