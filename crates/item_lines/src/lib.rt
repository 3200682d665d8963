//! Lines of a module as a text writes them: statements, and the items `printf` and `stop`, with what each item stands for.
#![tactic(auto)]

pub mod format;
pub mod item;
pub mod line;

pub use format::read_format;
pub use item::{head_stmts, item_stmts};
pub use line::{Line, LineArm, LineModule};
