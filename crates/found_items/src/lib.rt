//! The items of the run of a fitted circuit, its `printf` and `stop` lines, found in its net: for each item of each instance the numbers in
//! flat order of the leaves of its wire and of its arguments. Keeps the contract that these are all items of the run in the order in which
//! they print, and that each leaf is the one that the item's names say.
#![tactic(auto)]

pub mod finding;
pub mod found;
pub mod naming;
pub mod owned;
pub mod table;
pub mod walk;

pub use finding::found_items;
pub use found::{ItemAt, item_at};
pub use table::{Makes, Row, Table};
pub use walk::items_of;
