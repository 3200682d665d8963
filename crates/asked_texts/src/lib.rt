//! What the words of a command line ask for: what is done with which texts, and by how many workers; and where the stimulus begins in a
//! text that holds the circuit's as well. Keeps the contracts that `order_of` answers the question of the request, and that `split`
//! answers the text before the first line `%stimulus` and the one behind it, or nothing exactly where there is no such line.
#![tactic(auto)]

pub mod laws;
pub mod texts;
pub mod words;

pub use texts::{WholeFault, split};
pub use words::{Asked, Command, Keeping, Order, StateText, order_of};
