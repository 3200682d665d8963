//! A barrier word and data words that workers share, each step one atomic step of the phase core.
//!
//! `RegisterTable::open` gives a table and one post of all workers, `Post::share` cuts a post in two. A worker drives
//! its own post: in an even phase it `read`s, in an odd one it `publish`es, and between two phases it `arrive`s and
//! `pass`es. At the end the posts are `unite`d, and `finish` gives the words behind the last cycle.
//!
//! At every moment the words and the views of the posts are sound for the table's script, which the type's name `Plan`
//! carries. No step takes a lock, and `pass` alone waits.
#![tactic(auto)]

mod laws;
mod plan;
mod plays;
mod post;
mod table;

pub use laws::calls_are_steps;
pub use plan::Plan;
pub use table::{Closed, Post, RegisterTable};
