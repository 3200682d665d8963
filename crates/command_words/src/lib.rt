//! What the words of a command line ask for. Keeps the contract that `read_words` answers the request of the definition, which
//! takes clap's matches of one simple command for each name, and nothing exactly where the words are no command line.
#![tactic(auto)]

mod arguments;
pub mod command;
mod commands;
pub mod laws;
pub mod reading;

pub use command::Command;
pub use reading::read_words;
