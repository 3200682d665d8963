//! What the codes of the partitions of a net are: what each leaves and puts out, and which words it owns; what a cycle of a net leaves to the
//! next one, sink by sink, as publications of words, each of one sink, whatever the split into parts; and the code of assignments, one after
//! the other. Laws of the codes of one cut: each word has one owner, each place of the watch list is of one code, and over a whole cycle
//! their publications make the words of the next state and their outputs are the settled values of the watched leaves. Keeps the contract
//! that an instant in which the leaves have their drivers' values shows, in every frame that solves the code of assignments, what their
//! sources show.
#![tactic(auto)]

pub mod assigning;
pub mod code_cuts;
pub mod code_laws;
pub mod examples;
pub mod laws;
pub mod sink_laws;
pub mod sink_words;
pub mod source_laws;
pub mod split_laws;

pub use assigning::assign_all;
