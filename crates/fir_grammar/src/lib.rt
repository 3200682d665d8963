//! The grammar of circuit texts: which laid list derives which tree, which lists are fronts of a text, how far a reader of
//! such a list has come, and which token is the fault of one.
#![tactic(auto)]

pub mod laws;
