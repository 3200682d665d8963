//! Laws of names: which bytes the names of a text and of its items have, and that the names of the leaves and memories of its net are single
//! words, without a space and without a line feed. The functions here do nothing: their contracts are the laws.
#![tactic(auto)]

pub mod laws;
