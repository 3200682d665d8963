//! Laws of depth: a list of tokens goes nowhere too deep exactly where the tree of lines that it spells goes nowhere too deep. The functions
//! here do nothing: their contracts are the laws.
#![tactic(auto)]

pub mod laws;
