//! What an accepted circuit means, cycle by cycle: the values of expressions, what statements drive, the settled valuation of a
//! cycle, the next state, and what leaves read. The definitions stand in specs/ and keep no order of evaluation; the lowerings and
//! checks above name them in their contracts. The functions here do nothing: their contracts are laws of the definitions.
#![tactic(auto)]

pub mod laws;
