//! Laws of widths: the rules of each circuit have least widths, and a circuit whose widths have no fault has the types that they make
//! sure of. The functions here do nothing: their contracts are the laws.
#![tactic(auto)]

pub mod fit_laws;
pub mod laws;
