//! Laws of the circuits that the checks of names, types and widths let pass: they are well formed. The functions here do nothing:
//! their contracts are the laws.
#![tactic(auto)]

pub mod laws;
