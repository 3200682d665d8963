//! The modules of a circuit and the components of a module by name, and what is often asked of their types, found once and kept.
#![tactic(auto)]

pub mod components;
pub mod modules;
pub mod reference;

pub use components::{Component, Components};
pub use modules::{Modules, insert_new};
pub use reference::{Reference, reference_of};
