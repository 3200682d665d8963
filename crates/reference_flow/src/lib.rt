//! The flows of references. Keeps the contract that a reference's number is answered by its flow among those of all
//! references in text order.
#![tactic(auto)]

mod component;
mod declaration;
mod flows;

pub use flows::flow_of;
