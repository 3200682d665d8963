//! Laws of the checks of names and types: what a circuit without a fault is sure of. Modules and scopes have different names; equivalent
//! types share their leaves; what stands in statements has the types, the kinds and the flows that the checks saw; and the table of flows
//! agrees with the judgement of types. The functions here do nothing: their contracts are the laws.
#![tactic(auto)]

pub mod flow_laws;
pub mod laws;
pub mod name_laws;
pub mod node_laws;
pub mod shaped_nodes;
pub mod type_laws;
