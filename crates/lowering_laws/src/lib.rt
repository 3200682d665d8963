//! From the passes to the circuit: ground statements, drivers and the flat circuit, each as its pass says, are together the flat circuit of
//! the circuit; its drivers have its instances, and what its leaves read and its registers hold next is what the circuit says. Keeps the
//! contracts of laws; the functions do nothing.
#![tactic(auto)]

pub mod instance_laws;
pub mod laws;
pub mod read_laws;
