//! The compiler: from the bytes of a circuit's text to the net that serves the circuit, through all stages: tokens, layout, grammar,
//! names, resets, types, size, widths, driven leaves, clocks, ground statements, the passes to the net, and loops. Keeps the contract that
//! `compile_text` answers the circuit that the text spells, with its fitted types and its net, whose assignments stand in an order, or
//! exactly the first fault of the text.
#![tactic(auto)]

pub mod compile;
pub mod fault;
pub mod fitting;
pub mod laws;
pub mod net_passes;
pub mod ordering;
pub mod passes;
pub mod passing;

pub use compile::{Built, CIRCUIT_LIMIT, compile_text};
pub use fault::CircuitFault;
pub use fitting::fit_text;
pub use ordering::ordered_net;
pub use passes::net_of_statements;
pub use passing::order_lowered;
