//! The listing of a circuit's cut, and that of its refined cut. Keeps the contract that each is, byte by byte, the text of the cut of the
//! circuit's net, which is one, whichever net of the circuit is cut and in whichever order its assignments stand.
#![tactic(auto)]

pub mod cut_laws;
pub mod cut_print;
mod listing;
pub mod refine_laws;
mod refine_print;
mod refined_listing;

pub use cut_print::cut_text;
pub use listing::circuit_cut;
pub use refine_print::refine_text;
pub use refined_listing::circuit_refine;
