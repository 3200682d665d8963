//! Circuits as ground statements over numbered leaves: the table of each module's leaves, and modules with their registers, memories and
//! instances. Keeps the contract that the table is what the module's components say, and that the statements are those of the circuit.
#![tactic(auto)]

pub mod declarations;
pub mod ground_tables;
pub mod instances;
pub mod laws;
pub mod lowering;
pub mod memories;
pub mod modules;
pub mod pieces;
pub mod registers;
pub mod table;
pub mod view;

pub use declarations::{Declaration, Sort};
pub use lowering::lower;
pub use pieces::{Piece, pieces_of};
