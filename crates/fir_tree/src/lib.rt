//! The tree of a circuit, its names, what later stages find out about it, and the reasons to refuse a text; the texts of leaves and how
//! many bytes they have; and the parts of components, with their flows and kinds. Keeps the contract that each function answers what its
//! definition says.
#![tactic(auto)]

pub mod circuit;
pub mod expr;
pub mod fault;
pub mod kinds;
pub mod leaf_names;
pub mod name_sizes;
pub mod names;
pub mod part;
pub mod print;
pub mod scope;
pub mod steps;
pub mod stmt;

pub use circuit::{Circuit, Module};
pub use expr::{Expr, Form, Suffix};
pub use fault::ParseFault;
pub use leaf_names::{leaf_name, push_name, push_step, push_way};
pub use name_sizes::{Ways, name_length, names_by, names_of, ways_of};
pub use names::Names;
pub use part::{Flow, Part};
pub use print::{Piece, PrintItem, Radix};
pub use scope::{Checked, Fitted, Scope, Types};
pub use stmt::{Arm, Stmt};
