//! Tables of the bundles within a type, made once: where the field of a name stands, how many leaves stand before it, and the tables of the
//! fields whose types are bundles themselves, or vectors of such. Keeps the contract that what is found by a table is what is found by a
//! walk over the fields, in constant time.
#![tactic(auto)]

pub mod made;
pub mod making;
pub mod table;
pub mod tabled;
pub mod tabled_type;

pub use making::Tables;
pub use table::{FieldTable, Inner};
pub use tabled::Tabled;
pub use tabled_type::TabledType;
