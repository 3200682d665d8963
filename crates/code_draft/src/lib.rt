//! Code that grows by pieces: instructions that fetch constants, shared words and inputs or compute words, and wide values, each with
//! slots of their own; what codes publish, the words of a value that stands at a location and what a port of a memory writes; and whole
//! codes from drafts. Keeps the contracts that every frame that solves the code has the wanted value at the location, that a run leaves such
//! a frame, that pieces come together as one code, that in every frame in which the values stand there exactly these words are published
//! behind what was published before (FIRRTL specification 3.0, "Memories"), and that a step of the finished code has the effects of its
//! draft. And where the values of leaves are found, and leaves whose words stand in a row: what is taken for a row is one, and in every
//! frame that solves the code of a load by an index the location has the value of the element at the index, and 0 past the last one
//! (FIRRTL specification 3.0, "Sub-accesses").
#![tactic(auto)]

pub mod code_pieces;
pub mod computing;
pub mod draft;
pub mod fetching;
pub mod finishing;
pub mod laws;
pub mod loading;
pub mod places;
pub mod publishing;
pub mod rows;
pub mod sources;
pub mod steps;
pub mod wide_values;
pub mod writing;

pub use computing::computed;
pub use draft::Draft;
pub use fetching::{constant, input, load, low_mask};
pub use finishing::finish;
pub use loading::load_row;
pub use publishing::publish;
pub use rows::row_of;
pub use sources::{Elements, Kept, Source, Sources};
pub use steps::{add_instr, instr_of};
pub use wide_values::wide_value;
pub use writing::publish_by;
