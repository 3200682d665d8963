//! Single tokens of a laid list as the grammar asks for them: what is asked for is taken, and anything else is refused.
//! The contract of each call is that of a reader of one terminal of the grammar: what it takes is such a piece that doesn't go
//! too deep, and a refusal is the grammar's, with its kind and place. Places are looked up in a table of the lines, once it
//! has been made.
#![tactic(auto)]

mod brackets;
pub mod take;
pub mod text;

pub use brackets::{MOST, open_bracket, open_call, take_suffix};
pub use take::{
    NameSort, before_bracket, bytes, is_mark, is_word, number_at, part_at, place_of_part, refusal,
    refusal_at, start, take_mark, take_name, take_number,
};
pub use text::{Text, lines_of};
