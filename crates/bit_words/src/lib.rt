//! Values of a kind and a width of up to 128 bits, numbers as texts write them, and lists that contracts see as lists.
#![tactic(auto)]

pub mod boxed;
pub mod decimal;
pub mod fitting;
pub mod laws;
pub mod list;
pub mod literal;
pub mod number;
pub mod shared;
pub mod value;
pub mod words;

pub use boxed::Boxed;
pub use decimal::push_decimal;
pub use fitting::fit;
pub use list::List;
pub use literal::{least_width, value_from};
pub use number::{Base, Number, NumberFault, digits_value, fits, read_magnitude, read_number};
pub use shared::{Shared, SharedList};
pub use value::{Kind, Value};
pub use words::{from_words, high_word, low_word};

/// Bytes of a text.
pub type Text = List<u8>;

/// Values side by side.
pub type Row = List<Value>;

/// Rows one after another.
pub type Rows = List<Row>;
