//! The codes of the parts of a cut: of each part the sources of the net, its assignments in turn, the code of its sinks, and the whole with
//! equal instructions once where that has room, in a faster order and in few slots. Keeps the contract that there is one code for each part,
//! which publishes exactly what the part's sinks leave, puts out the settled values of the part's watched leaves, and owns the words of the
//! part's sinks. Where these leaves are assignments, it takes no more slots than two for each assignment that is live at once and for each
//! node of the largest driver. A law says that a code of such layers leaves what its sinks leave, whatever words a cycle begins with.
#![tactic(auto)]

pub mod adding;
mod arranging;
pub mod captured;
pub mod compiling;
pub mod counting;
pub mod frame_laws;
pub mod live_count;
pub mod net_sources;
mod node_count;
pub mod part_code;
pub mod part_laws;
pub mod place_laws;
pub mod room;
pub mod sink_code;
pub mod sources;
pub mod spans;
pub mod state_laws;
pub mod turn_laws;
pub mod words;
pub mod work;

pub use captured::{CapturedRead, captured_reads};
pub use compiling::compile;
pub use room::room_of;
pub use sink_code::{add_register, show_leaf};
pub use sources::sources_of;
pub use spans::{own_memory, own_register};
pub use words::{FirstWords, element_words, first_words, have_numbers, memory_words};
pub use work::{Made, Plan, Work};
