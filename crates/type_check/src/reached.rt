//! What a reference has come to.

use fir_tree::Flow;
use type_index::Known;

/// What a reference has come to.
#[derive(Clone, Copy)]
pub struct Reached<'a> {
    /// Its type, with what is known of it.
    pub known: Known<'a>,
    pub flow: Flow,
}
