//! What is found is compared with what is wanted.

use std::fmt::Debug;
use std::process::Abort;

/// Compares what was found in a case with what is wanted.
pub(crate) fn expect<C: Debug + Drop, T: Debug + PartialEq + Drop>(
    rt: &impl Abort,
    case: C,
    found: T,
    wanted: T,
) {
    assert_eq!(rt; found, wanted, "at {case:?}");
}
