//! What is told is compared with what is wanted.

use std::process::Abort;

/// Compares what is told of a case with what is wanted.
pub fn expect(rt: &impl Abort, told: Option<Vec<u8>>, case: &str, wanted: &str) {
    match told {
        Some(told) => assert_eq!(rt; told.as_slice(), wanted.as_bytes(), "at {case}"),
        None => assert!(rt; false, "no answer at {case}"),
    }
}
