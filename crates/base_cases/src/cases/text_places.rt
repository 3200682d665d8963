//! Places in texts, and the lines of faults.

use super::telling::expect;
use place_text::{Place, TextPart, fault_line, place_of};
use std::test::Fail;

#[test]
fn finds_places(rt: HostRuntime) {
    let places = [(0, 1, 1), (1, 1, 2), (2, 2, 1), (3, 2, 2), (4, 2, 3)];
    for (offset, line, column) in places {
        let place = place_of(b"a\nbc", offset);
        expect(&rt, offset, place, Place { line, column });
    }
}

#[test]
fn names_a_fault(rt: HostRuntime) -> Result<(), Fail> {
    for (part, kind, line, column, wanted) in [
        (
            TextPart::Circuit,
            "BadSyntax",
            12,
            3,
            "circuit BadSyntax 12:3\n",
        ),
        (
            TextPart::Stimulus,
            "TooLong",
            1,
            1,
            "stimulus TooLong 1:1\n",
        ),
    ] {
        let written = fault_line(rt.alloc(), part, kind, Place { line, column })?;
        expect(&rt, kind, written.as_slice(), wanted.as_bytes());
    }
    Ok(())
}
