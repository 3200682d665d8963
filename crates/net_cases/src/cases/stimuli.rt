//! A stimulus: the rows of values that a text gives main's inputs, and how many cycles there may be.

use super::telling::expect;
use bit_words::{Kind, List, Rows, push_decimal};
use ground_net::{PortLeaf, Ports};
use place_text::{Fault, TextPart, fault_line};
use std::alloc::{AllocError, Global};
use std::test::Fail;
use stimulus::{read_stimulus, rows};

/// A text with more bytes, and a list with more items, is no case.
const LONGEST: usize = 1_000_000;

/// The leaves of main's ports: their names, kinds and widths, and whether they are inputs.
const LEAVES: [(&str, Kind, u8, bool); 7] = [
    ("clock", Kind::Unsigned, 1, false),
    ("reset", Kind::Unsigned, 1, true),
    ("a", Kind::Unsigned, 128, true),
    ("s", Kind::Signed, 4, true),
    ("z", Kind::Unsigned, 0, true),
    ("v[0].x", Kind::Unsigned, 8, true),
    ("out", Kind::Unsigned, 8, false),
];

fn ports(alloc: Global) -> Result<Ports, AllocError> {
    let mut inputs = List::new(alloc);
    let mut names = List::new(alloc);
    for (name, kind, width, input) in LEAVES {
        names.push(List::from_slice(alloc, name.as_bytes())?)?;
        if input && width <= 128 {
            inputs.push(PortLeaf {
                name: List::from_slice(alloc, name.as_bytes())?,
                kind,
                width,
                leaf: 0,
            })?;
        }
    }
    Ok(Ports {
        inputs,
        watched: List::new(alloc),
        names,
    })
}

/// Rows as a text: a bar for each row, and a blank and a decimal text for each value.
fn told_rows(alloc: Global, rows: &Rows) -> Option<Vec<u8>> {
    let mut text = Vec::new(alloc);
    for row in rows.as_slice() {
        text.push(b'|').ok()?;
        for value in row.as_slice() {
            text.push(b' ').ok()?;
            push_decimal(&mut text, *value).ok()?;
        }
    }
    Some(text)
}

/// The rows of the last four cycles, or of all where there are fewer; or the line of the fault.
fn told_stimulus(alloc: Global, ports: &Ports, text: &str) -> Option<Vec<u8>> {
    if text.len() > LONGEST || ports.inputs.len() > LONGEST {
        return None;
    }
    match read_stimulus(alloc, text.as_bytes(), ports) {
        Ok(stimulus) => {
            let first = stimulus.cycles.saturating_sub(4);
            let last = rows(alloc, &stimulus, ports, first, stimulus.cycles - first).ok()?;
            told_rows(alloc, &last)
        }
        Err(fault) => fault_line(alloc, TextPart::Stimulus, fault.kind(), fault.place()?).ok(),
    }
}

#[test]
fn values_hold_until_they_are_changed(rt: HostRuntime) -> Result<(), Fail> {
    let ports = ports(rt.alloc())?;
    let text = "cycles 3\n0 s -7\n1 reset 1\n1 s 7\n";
    let told = told_stimulus(rt.alloc(), &ports, text);
    expect(&rt, told, text, "| 0 0 -7 0 0| 1 0 7 0 0| 1 0 7 0 0");
    Ok(())
}

#[test]
fn cycles_have_a_limit_whatever_the_inputs(rt: HostRuntime) -> Result<(), Fail> {
    let ports = ports(rt.alloc())?;
    let fault = "stimulus CyclesRange 1:8\n";
    let zeros = "| 0 0 0 0 0| 0 0 0 0 0| 0 0 0 0 0| 0 0 0 0 0";
    // five leaves are inputs
    for (text, wanted) in [
        ("cycles 0\n", ""),
        ("cycles 1000000\n", zeros),
        ("cycles 1000001\n", fault),
    ] {
        let told = told_stimulus(rt.alloc(), &ports, text);
        expect(&rt, told, text, wanted);
    }
    Ok(())
}
