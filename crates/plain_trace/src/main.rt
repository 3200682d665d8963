//! Runs a circuit as it is written, and again by its net, and compares the traces byte by byte. Standard input has the text of the circuit,
//! the line `%stimulus` and the text of the stimulus. It writes the trace of the circuit as it is written, and as a last line `same` or
//! `other`, with status 0 or 1. Where there is no trace it writes what is at fault, `text`, `circuit`, `stimulus` or `memory`, with status 2;
//! where the answer can't be written the status is 5.
#![tactic(auto)]

mod fault;
mod reading;
mod traces;

use fault::Fault;
use reading::{read, take_input};
use shelf_io::{SinkReal, put_all};
use std::alloc::Global;
use std::process::ExitCode;
use traces::{is_compiled_trace, plain_trace};

fn main(rt: HostRuntime) -> ExitCode {
    match answer(&rt) {
        Ok(outcome) => {
            let mut sink = SinkReal::new(&rt);
            match put_all(&mut sink, outcome.text.as_slice()) {
                Ok(()) => ExitCode::from(outcome.status),
                Err(_) => ExitCode::from(5),
            }
        }
        Err(fault) => match println!(rt; "{}", fault.name()) {
            Ok(()) => ExitCode::from(2),
            Err(_) => ExitCode::from(5),
        },
    }
}

/// A trace with the line behind it, and the status that says the same.
#[derive(Drop)]
struct Outcome {
    text: Vec<u8>,
    status: u8,
}

/// What is answered to the text on standard input.
fn answer(rt: &HostRuntime) -> Result<Outcome, Fault> {
    let text = take_input(rt)?;
    Ok(compare(rt.alloc(), text.as_slice())?)
}

/// The trace of the circuit as it is written, and whether the compiled run has the same one.
fn compare(alloc: Global, text: &[u8]) -> Result<Outcome, Fault> {
    let given = read(alloc, text)?;
    let mut text = plain_trace(alloc, &given)?;
    let same = is_compiled_trace(alloc, &given, text.as_slice())?;
    let (line, status) = if same {
        (b"same\n".as_slice(), 0)
    } else {
        (b"other\n".as_slice(), 1)
    };
    text.extend_from_slice(line)?;
    Ok(Outcome { text, status })
}
