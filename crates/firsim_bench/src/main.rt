//! Times the cycles of a code over a mix of all operations, from outside. The words of the command line say how large it is, in which order its
//! instructions stand, and how many cycles are run (`codes`). The status is 1 where they ask for nothing.
#![tactic(auto)]

mod codes;
mod lines;

use lines::{Words, line_of};
use std::process::ExitCode;

fn main(rt: HostRuntime) -> ExitCode {
    match run(&rt) {
        Some(()) => ExitCode::from(0),
        None => ExitCode::from(1),
    }
}

/// Makes the run that the command line asks for.
fn run(rt: &HostRuntime) -> Option<()> {
    let line = line_of(rt)?;
    let mut words = Words::of(line.as_str());
    codes::run(rt, &mut words)
}
