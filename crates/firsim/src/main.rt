//! The program: the words of the command line, the files and standard streams of this process, and the top call.
#![tactic(auto)]

use crew_workers::OpenGate;
use shelf_io::{ShelfReal, SinkReal};
use sim_top::run_program;
use std::alloc::{AllocError, Global};
use std::env;
use std::io::ErrorKind;
use std::process::ExitCode;

fn main(rt: HostRuntime) -> ExitCode {
    let alloc = rt.alloc();
    let Ok(words) = words(&rt, alloc) else {
        return ExitCode::from(6);
    };
    let mut shelf = ShelfReal::new(&rt);
    let mut sink = SinkReal::new(&rt);
    let status = run_program(&rt, alloc, &words, &mut shelf, &mut sink, &OpenGate);
    ExitCode::from(status)
}

/// The words behind the program's name. Where one is not UTF-8 there are none, which is no command.
fn words(rt: &HostRuntime, alloc: Global) -> Result<Vec<String>, AllocError> {
    let mut words = Vec::new(alloc);
    match env::args(rt) {
        Ok(args) => {
            for word in args.skip(1) {
                words.push(word)?;
            }
            Ok(words)
        }
        Err(error) if error.kind() == ErrorKind::OutOfMemory => Err(AllocError),
        Err(_) => Ok(words),
    }
}
