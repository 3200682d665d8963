//! The commands as clap has them: one for each name, without help and version flags.

ghost use Rattle.std.specs.Prelude.{◌≡◌, [], IfOk};
ghost use Rattle.clap.specs.Words.{app_of};
ghost use Rattle.command_words.specs.Commands.{app_named, command_with, name_of};

use crate::arguments::{
    circuit, cycles, given_circuit, given_state, leaf, refine, size, state, stimulus, workers,
};
use clap::Command;
use std::alloc::{AllocError, Global};

/// A command's name.
#[derive(Clone, Copy)]
pub enum Name {
    Run,
    Check,
    Widths,
    Cut,
    Make,
    Vcd,
    Refine,
    Save,
    Resume,
    Log,
}

/// The command that a word names.
pub fn name_of(word: &str) -> Option<Name>
    ensures { result ≡ name_of word.now }
{
    match word {
        "run" => Some(Name::Run),
        "check" => Some(Name::Check),
        "widths" => Some(Name::Widths),
        "cut" => Some(Name::Cut),
        "make" => Some(Name::Make),
        "vcd" => Some(Name::Vcd),
        "refine" => Some(Name::Refine),
        "save" => Some(Name::Save),
        "resume" => Some(Name::Resume),
        "log" => Some(Name::Log),
        _ => None,
    }
}

/// The command of a name, with its arguments.
pub fn command<'a>(alloc: Global, name: Name) -> Result<Command<'a>, AllocError>
    ensures { IfOk result (λ command. app_of command ≡ app_named name) }
{
    match name {
        Name::Run => bare(alloc, "run")
            .arg(workers(alloc))?
            .arg(refine(alloc))?
            .arg(circuit(alloc))?
            .arg(stimulus(alloc)),
        Name::Check => bare(alloc, "check").arg(circuit(alloc)),
        Name::Widths => bare(alloc, "widths").arg(circuit(alloc)),
        Name::Cut => bare(alloc, "cut").arg(workers(alloc))?.arg(circuit(alloc)),
        Name::Make => bare(alloc, "make")
            .arg(workers(alloc))?
            .arg(cycles(alloc))?
            .arg(size(alloc)),
        Name::Vcd => bare(alloc, "vcd")
            .arg(workers(alloc))?
            .arg(given_circuit(alloc))?
            .arg(leaf(alloc)),
        Name::Refine => bare(alloc, "refine")
            .arg(workers(alloc))?
            .arg(circuit(alloc)),
        Name::Save => bare(alloc, "save")
            .arg(workers(alloc))?
            .arg(given_circuit(alloc))?
            .arg(state(alloc)),
        Name::Resume => bare(alloc, "resume")
            .arg(workers(alloc))?
            .arg(given_circuit(alloc))?
            .arg(given_state(alloc)),
        Name::Log => bare(alloc, "log").arg(workers(alloc))?.arg(circuit(alloc)),
    }
}

/// A command without arguments, and without help and version flags.
fn bare<'a>(alloc: Global, name: &'a str) -> Command<'a>
    ensures { app_of result ≡ command_with name.entry.now [] }
{
    Command::new(alloc, name)
        .disable_help_flag(true)
        .disable_version_flag(true)
}
