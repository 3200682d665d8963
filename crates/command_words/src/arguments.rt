//! The arguments that clap reads.

ghost use Rattle.command_words.specs.Commands.{Follows, circuit_rule, cycles_rule, given_circuit_rule, given_state_rule, leaf_rule, number_rule, refine_rule, size_rule, state_rule, stimulus_rule, workers_rule};

use clap::builder::ValueParser;
use clap::{Arg, ArgAction, value_parser};
use std::alloc::Global;

/// `--workers P`.
pub fn workers<'a>(alloc: Global) -> Arg<'a>
    ensures { Follows workers_rule result }
{
    number(alloc, "workers", value_parser!(u32).range(1..=64)).long("workers")
}

/// `--cycles C`.
pub fn cycles<'a>(alloc: Global) -> Arg<'a>
    ensures { Follows cycles_rule result }
{
    number(alloc, "cycles", value_parser!(u32).range(1..=4096)).long("cycles")
}

/// `N`.
pub fn size<'a>(alloc: Global) -> Arg<'a>
    ensures { Follows size_rule result }
{
    number(alloc, "size", value_parser!(u32).range(1..=4096)).required(true)
}

/// A number, which is set at most once.
fn number<'a>(alloc: Global, id: &'a str, parser: ValueParser<'a>) -> Arg<'a>
    ensures { Follows (number_rule id.entry.now parser.entry) result }
{
    Arg::new(alloc, id)
        .action(ArgAction::Set)
        .value_parser(parser)
}

/// `--refine`.
pub fn refine<'a>(alloc: Global) -> Arg<'a>
    ensures { Follows refine_rule result }
{
    Arg::new(alloc, "refine")
        .action(ArgAction::SetTrue)
        .long("refine")
}

/// `CIRCUIT`.
pub fn circuit<'a>(alloc: Global) -> Arg<'a>
    ensures { Follows circuit_rule result }
{
    Arg::new(alloc, "circuit")
}

/// `CIRCUIT`, which must be given.
pub fn given_circuit<'a>(alloc: Global) -> Arg<'a>
    ensures { Follows given_circuit_rule result }
{
    circuit(alloc).required(true)
}

/// `STIMULUS`.
pub fn stimulus<'a>(alloc: Global) -> Arg<'a>
    ensures { Follows stimulus_rule result }
{
    Arg::new(alloc, "stimulus")
}

/// `STATE`.
pub fn state<'a>(alloc: Global) -> Arg<'a>
    ensures { Follows state_rule result }
{
    Arg::new(alloc, "state")
}

/// `STATE`, which must be given.
pub fn given_state<'a>(alloc: Global) -> Arg<'a>
    ensures { Follows given_state_rule result }
{
    state(alloc).action(ArgAction::Set).required(true)
}

/// `LEAF ...`.
pub fn leaf<'a>(alloc: Global) -> Arg<'a>
    ensures { Follows leaf_rule result }
{
    Arg::new(alloc, "leaf")
        .action(ArgAction::Append)
        .num_args(0..)
}
