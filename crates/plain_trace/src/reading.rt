//! The texts of a circuit and of a stimulus, from standard input.

ghost use Rattle.std.specs.Prelude.{◌≤◌, IfOk, length};
ghost use Rattle.circuit_laws.specs.WellFormed.{IsWellFormed};
ghost use Rattle.sim_engine.specs.Stages.{circuit_limit};
ghost use Rattle.sim_engine.specs.Building.{IsBuilt};
ghost use Rattle.circuit_run.specs.NetRuns.{IsPlanned};
ghost use Rattle.plain_run.specs.Settling.{CanSettle};

use crate::fault::Fault;
use shelf_io::{ShelfReal, TakeFault, take_text};
use sim_engine::laws::accepted_circuits_are_well_formed;
use sim_engine::{Built, CIRCUIT_LIMIT, CircuitFault, compile_text};
use std::alloc::Global;
use stimulus::{StimFault, Stimulus, read_stimulus};

/// Both texts and the line between them have at most so many bytes.
const JOINED_LIMIT: usize = 20_971_520;

/// A stimulus's text has at most so many bytes.
const STIMULUS_LIMIT: usize = 4_194_304;

/// A circuit and its net, and a stimulus for them.
#[derive(Drop)]
pub struct Given {
    pub built: Built,
    pub stimulus: Stimulus,
}

/// The text on standard input.
pub fn take_input(rt: &HostRuntime) -> Result<Vec<u8>, Fault> {
    let mut shelf = ShelfReal::new(rt);
    match take_text(rt.alloc(), &mut shelf, "-", JOINED_LIMIT) {
        Ok(text) => Ok(text),
        Err(TakeFault::NoMemory) => Err(Fault::Memory),
        Err(_) => Err(Fault::Text),
    }
}

/// The circuit and the stimulus that a joined text writes.
pub fn read(alloc: Global, text: &[u8]) -> Result<Given, Fault>
    ensures planned { IfOk result (λ given. IsPlanned given.built.ordered given.built.ports given.stimulus) }
    ensures well { IfOk result (λ given. IsWellFormed given.built.fitted) }
    ensures settles { IfOk result (λ given. CanSettle given.built.fitted) }
{
    let Some((circuit, stimulus)) = split(text) else {
        return Err(Fault::Text);
    };
    if circuit.len() > CIRCUIT_LIMIT {
        return Err(Fault::Circuit);
    }
    let built = compiled(alloc, circuit)?;
    let Ok(_) = u32::try_from(built.ports.inputs.len()) else {
        return Err(Fault::Memory);
    };
    if stimulus.len() > STIMULUS_LIMIT {
        return Err(Fault::Stimulus);
    }
    match read_stimulus(alloc, stimulus, &built.ports) {
        Ok(stimulus) => Ok(Given { built, stimulus }),
        Err(StimFault::NoMemory) => Err(Fault::Memory),
        Err(_) => Err(Fault::Stimulus),
    }
}

/// The circuit that a text writes, and its net.
fn compiled(alloc: Global, circuit: &[u8]) -> Result<Built, Fault>
    requires { length circuit.now ≤ circuit_limit }
    ensures built { IfOk result (IsBuilt circuit.now) }
    ensures well { IfOk result (λ built. IsWellFormed built.fitted) }
    ensures settles { IfOk result (λ built. CanSettle built.fitted) }
{
    accepted_circuits_are_well_formed();
    match compile_text(alloc, circuit) {
        Ok(built) => Ok(built),
        Err(CircuitFault::NoMemory) => Err(Fault::Memory),
        Err(_) => Err(Fault::Circuit),
    }
}

/// The text before the first line `%stimulus`, and the text behind that line.
fn split(text: &[u8]) -> Option<(&[u8], &[u8])> {
    for at in 0..text.len() {
        if let Some(behind) = behind_line(&text[at..]) {
            return Some((&text[..at + 1], behind));
        }
    }
    None
}

/// What stands behind a line feed and the line `%stimulus`, where the bytes begin with these.
fn behind_line(bytes: &[u8]) -> Option<&[u8]> {
    for line in [b"\n%stimulus\n".as_slice(), b"\n%stimulus\r\n".as_slice()] {
        if bytes.starts_with(line) {
            return bytes.get(line.len()..);
        }
    }
    None
}
