//! A circuit's text and a stimulus's text are read, and run by workers.

ghost use Rattle.std.specs.Prelude.{◌<◌, length, All, IfSome};
ghost use Rattle.ground_net.specs.Words.{SaysItsWords};
ghost use Rattle.circuit_run.specs.NetRuns.{IsPlanned};

use bit_words::List;
use crew_run::{Host, Plan, ThreadLimit, codes_of, simulate_within, watched_numbers};
use crew_workers::Gate;
use shelf_io::SinkMemory;
use sim_engine::{Built, CIRCUIT_LIMIT, compile_text};
use std::alloc::Global;
use std::sync::Wait;
use std::thread::Threads;
use stimulus::{Stimulus, read_stimulus};

/// The sinks have room for so many bytes, and take this many in a write.
const ROOM: usize = 65_536;

const STEP: usize = 1_000;

/// A stimulus's text is at most so long.
const STIMULUS_LIMIT: usize = 4_194_304;

/// A circuit, a stimulus for it, and the numbers of the leaves that are watched.
#[derive(Drop)]
pub struct Given {
    built: Built,
    stimulus: Stimulus,
    watch: List<u32>,
}

/// How many workers run, and how many threads are started beside the caller's at most.
#[derive(Clone, Copy, Debug)]
pub struct Force {
    pub workers: u32,
    pub threads: usize,
}

/// The circuit and the stimulus that two texts write.
pub fn read(alloc: Global, circuit: &[u8], stimulus: &[u8]) -> Option<Given>
    ensures planned { IfSome result (λ given. IsPlanned given.built.ordered given.built.ports given.stimulus) }
    ensures said { IfSome result (λ given. SaysItsWords given.built.ordered.net) }
    ensures leaves { IfSome result (λ given. All (λ x. x < length given.built.ordered.net.leaves) given.watch) }
{
    if circuit.len() > CIRCUIT_LIMIT || stimulus.len() > STIMULUS_LIMIT {
        return None;
    }
    let Ok(built) = compile_text(alloc, circuit) else {
        return None;
    };
    let Ok(_) = u32::try_from(built.ports.inputs.len()) else {
        return None;
    };
    let Ok(watch) = watched_numbers(alloc, &built.ordered, &built.ports) else {
        return None;
    };
    match read_stimulus(alloc, stimulus, &built.ports) {
        Ok(stimulus) => Some(Given {
            built,
            stimulus,
            watch,
        }),
        Err(_) => None,
    }
}

/// The trace that workers write, where there are 1 to 64.
pub fn traced_by<R: Threads + Wait + Sync, G: Gate + Sync>(
    rt: &R,
    alloc: Global,
    given: &Given,
    force: Force,
    gate: &G,
) -> Option<Vec<u8>>
    requires planned { IsPlanned given.now.built.ordered given.now.built.ports given.now.stimulus }
    requires said { SaysItsWords given.now.built.ordered.net }
    requires leaves { All (λ x. x < length given.now.built.ordered.net.leaves) given.now.watch }
{
    if force.workers == 0 || force.workers > 64 {
        return None;
    }
    let plan = Plan {
        ordered: &given.built.ordered,
        ports: &given.built.ports,
        stimulus: &given.stimulus,
        watch: given.watch.as_slice(),
        workers: force.workers,
    };
    let host = Host { rt, gate };
    let limit = ThreadLimit::at_most(force.threads);
    let mut sink = SinkMemory::new(alloc, ROOM, STEP, Vec::new(alloc)).ok()?;
    simulate_within(alloc, &host, limit, &plan, &mut sink).ok()?;
    Vec::from_slice(alloc, sink.bytes()).ok()
}

/// How many words the frame of one worker has, whose code is that of the whole circuit.
pub fn frame_length(alloc: Global, given: &Given) -> Option<usize>
    requires planned { IsPlanned given.now.built.ordered given.now.built.ports given.now.stimulus }
    requires said { SaysItsWords given.now.built.ordered.net }
    requires leaves { All (λ x. x < length given.now.built.ordered.net.leaves) given.now.watch }
{
    let plan = Plan {
        ordered: &given.built.ordered,
        ports: &given.built.ports,
        stimulus: &given.stimulus,
        watch: given.watch.as_slice(),
        workers: 1,
    };
    let codes = codes_of(alloc, &plan).ok()?;
    let code = codes.get(0)?;
    Some(code.frame_length())
}
