//! The top call.

ghost use Rattle.std.specs.Prelude.{◌≡◌, ◌≢◌, ℕ, ◌≤◌, ◌⊎◌, ◌++◌, List, length, Option, Some, None, map, string_bytes, IfOk, IfErr, OnOk, OnErr, Err, take, codes};
ghost use Rattle.shelf_io.specs.Outside.{Appends, Rose};
ghost use Rattle.fir_tree.specs.LeafNames.{text_of};
ghost use Rattle.fir_meaning.specs.Components.{design_of};
ghost use Rattle.circuit_run.specs.Traces.{IsTraceText};
ghost use Rattle.circuit_run.specs.declared.fault.RunFault.TheVariants.{WriteFault};
ghost use Rattle.circuit_texts.specs.NetNames.{AreNumbersOf};
ghost use Rattle.circuit_texts.specs.VcdTexts.{IsVcdText};
ghost use Rattle.circuit_make.specs.Rings.{InRange, ring_text};
ghost use Rattle.crew_run.specs.Summaries.{IsSummary};
ghost use Rattle.sim_engine.specs.Stages.{circuit_limit};
ghost use Rattle.command_words.specs.Commands.{Request, command_of};
ghost use Rattle.asked_texts.specs.Commands.{AreInRange, IsShort, joined_limit, IsCrew, IsInRange, Run as Job_run, Of_joined, Of_two, Of_state, Of_made, job_from, text_given, told, asked_by, job, question, workers_asked, refined_asked};
ghost use Rattle.sim_top.specs.Needing.{NeedsFor, Needs};
ghost use Rattle.sim_top.specs.Answers.{IsLogText, JudgesTexts, Judges, AnswersTo, Answers};
ghost use Rattle.sim_top.specs.Endings.{Ends, IsSaid, IsRun, IsWritten, IsCarriedOut, IsFaultLine, IsReply, Gives, IsFor, IsReady, IsRunnable, IsDumpable, IsSavable, IsResumable, IsLoggable, status_of};
ghost use Rattle.circuit_texts.specs.Held.{IsStartOf};
ghost use Rattle.circuit_texts.specs.StateTexts.{IsResumedText, IsSavedText};

use crate::judge::{
    Decision, JOINED_LIMIT, Reply, STATE_LIMIT, STIMULUS_LIMIT, judge, judge_texts,
    judge_under_long, refuse_whole,
};
use asked_texts::{Asked, Command, Keeping, StateText, WholeFault, order_of};
use bit_words::List;
use circuit_make::{MakeFault, make_joined};
use circuit_run::RunFault;
use circuit_texts::{LogPlan, resume, save, simulate_log, simulate_vcd};
use command_words::read_words;
use crew_run::{CutPlan, Host, Plan, simulate, simulate_cut, summarize};
use crew_workers::Gate;
use cut_refine::refined_cut;
use register_table::Closed;
use shelf_io::{Shelf, Sink, TakeFault, put_all, take_text};
use sim_engine::{Built, CIRCUIT_LIMIT};
use size_laws::laws::accepted_nets_are_small;
use snapshot_text::Snapshot;
use std::alloc::{AllocError, Global};
use std::sync::Wait;
use std::thread::Threads;
use stimulus::Stimulus;

/// What runs circuits: a runtime that starts threads and waits, the gate that each worker enters before it evaluates, how many
/// workers there are, from 1 to 64, and whether they run the refined cut.
#[derive(Drop)]
struct Crew<'a, R, G> {
    rt: &'a R,
    gate: &'a G,
    workers: u32,
    refined: bool,
}

/// A circuit that is run under a stimulus, and the numbers of the leaves that are watched or dumped.
#[derive(Clone, Copy)]
struct Errand<'a> {
    built: &'a Built,
    stimulus: &'a Stimulus,
    watch: &'a [u32],
}

/// What is to be done, by how many workers a circuit is run, from 1 to 64, and whether the refined cut is run.
#[derive(Drop)]
struct Task {
    decision: Decision,
    workers: u32,
    refined: bool,
}

/// Reads the texts that the words name from the shelf, writes the answer to the sink, and gives the status: 0 where the
/// texts are accepted, 1 where the words are no command, 2 where the circuit has a fault, 3 where the stimulus or a state has one,
/// 4 where the shelf failed, 5 where the sink failed, 6 where memory was wanted.
///
/// A circuit is run by as many workers as the words say, in threads that `rt` starts, and each enters the gate before each evaluation.
/// No clause speaks of their number: the status and the bytes are the same for any.
pub fn run_program<R: Threads + Wait + Sync, H: Shelf, K: Sink, G: Gate + Sync>(
    rt: &R,
    alloc: Global,
    words: &[String],
    shelf: &mut H,
    sink: &mut K,
    gate: &G,
) -> u8
    // Where the shelf tells its texts and the sink its bytes, status and bytes are those of the definition.
    ensures ends { (texts : List ℕ → Option (List ℕ)) (before : List ℕ) → H.held shelf.old ≡ Some texts → K.written sink.old ≡ Some before
        → Ends (map string_bytes words.now) texts result before (K.written sink.new) }

    // Over every shelf and sink:
    ensures usage { result ≡ 1 → asked_by (map string_bytes words.now) ≡ None }
    ensures no_command { asked_by (map string_bytes words.now) ≡ None → (result ≡ 1) ⊎ (result ≡ 5) ⊎ (result ≡ 6) }
    ensures shelf_fault { result ≡ 4 → (name : List ℕ) × Needs (map string_bytes words.now) (H.held shelf.old) name × Rose (H.faults shelf.old name) (H.faults shelf.new name) }
    ensures sink_fault { result ≡ 5 → Rose (K.faults sink.old) (K.faults sink.new) }
    ensures sink_spared { result ≢ 5 → K.faults sink.new ≡ K.faults sink.old }
    ensures few { result ≤ 6 }
    // Where the shelf failed, the sink was left alone.
    ensures untouched { result ≡ 4 → sink.new ≡ sink.old }

    // Where the sink tells its bytes, over every shelf: what was written is the usage line at 1, and one line that names a fault at 2 and 3.
    ensures usage_line { (before : List ℕ) → K.written sink.old ≡ Some before → result ≡ 1 → K.written sink.new ≡ Some (before ++ codes "usage\n") }
    ensures one_line { (before : List ℕ) → K.written sink.old ≡ Some before → (result ≡ 2) ⊎ (result ≡ 3)
        → (line : List ℕ) × IsFaultLine result line × (K.written sink.new ≡ Some (before ++ line)) }
    // Where the shelf tells its texts, over every sink: a status up to 3 is the definition's.
    ensures answered { (texts : List ℕ → Option (List ℕ)) → H.held shelf.old ≡ Some texts → result ≤ 3 → (bytes : List ℕ) × Answers (map string_bytes words.now) texts result bytes }

    // Where no count of a needed name and not the sink's rose, the answer is the definition's, or memory was wanted.
    ensures complete { ((name : List ℕ) → Needs (map string_bytes words.now) (H.held shelf.old) name → Rose (H.faults shelf.old name) (H.faults shelf.new name) → ⊥)
        → (Rose (K.faults sink.old) (K.faults sink.new) → ⊥) → (result ≤ 3) ⊎ (result ≡ 6) }
    // Where a needed text isn't held, the shelf failed or memory was wanted.
    ensures unheld { (texts : List ℕ → Option (List ℕ)) (name : List ℕ) → H.held shelf.old ≡ Some texts → Needs (map string_bytes words.now) (H.held shelf.old) name → texts name ≡ None
        → (result ≡ 4) ⊎ (result ≡ 6) }
{
    match decide(alloc, rt, gate, words, shelf) {
        Ok(task) => {
            let crew = Crew {
                rt,
                gate,
                workers: task.workers,
                refined: task.refined,
            };
            carry_out(alloc, &crew, &task.decision, sink)
        }
        Err(TakeFault::NoMemory) => 6,
        Err(_) => 4,
    }
}

/// What is to be done for a command line.
fn decide<'x, R: Threads + Wait + Sync, H: Shelf, G: Gate + Sync>(
    alloc: Global,
    rt: &'x R,
    gate: &'x G,
    words: &[String],
    shelf: &mut H,
) -> Result<Task, TakeFault>
    ensures answers { IfOk result (λ t. (texts : List ℕ → Option (List ℕ)) → H.held shelf.old ≡ Some texts → Gives (Answers (map string_bytes words.now) texts) t.decision) }
    ensures ready { IfOk result (λ t. IsReady t.decision) }
    ensures crew { IfOk result (λ t. IsCrew t.workers) }
    ensures workers { IfOk result (λ t. (request : Request) → command_of (map string_bytes words.now) ≡ Some request → t.workers ≡ workers_asked request) }
    ensures refined { IfOk result (λ t. (request : Request) → command_of (map string_bytes words.now) ≡ Some request → t.refined ≡ refined_asked request) }
    ensures usage { IfOk result (λ t. status_of t.decision ≡ 1 → asked_by (map string_bytes words.now) ≡ None) }
    ensures no_command { asked_by (map string_bytes words.now) ≡ None → IfOk result (λ t. status_of t.decision ≡ 1) }
    ensures no_fault { asked_by (map string_bytes words.now) ≡ None → IfErr result (λ f. f ≡ TakeFault.NoMemory) }
    ensures fault { result ≡ Err TakeFault.ReadFault → (name : List ℕ) × Needs (map string_bytes words.now) (H.held shelf.old) name × Rose (H.faults shelf.old name) (H.faults shelf.new name) }
    ensures short { result ≢ Err TakeFault.TooLong }
{
    let Some(command) = read_words(alloc, words)? else {
        let bytes = Vec::from_slice(alloc, b"usage\n")?;
        return Ok(Task {
            decision: Decision::Say(Reply { status: 1, bytes }),
            workers: 1,
            refined: false,
        });
    };
    let order = order_of(&command);
    let (workers, refined) = (order.workers, order.refined);
    let crew = Crew {
        rt,
        gate,
        workers,
        refined,
    };
    match decide_asked(alloc, &crew, order.asked, shelf) {
        Ok(decision) => Ok(Task {
            decision,
            workers,
            refined,
        }),
        Err(fault) => Err(fault),
    }
}

/// What is to be done for what is asked.
fn decide_asked<R: Threads + Wait + Sync, H: Shelf, G: Gate + Sync>(
    alloc: Global,
    crew: &Crew<'_, R, G>,
    asked: Asked<'_, '_>,
    shelf: &mut H,
) -> Result<Decision, TakeFault>
    requires some { 1 ≤ crew.now.workers }
    requires most { crew.now.workers ≤ 64 }
    requires in_range { IsInRange (question asked) }
    ensures answers { IfOk result (λ d. (texts : List ℕ → Option (List ℕ)) → H.held shelf.old ≡ Some texts → Gives (AnswersTo texts (question asked.entry)) d) }
    ensures ready { IfOk result IsReady }
    ensures usage { IfOk result (λ d. status_of d ≢ 1) }
    ensures fault { result ≡ Err TakeFault.ReadFault → (name : List ℕ) × NeedsFor (H.held shelf.old) (question asked.entry) name × Rose (H.faults shelf.old name) (H.faults shelf.new name) }
    ensures short { result ≢ Err TakeFault.TooLong }
{
    match asked {
        Asked::Joined(command, name) => decide_joined(alloc, command, name, shelf),
        Asked::Two(circuit, stimulus) => decide_two(alloc, circuit, stimulus, shelf),
        Asked::State(keeping, circuit, state) => {
            decide_state(alloc, keeping, circuit, state, shelf)
        }
        Asked::Made { cycles, size } => {
            let reply = decide_made(alloc, crew, cycles, size)?;
            Ok(Decision::Say(reply))
        }
    }
}

/// What is to be done for a command on a joined text.
fn decide_joined<H: Shelf>(
    alloc: Global,
    command: Command<'_, '_>,
    name: &str,
    shelf: &mut H,
) -> Result<Decision, TakeFault>
    requires { AreInRange (job command) }
    ensures answers { IfOk result (λ d. (texts : List ℕ → Option (List ℕ)) → H.held shelf.old ≡ Some texts → Gives (AnswersTo texts (Of_joined (job command.entry) name.now)) d) }
    ensures ready { IfOk result IsReady }
    ensures usage { IfOk result (λ d. status_of d ≢ 1) }
    ensures fault { result ≡ Err TakeFault.ReadFault → Rose (H.faults shelf.old name.now) (H.faults shelf.new name.now) }
    ensures short { result ≢ Err TakeFault.TooLong }
{
    match take_text(alloc, shelf, name, JOINED_LIMIT) {
        Ok(text) => Ok(judge(alloc, command, &text)?),
        Err(TakeFault::TooLong) => {
            let reply = refuse_whole(alloc, WholeFault::TooLong)?;
            Ok(Decision::Say(reply))
        }
        Err(fault) => Err(fault),
    }
}

/// What is to be done for a run of two texts. Both are read before one is judged, but where the circuit's is too long the other
/// one isn't opened.
fn decide_two<H: Shelf>(
    alloc: Global,
    circuit: &str,
    stimulus: &str,
    shelf: &mut H,
) -> Result<Decision, TakeFault>
    ensures answers { IfOk result (λ d. (texts : List ℕ → Option (List ℕ)) → H.held shelf.old ≡ Some texts → Gives (AnswersTo texts (Of_two circuit.now stimulus.now)) d) }
    ensures ready { IfOk result IsReady }
    ensures usage { IfOk result (λ d. status_of d ≢ 1) }
    ensures fault { result ≡ Err TakeFault.ReadFault → (name : List ℕ) × NeedsFor (H.held shelf.old) (Of_two circuit.now stimulus.now) name × Rose (H.faults shelf.old name) (H.faults shelf.new name) }
    ensures short { result ≢ Err TakeFault.TooLong }
{
    match take_text(alloc, shelf, circuit, CIRCUIT_LIMIT) {
        Ok(text) => decide_under(alloc, &text, stimulus, shelf),
        Err(TakeFault::TooLong) => {
            let reply = refuse_whole(alloc, WholeFault::TooLong)?;
            Ok(Decision::Say(reply))
        }
        Err(fault) => Err(fault),
    }
}

/// What is to be done for a run of a circuit's text, which is within its limit, under the stimulus of a name.
fn decide_under<H: Shelf>(
    alloc: Global,
    circuit: &[u8],
    stimulus: &str,
    shelf: &mut H,
) -> Result<Decision, TakeFault>
    requires { length circuit.now ≤ circuit_limit }
    ensures answers { IfOk result (λ d. (texts : List ℕ → Option (List ℕ)) → H.held shelf.old ≡ Some texts
        → (given : List ℕ) × (texts stimulus.now ≡ Some given) × Gives (JudgesTexts Job_run circuit.now given) d) }
    ensures ready { IfOk result IsReady }
    ensures usage { IfOk result (λ d. status_of d ≢ 1) }
    ensures fault { result ≡ Err TakeFault.ReadFault → Rose (H.faults shelf.old stimulus.now) (H.faults shelf.new stimulus.now) }
    ensures short { result ≢ Err TakeFault.TooLong }
{
    match take_text(alloc, shelf, stimulus, STIMULUS_LIMIT) {
        Ok(given) => Ok(judge_texts(alloc, Command::Run, circuit, &given)?),
        Err(TakeFault::TooLong) => {
            let reply = judge_under_long(alloc, circuit)?;
            Ok(Decision::Say(reply))
        }
        Err(fault) => Err(fault),
    }
}

/// What is to be done for a joined text and a state's text. Both are read before one is judged, but where the joined text is too long the
/// other one isn't opened.
fn decide_state<H: Shelf>(
    alloc: Global,
    keeping: Keeping,
    circuit: &str,
    state: &str,
    shelf: &mut H,
) -> Result<Decision, TakeFault>
    ensures answers { IfOk result (λ d. (texts : List ℕ → Option (List ℕ)) → H.held shelf.old ≡ Some texts → Gives (AnswersTo texts (Of_state keeping circuit.now state.now)) d) }
    ensures ready { IfOk result IsReady }
    ensures usage { IfOk result (λ d. status_of d ≢ 1) }
    ensures fault { result ≡ Err TakeFault.ReadFault → (name : List ℕ) × NeedsFor (H.held shelf.old) (Of_state keeping circuit.now state.now) name × Rose (H.faults shelf.old name) (H.faults shelf.new name) }
    ensures short { result ≢ Err TakeFault.TooLong }
{
    match take_text(alloc, shelf, circuit, JOINED_LIMIT) {
        Ok(joined) => decide_from(alloc, keeping, &joined, state, shelf),
        Err(TakeFault::TooLong) => {
            let reply = refuse_whole(alloc, WholeFault::TooLong)?;
            Ok(Decision::Say(reply))
        }
        Err(fault) => Err(fault),
    }
}

/// What is to be done for a joined text, which is within its limit, and the state of a name.
fn decide_from<H: Shelf>(
    alloc: Global,
    keeping: Keeping,
    joined: &[u8],
    state: &str,
    shelf: &mut H,
) -> Result<Decision, TakeFault>
    requires { length joined.now ≤ joined_limit }
    ensures answers { IfOk result (λ d. (texts : List ℕ → Option (List ℕ)) → H.held shelf.old ≡ Some texts
        → (text : List ℕ) × (texts state.now ≡ Some text) × Gives (Judges (job_from keeping (told text)) joined.now) d) }
    ensures ready { IfOk result IsReady }
    ensures usage { IfOk result (λ d. status_of d ≢ 1) }
    ensures fault { result ≡ Err TakeFault.ReadFault → Rose (H.faults shelf.old state.now) (H.faults shelf.new state.now) }
    ensures short { result ≢ Err TakeFault.TooLong }
{
    match take_text(alloc, shelf, state, STATE_LIMIT) {
        Ok(text) => Ok(judge_from(alloc, keeping, StateText::Told(&text), joined)?),
        Err(TakeFault::TooLong) => Ok(judge_from(alloc, keeping, StateText::TooLong, joined)?),
        Err(fault) => Err(fault),
    }
}

/// What is done with a state answers to a joined text.
fn judge_from(
    alloc: Global,
    keeping: Keeping,
    state: StateText<'_>,
    joined: &[u8],
) -> Result<Decision, AllocError>
    requires within { length joined.now ≤ joined_limit }
    requires short { IsShort (Some (text_given state)) }
    ensures judges { IfOk result (Gives (Judges (job_from keeping (text_given state.entry)) joined.now)) }
    ensures fits { IfOk result (IsFor (job_from keeping (text_given state.entry))) }
{
    match keeping {
        Keeping::Save => judge(alloc, Command::Save(Some(state)), joined),
        Keeping::Resume => judge(alloc, Command::Resume(state), joined),
    }
}

/// What `make` answers: the summary of the trace where the circuit that is made is run, else its first fault.
fn decide_made<R: Threads + Wait + Sync, G: Gate + Sync>(
    alloc: Global,
    crew: &Crew<'_, R, G>,
    cycles: u32,
    size: u32,
) -> Result<Reply, AllocError>
    requires some { 1 ≤ crew.now.workers }
    requires most { crew.now.workers ≤ 64 }
    requires cycles { InRange cycles }
    requires size { InRange size }
    ensures answers { IfOk result (λ r. (texts : List ℕ → Option (List ℕ)) → AnswersTo texts (Of_made cycles size) r.status r.bytes.items) }
    ensures ready { IfOk result (λ r. IsReply r.status r.bytes.items) }
    ensures usage { IfOk result (λ r. r.status ≢ 1) }
{
    let decision = judge_made(alloc, cycles, size)?;
    match decision {
        Decision::Say(reply) => Ok(reply),
        Decision::Run(built, stimulus, watch) => {
            let errand = Errand {
                built: &built,
                stimulus: &stimulus,
                watch: watch.as_slice(),
            };
            Ok(sum_up(alloc, crew, &errand)?)
        }
        Decision::Dump(_, _, _) => unreachable!(),
        Decision::Save(_, _, _) => unreachable!(),
        Decision::Resume(_, _, _, _) => unreachable!(),
        Decision::Log(_, _) => unreachable!(),
    }
}

/// What is to be done for the text that is made.
fn judge_made(alloc: Global, cycles: u32, size: u32) -> Result<Decision, AllocError>
    requires cycles { InRange cycles }
    requires size { InRange size }
    ensures judges { IfOk result (Gives (Judges Job_run (ring_text size cycles))) }
    ensures fits { IfOk result (IsFor Job_run) }
{
    let text = make_text(alloc, cycles, size)?;
    Ok(judge(alloc, Command::Run, &text)?)
}

/// The summary of a run's trace, which isn't written.
fn sum_up<R: Threads + Wait + Sync, G: Gate + Sync>(
    alloc: Global,
    crew: &Crew<'_, R, G>,
    errand: &Errand<'_>,
) -> Result<Reply, AllocError>
    requires runnable { IsRunnable errand.now.built.now errand.now.stimulus.now errand.now.watch.now }
    requires some { 1 ≤ crew.now.workers }
    requires most { crew.now.workers ≤ 64 }
    ensures status { IfOk result (λ r. r.status ≡ 0) }
    ensures summary { IfOk result (λ r. (trace : List ℕ) × IsTraceText errand.now.built.now.fitted.checked.resolved.names (design_of errand.now.built.now.fitted) errand.now.stimulus.now trace × IsSummary trace r.bytes.items) }
{
    let plan = Plan {
        ordered: &errand.built.ordered,
        ports: &errand.built.ports,
        stimulus: errand.stimulus,
        watch: errand.watch,
        workers: crew.workers,
    };
    Ok(Reply {
        status: 0,
        bytes: summarize(alloc, crew.rt, crew.gate, &plan)?,
    })
}

/// The joined text of the circuit of a size and of a stimulus of so many cycles.
fn make_text(alloc: Global, cycles: u32, size: u32) -> Result<Vec<u8>, AllocError>
    requires cycles { InRange cycles }
    requires size { InRange size }
    ensures text { IfOk result (λ text. text.items ≡ ring_text size cycles) }
    ensures short { IfOk result (λ text. length text.items ≤ joined_limit) }
{
    match make_joined(alloc, size, cycles) {
        Ok(text) => Ok(text),
        Err(MakeFault::Range) => unreachable!(),
        Err(MakeFault::NoMemory) => Err(AllocError),
    }
}

/// Carries out what was decided, and gives the status; or 5 where the sink failed, or 6 where memory was wanted.
fn carry_out<R: Threads + Wait + Sync, G: Gate + Sync, K: Sink>(
    alloc: Global,
    crew: &Crew<'_, R, G>,
    decision: &Decision,
    sink: &mut K,
) -> u8
    requires ready { IsReady decision.now }
    requires some { 1 ≤ crew.now.workers }
    requires most { crew.now.workers ≤ 64 }
    ensures carried { IsCarriedOut decision.now result (K.written sink.old) (K.written sink.new) }
    ensures status { (result ≡ status_of decision.now) ⊎ (result ≡ 5) ⊎ (result ≡ 6) }
    ensures rose { result ≡ 5 → Rose (K.faults sink.old) (K.faults sink.new) }
    ensures spared { result ≢ 5 → K.faults sink.new ≡ K.faults sink.old }
{
    match decision {
        Decision::Say(reply) => say(sink, reply),
        Decision::Run(built, stimulus, watch) => {
            let errand = errand_of(built, stimulus, watch.as_slice());
            run(alloc, crew, &errand, sink)
        }
        Decision::Dump(built, stimulus, numbers) => {
            let errand = errand_of(built, stimulus, numbers.as_slice());
            dump(alloc, crew, &errand, sink)
        }
        Decision::Save(built, stimulus, start) => {
            let errand = errand_of(built, stimulus, &[]);
            write_state(alloc, crew, &errand, start, sink)
        }
        Decision::Resume(built, stimulus, watch, start) => {
            let errand = errand_of(built, stimulus, watch.as_slice());
            go_on(alloc, crew, &errand, start, sink)
        }
        Decision::Log(built, stimulus) => {
            let errand = errand_of(built, stimulus, &[]);
            log(alloc, crew, &errand, sink)
        }
    }
}

/// A circuit that is run under a stimulus, with the leaves of these numbers watched or dumped.
fn errand_of<'a>(built: &'a Built, stimulus: &'a Stimulus, watch: &'a [u32]) -> Errand<'a>
    ensures built { result.built.now ≡ built.now }
    ensures stimulus { result.stimulus.now ≡ stimulus.now }
    ensures watch { result.watch.now ≡ watch.now }
{
    Errand {
        built,
        stimulus,
        watch,
    }
}

/// Writes a reply, and gives its status, or 5.
fn say<K: Sink>(sink: &mut K, reply: &Reply) -> u8
    requires { reply.now.status ≤ 3 }
    ensures said { IsSaid result reply.now.status reply.now.bytes.items (K.written sink.old) (K.written sink.new) }
    ensures rose { result ≢ reply.now.status → Rose (K.faults sink.old) (K.faults sink.new) }
    ensures spared { result ≢ 5 → K.faults sink.new ≡ K.faults sink.old }
{
    match put_all(sink, &reply.bytes) {
        Ok(()) => reply.status,
        Err(_) => 5,
    }
}

/// Runs a circuit and writes its trace, and gives 0; or 5 where the sink failed, or 6 where memory was wanted.
fn run<R: Threads + Wait + Sync, G: Gate + Sync, K: Sink>(
    alloc: Global,
    crew: &Crew<'_, R, G>,
    errand: &Errand<'_>,
    sink: &mut K,
) -> u8
    requires runnable { IsRunnable errand.now.built.now errand.now.stimulus.now errand.now.watch.now }
    requires some { 1 ≤ crew.now.workers }
    requires most { crew.now.workers ≤ 64 }
    ensures ran { (bytes : List ℕ) × IsTraceText errand.now.built.now.fitted.checked.resolved.names (design_of errand.now.built.now.fitted) errand.now.stimulus.now bytes
        × IsRun result bytes (K.written sink.old) (K.written sink.new) }
    ensures rose { result ≡ 5 → Rose (K.faults sink.old) (K.faults sink.new) }
    ensures spared { result ≢ 5 → K.faults sink.new ≡ K.faults sink.old }
{
    match trace(alloc, crew, errand, sink) {
        Ok(_closed) => 0,
        Err(RunFault::WriteFault) => 5,
        Err(RunFault::NoMemory) => 6,
    }
}

/// Writes the trace of a circuit, which is run by the refined cut where the crew runs that one.
fn trace<R: Threads + Wait + Sync, G: Gate + Sync, K: Sink>(
    alloc: Global,
    crew: &Crew<'_, R, G>,
    errand: &Errand<'_>,
    sink: &mut K,
) -> Result<List<Closed>, RunFault>
    requires runnable { IsRunnable errand.now.built.now errand.now.stimulus.now errand.now.watch.now }
    requires some { 1 ≤ crew.now.workers }
    requires most { crew.now.workers ≤ 64 }
    ensures traced { (bytes : List ℕ) × IsTraceText errand.now.built.now.fitted.checked.resolved.names (design_of errand.now.built.now.fitted) errand.now.stimulus.now bytes
        × (OnOk result (Appends (K.written sink.old) (K.written sink.new) bytes))
        × (OnErr result ((n : ℕ) × Appends (K.written sink.old) (K.written sink.new) (take n bytes))) }
    ensures rose { result ≡ Err WriteFault → Rose (K.faults sink.old) (K.faults sink.new) }
    ensures spared { result ≢ Err WriteFault → K.faults sink.new ≡ K.faults sink.old }
{
    if crew.refined {
        return run_refined(alloc, crew, errand, sink);
    }
    let plan = Plan {
        ordered: &errand.built.ordered,
        ports: &errand.built.ports,
        stimulus: errand.stimulus,
        watch: errand.watch,
        workers: crew.workers,
    };
    simulate(alloc, crew.rt, crew.gate, &plan, sink)
}

/// Runs the refined cut of a circuit and writes its trace.
fn run_refined<R: Threads + Wait + Sync, G: Gate + Sync, K: Sink>(
    alloc: Global,
    crew: &Crew<'_, R, G>,
    errand: &Errand<'_>,
    sink: &mut K,
) -> Result<List<Closed>, RunFault>
    requires runnable { IsRunnable errand.now.built.now errand.now.stimulus.now errand.now.watch.now }
    requires some { 1 ≤ crew.now.workers }
    requires most { crew.now.workers ≤ 64 }
    ensures traced { (bytes : List ℕ) × IsTraceText errand.now.built.now.fitted.checked.resolved.names (design_of errand.now.built.now.fitted) errand.now.stimulus.now bytes
        × (OnOk result (Appends (K.written sink.old) (K.written sink.new) bytes))
        × (OnErr result ((n : ℕ) × Appends (K.written sink.old) (K.written sink.new) (take n bytes))) }
    ensures rose { result ≡ Err WriteFault → Rose (K.faults sink.old) (K.faults sink.new) }
    ensures spared { result ≢ Err WriteFault → K.faults sink.new ≡ K.faults sink.old }
{
    accepted_nets_are_small();
    let cut = refined_cut(alloc, &errand.built.ordered, errand.watch, crew.workers)?;
    let plan = CutPlan {
        ordered: &errand.built.ordered,
        ports: &errand.built.ports,
        stimulus: errand.stimulus,
        watch: errand.watch,
        cut: &cut,
    };
    simulate_cut(alloc, crew.rt, crew.gate, &plan, sink)
}

/// Runs a circuit and writes its dump, and gives 0; or 5 where the sink failed, or 6 where memory was wanted.
fn dump<R: Threads + Wait + Sync, G: Gate + Sync, K: Sink>(
    alloc: Global,
    crew: &Crew<'_, R, G>,
    errand: &Errand<'_>,
    sink: &mut K,
) -> u8
    requires dumpable { IsDumpable errand.now.built.now errand.now.stimulus.now errand.now.watch.now }
    requires some { 1 ≤ crew.now.workers }
    requires most { crew.now.workers ≤ 64 }
    ensures dumped { (names : List (List ℕ)) → AreNumbersOf errand.now.built.now.ordered.net names errand.now.watch.now
        → (bytes : List ℕ) × IsVcdText errand.now.built.now.fitted.checked.resolved.names (design_of errand.now.built.now.fitted) names errand.now.stimulus.now bytes
        × IsRun result bytes (K.written sink.old) (K.written sink.new) }
    ensures status { (result ≡ 0) ⊎ (result ≡ 5) ⊎ (result ≡ 6) }
    ensures rose { result ≡ 5 → Rose (K.faults sink.old) (K.faults sink.new) }
    ensures spared { result ≢ 5 → K.faults sink.new ≡ K.faults sink.old }
{
    let host = Host {
        rt: crew.rt,
        gate: crew.gate,
    };
    let plan = Plan {
        ordered: &errand.built.ordered,
        ports: &errand.built.ports,
        stimulus: errand.stimulus,
        watch: errand.watch,
        workers: crew.workers,
    };
    match simulate_vcd(alloc, &host, &plan, main_name(errand.built), sink) {
        Ok(_closed) => 0,
        Err(RunFault::WriteFault) => 5,
        Err(RunFault::NoMemory) => 6,
    }
}

/// Runs a circuit from a snapshot and writes the state that it leads to, and gives 0; or 5 where the sink failed, or 6 where memory was
/// wanted, and then nothing was written.
fn write_state<R: Threads + Wait + Sync, G: Gate + Sync, K: Sink>(
    alloc: Global,
    crew: &Crew<'_, R, G>,
    errand: &Errand<'_>,
    start: &Snapshot,
    sink: &mut K,
) -> u8
    requires savable { IsSavable errand.now.built.now errand.now.stimulus.now start.now }
    requires some { 1 ≤ crew.now.workers }
    requires most { crew.now.workers ≤ 64 }
    ensures saved { (begin : Option (List ℕ)) → IsStartOf errand.now.built.now.ordered.net begin start.now
        → IsWritten (IsSavedText errand.now.built.now.fitted.checked.resolved.names (design_of errand.now.built.now.fitted) errand.now.stimulus.now begin) result (K.written sink.old) (K.written sink.new) }
    ensures status { (result ≡ 0) ⊎ (result ≡ 5) ⊎ (result ≡ 6) }
    ensures rose { result ≡ 5 → Rose (K.faults sink.old) (K.faults sink.new) }
    ensures spared { result ≢ 5 → K.faults sink.new ≡ K.faults sink.old }
{
    let host = Host {
        rt: crew.rt,
        gate: crew.gate,
    };
    let plan = Plan {
        ordered: &errand.built.ordered,
        ports: &errand.built.ports,
        stimulus: errand.stimulus,
        watch: errand.watch,
        workers: crew.workers,
    };
    match save(alloc, &host, &plan, start) {
        Ok(bytes) => say(sink, &Reply { status: 0, bytes }),
        Err(_) => 6,
    }
}

/// Runs a circuit from a snapshot and writes its trace, and gives 0; or 5 where the sink failed, or 6 where memory was wanted.
fn go_on<R: Threads + Wait + Sync, G: Gate + Sync, K: Sink>(
    alloc: Global,
    crew: &Crew<'_, R, G>,
    errand: &Errand<'_>,
    start: &Snapshot,
    sink: &mut K,
) -> u8
    requires resumable { IsResumable errand.now.built.now errand.now.stimulus.now errand.now.watch.now start.now }
    requires some { 1 ≤ crew.now.workers }
    requires most { crew.now.workers ≤ 64 }
    ensures resumed { (begin : Option (List ℕ)) → IsStartOf errand.now.built.now.ordered.net begin start.now
        → (bytes : List ℕ) × IsResumedText errand.now.built.now.fitted.checked.resolved.names (design_of errand.now.built.now.fitted) errand.now.stimulus.now begin bytes
        × IsRun result bytes (K.written sink.old) (K.written sink.new) }
    ensures status { (result ≡ 0) ⊎ (result ≡ 5) ⊎ (result ≡ 6) }
    ensures rose { result ≡ 5 → Rose (K.faults sink.old) (K.faults sink.new) }
    ensures spared { result ≢ 5 → K.faults sink.new ≡ K.faults sink.old }
{
    let host = Host {
        rt: crew.rt,
        gate: crew.gate,
    };
    let plan = Plan {
        ordered: &errand.built.ordered,
        ports: &errand.built.ports,
        stimulus: errand.stimulus,
        watch: errand.watch,
        workers: crew.workers,
    };
    match resume(alloc, &host, &plan, start, sink) {
        Ok(_closed) => 0,
        Err(RunFault::WriteFault) => 5,
        Err(RunFault::NoMemory) => 6,
    }
}

/// Runs a circuit and writes its log, and gives 0; or 5 where the sink failed, or 6 where memory was wanted.
fn log<R: Threads + Wait + Sync, G: Gate + Sync, K: Sink>(
    alloc: Global,
    crew: &Crew<'_, R, G>,
    errand: &Errand<'_>,
    sink: &mut K,
) -> u8
    requires loggable { IsLoggable errand.now.built.now errand.now.stimulus.now }
    requires some { 1 ≤ crew.now.workers }
    requires most { crew.now.workers ≤ 64 }
    ensures logged { (bytes : List ℕ) × IsLogText errand.now.built.now.fitted errand.now.stimulus.now bytes × IsRun result bytes (K.written sink.old) (K.written sink.new) }
    ensures status { (result ≡ 0) ⊎ (result ≡ 5) ⊎ (result ≡ 6) }
    ensures rose { result ≡ 5 → Rose (K.faults sink.old) (K.faults sink.new) }
    ensures spared { result ≢ 5 → K.faults sink.new ≡ K.faults sink.old }
{
    accepted_nets_are_small();
    let host = Host {
        rt: crew.rt,
        gate: crew.gate,
    };
    let plan = LogPlan {
        fitted: &errand.built.fitted,
        ordered: &errand.built.ordered,
        ports: &errand.built.ports,
        stimulus: errand.stimulus,
        workers: crew.workers,
    };
    match simulate_log(alloc, &host, &plan, sink) {
        Ok(()) => 0,
        Err(RunFault::WriteFault) => 5,
        Err(RunFault::NoMemory) => 6,
    }
}

/// The name of a circuit's main module.
fn main_name(built: &Built) -> &[u8]
    ensures { result.now ≡ text_of built.now.fitted.checked.resolved.names (design_of built.now.fitted).main }
{
    let circuit = built.fitted.checked.resolved.get();
    match circuit.names.get(circuit.main.id) {
        Some(name) => name.as_bytes(),
        None => &[],
    }
}
