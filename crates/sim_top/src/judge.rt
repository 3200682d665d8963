//! What a command answers to texts.

ghost use Rattle.std.specs.Prelude.{◌≡◌, ℕ, List, map, true, ◌<◌, ◌≤◌, length, Option as Optional, IfOk, IfErr, Some, option_map, codes};
ghost use Rattle.place_text.specs.Places.{first_place};
ghost use Rattle.place_text.specs.declared.place.Place.{Place as APlace};
ghost use Rattle.trace_print.specs.Listing.{listing_of};
ghost use Rattle.sim_engine.specs.Stages.{circuit_limit};
ghost use Rattle.sim_engine.specs.Building.{IsBuilt};
ghost use Rattle.sim_engine.specs.Faults.{fault_place};
ghost use Rattle.stimulus.specs.Faults.{place_of};
ghost use Rattle.stimulus.specs.Stimuli.{IsFormed};
ghost use Rattle.fir_meaning.specs.Components.{design_of};
ghost use Rattle.cut_listing.specs.CircuitCuts.{IsCutText};
ghost use Rattle.cut_listing.specs.RefinedTexts.{IsRefinedText};
ghost use Rattle.asked_texts.specs.Commands.{AreInRange, IsShort, Told, joined_limit, state_limit, Run, Vcd, Save, Resume, Log, job, text_given};
ghost use Rattle.asked_texts.specs.Texts.{stimulus_limit, reads_all, HasNone, IsPart};
ghost use Rattle.sim_top.specs.Answers.{fault_bytes, whole_bytes, stimulus_bytes, whole_stimulus_bytes, state_bytes, whole_state_bytes, RefusesStimulus, TakesStimulus, RefusesState, TakesState, JudgesTexts, Judges};
ghost use Rattle.sim_top.specs.declared.judge.Reply.{Reply as TheReply};
ghost use Rattle.sim_top.specs.Endings.{IsFaultLine, Gives, IsFor, IsRunnable};
ghost use Rattle.snapshot_text.specs.Faults.{place_of as place_in_state};
ghost use Rattle.circuit_texts.specs.Held.{IsStartOf};

use asked_texts::{Command, StateText, WholeFault, split};
use bit_words::List;
use circuit_texts::{first_snapshot, variables};
use crew_run::watched_numbers;
use cut_listing::{circuit_cut, circuit_refine};
use fir_tree::Fitted;
use place_text::{Fault, Place, TextPart, fault_line};
use sim_engine::{Built, CIRCUIT_LIMIT, CircuitFault, compile_text};
use size_laws::laws::accepted_nets_are_small;
use snapshot_text::{Snapshot, StateFault, read_state};
use std::alloc::{AllocError, Global};
use stimulus::{StimFault, Stimulus, read_stimulus};
use trace_print::widths_text;

/// The greatest length of a joined text in bytes.
pub const JOINED_LIMIT: usize = 20_971_520;

/// The greatest length of a stimulus's text in bytes.
pub const STIMULUS_LIMIT: usize = 4_194_304;

/// The greatest length of a state's text in bytes.
pub const STATE_LIMIT: usize = 67_108_864;

/// The place of a fault of a text as a whole.
const FRONT: Place = Place { line: 1, column: 1 };

/// What is to be done: a reply is said; or a circuit is run under a stimulus, with these leaves watched or dumped, each by its number, or from
/// a snapshot to the state that it leads to, or from a snapshot with these leaves watched, or with its items printed.
#[derive(Drop)]
pub enum Decision {
    Say(Reply),
    Run(Built, Stimulus, List<u32>),
    Dump(Built, Stimulus, List<u32>),
    Save(Built, Stimulus, Snapshot),
    Resume(Built, Stimulus, List<u32>, Snapshot),
    Log(Built, Stimulus),
}

/// A status and the bytes that are written.
#[derive(Drop)]
pub struct Reply {
    pub status: u8,
    pub bytes: Vec<u8>,
}

/// What the command answers to a joined text within its limit.
pub fn judge(alloc: Global, command: Command<'_, '_>, text: &[u8]) -> Result<Decision, AllocError>
    requires within { length text.now ≤ joined_limit }
    requires in_range { AreInRange (job command) }
    ensures judges { IfOk result (Gives (Judges (job command.entry) text.now)) }
    ensures fits { IfOk result (IsFor (job command.entry)) }
{
    match split(text) {
        Some((circuit, stimulus)) => Ok(judge_part(alloc, command, circuit, stimulus)?),
        None => Ok(judge_whole(alloc, command, text)?),
    }
}

/// What the command answers to a joined text without a line `%stimulus`.
fn judge_whole(alloc: Global, command: Command<'_, '_>, text: &[u8]) -> Result<Decision, AllocError>
    requires within { length text.now ≤ joined_limit }
    requires none { HasNone text.now }
    requires in_range { AreInRange (job command) }
    ensures judges { IfOk result (Gives (Judges (job command.entry) text.now)) }
    ensures fits { IfOk result (IsFor (job command.entry)) }
{
    match command {
        Command::Run => refuse_unstimulated(alloc),
        Command::Vcd(_) => refuse_unstimulated(alloc),
        Command::Save(_) => refuse_unstimulated(alloc),
        Command::Resume(_) => refuse_unstimulated(alloc),
        Command::Log => refuse_unstimulated(alloc),
        Command::Check => Ok(judge_part(alloc, command, text, &[])?),
        Command::Widths => Ok(judge_part(alloc, command, text, &[])?),
        Command::Cut(_) => Ok(judge_part(alloc, command, text, &[])?),
        Command::Refine(_) => Ok(judge_part(alloc, command, text, &[])?),
    }
}

/// What a command that runs a circuit answers to a joined text without a line `%stimulus`.
fn refuse_unstimulated(alloc: Global) -> Result<Decision, AllocError>
    ensures { IfOk result (λ d. (reply : TheReply) × (d ≡ Decision.Say reply) × (reply.status ≡ 2) × (reply.bytes.items ≡ whole_bytes WholeFault.NoStimulus first_place)) }
{
    let reply = refuse_whole(alloc, WholeFault::NoStimulus)?;
    Ok(Decision::Say(reply))
}

/// What the command answers to the parts of a joined text.
fn judge_part(
    alloc: Global,
    command: Command<'_, '_>,
    circuit: &[u8],
    stimulus: &[u8],
) -> Result<Decision, AllocError>
    requires in_range { AreInRange (job command) }
    ensures judges { IfOk result (λ d. (joined : List ℕ) → length joined ≤ joined_limit → IsPart (job command.entry) joined circuit.now stimulus.now → Gives (Judges (job command.entry) joined) d) }
    ensures fits { IfOk result (IsFor (job command.entry)) }
{
    if circuit.len() > CIRCUIT_LIMIT {
        let reply = refuse_whole(alloc, WholeFault::TooLong)?;
        return Ok(Decision::Say(reply));
    }
    Ok(judge_texts(alloc, command, circuit, stimulus)?)
}

/// What the command answers to a circuit's text, within its limit, and to a stimulus's text.
pub fn judge_texts(
    alloc: Global,
    command: Command<'_, '_>,
    circuit: &[u8],
    stimulus: &[u8],
) -> Result<Decision, AllocError>
    requires within { length circuit.now ≤ circuit_limit }
    requires in_range { AreInRange (job command) }
    ensures judges { IfOk result (Gives (JudgesTexts (job command.entry) circuit.now stimulus.now)) }
    ensures fits { IfOk result (IsFor (job command.entry)) }
{
    match compile_text(alloc, circuit) {
        Ok(built) => Ok(judge_built(alloc, command, built, stimulus)?),
        Err(fault) => {
            let reply = refuse(alloc, &fault)?;
            Ok(Decision::Say(reply))
        }
    }
}

/// What `run` answers to a circuit's text, within its limit, under a stimulus's text that is longer than its own.
pub fn judge_under_long(alloc: Global, text: &[u8]) -> Result<Reply, AllocError>
    requires { length text.now ≤ circuit_limit }
    ensures judges { IfOk result (λ r. (stimulus : List ℕ) → stimulus_limit < length stimulus → JudgesTexts Run text.now stimulus r.status r.bytes.items) }
    ensures line { IfOk result (λ r. IsFaultLine r.status r.bytes.items) }
{
    match compile_text(alloc, text) {
        Ok(_built) => Ok(refuse_long_stimulus(alloc)?),
        Err(fault) => Ok(refuse(alloc, &fault)?),
    }
}

/// What the command answers to a circuit without a fault.
fn judge_built(
    alloc: Global,
    command: Command<'_, '_>,
    built: Built,
    stimulus: &[u8],
) -> Result<Decision, AllocError>
    requires built { (text : List ℕ) × IsBuilt text built }
    requires in_range { AreInRange (job command) }
    ensures judges { IfOk result (λ d. (text : List ℕ) → IsBuilt text built → Gives (JudgesTexts (job command.entry) text stimulus.now) d) }
    ensures fits { IfOk result (IsFor (job command.entry)) }
{
    match command {
        Command::Run => run(alloc, built, stimulus),
        Command::Vcd(names) => dump(alloc, built, names, stimulus),
        Command::Save(begin) => save(alloc, built, begin, stimulus),
        Command::Resume(begin) => resume(alloc, built, begin, stimulus),
        Command::Log => log(alloc, built, stimulus),
        Command::Check => answer(alloc, command, built),
        Command::Widths => answer(alloc, command, built),
        Command::Cut(_) => answer(alloc, command, built),
        Command::Refine(_) => answer(alloc, command, built),
    }
}

/// What a command that doesn't run the circuit answers to one without a fault.
fn answer(alloc: Global, command: Command<'_, '_>, built: Built) -> Result<Decision, AllocError>
    requires built { (text : List ℕ) × IsBuilt text built }
    requires in_range { AreInRange (job command) }
    requires unrun { reads_all (job command) ≡ true }
    ensures judges { IfOk result (λ d. (text stimulus : List ℕ) → IsBuilt text built → Gives (JudgesTexts (job command.entry) text stimulus) d) }
    ensures fits { IfOk result (IsFor (job command.entry)) }
{
    let reply = reply_to(alloc, command, &built)?;
    Ok(Decision::Say(reply))
}

/// What it says.
fn reply_to(alloc: Global, command: Command<'_, '_>, built: &Built) -> Result<Reply, AllocError>
    requires built { (text : List ℕ) × IsBuilt text built.now }
    requires in_range { AreInRange (job command) }
    requires unrun { reads_all (job command) ≡ true }
    ensures { IfOk result (λ r. (text stimulus : List ℕ) → IsBuilt text built.now → JudgesTexts (job command.entry) text stimulus r.status r.bytes.items) }
{
    match command {
        Command::Check => accept(alloc),
        Command::Widths => list(alloc, &built.fitted),
        Command::Cut(workers) => divide(alloc, built, workers),
        Command::Refine(workers) => divide_refined(alloc, built, workers),
        Command::Run => unreachable!(),
        Command::Vcd(_) => unreachable!(),
        Command::Save(_) => unreachable!(),
        Command::Resume(_) => unreachable!(),
        Command::Log => unreachable!(),
    }
}

/// The answer of `check` to a text without a fault.
fn accept(alloc: Global) -> Result<Reply, AllocError>
    ensures { IfOk result (λ r. (r.status ≡ 0) × (r.bytes.items ≡ codes "ok\n")) }
{
    Ok(Reply {
        status: 0,
        bytes: Vec::from_slice(alloc, b"ok\n")?,
    })
}

/// The answer of `widths` to a text without a fault.
fn list(alloc: Global, fitted: &Fitted) -> Result<Reply, AllocError>
    ensures { IfOk result (λ r. (r.status ≡ 0) × (r.bytes.items ≡ listing_of fitted.now)) }
{
    Ok(Reply {
        status: 0,
        bytes: widths_text(alloc, fitted)?,
    })
}

/// The answer of `cut` to a text without a fault.
fn divide(alloc: Global, built: &Built, workers: u32) -> Result<Reply, AllocError>
    requires built { (text : List ℕ) × IsBuilt text built.now }
    requires some { 1 ≤ workers }
    requires most { workers ≤ 64 }
    ensures { IfOk result (λ r. (r.status ≡ 0) × IsCutText built.now.fitted.checked.resolved.names (design_of built.now.fitted) workers r.bytes.items) }
{
    accepted_nets_are_small();
    Ok(Reply {
        status: 0,
        bytes: circuit_cut(alloc, &built.ordered, &built.ports, workers)?,
    })
}

/// The answer of `refine` to a text without a fault.
fn divide_refined(alloc: Global, built: &Built, workers: u32) -> Result<Reply, AllocError>
    requires built { (text : List ℕ) × IsBuilt text built.now }
    requires some { 1 ≤ workers }
    requires most { workers ≤ 64 }
    ensures { IfOk result (λ r. (r.status ≡ 0) × IsRefinedText built.now.fitted.checked.resolved.names (design_of built.now.fitted) workers r.bytes.items) }
{
    accepted_nets_are_small();
    Ok(Reply {
        status: 0,
        bytes: circuit_refine(alloc, &built.ordered, &built.ports, workers)?,
    })
}

/// What `run` answers to a circuit without a fault and to a stimulus's text.
fn run(alloc: Global, built: Built, stimulus: &[u8]) -> Result<Decision, AllocError>
    requires { (text : List ℕ) × IsBuilt text built }
    ensures judges { IfOk result (λ d. (text : List ℕ) → IsBuilt text built → Gives (JudgesTexts Run text stimulus.now) d) }
    ensures fits { IfOk result (IsFor Run) }
{
    match take_stimulus(alloc, &built, stimulus)? {
        Ok(settings) => watching(alloc, built, settings),
        Err(reply) => Ok(Decision::Say(reply)),
    }
}

/// What `vcd` answers to a circuit without a fault and to a stimulus's text. The words are looked at before that text.
fn dump(
    alloc: Global,
    built: Built,
    names: &[&str],
    stimulus: &[u8],
) -> Result<Decision, AllocError>
    requires { (text : List ℕ) × IsBuilt text built }
    ensures judges { IfOk result (λ d. (text : List ℕ) → IsBuilt text built → Gives (JudgesTexts (Vcd (map (λ name. name.now) names.now)) text stimulus.now) d) }
    ensures fits { IfOk result (IsFor (Vcd (map (λ name. name.now) names.now))) }
{
    accepted_nets_are_small();
    let Some(numbers) = variables(alloc, &built.ordered, &built.ports, names)? else {
        let reply = refuse_whole(alloc, WholeFault::WatchUnknown)?;
        return Ok(Decision::Say(reply));
    };
    match take_stimulus(alloc, &built, stimulus)? {
        Ok(settings) => Ok(Decision::Dump(built, settings, numbers)),
        Err(reply) => Ok(Decision::Say(reply)),
    }
}

/// What `save` answers to a circuit without a fault and to a stimulus's text. That text is judged before the state.
fn save(
    alloc: Global,
    built: Built,
    begin: Option<StateText<'_>>,
    stimulus: &[u8],
) -> Result<Decision, AllocError>
    requires built { (text : List ℕ) × IsBuilt text built }
    requires short { IsShort (option_map text_given begin) }
    ensures judges { IfOk result (λ d. (text : List ℕ) → IsBuilt text built → Gives (JudgesTexts (Save (option_map text_given begin.entry)) text stimulus.now) d) }
    ensures fits { IfOk result (IsFor (Save (option_map text_given begin.entry))) }
{
    match take_stimulus(alloc, &built, stimulus)? {
        Ok(settings) => match take_start(alloc, &built, begin)? {
            Ok(start) => Ok(Decision::Save(built, settings, start)),
            Err(reply) => Ok(Decision::Say(reply)),
        },
        Err(reply) => Ok(Decision::Say(reply)),
    }
}

/// What `resume` answers to a circuit without a fault and to a stimulus's text. That text is judged before the state.
fn resume(
    alloc: Global,
    built: Built,
    begin: StateText<'_>,
    stimulus: &[u8],
) -> Result<Decision, AllocError>
    requires built { (text : List ℕ) × IsBuilt text built }
    requires short { IsShort (Some (text_given begin)) }
    ensures judges { IfOk result (λ d. (text : List ℕ) → IsBuilt text built → Gives (JudgesTexts (Resume (text_given begin.entry)) text stimulus.now) d) }
    ensures fits { IfOk result (IsFor (Resume (text_given begin.entry))) }
{
    match take_stimulus(alloc, &built, stimulus)? {
        Ok(settings) => match take_start(alloc, &built, Some(begin))? {
            Ok(start) => {
                let watch = watched_numbers(alloc, &built.ordered, &built.ports)?;
                Ok(Decision::Resume(built, settings, watch, start))
            }
            Err(reply) => Ok(Decision::Say(reply)),
        },
        Err(reply) => Ok(Decision::Say(reply)),
    }
}

/// What `log` answers to a circuit without a fault and to a stimulus's text.
fn log(alloc: Global, built: Built, stimulus: &[u8]) -> Result<Decision, AllocError>
    requires { (text : List ℕ) × IsBuilt text built }
    ensures judges { IfOk result (λ d. (text : List ℕ) → IsBuilt text built → Gives (JudgesTexts Log text stimulus.now) d) }
    ensures fits { IfOk result (IsFor Log) }
{
    match take_stimulus(alloc, &built, stimulus)? {
        Ok(settings) => Ok(Decision::Log(built, settings)),
        Err(reply) => Ok(Decision::Say(reply)),
    }
}

/// The snapshot with which a run begins, or the line with which the state's text is refused.
fn take_start(
    alloc: Global,
    built: &Built,
    begin: Option<StateText<'_>>,
) -> Result<Result<Snapshot, Reply>, AllocError>
    requires built { (text : List ℕ) × IsBuilt text built.now }
    requires short { IsShort (option_map text_given begin) }
    ensures takes { IfOk result (λ taken. IfOk taken (λ start. (state : Optional (List ℕ)) × TakesState (option_map text_given begin.entry) state × IsStartOf built.now.ordered.net state start)) }
    ensures status { IfOk result (λ taken. IfErr taken (λ reply. reply.status ≡ 3)) }
    ensures refuses { IfOk result (λ taken. IfErr taken (λ reply. (circuit : List ℕ) → IsBuilt circuit built.now
        → RefusesState built.now.fitted.checked.resolved.names (design_of built.now.fitted) (option_map text_given begin.entry) reply.bytes.items)) }
{
    match begin {
        None => {
            let start = first_snapshot(alloc, &built.ordered.net, &built.ports)?;
            Ok(Ok(start))
        }
        Some(state) => match state {
            StateText::Told(text) => take_state(alloc, built, text),
            StateText::TooLong => {
                let reply = refuse_long_state(alloc)?;
                Ok(Err(reply))
            }
        },
    }
}

/// The snapshot that a text is read as, or the line with which it is refused.
fn take_state(
    alloc: Global,
    built: &Built,
    text: &[u8],
) -> Result<Result<Snapshot, Reply>, AllocError>
    requires built { (text : List ℕ) × IsBuilt text built.now }
    requires short { length text.now ≤ state_limit }
    ensures takes { IfOk result (λ taken. IfOk taken (IsStartOf built.now.ordered.net (Some text.now))) }
    ensures status { IfOk result (λ taken. IfErr taken (λ reply. reply.status ≡ 3)) }
    ensures refuses { IfOk result (λ taken. IfErr taken (λ reply. (circuit : List ℕ) → IsBuilt circuit built.now
        → RefusesState built.now.fitted.checked.resolved.names (design_of built.now.fitted) (Some (Told text.now)) reply.bytes.items)) }
{
    match read_state(alloc, text, &built.ordered.net, &built.ports) {
        Ok(start) => Ok(Ok(start)),
        Err(fault) => {
            let reply = refuse_state(alloc, fault)?;
            Ok(Err(reply))
        }
    }
}

/// The stimulus of a text for a circuit, or the line with which the text is refused.
fn take_stimulus(
    alloc: Global,
    built: &Built,
    text: &[u8],
) -> Result<Result<Stimulus, Reply>, AllocError>
    requires { (text : List ℕ) × IsBuilt text built.now }
    ensures formed { IfOk result (λ taken. IfOk taken (IsFormed built.now.ports)) }
    ensures takes { IfOk result (λ taken. IfOk taken (λ s. (circuit : List ℕ) → IsBuilt circuit built.now
        → TakesStimulus built.now.fitted.checked.resolved.names (design_of built.now.fitted) text.now s)) }
    ensures status { IfOk result (λ taken. IfErr taken (λ reply. reply.status ≡ 3)) }
    ensures refuses { IfOk result (λ taken. IfErr taken (λ reply. (circuit : List ℕ) → IsBuilt circuit built.now
        → RefusesStimulus built.now.fitted.checked.resolved.names (design_of built.now.fitted) text.now reply.bytes.items)) }
{
    if text.len() > STIMULUS_LIMIT {
        let reply = refuse_long_stimulus(alloc)?;
        return Ok(Err(reply));
    }
    accepted_nets_are_small();
    match read_stimulus(alloc, text, &built.ports) {
        Ok(settings) => Ok(Ok(settings)),
        Err(fault) => {
            let reply = refuse_stimulus(alloc, fault)?;
            Ok(Err(reply))
        }
    }
}

/// The run of a circuit under a stimulus that was read for it, by the watched leaves of its ports.
fn watching(alloc: Global, built: Built, stimulus: Stimulus) -> Result<Decision, AllocError>
    requires built { (text : List ℕ) × IsBuilt text built }
    requires formed { IsFormed built.ports stimulus }
    ensures { IfOk result (λ d. (watch : List ℕ) × (d ≡ Decision.Run built stimulus watch) × IsRunnable built stimulus watch) }
{
    let watch = watched_numbers(alloc, &built.ordered, &built.ports)?;
    Ok(Decision::Run(built, stimulus, watch))
}

/// The line of a fault of the circuit. Where memory was wanted there is none.
fn refuse(alloc: Global, fault: &CircuitFault) -> Result<Reply, AllocError>
    ensures { IfOk result (λ r. (r.status ≡ 2) × ((there' : APlace) × (fault_place fault.now ≡ Some there') × (r.bytes.items ≡ fault_bytes fault.now there'))) }
{
    let Some(place) = fault.place() else {
        return Err(AllocError);
    };
    Ok(Reply {
        status: 2,
        bytes: fault_line(alloc, TextPart::Circuit, fault.kind(), place)?,
    })
}

/// The line of a fault of the circuit's text as a whole, or of the words.
pub fn refuse_whole(alloc: Global, fault: WholeFault) -> Result<Reply, AllocError>
    ensures { IfOk result (λ r. (r.status ≡ 2) × (r.bytes.items ≡ whole_bytes fault first_place)) }
{
    Ok(Reply {
        status: 2,
        bytes: fault_line(alloc, TextPart::Circuit, fault.name(), FRONT)?,
    })
}

/// The line of a fault of the stimulus. Where memory was wanted there is none.
fn refuse_stimulus(alloc: Global, fault: StimFault) -> Result<Reply, AllocError>
    ensures { IfOk result (λ r. (r.status ≡ 3) × ((there' : APlace) × (place_of fault ≡ Some there') × (r.bytes.items ≡ stimulus_bytes fault there'))) }
{
    let Some(place) = fault.place() else {
        return Err(AllocError);
    };
    Ok(Reply {
        status: 3,
        bytes: fault_line(alloc, TextPart::Stimulus, fault.kind(), place)?,
    })
}

/// The line of a stimulus's text that is too long.
fn refuse_long_stimulus(alloc: Global) -> Result<Reply, AllocError>
    ensures { IfOk result (λ r. (r.status ≡ 3) × (r.bytes.items ≡ whole_stimulus_bytes WholeFault.TooLong first_place)) }
{
    let fault = WholeFault::TooLong;
    Ok(Reply {
        status: 3,
        bytes: fault_line(alloc, TextPart::Stimulus, fault.name(), FRONT)?,
    })
}

/// The line of a fault of a state. Where memory was wanted there is none.
fn refuse_state(alloc: Global, fault: StateFault) -> Result<Reply, AllocError>
    ensures { IfOk result (λ r. (r.status ≡ 3) × ((there' : APlace) × (place_in_state fault ≡ Some there') × (r.bytes.items ≡ state_bytes fault there'))) }
{
    let Some(place) = fault.place() else {
        return Err(AllocError);
    };
    Ok(Reply {
        status: 3,
        bytes: fault_line(alloc, TextPart::State, fault.kind(), place)?,
    })
}

/// The line of a state's text that is too long.
fn refuse_long_state(alloc: Global) -> Result<Reply, AllocError>
    ensures { IfOk result (λ r. (r.status ≡ 3) × (r.bytes.items ≡ whole_state_bytes WholeFault.TooLong first_place)) }
{
    let fault = WholeFault::TooLong;
    Ok(Reply {
        status: 3,
        bytes: fault_line(alloc, TextPart::State, fault.name(), FRONT)?,
    })
}
