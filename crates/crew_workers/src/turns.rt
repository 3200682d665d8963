//! An epoch on one thread: in each cycle all codes are evaluated before the first publishes.

ghost use Rattle.std.specs.Prelude.{◌≡◌, ◌+◌, ◌*◌, ◌^◌, ◌<◌, ◌≤◌, ℕ, length, slice_index_or, vec_len, vec_capacity, IfOk};
ghost use Rattle.std.proofs.Common.{refl, ◌∙◌};
ghost use mathlib.Core.Option.{some};
ghost use lib.ListN.{get_elem?};
ghost use Rattle.phase_core.specs.declared.model.Publication.{Publication as Pub};
ghost use Rattle.phase_core.specs.Script.{published, published_all, values};
ghost use Rattle.flat_code.specs.declared.code.Code.{Code as Cod};
ghost use Rattle.flat_code.specs.declared.running.Effects.{Effects as Eff};
ghost use Rattle.flat_code.specs.Codes.{published_by, outputs_by, most_publications, most_outputs, frame_length};
ghost use Rattle.crew_workers.specs.Asked.{PublishOwn, AreCounted};
ghost use Rattle.crew_workers.specs.Places.{HasPlaces, OwnPlaces};
ghost use Rattle.crew_workers.specs.Scripts.{round_by, RowOf, Outputs, Runs, script_of};
ghost use Rattle.crew_workers.specs.Turns.{Roomy, Evaluated, Serves, parts_of, RowFrom};

use crate::gate::Gate;
use crate::places::{longest_frame, place, row_width};
use bit_words::{Kind, List, Row, Rows, Value};
use flat_code::{Code, Effects, Loads, step};
use phase_core::Publication;
use std::alloc::{AllocError, Global};

// Words that nobody writes meanwhile.
#[derive(Drop)]
struct Words<'w> {
    items: &'w [u64],
}

impl<'w> Loads for Words<'w> {
    ghost words = { λ l. l.items.now };

    ghost ready = { λ l. Unit {0} };

    ghost same = { λ a b. b.items.now ≡ a.items.now };

    fn load(&mut self, word: u32) -> u64 {
        self.items[word as usize]
    }

    ghost same_words = { λ a b e. e };

    ghost same_ready = { λ a b e r. r };

    ghost same_self = { λ a. refl };

    ghost same_on = { λ a b c e f. f ∙ e };
}

// The codes that take turns, how many values a row of their outputs has, and the gate, which is told the numbers of the
// cycles from `first` on.
#[derive(Drop)]
struct Team<'t, G> {
    codes: &'t [Code],
    width: usize,
    first: u64,
    gate: &'t G,
}

// The number of a cycle, and its inputs.
#[derive(Clone, Copy)]
struct Cycle<'c> {
    number: u64,
    inputs: &'c Row,
}

// A frame that serves each code, and the effects of each.
#[derive(Drop)]
struct Desk {
    frame: Vec<u64>,
    effects: Vec<Effects>,
}

// Evaluates a code on these words.
fn evaluate_code(code: &Code, words: &[u64], frame: &mut [u64], inputs: &Row, effects: &mut Effects)
    requires words { length words.now ≡ code.now.words }
    requires frame { frame_length code.now ≤ length frame.old }
    requires publications { most_publications code.now ≤ vec_capacity effects.old.publications }
    requires outputs { most_outputs code.now ≤ vec_capacity effects.old.outputs }
    ensures publications { effects.new.publications.items ≡ published_by code.now words.now inputs.now }
    ensures outputs { effects.new.outputs.items ≡ outputs_by code.now words.now inputs.now }
    ensures publications_room { most_publications code.now ≤ vec_capacity effects.new.publications }
    ensures outputs_room { most_outputs code.now ≤ vec_capacity effects.new.outputs }
    ensures frame { length frame.new ≡ length frame.old }
{
    let mut loads = Words { items: words };
    step(code, frame, &mut loads, inputs, effects);
}

// Evaluates all codes on these words.
fn evaluate_codes<G: Gate>(
    team: &Team<G>,
    cycle: &Cycle,
    words: &[u64],
    frame: &mut [u64],
    effects: &mut [Effects],
)
    requires few { length team.now.codes.now < 2 ^ 32 }
    requires words { AreCounted team.now.codes.now (length words.now) }
    requires frame { Serves team.now.codes.now (length frame.old) }
    requires room { Roomy team.now.codes.now effects.old }
    ensures effects { Evaluated team.now.codes.now words.now cycle.now.inputs.now effects.new (length team.now.codes.now) }
    ensures room { Roomy team.now.codes.now effects.new }
    ensures frame { length frame.new ≡ length frame.old }
{
    let codes = team.codes;
    let inputs = cycle.inputs;
    for k in 0..codes.len() {
        team.gate.enter(k as u32, cycle.number);
        evaluate_code(&codes[k], words, frame, inputs, &mut effects[k]);
    }
}

// Stores these publications in order.
fn store_part(part: &[Publication], words: &mut [u64])
    requires { (j : ℕ) (p : Pub) → get_elem? part.now j ≡ some p → p.word < length words.old }
    ensures { words.new ≡ published part.now words.old }
{
    for publication in part {
        words[publication.word as usize] = publication.value;
    }
}

fn store_all(effects: &[Effects], words: &mut [u64])
    requires { (k j : ℕ) (e : Eff) (p : Pub) → k < length effects.now → get_elem? (slice_index_or effects.now k e).publications.items j ≡ some p → p.word < length words.old }
    ensures { words.new ≡ published_all (parts_of effects.now) words.old }
{
    for one in effects {
        store_part(one.publications.as_slice(), words);
    }
}

// Puts the outputs of all codes at their positions.
fn fill_row(codes: &[Code], effects: &[Effects], row: &mut [Value])
    requires own { OwnPlaces codes.now }
    requires places { HasPlaces codes.now (length row.old) }
    requires many { length effects.now ≡ length codes.now }
    requires outputs { (k : ℕ) (d : Cod) (e : Eff) → k < length codes.now → length (slice_index_or effects.now k e).outputs.items ≡ length (slice_index_or codes.now k d).positions }
    ensures many { length row.new ≡ length row.old }
    ensures row { RowFrom codes.now effects.now row.new (length codes.now) }
{
    for k in 0..codes.len() {
        let code = &codes[k];
        let effect = &effects[k];
        place(code.positions(), effect.outputs.as_slice(), row);
    }
}

// The row of a cycle: the outputs of all codes, each at its position.
fn output_row(
    alloc: Global,
    codes: &[Code],
    effects: &[Effects],
    width: usize,
) -> Result<Row, AllocError>
    requires own { OwnPlaces codes.now }
    requires places { HasPlaces codes.now width }
    requires many { length effects.now ≡ length codes.now }
    requires outputs { (k : ℕ) (d : Cod) (e : Eff) → k < length codes.now → length (slice_index_or effects.now k e).outputs.items ≡ length (slice_index_or codes.now k d).positions }
    ensures row { IfOk result (λ r. RowFrom codes.now effects.now r (length codes.now)) }
    ensures many { IfOk result (λ r. length r ≡ width) }
{
    let nothing = Value {
        kind: Kind::Unsigned,
        width: 0,
        bits: 0,
    };
    let mut row = Vec::from_elem(alloc, nothing, width)?;
    fill_row(codes, effects, row.as_mut_slice());
    Ok(List::from_vec(row))
}

// The effects of each code, with room for a step.
fn all_effects(alloc: Global, codes: &[Code]) -> Result<Vec<Effects>, AllocError>
    ensures { IfOk result (λ v. Roomy codes.now v.items) }
{
    let mut effects = Vec::with_capacity(alloc, codes.len())?;
    for k in 0..codes.len() {
        let code = &codes[k];
        effects.push(code.effects(alloc)?)?;
    }
    Ok(effects)
}

// One cycle: evaluates all codes, and then stores what they publish.
fn run_cycle<G: Gate>(
    alloc: Global,
    team: &Team<G>,
    cycle: &Cycle,
    desk: &mut Desk,
    words: &mut [u64],
) -> Result<Row, AllocError>
    requires few { length team.now.codes.now < 2 ^ 32 }
    requires counted { AreCounted team.now.codes.now (length words.old) }
    requires publish { PublishOwn team.now.codes.now words.old cycle.now.inputs.now }
    requires own { OwnPlaces team.now.codes.now }
    requires places { HasPlaces team.now.codes.now team.now.width }
    requires frame { Serves team.now.codes.now (vec_len desk.old.frame) }
    requires room { Roomy team.now.codes.now desk.old.effects.items }
    ensures words { IfOk result (λ r. words.new ≡ published_all (round_by team.now.codes.now words.old cycle.now.inputs.now) words.old) }
    ensures row { IfOk result (λ r. RowOf team.now.codes.now words.old cycle.now.inputs.now r) }
    ensures room { Roomy team.now.codes.now desk.new.effects.items }
    ensures frame { vec_len desk.new.frame ≡ vec_len desk.old.frame }
    ensures many { length words.new ≡ length words.old }
{
    let frame = desk.frame.as_mut_slice();
    evaluate_codes(team, cycle, words, frame, desk.effects.as_mut_slice());
    let effects = desk.effects.as_slice();
    let row = output_row(alloc, team.codes, effects, team.width)?;
    store_all(effects, words);
    Ok(row)
}

// Runs the codes, one cycle per input row.
fn run_cycles<G: Gate>(
    alloc: Global,
    team: &Team<G>,
    rows: &[Row],
    desk: &mut Desk,
    words: &mut [u64],
) -> Result<Rows, AllocError>
    requires runs { Runs team.now.codes.now words.old rows.now }
    requires numbers { team.now.first + length rows.now < 2 ^ 64 }
    requires places { HasPlaces team.now.codes.now team.now.width }
    requires frame { Serves team.now.codes.now (vec_len desk.old.frame) }
    requires room { Roomy team.now.codes.now desk.old.effects.items }
    ensures many { length words.new ≡ length words.old }
    ensures words { IfOk result (λ r. words.new ≡ values (script_of team.now.codes.now words.old rows.now) (length rows.now)) }
    ensures outputs { IfOk result (λ r. Outputs (script_of team.now.codes.now words.old rows.now) team.now.codes.now rows.now r (length rows.now)) }
{
    let mut outputs = List::new(alloc);
    for cycle in 0..rows.len() {
        let here = Cycle {
            number: team.first + cycle as u64,
            inputs: &rows[cycle],
        };
        let row = run_cycle(alloc, team, &here, desk, words)?;
        outputs.push(row)?;
    }
    Ok(outputs)
}

/// What an epoch is of.
#[derive(Clone, Copy)]
pub struct Work<'w> {
    /// All codes of one cut.
    pub codes: &'w List<Code>,
    /// The words that the first cycle begins with.
    pub words: &'w List<u64>,
    /// The values of the inputs, a row for each cycle.
    pub rows: &'w Rows,
}

/// Runs the codes from these words on, one cycle per input row, and gives the words behind the last cycle and a row of
/// the watched leaves per cycle. The gate is told the number of the cycle, from `first` on.
///
/// The codes are all codes of one cut, the words are as many as its net has, and the rows match its inputs.
pub fn run_in_turns<G: Gate>(
    alloc: Global,
    work: &Work<'_>,
    first: u64,
    gate: &G,
) -> Result<(List<u64>, Rows), AllocError>
    requires runs { Runs work.now.codes.now work.now.words.now work.now.rows.now }
    requires numbers { first + length work.now.rows.now < 2 ^ 64 }
    ensures words { IfOk result (λ r. r.0 ≡ values (script_of work.now.codes.now work.now.words.now work.now.rows.now) (length work.now.rows.now)) }
    ensures outputs { IfOk result (λ r. Outputs (script_of work.now.codes.now work.now.words.now work.now.rows.now) work.now.codes.now work.now.rows.now r.1 (length work.now.rows.now)) }
{
    let codes = work.codes.as_slice();
    let width = row_width(codes, work.words.as_slice(), work.rows);
    let frame = Vec::from_elem(alloc, 0u64, longest_frame(codes))?;
    let effects = all_effects(alloc, codes)?;
    let mut state = Vec::new(alloc);
    state.extend_from_slice(work.words.as_slice())?;
    let team = Team {
        codes,
        width,
        first,
        gate,
    };
    let mut desk = Desk { frame, effects };
    let words = state.as_mut_slice();
    let outputs = run_cycles(alloc, &team, work.rows.as_slice(), &mut desk, words)?;
    Ok((List::from_vec(state), outputs))
}
