//! States of a circuit, and those of its net. The functions do nothing.

ghost use Rattle.std.specs.Prelude.{◌≡◌, ℕ, List, [], ◌∷◌, Option, Some, slice_get};
ghost use Rattle.bit_words.specs.declared.value.Value.{Value};
ghost use Rattle.bit_words.specs.Values.{integer_of};
ghost use Rattle.fir_types.specs.declared.leaf.PathStep.{PathStep as OneStep};
ghost use Rattle.fir_tree.specs.LeafNames.{Texts};
ghost use Rattle.fir_tree.specs.declared.scope.Fitted.{Fitted as FittedCircuit};
ghost use Rattle.fir_meaning.specs.Components.{Design, design_of};
ghost use Rattle.fir_meaning.specs.States.{State};
ghost use Rattle.ground_net.specs.declared.net.Net.{Net as TheNet};
ghost use Rattle.ground_net.specs.declared.net.Ports.{Ports as ThePorts};
ghost use Rattle.ground_net.specs.Watching.{AreValuesOf, inputs};
ghost use Rattle.ground_net.specs.Cycles.{NetState};
ghost use Rattle.circuit_laws.specs.WellFormed.{IsWellFormed};
ghost use Rattle.net_of_circuit.specs.FlatOrder.{all_leaves};
ghost use Rattle.net_laws.specs.Runs.{AreGiven};
ghost use Rattle.net_laws.specs.Serves.{Serves, Matches};
ghost use Rattle.stimulus.specs.declared.stimulus.Stimulus.{Stimulus as TheStimulus};
ghost use Rattle.stimulus.specs.Stimuli.{IsFormed};
ghost use Rattle.snapshot_text.specs.declared.snapshot.Snapshot.{Snapshot as TheSnapshot};
ghost use Rattle.snapshot_text.specs.Snapshots.{HoldsState};
ghost use Rattle.circuit_run.specs.Traces.{input_number};
ghost use Rattle.circuit_run.specs.NetRuns.{given_in_from, inputs_from};
ghost use Rattle.circuit_texts.specs.Apart.{StoresApart, KeepsApart};
ghost use Rattle.circuit_texts.specs.Held.{IsStartOf, Begins};
ghost use Rattle.circuit_texts.specs.StateTexts.{integer_or_zero, inputs_in_from, all_inputs_from};

/// Each state of a circuit's net is one of the circuit, where what the circuit keeps stands apart.
pub fn states_of_nets_are_states_of_circuits()
    ensures { (texts : Texts) (design : Design) (net : TheNet) (serves : Serves texts design net) → KeepsApart design → (t : NetState) → (s : State) × Matches serves s t }
{}

/// What main's inputs are given from a row on is what the net's inputs are given, and in range.
pub fn inputs_from_a_row_match()
    ensures { (texts : Texts) (design : Design) (net : TheNet) (serves : Serves texts design net) (ports : ThePorts) → ports.inputs ≡ inputs net → (stimulus : TheStimulus) → IsFormed ports stimulus → (start : List Value) → AreValuesOf (inputs net) start
        → AreGiven (all_leaves serves.of.placed) net (all_inputs_from design start stimulus) (inputs_from (given_in_from (λ n. integer_or_zero (slice_get start n)) stimulus) 0 stimulus.cycles) }
{}

/// What a net begins with is what the circuit begins with.
pub fn starts_are_begins()
    ensures { (texts : Texts) (design : Design) (net : TheNet) (serves : Serves texts design net) → KeepsApart design → (begin : Option (List ℕ)) (snapshot : TheSnapshot) → IsStartOf net begin snapshot
        → (s : State) × (t : NetState) × HoldsState net (inputs net) t snapshot × Matches serves s t × Begins texts design begin s snapshot }
{}

/// What a well formed circuit keeps stands apart, where it does in the memories that have no ports.
pub fn well_formed_circuits_keep_apart()
    ensures { (fitted : FittedCircuit) → IsWellFormed fitted → StoresApart (design_of fitted) → KeepsApart (design_of fitted) }
{}

/// An input that begins with a value and is set in cycle 1 is given the first value before, and then the other one.
pub fn an_input_begins_with_its_value()
    ensures before { (design : Design) (name : ℕ) (way : List OneStep) (u v : Value) → input_number design name way ≡ Some 0 → inputs_in_from design (u ∷ []) (record { cycles = 2; settings = record { cycle = 1; input = 0; value = v } ∷ [] }) 0 name way ≡ integer_of u }
    ensures set { (design : Design) (name : ℕ) (way : List OneStep) (u v : Value) → input_number design name way ≡ Some 0 → inputs_in_from design (u ∷ []) (record { cycles = 2; settings = record { cycle = 1; input = 0; value = v } ∷ [] }) 1 name way ≡ integer_of v }
{}
