//! Laws of the definitions, and worked examples. The functions do nothing.

ghost use Rattle.std.specs.Prelude.{◌≡◌, ℕ, List, ◌∷◌, [], codes, pos, negsuc, Some};
ghost use Rattle.bit_words.specs.declared.value.Value.{Value as OneValue};
ghost use Rattle.bit_words.specs.Values.{integer_of};
ghost use Rattle.fir_types.specs.declared.leaf.PathStep.{PathStep as OneStep};
ghost use Rattle.fir_tree.specs.LeafNames.{Texts};
ghost use Rattle.fir_meaning.specs.Components.{Design};
ghost use Rattle.fir_meaning.specs.States.{State, Inputs, HasOneSettled};
ghost use Rattle.ground_net.specs.declared.net.Net.{Net as TheNet};
ghost use Rattle.ground_net.specs.declared.net.Ports.{Ports as ThePorts};
ghost use Rattle.ground_net.specs.Reads.{IsOrder};
ghost use Rattle.ground_net.specs.Watching.{inputs, watched, port_names};
ghost use Rattle.net_laws.specs.Serves.{Serves};
ghost use Rattle.stimulus.specs.declared.stimulus.Stimulus.{Stimulus as TheStimulus};
ghost use Rattle.stimulus.specs.Stimuli.{IsFormed};
ghost use Rattle.circuit_run.specs.Ports.{ArePortsOf};
ghost use Rattle.circuit_run.specs.Ranges.{IsInRange, AreInRange};
ghost use Rattle.circuit_run.specs.Traces.{IsTraceText, line_of, input_number, inputs_in};

/// The ports of the net of a circuit are those of the circuit.
pub fn ports_are_of_circuits()
    ensures { (texts : Texts) (design : Design) (net : TheNet) → Serves texts design net → (ports : ThePorts) → ports.inputs ≡ inputs net → ports.watched ≡ watched net → ports.names ≡ port_names net → ArePortsOf texts design ports }
{}

/// The ports of a circuit are one.
pub fn ports_are_one()
    ensures { (texts : Texts) (design : Design) (ports other : ThePorts) → ArePortsOf texts design ports → ArePortsOf texts design other → ports ≡ other }
{}

/// A circuit whose net has an order has a trace under each stimulus of its ports.
pub fn traces_exist()
    ensures { (texts : Texts) (design : Design) (net : TheNet) (sequence : List ℕ) → Serves texts design net → IsOrder net sequence → (ports : ThePorts) → ports.inputs ≡ inputs net → ports.watched ≡ watched net → (stimulus : TheStimulus) → IsFormed ports stimulus
        → (bytes : List ℕ) × IsTraceText texts design stimulus bytes }
{}

/// And one alone.
pub fn traces_are_one()
    ensures { (texts : Texts) (design : Design) (net : TheNet) (sequence : List ℕ) → Serves texts design net → IsOrder net sequence → (stimulus : TheStimulus) (bytes other : List ℕ)
        → IsTraceText texts design stimulus bytes → IsTraceText texts design stimulus other → bytes ≡ other }
{}

/// For each state and inputs that are in range the circuit has exactly one settled valuation.
pub fn states_in_range_settle_once()
    ensures { (texts : Texts) (design : Design) (net : TheNet) (sequence : List ℕ) → Serves texts design net → IsOrder net sequence → (s : State) (given : Inputs) → IsInRange design s → AreInRange design given → HasOneSettled design s given }
{}

/// The line of cycle 0 in which the watched leaves have 5 and -1.
pub fn a_line_has_the_cycle_and_the_integers()
    ensures { line_of (0, pos 5 ∷ negsuc 0 ∷ []) ≡ codes "0 5 -1\n" }
{}

/// An input that is set in cycle 1 and in cycle 3 is given 0 before, then the first value, and then the other one.
pub fn an_input_keeps_its_last_setting()
    ensures before { (design : Design) (name : ℕ) (way : List OneStep) (v w : OneValue) → input_number design name way ≡ Some 0 → inputs_in design (record { cycles = 4; settings = record { cycle = 1; input = 0; value = v } ∷ record { cycle = 3; input = 0; value = w } ∷ [] }) 0 name way ≡ pos 0 }
    ensures at { (design : Design) (name : ℕ) (way : List OneStep) (v w : OneValue) → input_number design name way ≡ Some 0 → inputs_in design (record { cycles = 4; settings = record { cycle = 1; input = 0; value = v } ∷ record { cycle = 3; input = 0; value = w } ∷ [] }) 1 name way ≡ integer_of v }
    ensures behind { (design : Design) (name : ℕ) (way : List OneStep) (v w : OneValue) → input_number design name way ≡ Some 0 → inputs_in design (record { cycles = 4; settings = record { cycle = 1; input = 0; value = v } ∷ record { cycle = 3; input = 0; value = w } ∷ [] }) 2 name way ≡ integer_of v }
    ensures changed { (design : Design) (name : ℕ) (way : List OneStep) (v w : OneValue) → input_number design name way ≡ Some 0 → inputs_in design (record { cycles = 4; settings = record { cycle = 1; input = 0; value = v } ∷ record { cycle = 3; input = 0; value = w } ∷ [] }) 3 name way ≡ integer_of w }
{}
