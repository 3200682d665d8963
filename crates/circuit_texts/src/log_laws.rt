//! The laws.

ghost use Rattle.std.specs.Prelude.{◌≡◌, ℕ, List};
ghost use Rattle.std.specs.List.{AllZip};
ghost use Rattle.fir_tree.specs.declared.print.PrintItem.{PrintItem as Print};
ghost use Rattle.fir_tree.specs.LeafNames.{Texts};
ghost use Rattle.fir_tree.specs.declared.scope.Fitted.{Fitted as FittedCircuit};
ghost use Rattle.fir_meaning.specs.Components.{Design, design_of};
ghost use Rattle.fir_meaning.specs.States.{Inputs};
ghost use Rattle.fir_meaning.specs.Loops.{HasNoLoop};
ghost use Rattle.ground_net.specs.declared.net.Net.{Net as TheNet};
ghost use Rattle.ground_net.specs.declared.net.Ordered.{Ordered as TheOrdered};
ghost use Rattle.ground_net.specs.declared.net.Ports.{Ports as ThePorts};
ghost use Rattle.ground_net.specs.Cycles.{first_state};
ghost use Rattle.circuit_laws.specs.WellFormed.{IsWellFormed};
ghost use Rattle.net_of_circuit.specs.FlatOrder.{all_leaves};
ghost use Rattle.net_laws.specs.Serves.{Serves};
ghost use Rattle.stimulus.specs.declared.stimulus.Stimulus.{Stimulus as TheStimulus};
ghost use Rattle.circuit_run.specs.Traces.{all_inputs};
ghost use Rattle.circuit_run.specs.NetRuns.{given_from, IsPlanned};
ghost use Rattle.crew_run.specs.RunTexts.{IsRunText};
ghost use Rattle.print_stop.specs.Logging.{log_telling};
ghost use Rattle.print_stop.specs.Printing.{PathItem};
ghost use Rattle.print_stop.specs.RunItems.{AreItems};
ghost use Rattle.print_stop.specs.Logs.{IsLogOf};
ghost use Rattle.found_items.specs.declared.found.ItemAt.{ItemAt as Found};
ghost use Rattle.found_items.specs.Finding.{HasItems, IsFound};
ghost use Rattle.circuit_texts.specs.Watched.{watch_of, ArePrints};

/// What a run of the net writes that is watched at the leaves of all items, told as their log, is the log of the circuit under the
/// stimulus.
pub fn runs_of_found_items_write_logs()
    ensures { (texts : Texts) (design : Design) (prints : List Print) (ordered : TheOrdered) (serves : Serves texts design ordered.net) (items : List PathItem) (found : List Found) (printed : List Print)
        → AreItems texts design prints items → AllZip (IsFound texts design prints (all_leaves serves.of.placed)) items found → ArePrints prints found printed
        → (ports : ThePorts) (stimulus : TheStimulus) → IsPlanned ordered ports stimulus → (bytes : List ℕ) → IsRunText ordered.net (watch_of found) first_state (given_from stimulus 0 stimulus.cycles) (log_telling printed) 0 bytes
        → IsLogOf texts design prints (all_inputs design stimulus) bytes }
{}

/// Where the items of a circuit are sound, each of them has its leaves in a net that serves the circuit.
pub fn sound_items_are_found()
    ensures { (texts : Texts) (design : Design) (net : TheNet) (serves : Serves texts design net) (prints : List Print) → HasItems texts design prints
        → (found : List Found) × (items : List PathItem) × AreItems texts design prints items × AllZip (IsFound texts design prints (all_leaves serves.of.placed)) items found }
{}

/// A well formed circuit without a loop, whose items are sound, has at most one log under given inputs.
pub fn logs_of_a_well_formed_circuit_are_one()
    ensures { (texts : Texts) (fitted : FittedCircuit) (prints : List Print) → IsWellFormed fitted → HasNoLoop (design_of fitted) → HasItems texts (design_of fitted) prints
        → (given : List Inputs) (bytes other : List ℕ) → IsLogOf texts (design_of fitted) prints given bytes → IsLogOf texts (design_of fitted) prints given other → bytes ≡ other }
{}
