//! Laws of the definitions. The functions do nothing.

ghost use Rattle.std.specs.Prelude.{◌≡◌, ℕ, List, Option, Some, Ok, Result, OnOk};
ghost use Rattle.shelf_io.specs.Outside.{Appends};
ghost use Rattle.fir_tree.specs.LeafNames.{Texts};
ghost use Rattle.fir_meaning.specs.Components.{Design};
ghost use Rattle.ground_net.specs.declared.net.Net.{Net as TheNet};
ghost use Rattle.ground_net.specs.Reads.{IsOrder};
ghost use Rattle.net_laws.specs.Serves.{Serves};
ghost use Rattle.stimulus.specs.declared.stimulus.Stimulus.{Stimulus as TheStimulus};
ghost use Rattle.circuit_run.specs.Traces.{IsTraceText};

/// Two traces of a circuit under one stimulus that are appended to the same leave the same. So two runs that came to their end left sinks
/// alike that were alike: each appended such a trace, as `simulate` says of any number of workers.
pub fn traces_of_a_circuit_are_written_alike()
    ensures { (texts : Texts) (design : Design) (net : TheNet) (sequence : List ℕ) → Serves texts design net → IsOrder net sequence → (stimulus : TheStimulus) (old new other : Option (List ℕ)) (bytes others : List ℕ)
        → IsTraceText texts design stimulus bytes → Appends old new bytes → IsTraceText texts design stimulus others → Appends old other others → new ≡ other }
{}
