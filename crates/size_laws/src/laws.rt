//! Laws of the measure. The functions do nothing.

ghost use Rattle.std.specs.Prelude.{◌≡◌, ℕ, ◌+◌, ◌≤◌, [], false, List, length, Some};
ghost use Rattle.place_text.specs.First.{HasNone};
ghost use Rattle.fir_tree.specs.declared.scope.Fitted.{Fitted as FittedCircuit};
ghost use Rattle.fir_meaning.specs.Components.{TypedModule, design_of, module_named};
ghost use Rattle.fir_names.specs.Faults.{IsFault};
ghost use Rattle.ground_net.specs.declared.net.Net.{Net as TheNet};
ghost use Rattle.ground_net.specs.Cones.{sinks};
ghost use Rattle.ground_net.specs.Watching.{inputs, watched};
ghost use Rattle.net_of_circuit.specs.FlatOrder.{Placed, InFlatOrder};
ghost use Rattle.net_of_circuit.specs.NetOf.{IsNetOf};
ghost use Rattle.fitted_laws.specs.Accepted.{IsAccepted};
ghost use Rattle.size_check.specs.declared.measure.Measure.{Measure as AMeasure};
ghost use Rattle.size_check.specs.Limits.{IsFault as IsSizeFault, IsMeasure, is_too_large};
ghost use Rattle.size_laws.specs.Pieces.{AreMeasured};
ghost use Rattle.size_laws.specs.Runs.{IsOfRun, IsLongest};

use circuit_laws::laws::{components_are_named, names_are_declared_once};
use cone_cutter::laws::sinks_are_few;
use fir_types::laws::leaves_are_counted;
use fitted_laws::laws::filled_types_are_equivalent;
use size_check::laws::measured_paths_are_all;
use width_laws::fit_laws::fitted_declarations_are_those_of_the_text;

/// In an accepted circuit each component of each module has its leaves where the measure took them to be.
pub fn accepted_circuits_are_measured()
    ensures { (fitted : FittedCircuit) → IsAccepted fitted → AreMeasured fitted }
{
    filled_types_are_equivalent();
    fitted_declarations_are_those_of_the_text();
    names_are_declared_once();
}

/// So the measure of an accepted circuit that passes no limit is that of its run: the leaves in flat order, the bytes of their names and
/// of those of memory elements, two words for each leaf of the state, and the names of the longest path at which a module stands.
pub fn accepted_measures_are_those_of_runs()
    ensures run { (fitted : FittedCircuit) → IsAccepted fitted → HasNone (IsSizeFault fitted.checked.resolved) → (measure : AMeasure) → IsMeasure fitted.checked.resolved measure → (main : TypedModule) (placed : List Placed) → module_named (design_of fitted) (design_of fitted).main ≡ Some main → InFlatOrder (design_of fitted) [] main main.components placed → IsOfRun fitted.checked.resolved.names placed measure }
    ensures paths { (fitted : FittedCircuit) → IsAccepted fitted → HasNone (IsSizeFault fitted.checked.resolved) → (measure : AMeasure) → IsMeasure fitted.checked.resolved measure → (main : TypedModule) → module_named (design_of fitted) (design_of fitted).main ≡ Some main → IsLongest (design_of fitted) measure.depth }
{
    accepted_circuits_are_measured();
    measures_are_those_of_runs();
    depths_are_those_of_paths();
}

/// And its nets are small: at most as many leaves as a run may have, no more of them given or watched, no more memories than its flat size may be, and no more sinks than
/// both together besides the watched leaves.
pub fn accepted_nets_are_small()
    ensures leaves { (fitted : FittedCircuit) → IsAccepted fitted → HasNone (IsSizeFault fitted.checked.resolved) → (net : TheNet) → IsNetOf fitted.checked.resolved.names (design_of fitted) net → length net.leaves ≤ 65536 }
    ensures watched { (fitted : FittedCircuit) → IsAccepted fitted → HasNone (IsSizeFault fitted.checked.resolved) → (net : TheNet) → IsNetOf fitted.checked.resolved.names (design_of fitted) net → length (watched net) ≤ 65536 }
    ensures inputs { (fitted : FittedCircuit) → IsAccepted fitted → HasNone (IsSizeFault fitted.checked.resolved) → (net : TheNet) → IsNetOf fitted.checked.resolved.names (design_of fitted) net → length (inputs net) ≤ 65536 }
    ensures memories { (fitted : FittedCircuit) → IsAccepted fitted → HasNone (IsSizeFault fitted.checked.resolved) → (net : TheNet) → IsNetOf fitted.checked.resolved.names (design_of fitted) net → length net.memories ≤ 1000000 }
    ensures sinks { (fitted : FittedCircuit) → IsAccepted fitted → HasNone (IsSizeFault fitted.checked.resolved) → (net : TheNet) → IsNetOf fitted.checked.resolved.names (design_of fitted) net → (watch : List ℕ) → length (sinks net watch) ≤ length watch + 1065536 }
{
    leaves_are_counted();
    measured_paths_are_all();
    accepted_circuits_are_measured();
    sinks_are_few();
}

/// Where a circuit passes no limit, its measure is that of its run, where its components have the leaves that were measured: the leaves
/// in flat order, the bytes of their names and of those of memory elements, and two words for each leaf of the state.
pub fn measures_are_those_of_runs()
    ensures { (fitted : FittedCircuit) → AreMeasured fitted → is_too_large fitted.checked.resolved ≡ false → (measure : AMeasure) → IsMeasure fitted.checked.resolved measure → (main : TypedModule) (placed : List Placed) → module_named (design_of fitted) (design_of fitted).main ≡ Some main → InFlatOrder (design_of fitted) [] main main.components placed → IsOfRun fitted.checked.resolved.names placed measure }
{
    leaves_are_counted();
    measured_paths_are_all();
}

/// And where its names have no fault, the greatest number of names in an instance path is that of the longest path at which a module
/// stands.
pub fn depths_are_those_of_paths()
    ensures { (fitted : FittedCircuit) → HasNone (IsFault fitted.checked.resolved) → AreMeasured fitted → is_too_large fitted.checked.resolved ≡ false → (measure : AMeasure) → IsMeasure fitted.checked.resolved measure → (main : TypedModule) → module_named (design_of fitted) (design_of fitted).main ≡ Some main → IsLongest (design_of fitted) measure.depth }
{
    measured_paths_are_all();
    components_are_named();
}
