//! Laws of the definitions. The functions do nothing.

ghost use Rattle.std.specs.Prelude.{◌≡◌};
ghost use Rattle.fir_tree.specs.declared.scope.Fitted.{Fitted as FittedCircuit};
ghost use Rattle.fir_meaning.specs.Components.{design_of};
ghost use Rattle.fir_meaning.specs.Certain.{IsInitialized};
ghost use Rattle.circuit_laws.specs.WellFormed.{IsWellFormed};
ghost use Rattle.ground_net.specs.declared.circuit.GroundCircuit.{GroundCircuit as LoweredCircuit};
ghost use Rattle.ground_net.specs.declared.circuit.DrivenCircuit.{DrivenCircuit as CircuitOfDrivers};
ghost use Rattle.ground_net.specs.declared.circuit.FlatCircuit.{FlatCircuit as CircuitOfLeaves};
ghost use Rattle.expand_whens.specs.Expanding.{IsExpanded};
ghost use Rattle.flatten_instances.specs.Flat.{IsFlat};
ghost use Rattle.net_of_circuit.specs.Lowering.{IsGroundOf};
ghost use Rattle.lowering_laws.specs.FlatOf.{IsFlatOf};

use fir_meaning::laws::initialized_leaves_are_driven;

/// What the passes make of an initialized circuit is its flat circuit: its leaves in flat order, each with its name, kind, width and
/// place, drivers that have what the statements leave, and its memories with the numbers of their ports' leaves.
pub fn passes_make_the_flat_circuit()
    ensures { (fitted : FittedCircuit) → IsWellFormed fitted → IsInitialized (design_of fitted) → (lowered : LoweredCircuit) → IsGroundOf fitted lowered → (driven : CircuitOfDrivers) → IsExpanded lowered driven → (flat : CircuitOfLeaves) → IsFlat driven flat → IsFlatOf fitted flat }
{
    initialized_leaves_are_driven();
}
