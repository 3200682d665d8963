//! Laws of the definitions. The functions do nothing.

ghost use Rattle.std.specs.Prelude.{◌≡◌, ℕ, Some};
ghost use Rattle.fir_tree.specs.declared.scope.Fitted.{Fitted as FittedCircuit};
ghost use Rattle.fir_tree.specs.declared.circuit.Circuit.{Circuit as ACircuit};
ghost use Rattle.ground_net.specs.declared.circuit.GroundCircuit.{GroundCircuit as TheGroundCircuit};
ghost use Rattle.fir_names.specs.Scopes.{Means};
ghost use Rattle.net_of_circuit.specs.Lowering.{IsGroundOf};

/// The main module of the ground statements is the circuit's.
pub fn main_is_main()
    ensures { (fitted : FittedCircuit) (lowered : TheGroundCircuit) → IsGroundOf fitted lowered → Means fitted.checked.resolved fitted.checked.resolved.main.id lowered.main }
{}
