//! Laws of the definitions. The functions do nothing.

ghost use Rattle.fir_tree.specs.declared.scope.Fitted.{Fitted as FittedCircuit};
ghost use Rattle.ground_net.specs.declared.circuit.GroundCircuit.{GroundCircuit as TheGroundCircuit};
ghost use Rattle.ground_net.specs.declared.circuit.DrivenCircuit.{DrivenCircuit as TheDrivenCircuit};
ghost use Rattle.circuit_laws.specs.WellFormed.{IsWellFormed};
ghost use Rattle.net_of_circuit.specs.Lowering.{IsGroundOf};
ghost use Rattle.expand_whens.specs.Expanding.{IsExpanded};
ghost use Rattle.flatten_instances.specs.Instances.{HasInstances};

/// Where a well formed circuit is lowered and each of its modules has drivers in place of statements, the modules that main reaches
/// have their instances and memories in turn, and no module stands within itself (FIRRTL specification 3.0, "Instances").
pub fn lowered_circuits_have_instances()
    ensures { (fitted : FittedCircuit) → IsWellFormed fitted → (lowered : TheGroundCircuit) → IsGroundOf fitted lowered → (driven : TheDrivenCircuit) → IsExpanded lowered driven → HasInstances driven }
{}
