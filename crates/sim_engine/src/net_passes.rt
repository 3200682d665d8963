//! Laws of the definitions. The functions do nothing.

ghost use Rattle.fir_tree.specs.declared.scope.Fitted.{Fitted as FittedCircuit};
ghost use Rattle.fir_meaning.specs.Components.{design_of};
ghost use Rattle.fir_meaning.specs.Certain.{IsInitialized};
ghost use Rattle.circuit_laws.specs.WellFormed.{IsWellFormed};
ghost use Rattle.ground_net.specs.declared.circuit.GroundCircuit.{GroundCircuit as LoweredCircuit};
ghost use Rattle.ground_net.specs.declared.net.Net.{Net as TheNet};
ghost use Rattle.net_laws.specs.Serves.{Serves};
ghost use Rattle.net_of_circuit.specs.Lowering.{IsGroundOf};
ghost use Rattle.sim_engine.specs.Passing.{IsInstanced, IsNetOfPasses};

use assembly_laws::laws::{nets_of_circuits_serve_them, passes_make_the_net};
use assembly_laws::sound_laws::flat_circuits_are_sound;
use lowering_laws::instance_laws::lowered_circuits_have_instances;

/// The ground statements of a well formed circuit can be passed on; and what the passes make of them, where the circuit is initialized,
/// is the circuit's net, which serves it.
pub fn passes_serve_circuits()
    ensures instanced { (fitted : FittedCircuit) → IsWellFormed fitted → (lowered : LoweredCircuit) → IsGroundOf fitted lowered → IsInstanced lowered }
    ensures serves { (fitted : FittedCircuit) → IsWellFormed fitted → IsInitialized (design_of fitted) → (lowered : LoweredCircuit) → IsGroundOf fitted lowered → (net : TheNet) → IsNetOfPasses lowered net → Serves fitted.checked.resolved.names (design_of fitted) net }
{
    lowered_circuits_have_instances();
    flat_circuits_are_sound();
    passes_make_the_net();
    nets_of_circuits_serve_them();
}
