//! Laws of the definitions. The functions do nothing.

ghost use Rattle.fir_tree.specs.declared.scope.Fitted.{Fitted as FittedCircuit};
ghost use Rattle.fir_meaning.specs.Components.{design_of};
ghost use Rattle.fir_meaning.specs.Certain.{IsInitialized};
ghost use Rattle.circuit_laws.specs.WellFormed.{IsWellFormed};
ghost use Rattle.ground_net.specs.declared.circuit.GroundCircuit.{GroundCircuit as TheGroundCircuit};
ghost use Rattle.ground_net.specs.declared.circuit.DrivenCircuit.{DrivenCircuit as TheDrivenCircuit};
ghost use Rattle.ground_net.specs.declared.circuit.FlatCircuit.{FlatCircuit as TheFlatCircuit};
ghost use Rattle.ground_net.specs.declared.net.Net.{Net as TheNet};
ghost use Rattle.ground_net.specs.Nets.{IsNet};
ghost use Rattle.expand_whens.specs.Expanding.{IsExpanded};
ghost use Rattle.net_of_circuit.specs.NetOf.{IsNetOf};
ghost use Rattle.net_laws.specs.Serves.{Serves};
ghost use Rattle.net_of_circuit.specs.Lowering.{IsGroundOf};
ghost use Rattle.flatten_instances.specs.Flat.{IsFlat};
ghost use Rattle.memory_ports.specs.Placing.{IsPlaced};

use fir_meaning::laws::initialized_leaves_are_driven;
use memory_ports::laws::loads_are_what_ports_read;

/// The net that the passes make of an initialized circuit is the circuit's, where it is well formed: its leaves in flat order, each with
/// its name, kind, width, place and part in a cycle; at every instant the drivers have what the circuit's statements, nodes and ports
/// leave in the leaves, and read what they read; and the registers and memories are the circuit's.
pub fn passes_make_the_net()
    ensures { (fitted : FittedCircuit) → IsWellFormed fitted → IsInitialized (design_of fitted) → (lowered : TheGroundCircuit) → IsGroundOf fitted lowered → (driven : TheDrivenCircuit) → IsExpanded lowered driven → (flat : TheFlatCircuit) → IsFlat driven flat → (net : TheNet) → IsPlaced flat net → IsNet net → IsNetOf fitted.checked.resolved.names (design_of fitted) net }
{
    initialized_leaves_are_driven();
    loads_are_what_ports_read();
}

/// The net of a well formed circuit serves it: its flat order lists each leaf of the run once, and its types are sound.
pub fn nets_of_circuits_serve_them()
    ensures { (fitted : FittedCircuit) → IsWellFormed fitted → (net : TheNet) → IsNetOf fitted.checked.resolved.names (design_of fitted) net → Serves fitted.checked.resolved.names (design_of fitted) net }
{}
