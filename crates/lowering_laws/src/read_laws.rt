//! Laws of the definitions. The functions do nothing.

ghost use Rattle.std.specs.Prelude.{◌≡◌, ℕ, [], List, Contains, slice_get, Some};
ghost use Rattle.bit_words.specs.Values.{integer_of};
ghost use Rattle.fir_types.specs.declared.fir_type.FirType.{FirType as TheType};
ghost use Rattle.fir_tree.specs.declared.scope.Fitted.{Fitted as FittedCircuit};
ghost use Rattle.fir_meaning.specs.Components.{TypedModule, FlatLeaf, design_of, module_named};
ghost use Rattle.fir_meaning.specs.Values.{scene_of};
ghost use Rattle.fir_meaning.specs.Loops.{TakesFrom};
ghost use Rattle.fir_meaning.specs.States.{State, next_of_register as next_of_circuit};
ghost use Rattle.circuit_laws.specs.WellFormed.{IsWellFormed};
ghost use Rattle.ground_net.specs.declared.circuit.GroundCircuit.{GroundCircuit as TheGroundCircuit};
ghost use Rattle.ground_net.specs.declared.circuit.DrivenCircuit.{DrivenCircuit as TheDrivenCircuit};
ghost use Rattle.ground_net.specs.declared.circuit.FlatCircuit.{FlatCircuit as TheFlatCircuit};
ghost use Rattle.ground_net.specs.declared.net.Net.{Net as TheNet};
ghost use Rattle.ground_net.specs.declared.net.NetRegister.{NetRegister as TheRegister};
ghost use Rattle.ground_net.specs.Cones.{register_needs};
ghost use Rattle.ground_net.specs.Cycles.{NetState, Valuation, instant_of, next_of_register as next_of_net};
ghost use Rattle.expand_whens.specs.Expanding.{IsExpanded};
ghost use Rattle.net_of_circuit.specs.FlatOrder.{Placed, InFlatOrder, Standing, all_leaves, flat_of};
ghost use Rattle.net_of_circuit.specs.NetOf.{Driven, part_of, IsSeen, seen_valuation};
ghost use Rattle.net_of_circuit.specs.Lowering.{IsGroundOf};
ghost use Rattle.flatten_instances.specs.Flat.{IsFlat};
ghost use Rattle.memory_ports.specs.Placing.{IsPlaced};

/// The registers of the net that the passes make of a circuit hold next what the circuit's do, where they show what they hold; and of
/// the leaves of a cycle that are assignments, the edge takes for them those that their drivers, resets and `init`s mention.
pub fn nets_have_the_registers_of_circuits()
    ensures next { (fitted : FittedCircuit) → IsWellFormed fitted → (lowered : TheGroundCircuit) → IsGroundOf fitted lowered → (driven : TheDrivenCircuit) → IsExpanded lowered driven → (flat : TheFlatCircuit) → IsFlat driven flat → (net : TheNet) → IsPlaced flat net → (main : TypedModule) → module_named (design_of fitted) (design_of fitted).main ≡ Some main → (placed : List Placed) → InFlatOrder (design_of fitted) [] main main.components placed → (elements : List TheType) (n : ℕ) (register : TheRegister) (y : Standing) (s : State) (t : NetState) (rho : Valuation) → slice_get net.registers n ≡ Some register → slice_get (all_leaves placed) register.leaf ≡ Some y → IsSeen placed elements net s t rho → next_of_circuit (scene_of y.0.m y.0.path (seen_valuation placed net t rho)) y.0.c y.0.c.declaration.sort y.1.path (integer_of (rho register.leaf)) ≡ next_of_net net (instant_of net t rho) (Some register) (integer_of (rho register.leaf)) }
    ensures takes { (fitted : FittedCircuit) → IsWellFormed fitted → (lowered : TheGroundCircuit) → IsGroundOf fitted lowered → (driven : TheDrivenCircuit) → IsExpanded lowered driven → (flat : TheFlatCircuit) → IsFlat driven flat → (net : TheNet) → IsPlaced flat net → (main : TypedModule) → module_named (design_of fitted) (design_of fitted).main ≡ Some main → (placed : List Placed) → InFlatOrder (design_of fitted) [] main main.components placed → (n z : ℕ) (register : TheRegister) (y w : Standing) → slice_get net.registers n ≡ Some register → slice_get (all_leaves placed) register.leaf ≡ Some y → slice_get (all_leaves placed) z ≡ Some w → part_of w ≡ Driven → Contains (register_needs net register) z → TakesFrom (design_of fitted) (flat_of y) (flat_of w) }
    ensures all_takes { (fitted : FittedCircuit) → IsWellFormed fitted → (lowered : TheGroundCircuit) → IsGroundOf fitted lowered → (driven : TheDrivenCircuit) → IsExpanded lowered driven → (flat : TheFlatCircuit) → IsFlat driven flat → (net : TheNet) → IsPlaced flat net → (main : TypedModule) → module_named (design_of fitted) (design_of fitted).main ≡ Some main → (placed : List Placed) → InFlatOrder (design_of fitted) [] main main.components placed → (n : ℕ) (register : TheRegister) (y : Standing) (f : FlatLeaf) → slice_get net.registers n ≡ Some register → slice_get (all_leaves placed) register.leaf ≡ Some y → TakesFrom (design_of fitted) (flat_of y) f → (z : ℕ) × (w : Standing) × (slice_get (all_leaves placed) z ≡ Some w) × (flat_of w ≡ f) × Contains (register_needs net register) z }
{}
