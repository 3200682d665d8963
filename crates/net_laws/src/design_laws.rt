//! Laws of the definitions. The functions do nothing.

ghost use Rattle.std.specs.Prelude.{◌≡◌, List, [], Some};
ghost use Rattle.fir_tree.specs.declared.scope.Fitted.{Fitted as FittedCircuit};
ghost use Rattle.fir_meaning.specs.Components.{TypedModule, design_of, module_named};
ghost use Rattle.circuit_laws.specs.WellFormed.{IsWellFormed};
ghost use Rattle.net_of_circuit.specs.FlatOrder.{Placed, InFlatOrder, ListsLeaves};
ghost use Rattle.net_laws.specs.Typed.{IsTyped};

/// The flat order of a well formed circuit lists each leaf of the run once.
pub fn flat_orders_list_each_leaf_once()
    ensures { (fitted : FittedCircuit) → IsWellFormed fitted → (main : TypedModule) → module_named (design_of fitted) (design_of fitted).main ≡ Some main → (placed : List Placed) → InFlatOrder (design_of fitted) [] main main.components placed → ListsLeaves (design_of fitted) placed }
{}

/// The types of a well formed circuit are sound: nodes have their expressions' kinds and widths, registers and memories hold no Clock.
pub fn designs_are_typed()
    ensures { (fitted : FittedCircuit) → IsWellFormed fitted → IsTyped (design_of fitted) }
{}
