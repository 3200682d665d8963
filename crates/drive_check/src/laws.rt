//! Laws of the definitions. The functions do nothing.

ghost use Rattle.std.specs.Prelude.{◌≡◌, ◌↔◌, [], ◌∷◌};
ghost use Rattle.place_text.specs.declared.place.Place.{Place as APlace};
ghost use Rattle.fir_types.specs.declared.leaf.PathStep.TheVariants.{Field};
ghost use Rattle.fir_types.specs.declared.memory.MemLine.TheVariants.{MemPort};
ghost use Rattle.fir_types.specs.declared.memory.PortMode.TheVariants.{Reader};
ghost use Rattle.place_text.specs.First.{HasNone};
ghost use Rattle.fir_tree.specs.declared.scope.Fitted.{Fitted as FittedCircuit};
ghost use Rattle.fir_meaning.specs.Components.{A_wire, A_memory, design_of};
ghost use Rattle.fir_meaning.specs.Certain.{IsInitialized};
ghost use Rattle.circuit_laws.specs.WellFormed.{IsWellFormed};
ghost use Rattle.drive_check.specs.Initialized.{IsFault};
ghost use Rattle.drive_check.specs.Sites.{place_of_leaf};

use circuit_laws::laws::{components_are_named, reached_modules_stand_at_paths};

/// There is no fault exactly where the circuit is initialized.
pub fn initialized_circuits_have_no_fault()
    ensures { (fitted : FittedCircuit) → IsWellFormed fitted → HasNone (IsFault fitted) ↔ IsInitialized (design_of fitted) }
{
    components_are_named();
    reached_modules_stand_at_paths();
}

/// A leaf of a memory is told at the name of its port, and a leaf of another component at the component's name.
pub fn leaves_of_memories_are_told_at_ports()
    ensures port { (at component port : APlace) → place_of_leaf (record { id = 20; place = component }) (A_memory (record { name = record { id = 20; place = component }; lines = MemPort at Reader (record { id = 21; place = port }) ∷ [] })) (Field 21 ∷ Field 2 ∷ []) ≡ port }
    ensures wire { (component : APlace) → place_of_leaf (record { id = 20; place = component }) A_wire (Field 21 ∷ []) ≡ component }
{}
