//! Laws of the names of resolved circuits.

ghost use Rattle.std.specs.Prelude.{◌≡◌, ◌↔◌};
ghost use Rattle.place_text.specs.First.{HasNone};
ghost use Rattle.fir_tree.specs.declared.circuit.Circuit.{Circuit as ACircuit};
ghost use Rattle.fir_tree.specs.declared.scope.Scope.{Scope as AScope};
ghost use Rattle.fir_names.specs.declared.fault.NameFault.{NameFault as AFault};
ghost use Rattle.fir_names.specs.Scopes.{IsScope};
ghost use Rattle.fir_names.specs.Faults.{IsFault};
ghost use Rattle.fitted_laws.specs.Shaped.{is_shaped_circuit};
ghost use Rattle.reset_search.specs.Resolved.{IsResolved};

/// The names of a resolved circuit mean what they mean in the circuit.
pub fn resolved_circuits_have_the_same_scopes()
    ensures { (circuit tree : ACircuit) → IsResolved circuit tree → (scope : AScope) → IsScope circuit scope ↔ IsScope tree scope }
{}

/// They have the same faults, and so none where the circuit has none.
pub fn resolved_circuits_have_the_same_name_faults()
    ensures faults { (circuit tree : ACircuit) → IsResolved circuit tree → (fault : AFault) → IsFault circuit fault ↔ IsFault tree fault }
    ensures none { (circuit tree : ACircuit) → IsResolved circuit tree → HasNone (IsFault circuit) → HasNone (IsFault tree) }
{}

/// All operations of a resolved circuit have as many operands and parameters as they take, where those of the circuit have.
pub fn resolved_circuits_are_shaped_alike()
    ensures { (circuit tree : ACircuit) → IsResolved circuit tree → is_shaped_circuit tree ≡ is_shaped_circuit circuit }
{}
