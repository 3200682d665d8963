//! Laws of names. The functions do nothing.

ghost use Rattle.std.specs.Prelude.{◌≡◌, ℕ, map, slice_get, Some, Contains};
ghost use Rattle.place_text.specs.First.{HasNone};
ghost use Rattle.fir_tree.specs.declared.circuit.Circuit.{Circuit as ACircuit};
ghost use Rattle.fir_tree.specs.declared.circuit.Module.{Module as AModule};
ghost use Rattle.fir_tree.specs.declared.scope.Scope.{Scope as AScope};
ghost use Rattle.fir_names.specs.Extents.{Use, uses_in};
ghost use Rattle.fir_names.specs.Scopes.{IsScope};
ghost use Rattle.fir_names.specs.Faults.{IsFault};
ghost use Rattle.circuit_laws.specs.Names.{all_of, named_in};
ghost use Rattle.check_laws.specs.Meant.{MeansOne};

/// Where the names of a circuit have no fault, no two of its modules have one name.
pub fn module_names_differ()
    ensures { (circuit : ACircuit) → HasNone (IsFault circuit) → (j k : ℕ) (m n : AModule) → slice_get circuit.modules j ≡ Some m → slice_get circuit.modules k ≡ Some n → m.name.id ≡ n.name.id → j ≡ k }
{}

/// The uses of names in a module are the references of its statements, in text order. Where the names of a circuit have no fault,
/// each means exactly one of the declarations that it sees, which stand before it in its block or in a block around it.
pub fn uses_name_one_declaration()
    ensures references { (holder : AModule) → map (λ use'. use'.name) (uses_in holder) ≡ all_of (map named_in holder.body) }
    ensures one { (circuit : ACircuit) → HasNone (IsFault circuit) → (holder : AModule) → Contains circuit.modules holder → (use' : Use) → Contains (uses_in holder) use' → MeansOne holder use' }
{}

/// Two scopes of a circuit have the same modules for its instances. Where its names have no fault, they are the same scope.
pub fn scopes_are_one()
    ensures targets { (circuit : ACircuit) (first second : AScope) → IsScope circuit first → IsScope circuit second → first.targets ≡ second.targets }
    ensures same { (circuit : ACircuit) (first second : AScope) → HasNone (IsFault circuit) → IsScope circuit first → IsScope circuit second → first ≡ second }
{}
