//! Laws of the definitions that the contracts here name. The functions do nothing.

ghost use Rattle.std.specs.Prelude.{◌≡◌};
ghost use Rattle.fir_tree.specs.declared.circuit.Circuit.{Circuit as ACircuit};
ghost use Rattle.fir_tree.specs.declared.scope.Scope.{Scope as AScope};
ghost use Rattle.fir_names.specs.Scopes.{IsScope};

/// All scopes of a circuit say the same of which modules the main module reaches.
pub fn reached_modules_are_one()
    ensures { (circuit : ACircuit) (first second : AScope) → IsScope circuit first → IsScope circuit second → first.reached ≡ second.reached }
{}
