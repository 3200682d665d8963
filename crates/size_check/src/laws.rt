//! Laws of the definitions. The functions do nothing.

ghost use Rattle.std.specs.Prelude.{◌≡◌, ◌+◌, ◌≤◌, ℕ};
ghost use Rattle.fir_tree.specs.declared.circuit.Circuit.{Circuit as TheCircuit};
ghost use Rattle.size_check.specs.Standings.{measured, standings_of};

/// Where no instance path has more names than the limit, nothing stands at longer paths than those that are measured: they are all
/// paths of the circuit.
pub fn measured_paths_are_all()
    ensures { (circuit : TheCircuit) → (measured circuit).depth ≤ 32 → (more : ℕ) → standings_of circuit (more + 33) ≡ standings_of circuit 33 }
{}
