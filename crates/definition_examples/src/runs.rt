//! Cycles of whole designs: what is settled, and the next state.

ghost use Rattle.std.specs.Prelude.{◌≡◌, ℕ, [], ◌∷◌, pos};
ghost use Rattle.fir_types.specs.Leaves.{leaves};
ghost use Rattle.fir_types.specs.Bundles.{memory_of};
ghost use Rattle.fir_meaning.specs.States.{State, Settled, next, row};
ghost use Rattle.definition_examples.specs.Holding.{held, holding, ports_type, nothing, reading};
ghost use Rattle.definition_examples.specs.Passing.{passing, giving, showing};

/// In a design of two modules an instance's inputs go down and its outputs come up in the same cycle, and the register inside takes the
/// input at its end.
pub fn instances_pass_values()
    ensures settled { (s : State) → s.registers (26 ∷ []) 33 [] ≡ pos 6 → Settled passing s (giving 5) (showing 5 6) }
    ensures shown { row passing (showing 5 6) ≡ pos 6 ∷ [] }
    ensures next { (s : State) → (next passing s (showing 5 6)).registers (26 ∷ []) 33 [] ≡ pos 5 }
{}

/// A read of latency 0 shows what the element holds, and one of latency 1 what was captured. A write of the same cycle is there in the
/// next one, in its element alone; a read under it that gives what is old captures what was there before.
pub fn memories_write_behind_their_reads()
    ensures ports { (latency : ℕ) → leaves ports_type ≡ leaves (memory_of (held latency)) }
    ensures latency_0 { (s : State) → s.contents [] 27 2 [] ≡ pos 4 → Settled (holding 0) s nothing (reading 4) }
    ensures latency_1 { (s : State) → s.captured [] 27 28 [] ≡ pos 4 → Settled (holding 1) s nothing (reading 4) }
    ensures written { (latency : ℕ) (s : State) → (next (holding latency) s (reading 4)).contents [] 27 2 [] ≡ pos 9 }
    ensures kept { (latency : ℕ) (s : State) → (next (holding latency) s (reading 4)).contents [] 27 3 [] ≡ s.contents [] 27 3 [] }
    ensures captured { (s : State) → (next (holding 1) s (reading 4)).captured [] 27 28 [] ≡ s.contents [] 27 2 [] }
{}
