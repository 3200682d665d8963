//! Laws of the sources of memories. The functions do nothing.

ghost use Rattle.std.specs.Prelude.{◌≡◌, ℕ, Some, flat_map, slice_get};
ghost use Rattle.ground_net.specs.declared.net.Net.{Net as TheNet};
ghost use Rattle.ground_net.specs.declared.net.NetPort.{NetPort as ThePort};
ghost use Rattle.ground_net.specs.declared.net.NetWrite.{NetWrite as TheWrite};
ghost use Rattle.ground_net.specs.declared.net.ElementLeaf.{ElementLeaf as TheLeaf};
ghost use Rattle.ground_net.specs.Grounds.{Instant};
ghost use Rattle.ground_net.specs.Cycles.{NetState, captured_by};
ghost use Rattle.ground_net.specs.Nets.{IsNet, element_shape};
ghost use Rattle.code_draft.specs.declared.sources.Sources.{Sources as TheSources};
ghost use Rattle.code_emit.specs.Emits.{sources_table};
ghost use Rattle.code_memories.specs.NextReads.{HasWriter};
ghost use Rattle.partition_code.specs.Effects.{captures_told};
ghost use Rattle.code_memories.specs.Memories.{HasMemory, capture_left};

/// A port that writes has its leaves; and what the captured reads of a memory leave is what they leave port by port.
pub fn memories_have_their_leaves()
    ensures writers { (net : TheNet) (S : TheSources) (m p k : ℕ) (port : ThePort) (write : TheWrite) (leaf : TheLeaf) → IsNet net → (h : HasMemory net S m) → slice_get h.memory.ports p ≡ Some port → port.write ≡ Some write → slice_get h.memory.elements k ≡ Some leaf → HasWriter (sources_table S) k (element_shape leaf) port write }
    ensures captures { (net : TheNet) (S : TheSources) (m : ℕ) (st : NetState) (instant : Instant) (h : HasMemory net S m) → captures_told net st instant m ≡ flat_map (λ port. flat_map (capture_left net S st instant m) (captured_by m h.memory port port.read)) h.memory.ports }
{}
