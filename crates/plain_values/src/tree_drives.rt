//! Laws of the definitions. The functions do nothing.

ghost use Rattle.std.specs.Prelude.{◌≡◌, ◌≢◌, ℕ, List, [], Contains, pos};
ghost use Rattle.fir_types.specs.declared.leaf.TypeLeaf.{TypeLeaf as ALeaf};
ghost use Rattle.fir_types.specs.declared.leaf.PathStep.{PathStep as AStep};
ghost use Rattle.fir_types.specs.declared.fir_type.FirType.{FirType as AType};
ghost use Rattle.fir_types.specs.declared.memory.Memory.{Memory as AMemory};
ghost use Rattle.fir_types.specs.Leaves.{leaves};
ghost use Rattle.fir_meaning.specs.Components.{ports_bundle};
ghost use Rattle.fir_meaning.specs.MemoryPorts.{memory_ports};
ghost use Rattle.plain_values.specs.Contents.{contents_of, stored_leaves};

/// Where no element is held all is 0, as in the first state.
pub fn nothing_held_is_zero()
    ensures { (leaves : List ALeaf) (element : ℕ) (way : List AStep) → contents_of leaves [] element way ≡ pos 0 }
{}

/// Each leaf of an element is stored, by its way, where the memory has a port, even if that only writes.
pub fn leaves_of_elements_are_stored()
    ensures { (memory : AMemory) (element : AType) (leaf : ALeaf) → memory_ports memory ≢ [] → Contains (leaves element) leaf → (stored : ALeaf) × Contains (stored_leaves (leaves (ports_bundle memory element))) stored × (stored.path ≡ leaf.path) }
{}
