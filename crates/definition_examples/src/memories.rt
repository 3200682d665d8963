//! What memories write and show.

ghost use Rattle.std.specs.Prelude.{◌≡◌, ℕ, List, [], ◌∷◌, pos};
ghost use Rattle.fir_types.specs.declared.leaf.PathStep.{PathStep as AStep};
ghost use Rattle.fir_types.specs.declared.leaf.PathStep.TheVariants as step;
ghost use Rattle.fir_types.specs.declared.memory.PortMode.TheVariants as mode;
ghost use Rattle.fir_types.specs.Bundles.{addr_name, en_name, wmode_name};
ghost use Rattle.fir_meaning.specs.MemoryPorts.{after_writes, read_by};
ghost use Rattle.fir_meaning.specs.States.{first_state};
ghost use Rattle.fir_meaning.specs.Loops.{read_goes_by};
ghost use Rattle.definition_examples.specs.Memories.{of_pairs, masked, fours};

/// Registers, elements and captured reads are 0 at first.
pub fn all_is_0_at_first()
    ensures registers { (path : List ℕ) (name : ℕ) (way : List AStep) → first_state.registers path name way ≡ pos 0 }
    ensures contents { (path : List ℕ) (name element : ℕ) (way : List AStep) → first_state.contents path name element way ≡ pos 0 }
    ensures captured { (path : List ℕ) (name port : ℕ) (way : List AStep) → first_state.captured path name port way ≡ pos 0 }
{}

/// A write changes the leaves of its element whose masks are 1, and no others.
pub fn masks_are_leaf_by_leaf()
    ensures neither { after_writes of_pairs (masked 0 0) fours 2 (step.Field 30 ∷ []) ≡ pos 4 }
    ensures first_set { after_writes of_pairs (masked 1 0) fours 2 (step.Field 30 ∷ []) ≡ pos 9 }
    ensures second_kept { after_writes of_pairs (masked 1 0) fours 2 (step.Field 31 ∷ []) ≡ pos 4 }
    ensures both { after_writes of_pairs (masked 1 1) fours 2 (step.Field 31 ∷ []) ≡ pos 9 }
    ensures other_element { after_writes of_pairs (masked 1 1) fours 3 (step.Field 30 ∷ []) ≡ pos 4 }
{}

/// A reader goes by its address and its enable, and a readwriter by its mode too.
pub fn reads_go_by_their_ports()
    ensures reader { read_goes_by mode.Reader ≡ addr_name ∷ en_name ∷ [] }
    ensures readwriter { read_goes_by mode.ReadWriter ≡ addr_name ∷ en_name ∷ wmode_name ∷ [] }
{}
