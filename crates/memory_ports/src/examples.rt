//! Examples of the definitions. The functions do nothing.

ghost use Rattle.std.specs.Prelude.{◌≡◌, [], ◌∷◌, Some, None, Bool, true, false};
ghost use Rattle.ground_net.specs.declared.ground.Ground.TheVariants.{Leaf as A_leaf, Const as A_constant, Mux as A_choice, Load as A_load};
ghost use Rattle.ground_net.specs.declared.net.Role.TheVariants.{Assigned, Captured as A_captured};
ghost use Rattle.memory_ports.specs.declared.reads.ReadData.TheVariants.{Load as Loaded, Captured as Late};
ghost use Rattle.memory_ports.specs.Placing.{zero_bit, data_in, parts_of, role_behind, Given, Driven, Kept};
ghost use Rattle.memory_ports.specs.Sound.{IsSound};
ghost use Rattle.memory_ports.specs.Examples.{with_reader, with_readwriter};

/// The data of a reader of latency 0 are a load at its address where it is enabled, and an assignment.
pub fn reader_of_the_cycle()
    ensures shown { data_in (with_reader false) ≡ None ∷ None ∷ None ∷ None ∷ Some (Loaded (A_load 0 0 (A_leaf 2 ∷ A_leaf 3 ∷ []))) ∷ [] }
    ensures parts { parts_of (with_reader false).leaves (data_in (with_reader false)) ≡ Given ∷ Given ∷ Driven ∷ Driven ∷ Driven ∷ [] }
{}

/// The data of a reader of latency 1 are captured.
pub fn reader_of_the_cycle_before()
    ensures shown { data_in (with_reader true) ≡ None ∷ None ∷ None ∷ None ∷ Some Late ∷ [] }
    ensures parts { parts_of (with_reader true).leaves (data_in (with_reader true)) ≡ Given ∷ Given ∷ Driven ∷ Driven ∷ Kept ∷ [] }
{}

/// A readwriter of latency 0 reads where it is enabled and its mode is 0.
pub fn readwriter_of_the_cycle()
    ensures { data_in (with_readwriter false) ≡ None ∷ None ∷ None ∷ None ∷ None ∷ None ∷ Some (Loaded (A_load 0 0 (A_leaf 4 ∷ A_choice (A_leaf 7 ∷ A_constant zero_bit ∷ A_leaf 5 ∷ []) ∷ []))) ∷ None ∷ None ∷ None ∷ [] }
{}

/// Captured reads are counted from 0.
pub fn captured_reads_are_counted()
    ensures first { role_behind (Driven ∷ Driven ∷ []) Kept ≡ A_captured 0 }
    ensures second { role_behind (Driven ∷ Kept ∷ Driven ∷ []) Kept ≡ A_captured 1 }
    ensures between { role_behind (Driven ∷ Kept ∷ []) Driven ≡ Assigned }
{}

/// There are sound circuits.
pub fn sound_circuits_exist()
    ensures reader { (captured : Bool) → IsSound (with_reader captured) }
    ensures readwriter { (captured : Bool) → IsSound (with_readwriter captured) }
{}
