//! Examples of the definitions. The functions do nothing.

ghost use Rattle.std.specs.Prelude.{◌≡◌, ℕ, ◌+◌, ◌/◌, ◌%◌, ◌^◌, ◌<◌, ◌≤◌, [], ◌∷◌, true, false};
ghost use Rattle.bit_words.specs.declared.value.Kind.TheVariants.{Unsigned};
ghost use Rattle.ground_net.specs.declared.net.Net.{Net as TheNet};
ghost use Rattle.ground_net.specs.declared.net.NetMemory.{NetMemory as TheMemory};
ghost use Rattle.ground_net.specs.Grounds.{Instant};
ghost use Rattle.ground_net.specs.Cones.{A_watched};
ghost use Rattle.prim_ops.specs.Values.{fitted};
ghost use Rattle.prim_ops.specs.Ports.{Shown};
ghost use Rattle.ground_net.specs.Shapes.{Shape, shaped};
ghost use Rattle.ground_net.specs.Cycles.{NetState};
ghost use Rattle.ground_net.specs.Words.{element_word};
ghost use Rattle.partition_code.specs.Effects.{leaf_told, sinks_told, HasWord};

/// Watched leaves leave nothing, and have no words.
pub fn watched_leaves_leave_nothing()
    ensures nothing { (net : TheNet) (st : NetState) (instant : Instant) (x y : ℕ) → sinks_told net st instant (A_watched x ∷ A_watched y ∷ []) ≡ [] }
    ensures no_word { (net : TheNet) (x i : ℕ) → HasWord net (A_watched x) i → ⊥ }
{}

/// A port that writes leaves a leaf of 8 bits in one word, and a leaf of 65 bits in two, the low one first.
pub fn written_leaves_leave_their_words()
    ensures one { (net : TheNet) (m k : ℕ) (memory : TheMemory) (port : Shown ℕ) → port.writes ≡ true → port.address < memory.depth → port.masked k ≡ true
        → leaf_told net m memory port (k, shaped Unsigned 8) ≡ record { word = element_word net m memory port.address k; value = (fitted Unsigned 8 (port.written k)).bits % 2 ^ 64 } ∷ [] }
    ensures two { (net : TheNet) (m k : ℕ) (memory : TheMemory) (port : Shown ℕ) → port.writes ≡ true → port.address < memory.depth → port.masked k ≡ true
        → leaf_told net m memory port (k, shaped Unsigned 65) ≡ record { word = element_word net m memory port.address k; value = (fitted Unsigned 65 (port.written k)).bits % 2 ^ 64 } ∷ record { word = element_word net m memory port.address k + 1; value = (fitted Unsigned 65 (port.written k)).bits / 2 ^ 64 } ∷ [] }
{}

/// A port that doesn't write leaves nothing; nor does one at an address past the depth, and none in a leaf whose mask is 0.
pub fn what_is_not_written_leaves_nothing()
    ensures idle { (net : TheNet) (m k : ℕ) (memory : TheMemory) (port : Shown ℕ) (s : Shape) → port.writes ≡ false → leaf_told net m memory port (k, s) ≡ [] }
    ensures past { (net : TheNet) (m k : ℕ) (memory : TheMemory) (port : Shown ℕ) (s : Shape) → memory.depth ≤ port.address → leaf_told net m memory port (k, s) ≡ [] }
    ensures masked { (net : TheNet) (m k : ℕ) (memory : TheMemory) (port : Shown ℕ) (s : Shape) → port.masked k ≡ false → leaf_told net m memory port (k, s) ≡ [] }
{}
