//! Laws of the definitions. The functions do nothing.

ghost use Rattle.std.specs.Prelude.{◌≡◌, ℕ, Contains};
ghost use Rattle.bit_words.specs.declared.value.Value.{Value as TheValue};
ghost use Rattle.ground_net.specs.declared.ground.Ground.{Ground as TheGround};
ghost use Rattle.ground_net.specs.Grounds.{Instant, value, mentions};

/// The value of an expression depends only on the leaves that it mentions and on what the memories hold.
pub fn values_follow_mentions()
    ensures { (g : TheGround) (a b : Instant) → ((m k : ℕ) (address : TheValue) → a.load m k address ≡ b.load m k address) → ((y : ℕ) → Contains (mentions g) y → a.leaf y ≡ b.leaf y) → value g a ≡ value g b }
{}
