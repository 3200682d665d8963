//! A law of the definitions. The function does nothing.

ghost use Rattle.std.specs.Prelude.{ℕ, List};
ghost use Rattle.ground_net.specs.declared.net.Net.{Net as TheNet};
ghost use Rattle.ground_net.specs.Reads.{IsOrder, HasNoLoop, MentionsLeaves};

/// Where no leaf reads itself, the assignments have an order. That an order leaves no loop is a law of the crate ground_net.
pub fn nets_without_loops_have_orders()
    ensures { (net : TheNet) → MentionsLeaves net → HasNoLoop net → (s : List ℕ) × IsOrder net s }
{}
