//! Laws of what is shown. The functions do nothing.

ghost use Rattle.std.specs.Prelude.{ℕ, List};
ghost use Rattle.ground_net.specs.declared.net.Net.{Net as TheNet};
ghost use Rattle.ground_net.specs.Cycles.{Inputs, Valuation, Settled, instant_of};
ghost use Rattle.ground_net.specs.Nets.{IsNet};
ghost use Rattle.ground_net.specs.Words.{state_of};
ghost use Rattle.code_memories.specs.Telling.{ShowsState};

/// What is seen of settled values of a well formed net, in a cycle that begins with the state of any words, shows this state.
pub fn settled_values_show_the_state()
    ensures { (net : TheNet) (words : List ℕ) (given : Inputs) (rho : Valuation) → IsNet net → Settled net (state_of net words) given rho → ShowsState net (state_of net words) (instant_of net (state_of net words) rho) }
{}
