//! Laws of sources.

ghost use Rattle.std.specs.Prelude.{ℕ, List};
ghost use Rattle.bit_words.specs.declared.value.Value.{Value as TheValue};
ghost use Rattle.ground_net.specs.declared.net.Net.{Net as TheNet};
ghost use Rattle.ground_net.specs.Cycles.{Inputs, Valuation, Settled, instant_of};
ghost use Rattle.ground_net.specs.Nets.{IsNet};
ghost use Rattle.ground_net.specs.Words.{state_of};
ghost use Rattle.code_draft.specs.declared.sources.Sources.{Sources as TheSources};
ghost use Rattle.code_emit.specs.Emits.{Sees};
ghost use Rattle.partition_code.specs.FromNets.{AreOf, MatchInputs};

/// What is seen of settled values of a well formed net, in a cycle that begins with the state of any words, is what the net's sources
/// show of these words, whatever the frame holds.
pub fn settled_values_are_seen()
    ensures { (net : TheNet) (S : TheSources) (words : List ℕ) (inputs : List TheValue) (frame : List ℕ) (given : Inputs) (rho : Valuation) → IsNet net → AreOf net S → MatchInputs net inputs given → Settled net (state_of net words) given rho → Sees S words inputs frame (instant_of net (state_of net words) rho) }
{}
