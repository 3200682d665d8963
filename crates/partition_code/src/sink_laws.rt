//! Laws of the words of sinks.

ghost use Rattle.std.specs.Prelude.{ℕ, ◌<◌};
ghost use Rattle.ground_net.specs.declared.net.Net.{Net as TheNet};
ghost use Rattle.ground_net.specs.Cones.{Sink};
ghost use Rattle.ground_net.specs.Words.{state_words};
ghost use Rattle.partition_code.specs.Effects.{HasWord};

/// A sink's words are words of the state.
pub fn words_of_sinks_are_words()
    ensures { (net : TheNet) (sink : Sink) (i : ℕ) → HasWord net sink i → i < state_words net }
{}
