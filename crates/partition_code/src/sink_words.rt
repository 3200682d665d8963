//! Laws of the words of sinks.

ghost use Rattle.std.specs.Prelude.{◌≡◌, ◌<◌, ◌^◌, ℕ, List, Some, Contains, slice_get};
ghost use Rattle.phase_core.specs.declared.model.Publication.{Publication as ThePublication};
ghost use Rattle.ground_net.specs.declared.net.Net.{Net as TheNet};
ghost use Rattle.ground_net.specs.Grounds.{Instant};
ghost use Rattle.ground_net.specs.Cones.{Sink, sinks};
ghost use Rattle.ground_net.specs.Cycles.{NetState};
ghost use Rattle.ground_net.specs.Nets.{IsNet};
ghost use Rattle.ground_net.specs.Words.{state_words};
ghost use Rattle.partition_code.specs.Effects.{HasWord, sink_told};

/// No word is of two sinks; and among the sinks of a net one with a word stands once.
pub fn words_are_of_one_sink()
    ensures sink { (net : TheNet) (a b : Sink) (i : ℕ) → HasWord net a i → HasWord net b i → a ≡ b }
    ensures place { (net : TheNet) (watch : List ℕ) (j k i : ℕ) (a b : Sink) → slice_get (sinks net watch) j ≡ Some a → slice_get (sinks net watch) k ≡ Some b → HasWord net a i → HasWord net b i → j ≡ k }
{}

/// Each word of a state of a well formed net is of one of its sinks, whatever leaves are watched.
pub fn each_word_is_of_a_sink()
    ensures { (net : TheNet) (watch : List ℕ) (i : ℕ) → IsNet net → i < state_words net → (s : Sink) × Contains (sinks net watch) s × HasWord net s i }
{}

/// What a sink leaves is at words of its own, each a number of 64 bits.
pub fn sinks_leave_words_of_their_own()
    ensures words { (net : TheNet) (state : NetState) (instant : Instant) (s : Sink) (k : ℕ) (p : ThePublication) → slice_get (sink_told net state instant s) k ≡ Some p → HasWord net s p.word }
    ensures plain { (net : TheNet) (state : NetState) (instant : Instant) (s : Sink) (k : ℕ) (p : ThePublication) → slice_get (sink_told net state instant s) k ≡ Some p → p.value < 2 ^ 64 }
{}
