//! Laws of splits.

ghost use Rattle.std.specs.Prelude.{◌≡◌, ℕ, List, map, filter_map, length, slice_get, slice_index};
ghost use Rattle.phase_core.specs.Script.{published, published_all};
ghost use Rattle.ground_net.specs.declared.net.Ordered.{Ordered as TheOrdered};
ghost use Rattle.ground_net.specs.declared.net.CutPart.{CutPart as ThePart};
ghost use Rattle.ground_net.specs.Grounds.{Instant};
ghost use Rattle.ground_net.specs.Cones.{Sink, sinks};
ghost use Rattle.ground_net.specs.Cycles.{NetState};
ghost use Rattle.ground_net.specs.Nets.{IsNet};
ghost use Rattle.ground_net.specs.Words.{state_words};
ghost use Rattle.partition_code.specs.Effects.{HasWord, sink_told, sinks_told};
ghost use Rattle.cone_cutter.specs.Splits.{IsSplit};

/// Where the publications of all parts of a split are stored one after the other, each word holds what the publications of its own
/// sink leave there.
pub fn words_are_left_by_their_sinks()
    ensures { (ordered : TheOrdered) (watch : List ℕ) (parts : List ThePart) (state : NetState) (instant : Instant) (i : ℕ) (s : Sink) (words : List ℕ) → IsNet ordered.net → IsSplit ordered watch parts → HasWord ordered.net s i → slice_index (published_all (map (λ part. sinks_told ordered.net state instant (filter_map (slice_get (sinks ordered.net watch)) part.sinks)) parts) words) i ≡ slice_index (published (sink_told ordered.net state instant s) words) i }
{}

/// Every split of a net's sinks leaves the same words, whatever the number of parts and whatever leaves are watched.
pub fn splits_leave_the_same_words()
    ensures { (ordered : TheOrdered) (watch seen : List ℕ) (parts others : List ThePart) (state : NetState) (instant : Instant) (words : List ℕ) → IsNet ordered.net → IsSplit ordered watch parts → IsSplit ordered seen others → length words ≡ state_words ordered.net → published_all (map (λ part. sinks_told ordered.net state instant (filter_map (slice_get (sinks ordered.net watch)) part.sinks)) parts) words ≡ published_all (map (λ part. sinks_told ordered.net state instant (filter_map (slice_get (sinks ordered.net seen)) part.sinks)) others) words }
{}
