//! Laws of the codes of one cut.

ghost use Rattle.std.specs.Prelude.{◌≡◌, ◌<◌, ◌^◌, ℕ, List, Some, Contains, IsTrue, length, slice_get};
ghost use Rattle.bit_words.specs.declared.value.Value.{Value as TheValue};
ghost use Rattle.phase_core.specs.declared.model.Publication.{Publication as ThePublication};
ghost use Rattle.ground_net.specs.declared.net.CutPart.{CutPart as ThePart};
ghost use Rattle.ground_net.specs.Cycles.{Valuation};
ghost use Rattle.ground_net.specs.Words.{state_words};
ghost use Rattle.flat_code.specs.declared.code.Code.{Code as TheCode};
ghost use Rattle.flat_code.specs.Codes.{published_by};
ghost use Rattle.cone_cutter.specs.Splits.{Rises};
ghost use Rattle.partition_code.specs.Codes.{AreWords, HasWordAmong, IsCycle, AreOfOneCut, MayRun, owns, owner_in, sinks_of_part};

/// Each word of a state is owned by one of the codes, and by no other: the owner is the code of the part that holds the word's sink.
pub fn words_have_one_owner()
    ensures below { (codes : List TheCode) (cut : AreOfOneCut codes) (i : ℕ) → i < state_words cut.ordered.net → owner_in codes i < length codes }
    ensures one { (codes : List TheCode) (cut : AreOfOneCut codes) (i k : ℕ) (code : TheCode) → slice_get codes k ≡ Some code → IsTrue (owns code i) → owner_in codes i ≡ k }
    ensures part { (codes : List TheCode) (cut : AreOfOneCut codes) (i k : ℕ) (part : ThePart) → slice_get cut.parts k ≡ Some part → HasWordAmong cut.ordered.net (sinks_of_part cut.ordered.net cut.watch part) i → owner_in codes i ≡ k }
{}

/// In a cycle each code publishes at words of the state that it owns, and numbers of 64 bits.
pub fn codes_publish_their_own()
    ensures there { (codes : List TheCode) (cut : AreOfOneCut codes) (k : ℕ) (code : TheCode) → slice_get codes k ≡ Some code → (words : List ℕ) (inputs : List TheValue) (rho : Valuation) → IsCycle cut.ordered.net words inputs rho → (j : ℕ) (p : ThePublication) → slice_get (published_by code words inputs) j ≡ Some p → p.word < state_words cut.ordered.net }
    ensures own { (codes : List TheCode) (cut : AreOfOneCut codes) (k : ℕ) (code : TheCode) → slice_get codes k ≡ Some code → (words : List ℕ) (inputs : List TheValue) (rho : Valuation) → IsCycle cut.ordered.net words inputs rho → (j : ℕ) (p : ThePublication) → slice_get (published_by code words inputs) j ≡ Some p → owner_in codes p.word ≡ k }
    ensures plain { (codes : List TheCode) (cut : AreOfOneCut codes) (k : ℕ) (code : TheCode) → slice_get codes k ≡ Some code → (words : List ℕ) (inputs : List TheValue) (rho : Valuation) → IsCycle cut.ordered.net words inputs rho → (j : ℕ) (p : ThePublication) → slice_get (published_by code words inputs) j ≡ Some p → p.value < 2 ^ 64 }
{}

/// Each place of the watch list is a position of one code, and of no other; and the positions of a code rise, below the number of
/// watched leaves.
pub fn places_are_of_one_code()
    ensures below { (codes : List TheCode) (cut : AreOfOneCut codes) (k x : ℕ) (code : TheCode) → slice_get codes k ≡ Some code → Contains code.positions x → x < length cut.watch }
    ensures rise { (codes : List TheCode) (cut : AreOfOneCut codes) (k : ℕ) (code : TheCode) → slice_get codes k ≡ Some code → Rises code.positions }
    ensures each { (codes : List TheCode) (cut : AreOfOneCut codes) (x : ℕ) → x < length cut.watch → (k : ℕ) × (code : TheCode) × (slice_get codes k ≡ Some code) × Contains code.positions x }
    ensures one { (codes : List TheCode) (cut : AreOfOneCut codes) (x j k : ℕ) (c d : TheCode) → slice_get codes j ≡ Some c → slice_get codes k ≡ Some d → Contains c.positions x → Contains d.positions x → j ≡ k }
{}

/// Codes that may run have settled values in each of their rows, whatever words of the state the cycle begins with.
pub fn codes_that_may_run_have_cycles()
    ensures { (codes : List TheCode) (words : List ℕ) (rows : List (List TheValue)) (may : MayRun codes words rows) (c : ℕ) (row : List TheValue) → slice_get rows c ≡ Some row → (now : List ℕ) → AreWords now → length now ≡ state_words may.cut.ordered.net → (rho : Valuation) × IsCycle may.cut.ordered.net now row rho }
{}
