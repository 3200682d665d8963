//! Laws of the codes of one cut over a whole cycle.

ghost use Rattle.std.specs.Prelude.{◌≡◌, ℕ, List, Some, map, length, slice_get, slice_index};
ghost use Rattle.bit_words.specs.declared.value.Value.{Value as TheValue};
ghost use Rattle.phase_core.specs.Script.{published_all};
ghost use Rattle.ground_net.specs.declared.net.Net.{Net as TheNet};
ghost use Rattle.ground_net.specs.Cycles.{NetState, Inputs, Valuation, Settled, instant_of, next};
ghost use Rattle.ground_net.specs.Nets.{IsNet, IsWithin};
ghost use Rattle.ground_net.specs.Words.{state_words, words_of};
ghost use Rattle.flat_code.specs.declared.code.Code.{Code as TheCode};
ghost use Rattle.flat_code.specs.Codes.{published_by, outputs_by};
ghost use Rattle.partition_code.specs.FromNets.{MatchInputs};
ghost use Rattle.partition_code.specs.Codes.{AreWords, IsCycle, AreOfOneCut};

/// The words of a state with the publications of all codes of a cut applied are the words of the next state.
pub fn codes_lead_to_the_next_words()
    ensures { (codes : List TheCode) (cut : AreOfOneCut codes) (s : NetState) → IsWithin cut.ordered.net s → (inputs : List TheValue) (given : Inputs) → MatchInputs cut.ordered.net inputs given → (rho : Valuation) → Settled cut.ordered.net s given rho → published_all (map (λ code. published_by code (words_of cut.ordered.net s) inputs) codes) (words_of cut.ordered.net s) ≡ words_of cut.ordered.net (next cut.ordered.net s (instant_of cut.ordered.net s rho)) }
{}

/// The words of a state are as many as the net counts, and numbers of 64 bits.
pub fn words_of_a_state_are_words()
    ensures counted { (net : TheNet) (s : NetState) → length (words_of net s) ≡ state_words net }
    ensures plain { (net : TheNet) (s : NetState) → AreWords (words_of net s) }
{}

/// A cycle of a state within the net is one of its words: what settles there settles from the state that the words make.
pub fn cycles_of_states_are_cycles_of_words()
    ensures { (net : TheNet) (s : NetState) → IsNet net → IsWithin net s → (inputs : List TheValue) (given : Inputs) → MatchInputs net inputs given → (rho : Valuation) → Settled net s given rho → IsCycle net (words_of net s) inputs rho }
{}

/// Each code puts out the settled values of the watched leaves at its positions.
pub fn codes_put_out_settled_values()
    ensures { (codes : List TheCode) (cut : AreOfOneCut codes) (k : ℕ) (code : TheCode) → slice_get codes k ≡ Some code → (s : NetState) → IsWithin cut.ordered.net s → (inputs : List TheValue) (given : Inputs) → MatchInputs cut.ordered.net inputs given → (rho : Valuation) → Settled cut.ordered.net s given rho → outputs_by code (words_of cut.ordered.net s) inputs ≡ map (λ x. rho (slice_index cut.watch x)) code.positions }
{}
