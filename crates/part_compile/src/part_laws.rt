//! Laws of parts.

ghost use Rattle.std.specs.Prelude.{◌≡◌, ℕ, ◌<◌, ◌^◌, List, map, slice_index};
ghost use Rattle.bit_words.specs.declared.value.Value.{Value as TheValue};
ghost use Rattle.ground_net.specs.declared.net.Net.{Net as TheNet};
ghost use Rattle.ground_net.specs.Cones.{Sink};
ghost use Rattle.ground_net.specs.Cycles.{Inputs, Valuation, Settled, instant_of};
ghost use Rattle.ground_net.specs.Nets.{IsNet};
ghost use Rattle.ground_net.specs.Words.{state_of};
ghost use Rattle.flat_code.specs.declared.code.Code.{Code as TheCode};
ghost use Rattle.flat_code.specs.Codes.{published_by, outputs_by};
ghost use Rattle.partition_code.specs.Effects.{sinks_told};
ghost use Rattle.partition_code.specs.FromNets.{MatchInputs};
ghost use Rattle.part_compile.specs.Parts.{IsPart};

/// In a cycle that begins with the state of any words a part publishes exactly what its sinks leave to the next one;
/// and it puts out the settled values of the leaves that it shows.
pub fn parts_have_the_cycles_effects()
    ensures publications { (net : TheNet) (assignments : List ℕ) (these : List Sink) (shown : List ℕ) (code : TheCode) (words : List ℕ) (inputs : List TheValue) (given : Inputs) (rho : Valuation) → IsNet net → IsPart net assignments these shown code → ((k : ℕ) → slice_index words k < 2 ^ 64) → MatchInputs net inputs given → Settled net (state_of net words) given rho → published_by code words inputs ≡ sinks_told net (state_of net words) (instant_of net (state_of net words) rho) these }
    ensures outputs { (net : TheNet) (assignments : List ℕ) (these : List Sink) (shown : List ℕ) (code : TheCode) (words : List ℕ) (inputs : List TheValue) (given : Inputs) (rho : Valuation) → IsNet net → IsPart net assignments these shown code → ((k : ℕ) → slice_index words k < 2 ^ 64) → MatchInputs net inputs given → Settled net (state_of net words) given rho → outputs_by code words inputs ≡ map rho shown }
{}
