//! Laws of codes. The functions do nothing.

ghost use Rattle.std.specs.Prelude.{ℕ, ◌≤◌, List, length};
ghost use Rattle.bit_words.specs.declared.value.Value.{Value as TheValue};
ghost use Rattle.flat_code.specs.declared.code.Code.{Code as TheCode};
ghost use Rattle.flat_code.specs.Codes.{published_by, outputs_by};
ghost use Rattle.std.specs.Prelude.{◌≡◌};

/// Whatever the words and the inputs are, a code gives at most so many publications, and an output for each of its positions.
pub fn effects_have_their_numbers()
    ensures publications { (code : TheCode) (words : List ℕ) (inputs : List TheValue) → length (published_by code words inputs) ≤ code.most }
    ensures outputs { (code : TheCode) (words : List ℕ) (inputs : List TheValue) → length (outputs_by code words inputs) ≡ length code.positions }
{}
