//! Codes that publish what changes.

ghost use Rattle.std.specs.Prelude.{◌≡◌, ◌≤◌, ℕ, List};
ghost use Rattle.bit_words.specs.declared.value.Value.{Value as TheValue};
ghost use Rattle.flat_code.specs.Meaning.{changed};
ghost use Rattle.flat_code.specs.Codes.{KeepsAll, published_by, outputs_by};

use crate::code::Code;

/// The same code, which of the words below `once` publishes those that change alone. Takes no memory.
///
/// It is meant for words that one code publishes once in a cycle: of two publications of a word the later stays, also where it is what
/// the word was.
pub fn publishing_changes(code: Code, once: u32) -> Code
    requires there { once ≤ code.words }
    requires more { code.once ≤ once }
    ensures kept { KeepsAll code result }
    ensures once { result.once ≡ once }
    ensures outputs { (words : List ℕ) (inputs : List TheValue) → outputs_by result words inputs ≡ outputs_by code words inputs }
    ensures publications { (words : List ℕ) (inputs : List TheValue) → published_by result words inputs ≡ changed once words (published_by code words inputs) }
{
    let mut new = code;
    new.once = once;
    new
}
