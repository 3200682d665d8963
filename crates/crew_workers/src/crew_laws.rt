//! Laws of codes that may run. The functions do nothing.

ghost use Rattle.std.specs.Prelude.{ℕ, List, length};
ghost use Rattle.bit_words.specs.declared.value.Value.{Value as TheValue};
ghost use Rattle.flat_code.specs.declared.code.Code.{Code as TheCode};
ghost use Rattle.crew_workers.specs.Scripts.{Runs};
ghost use Rattle.crew_workers.specs.Asked.{AskedOfCodes};

/// Codes that may run over some words and rows of inputs are 1 to 64 and share out the words and the places of a row: each word has
/// one owner, which alone publishes it in a cycle, whatever words the cycle begins with, and each place of a row is of one code.
pub fn codes_that_run_share_out_all()
    ensures { (codes : List TheCode) (words : List ℕ) (rows : List (List TheValue)) → Runs codes words rows → AskedOfCodes codes (length words) rows }
{}
