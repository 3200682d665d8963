//! Laws of parts and owners. The functions do nothing.

ghost use Rattle.std.specs.Prelude.{◌≡◌, ◌∷◌, []};
ghost use Rattle.ground_net.specs.Cones.{A_watched, A_register};
ghost use Rattle.phase_core.specs.Script.{published};
ghost use Rattle.flat_code.specs.declared.code.Code.{Code as TheCode};
ghost use Rattle.flat_code.specs.Meaning.{changed};
ghost use Rattle.partition_code.specs.Codes.{sinks_of_part, positions_of_part, owners_of};
ghost use Rattle.partition_code.specs.Examples.{counter, watching, second_and_register, span, publication, held, leaving};

/// A part with the second watched leaf and the register behind the watched leaves: its only position is that of the leaf.
pub fn positions_are_those_of_watched_leaves()
    ensures sinks { sinks_of_part counter watching second_and_register ≡ A_watched 7 ∷ A_register 0 ∷ [] }
    ensures positions { positions_of_part watching second_and_register ≡ 1 ∷ [] }
{}

/// A word has the first code that owns it as its owner, and the number behind the last code where none does.
pub fn words_have_their_first_owner()
    ensures { (first second : TheCode) → first.owned ≡ span 0 2 ∷ [] → second.owned ≡ span 1 2 ∷ span 4 1 ∷ []
        → owners_of (first ∷ second ∷ []) 6 ≡ 0 ∷ 0 ∷ 1 ∷ 2 ∷ 1 ∷ 2 ∷ [] }
{}

/// Of the words before the third those that stay as they are aren't published. Those behind are published always: the last of two writes
/// stays, though it writes what the word was.
pub fn words_that_change_are_published()
    ensures changed { changed 2 held leaving ≡ publication 1 9 ∷ publication 2 8 ∷ publication 2 7 ∷ [] }
    ensures kept { published (changed 2 held leaving) held ≡ published leaving held }
    ensures wrong { published (changed 3 held leaving) held ≡ 5 ∷ 9 ∷ 8 ∷ [] }
    ensures right { published leaving held ≡ 5 ∷ 9 ∷ 7 ∷ [] }
{}
