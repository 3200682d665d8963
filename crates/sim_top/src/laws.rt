//! Laws of the definitions that the contracts here name. The functions do nothing.

ghost use Rattle.std.specs.Prelude.{◌≡◌, ℕ, Bool, List, Option, Some};
ghost use Rattle.command_words.specs.Commands.{Run, Make, Vcd, Save, Resume, Log, command_of};
ghost use Rattle.sim_top.specs.Answers.{Answers};

/// A command line has at most one answer over the texts that are held: one status, and the same bytes.
pub fn the_answer_is_one()
    ensures status { (words : List (List ℕ)) (texts : List ℕ → Option (List ℕ)) (status other : ℕ) (bytes others : List ℕ) → Answers words texts status bytes
        → Answers words texts other others → status ≡ other }
    ensures bytes { (words : List (List ℕ)) (texts : List ℕ → Option (List ℕ)) (status other : ℕ) (bytes others : List ℕ) → Answers words texts status bytes
        → Answers words texts other others → bytes ≡ others }
{}

/// Two command lines that differ in the number of workers of a run alone, or in whether the refined cut is run, have the same answers.
pub fn workers_change_no_answer()
    ensures run { (words others : List (List ℕ)) (workers more : ℕ) (refined : Bool) (circuit : List ℕ) (stimulus : Option (List ℕ)) → command_of words ≡ Some (Run workers refined circuit stimulus)
        → command_of others ≡ Some (Run more refined circuit stimulus) → (texts : List ℕ → Option (List ℕ)) (status : ℕ) (bytes : List ℕ) → Answers words texts status bytes → Answers others texts status bytes }
    ensures refined { (words others : List (List ℕ)) (workers more : ℕ) (refined other : Bool) (circuit : List ℕ) (stimulus : Option (List ℕ)) → command_of words ≡ Some (Run workers refined circuit stimulus)
        → command_of others ≡ Some (Run more other circuit stimulus) → (texts : List ℕ → Option (List ℕ)) (status : ℕ) (bytes : List ℕ) → Answers words texts status bytes → Answers others texts status bytes }
    ensures make { (words others : List (List ℕ)) (workers more cycles size : ℕ) → command_of words ≡ Some (Make workers cycles size)
        → command_of others ≡ Some (Make more cycles size) → (texts : List ℕ → Option (List ℕ)) (status : ℕ) (bytes : List ℕ) → Answers words texts status bytes → Answers others texts status bytes }
    ensures vcd { (words others : List (List ℕ)) (workers more : ℕ) (circuit : List ℕ) (leaves : List (List ℕ)) → command_of words ≡ Some (Vcd workers circuit leaves)
        → command_of others ≡ Some (Vcd more circuit leaves) → (texts : List ℕ → Option (List ℕ)) (status : ℕ) (bytes : List ℕ) → Answers words texts status bytes → Answers others texts status bytes }
    ensures save { (words others : List (List ℕ)) (workers more : ℕ) (circuit : List ℕ) (state : Option (List ℕ)) → command_of words ≡ Some (Save workers circuit state)
        → command_of others ≡ Some (Save more circuit state) → (texts : List ℕ → Option (List ℕ)) (status : ℕ) (bytes : List ℕ) → Answers words texts status bytes → Answers others texts status bytes }
    ensures resume { (words others : List (List ℕ)) (workers more : ℕ) (circuit state : List ℕ) → command_of words ≡ Some (Resume workers circuit state)
        → command_of others ≡ Some (Resume more circuit state) → (texts : List ℕ → Option (List ℕ)) (status : ℕ) (bytes : List ℕ) → Answers words texts status bytes → Answers others texts status bytes }
    ensures log { (words others : List (List ℕ)) (workers more : ℕ) (circuit : List ℕ) → command_of words ≡ Some (Log workers circuit)
        → command_of others ≡ Some (Log more circuit) → (texts : List ℕ → Option (List ℕ)) (status : ℕ) (bytes : List ℕ) → Answers words texts status bytes → Answers others texts status bytes }
{}
