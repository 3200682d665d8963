//! Laws of the definitions, and worked examples. The functions do nothing.

ghost use Rattle.std.specs.Prelude.{◌≡◌, ℕ, Bool, List, Option, None, Some, [], ◌∷◌, codes};
ghost use Rattle.command_words.specs.Commands.{Run as Asks_run, Make, Vcd as Asks_vcd, Save as Asks_save, Resume, Log as Asks_log};
ghost use Rattle.asked_texts.specs.Commands.{Run, Check, Cut, Vcd, Save, Log, Of_joined, Of_two, Of_state, Of_made, asked_by, question_of};
ghost use Rattle.asked_texts.specs.declared.words.Keeping.{Keeping as AKeeping};
ghost use Rattle.asked_texts.specs.Texts.{IsSplit, HasNone};

/// What words ask for. Of the workers only a cut says something.
pub fn words_ask_for_texts()
    ensures run { asked_by (codes "run" ∷ codes "--workers" ∷ codes "4" ∷ codes "--refine" ∷ []) ≡ Some (Of_joined Run (codes "-")) }
    ensures run_two { asked_by (codes "run" ∷ codes "c" ∷ codes "s" ∷ []) ≡ Some (Of_two (codes "c") (codes "s")) }
    ensures check { asked_by (codes "check" ∷ codes "c" ∷ []) ≡ Some (Of_joined Check (codes "c")) }
    ensures cut { asked_by (codes "cut" ∷ codes "--workers" ∷ codes "4" ∷ codes "c" ∷ []) ≡ Some (Of_joined (Cut 4) (codes "c")) }
    ensures make { asked_by (codes "make" ∷ codes "16" ∷ []) ≡ Some (Of_made 64 16) }
    ensures vcd { asked_by (codes "vcd" ∷ codes "c" ∷ codes "r" ∷ []) ≡ Some (Of_joined (Vcd (codes "r" ∷ [])) (codes "c")) }
    ensures save { asked_by (codes "save" ∷ codes "c" ∷ []) ≡ Some (Of_joined (Save None) (codes "c")) }
    ensures save_on { asked_by (codes "save" ∷ codes "c" ∷ codes "s" ∷ []) ≡ Some (Of_state AKeeping.Save (codes "c") (codes "s")) }
    ensures resume { asked_by (codes "resume" ∷ codes "c" ∷ codes "s" ∷ []) ≡ Some (Of_state AKeeping.Resume (codes "c") (codes "s")) }
    ensures log { asked_by (codes "log" ∷ codes "--workers" ∷ codes "2" ∷ []) ≡ Some (Of_joined Log (codes "-")) }
    ensures nothing { asked_by (codes "resume" ∷ codes "c" ∷ []) ≡ None }
{}

/// Where the stimulus begins in a text that holds both.
pub fn texts_are_split()
    ensures behind { IsSplit (codes "c\n%stimulus\ncycles 1\n") (codes "c\n") (codes "cycles 1\n") }
    ensures in_front { IsSplit (codes "%stimulus\r\ncycles 1\n") [] (codes "cycles 1\n") }
    ensures at_the_end { IsSplit (codes "c\n%stimulus") (codes "c\n") [] }
    ensures of_two { IsSplit (codes "%stimulus\n%stimulus\n") [] (codes "%stimulus\n") }
    ensures none { HasNone (codes "c\n") }
    ensures none_in_no_text { HasNone [] }
{}

/// A text is split in one way at most, and not where it has no line `%stimulus`.
pub fn texts_are_split_once()
    ensures parts { (text before after front behind : List ℕ) → IsSplit text before after → IsSplit text front behind → (before ≡ front) × (after ≡ behind) }
    ensures none { (text before after : List ℕ) → IsSplit text before after → HasNone text → ⊥ }
{}

/// What is asked hangs neither on the number of workers of a run, nor on whether the refined cut is run.
pub fn workers_change_no_question()
    ensures run { (workers more : ℕ) (refined other : Bool) (circuit : List ℕ) (stimulus : Option (List ℕ))
        → question_of (Some (Asks_run workers refined circuit stimulus)) ≡ question_of (Some (Asks_run more other circuit stimulus)) }
    ensures make { (workers more cycles size : ℕ) → question_of (Some (Make workers cycles size)) ≡ question_of (Some (Make more cycles size)) }
    ensures vcd { (workers more : ℕ) (circuit : List ℕ) (leaves : List (List ℕ)) → question_of (Some (Asks_vcd workers circuit leaves)) ≡ question_of (Some (Asks_vcd more circuit leaves)) }
    ensures save { (workers more : ℕ) (circuit : List ℕ) (state : Option (List ℕ)) → question_of (Some (Asks_save workers circuit state)) ≡ question_of (Some (Asks_save more circuit state)) }
    ensures resume { (workers more : ℕ) (circuit state : List ℕ) → question_of (Some (Resume workers circuit state)) ≡ question_of (Some (Resume more circuit state)) }
    ensures log { (workers more : ℕ) (circuit : List ℕ) → question_of (Some (Asks_log workers circuit)) ≡ question_of (Some (Asks_log more circuit)) }
{}
