//! Worked examples of the definition. The functions do nothing.

ghost use Rattle.std.specs.Prelude.{◌≡◌, ℕ, true, false, List, Some, None, [], ◌∷◌, codes};
ghost use Rattle.command_words.specs.Commands.{command_of, Run, Check, Widths, Cut, Make, Vcd, Refine, Save, Resume, Log};

/// What `run` asks for.
pub fn runs_are_read()
    ensures alone { command_of (codes "run" ∷ []) ≡ Some (Run 1 false (codes "-") None) }
    ensures two_texts { command_of (codes "run" ∷ codes "-" ∷ codes "s" ∷ []) ≡ Some (Run 1 false (codes "-") (Some (codes "s"))) }
    ensures workers { command_of (codes "run" ∷ codes "--workers" ∷ codes "2" ∷ codes "c" ∷ codes "s" ∷ []) ≡ Some (Run 2 false (codes "c") (Some (codes "s"))) }
    ensures attached { command_of (codes "run" ∷ codes "c" ∷ codes "--workers=+64" ∷ codes "s" ∷ []) ≡ Some (Run 64 false (codes "c") (Some (codes "s"))) }
    ensures behind { command_of (codes "run" ∷ codes "--" ∷ codes "-x" ∷ []) ≡ Some (Run 1 false (codes "-x") None) }
    ensures refined { command_of (codes "run" ∷ codes "--refine" ∷ []) ≡ Some (Run 1 true (codes "-") None) }
    ensures refined_behind { command_of (codes "run" ∷ codes "c" ∷ codes "--workers" ∷ codes "5" ∷ codes "s" ∷ codes "--refine" ∷ []) ≡ Some (Run 5 true (codes "c") (Some (codes "s"))) }
{}

/// What `make` asks for.
pub fn makes_are_read()
    ensures alone { command_of (codes "make" ∷ codes "016" ∷ []) ≡ Some (Make 1 64 16) }
    ensures all { command_of (codes "make" ∷ codes "4096" ∷ codes "--cycles" ∷ codes "10" ∷ codes "--workers" ∷ codes "4" ∷ []) ≡ Some (Make 4 10 4096) }
{}

/// What `vcd` asks for. An option may stand between the names of leaves.
pub fn dumps_are_read()
    ensures alone { command_of (codes "vcd" ∷ codes "-" ∷ []) ≡ Some (Vcd 1 (codes "-") []) }
    ensures leaves { command_of (codes "vcd" ∷ codes "-" ∷ codes "r" ∷ codes "reset" ∷ codes "r" ∷ []) ≡ Some (Vcd 1 (codes "-") (codes "r" ∷ codes "reset" ∷ codes "r" ∷ [])) }
    ensures around { command_of (codes "vcd" ∷ codes "-" ∷ codes "r" ∷ codes "--workers" ∷ codes "2" ∷ codes "clock2" ∷ [])
        ≡ Some (Vcd 2 (codes "-") (codes "r" ∷ codes "clock2" ∷ [])) }
    ensures behind { command_of (codes "vcd" ∷ codes "-" ∷ codes "--" ∷ codes "-x" ∷ []) ≡ Some (Vcd 1 (codes "-") (codes "-x" ∷ [])) }
{}

/// What `save` and `resume` ask for.
pub fn states_are_read()
    ensures saved { command_of (codes "save" ∷ codes "c" ∷ []) ≡ Some (Save 1 (codes "c") None) }
    ensures saved_again { command_of (codes "save" ∷ codes "c" ∷ codes "s" ∷ []) ≡ Some (Save 1 (codes "c") (Some (codes "s"))) }
    ensures saved_between { command_of (codes "save" ∷ codes "c" ∷ codes "--workers" ∷ codes "64" ∷ codes "s" ∷ []) ≡ Some (Save 64 (codes "c") (Some (codes "s"))) }
    ensures resumed { command_of (codes "resume" ∷ codes "-" ∷ codes "s" ∷ []) ≡ Some (Resume 1 (codes "-") (codes "s")) }
    ensures resumed_workers { command_of (codes "resume" ∷ codes "--workers" ∷ codes "2" ∷ codes "c" ∷ codes "s" ∷ []) ≡ Some (Resume 2 (codes "c") (codes "s")) }
    ensures resumed_behind { command_of (codes "resume" ∷ codes "c" ∷ codes "--" ∷ codes "-x" ∷ []) ≡ Some (Resume 1 (codes "c") (codes "-x")) }
{}

/// What `log` asks for.
pub fn logs_are_read()
    ensures alone { command_of (codes "log" ∷ []) ≡ Some (Log 1 (codes "-")) }
    ensures dash { command_of (codes "log" ∷ codes "-" ∷ []) ≡ Some (Log 1 (codes "-")) }
    ensures workers { command_of (codes "log" ∷ codes "--workers" ∷ codes "7" ∷ codes "c" ∷ []) ≡ Some (Log 7 (codes "c")) }
    ensures behind { command_of (codes "log" ∷ codes "--" ∷ codes "-x" ∷ []) ≡ Some (Log 1 (codes "-x")) }
{}

/// What the other commands ask for.
pub fn others_are_read()
    ensures check { command_of (codes "check" ∷ []) ≡ Some (Check (codes "-")) }
    ensures empty_name { command_of (codes "check" ∷ [] ∷ []) ≡ Some (Check []) }
    ensures widths { command_of (codes "widths" ∷ codes "w" ∷ []) ≡ Some (Widths (codes "w")) }
    ensures cut { command_of (codes "cut" ∷ codes "c" ∷ codes "--workers" ∷ codes "64" ∷ []) ≡ Some (Cut 64 (codes "c")) }
    ensures refine { command_of (codes "refine" ∷ []) ≡ Some (Refine 1 (codes "-")) }
    ensures refine_all { command_of (codes "refine" ∷ codes "--workers" ∷ codes "3" ∷ codes "c" ∷ []) ≡ Some (Refine 3 (codes "c")) }
{}

/// Behind `--` each word is a name.
pub fn names_are_texts()
    ensures behind { (name : List ℕ) → command_of (codes "check" ∷ codes "--" ∷ name ∷ []) ≡ Some (Check name) }
    ensures both { (circuit stimulus : List ℕ) → command_of (codes "run" ∷ codes "--" ∷ circuit ∷ stimulus ∷ []) ≡ Some (Run 1 false circuit (Some stimulus)) }
    ensures saved { (circuit state : List ℕ) → command_of (codes "save" ∷ codes "--" ∷ circuit ∷ state ∷ []) ≡ Some (Save 1 circuit (Some state)) }
    ensures resumed { (circuit state : List ℕ) → command_of (codes "resume" ∷ codes "--" ∷ circuit ∷ state ∷ []) ≡ Some (Resume 1 circuit state) }
    ensures logged { (circuit : List ℕ) → command_of (codes "log" ∷ codes "--" ∷ circuit ∷ []) ≡ Some (Log 1 circuit) }
{}

/// Words that are refused.
pub fn other_words_are_refused()
    ensures no_words { command_of [] ≡ None }
    ensures no_command { command_of (codes "jump" ∷ []) ≡ None }
    ensures no_name { command_of ([] ∷ []) ≡ None }
    ensures many_workers { command_of (codes "run" ∷ codes "--workers" ∷ codes "65" ∷ []) ≡ None }
    ensures no_number { command_of (codes "run" ∷ codes "--workers" ∷ [] ∷ []) ≡ None }
    ensures no_value { command_of (codes "run" ∷ codes "--workers" ∷ []) ≡ None }
    ensures dashed_value { command_of (codes "run" ∷ codes "--workers" ∷ codes "-2" ∷ []) ≡ None }
    ensures twice { command_of (codes "run" ∷ codes "--workers" ∷ codes "2" ∷ codes "--workers" ∷ codes "3" ∷ []) ≡ None }
    ensures two_names { command_of (codes "check" ∷ codes "a" ∷ codes "b" ∷ []) ≡ None }
    ensures help { command_of (codes "check" ∷ codes "--help" ∷ []) ≡ None }
    ensures option { command_of (codes "widths" ∷ codes "--workers" ∷ codes "2" ∷ []) ≡ None }
    ensures dash { command_of (codes "cut" ∷ codes "-x" ∷ []) ≡ None }
    ensures three_texts { command_of (codes "run" ∷ codes "a" ∷ codes "b" ∷ codes "c" ∷ []) ≡ None }
    ensures nothing_made { command_of (codes "make" ∷ codes "0" ∷ []) ≡ None }
    ensures too_many_made { command_of (codes "make" ∷ codes "4097" ∷ []) ≡ None }
    ensures no_cycles { command_of (codes "make" ∷ codes "--cycles" ∷ codes "0" ∷ codes "1" ∷ []) ≡ None }
    ensures no_size { command_of (codes "make" ∷ []) ≡ None }
    ensures no_circuit { command_of (codes "vcd" ∷ []) ≡ None }
    ensures no_dumper { command_of (codes "vcd" ∷ codes "--workers" ∷ codes "0" ∷ codes "-" ∷ []) ≡ None }
    ensures flag_twice { command_of (codes "run" ∷ codes "--refine" ∷ codes "--refine" ∷ []) ≡ None }
    ensures flag_value { command_of (codes "run" ∷ codes "--refine=true" ∷ []) ≡ None }
    ensures flag_elsewhere { command_of (codes "refine" ∷ codes "--refine" ∷ []) ≡ None }
    ensures nothing_saved { command_of (codes "save" ∷ []) ≡ None }
    ensures no_circuit_saved { command_of (codes "save" ∷ codes "--workers" ∷ codes "2" ∷ []) ≡ None }
    ensures three_saved { command_of (codes "save" ∷ codes "c" ∷ codes "s" ∷ codes "t" ∷ []) ≡ None }
    ensures many_savers { command_of (codes "save" ∷ codes "--workers" ∷ codes "65" ∷ codes "c" ∷ []) ≡ None }
    ensures savers_twice { command_of (codes "save" ∷ codes "--workers" ∷ codes "2" ∷ codes "c" ∷ codes "--workers" ∷ codes "2" ∷ []) ≡ None }
    ensures nothing_resumed { command_of (codes "resume" ∷ []) ≡ None }
    ensures no_state { command_of (codes "resume" ∷ codes "c" ∷ []) ≡ None }
    ensures no_state_behind { command_of (codes "resume" ∷ codes "c" ∷ codes "--workers" ∷ codes "2" ∷ []) ≡ None }
    ensures three_resumed { command_of (codes "resume" ∷ codes "c" ∷ codes "s" ∷ codes "t" ∷ []) ≡ None }
    ensures no_resumer { command_of (codes "resume" ∷ codes "--workers" ∷ codes "0" ∷ codes "c" ∷ codes "s" ∷ []) ≡ None }
    ensures resumers_twice { command_of (codes "resume" ∷ codes "--workers" ∷ codes "2" ∷ codes "c" ∷ codes "s" ∷ codes "--workers" ∷ codes "3" ∷ []) ≡ None }
    ensures two_logged { command_of (codes "log" ∷ codes "a" ∷ codes "b" ∷ []) ≡ None }
    ensures many_loggers { command_of (codes "log" ∷ codes "--workers" ∷ codes "65" ∷ []) ≡ None }
    ensures loggers_twice { command_of (codes "log" ∷ codes "--workers" ∷ codes "2" ∷ codes "--workers" ∷ codes "2" ∷ []) ≡ None }
    ensures flag_of_save { command_of (codes "save" ∷ codes "--refine" ∷ codes "c" ∷ []) ≡ None }
    ensures flag_of_resume { command_of (codes "resume" ∷ codes "--refine" ∷ codes "c" ∷ codes "s" ∷ []) ≡ None }
    ensures flag_of_log { command_of (codes "log" ∷ codes "--refine" ∷ []) ≡ None }
{}
