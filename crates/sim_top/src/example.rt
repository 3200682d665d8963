//! A worked example: a text that is refused.

ghost use Rattle.std.specs.Prelude.{[], codes};
ghost use Rattle.sim_top.specs.Answers.{Judges};
ghost use Rattle.asked_texts.specs.Commands.{Check};

/// The empty text is refused at its end, where the version is missing.
pub fn empty_text_is_refused()
    ensures { Judges Check [] 2 (codes "circuit BadSyntax 1:1\n") }
{}
