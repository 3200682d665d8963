//! Laws of sources of a net. The functions do nothing.

ghost use Rattle.std.specs.Prelude.{◌≡◌};
ghost use Rattle.ground_net.specs.declared.net.Net.{Net as TheNet};
ghost use Rattle.ground_net.specs.Nets.{IsNet};
ghost use Rattle.ground_net.specs.Words.{state_words};
ghost use Rattle.code_draft.specs.declared.draft.Draft.{Draft as TheDraft};
ghost use Rattle.code_draft.specs.declared.sources.Sources.{Sources as TheSources};
ghost use Rattle.code_emit.specs.Emits.{AreSources};
ghost use Rattle.partition_code.specs.FromNets.{AreOf};

/// The words of a net's sources are among the words of a state.
pub fn sources_are_among_the_words()
    ensures { (net : TheNet) (S : TheSources) (d : TheDraft) → IsNet net → AreOf net S → d.words ≡ state_words net → AreSources S d }
{}
