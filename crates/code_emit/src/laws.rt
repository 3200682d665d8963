//! Laws of emitted code. The functions do nothing.

ghost use Rattle.std.specs.Prelude.{◌≡◌, ℕ, ◌<◌, ◌≤◌, ◌^◌, List, length, slice_index};
ghost use Rattle.bit_words.specs.declared.value.Value.{Value as TheValue};
ghost use Rattle.ground_net.specs.declared.ground.Ground.{Ground as TheGround};
ghost use Rattle.ground_net.specs.Grounds.{Instant, value};
ghost use Rattle.flat_code.specs.declared.instr.Location.{Location as TheLocation};
ghost use Rattle.flat_code.specs.Meaning.{ran, location_value};
ghost use Rattle.code_draft.specs.declared.draft.Draft.{Draft as TheDraft};
ghost use Rattle.code_draft.specs.Drafts.{Makes};
ghost use Rattle.code_draft.specs.declared.sources.Sources.{Sources as TheSources};
ghost use Rattle.code_emit.specs.Emits.{Sees, ValueOf};

/// After a run from any frame the location of an emitted expression has its value at each instant that shows what the sources show.
pub fn runs_give_values()
    ensures { (S : TheSources) (g : TheGround) (old new : TheDraft) (s : TheLocation) (words : List ℕ) (inputs : List TheValue) (frame : List ℕ) (instant : Instant) → Makes old new s (ValueOf S g) → new.slots ≤ length frame → ((k : ℕ) → slice_index words k < 2 ^ 64) → Sees S words inputs (ran new.wides new.instrs words inputs frame) instant → location_value (ran new.wides new.instrs words inputs frame) s ≡ value g instant }
{}
