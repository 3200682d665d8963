//! Laws of drafts. The functions do nothing.

ghost use Rattle.std.specs.Prelude.{◌≡◌, ℕ, ◌<◌, ◌≤◌, ◌^◌, List, length, slice_index, false};
ghost use Rattle.bit_words.specs.declared.value.Value.{Value as TheValue};
ghost use Rattle.flat_code.specs.Meaning.{ran, published};
ghost use Rattle.code_draft.specs.declared.draft.Draft.{Draft as TheDraft};
ghost use Rattle.code_draft.specs.Drafts.{IsDraft, Solved, pushed_in, written_in};

/// A run from any frame that is long enough leaves a frame that solves the code, and publishes what it gives.
pub fn runs_solve()
    ensures solved { (d : TheDraft) (words : List ℕ) (inputs : List TheValue) (frame : List ℕ) → IsDraft d → d.slots ≤ length frame → ((k : ℕ) → slice_index words k < 2 ^ 64) → Solved d words inputs (ran d.wides d.instrs words inputs frame) }
    ensures published { (d : TheDraft) (words : List ℕ) (inputs : List TheValue) (frame : List ℕ) → IsDraft d → published d.ports d.wides d.instrs words inputs frame ≡ pushed_in d (ran d.wides d.instrs words inputs frame) }
{}

/// A run leaves each slot alone that the code doesn't write.
pub fn runs_leave_other_slots()
    ensures { (d : TheDraft) (words : List ℕ) (inputs : List TheValue) (frame : List ℕ) (k : ℕ) → written_in d k ≡ false → slice_index (ran d.wides d.instrs words inputs frame) k ≡ slice_index frame k }
{}
