//! Laws of the texts of states, and worked examples. The functions do nothing.

ghost use Rattle.std.specs.Prelude.{◌≡◌, ℕ, ◌≤◌, List, [], ◌∷◌, All, ℤ, pos, codes};
ghost use Rattle.std.specs.List.{AllZip};
ghost use Rattle.place_text.specs.First.{HasNone};
ghost use Rattle.ground_net.specs.declared.net.Net.{Net as TheNet};
ghost use Rattle.ground_net.specs.declared.net.PortLeaf.{PortLeaf as OneLeaf};
ghost use Rattle.snapshot_text.specs.Cells.{Cell as ACell, cells_of};
ghost use Rattle.snapshot_text.specs.Texts.{most_cycles, state_text, IsState, Holds};
ghost use Rattle.snapshot_text.specs.Faults.{IsFault};
ghost use Rattle.snapshot_text.specs.Snapshots.{IsNamed, HasWords};
ghost use Rattle.snapshot_text.specs.declared.fault.StateFault.TheVariants.{BadLine, ValueRange};
ghost use Rattle.snapshot_text.specs.Examples.{count_cells};

/// A state is read as it was printed, and as no other.
pub fn states_are_read_back()
    ensures read { (cells : List ACell) (cycle : ℕ) (values : List ℤ) → cycle ≤ most_cycles → AllZip Holds cells values → IsState cells (state_text cells cycle values) cycle values }
    ensures cycle { (cells : List ACell) (text : List ℕ) (m n : ℕ) (values others : List ℤ) → IsState cells text m values → IsState cells text n others → m ≡ n }
    ensures only { (cells : List ACell) (text : List ℕ) (m n : ℕ) (values others : List ℤ) → IsState cells text m values → IsState cells text n others → values ≡ others }
{}

/// A text that is read as a state has no fault, where names are single words.
pub fn states_have_no_fault()
    ensures { (cells : List ACell) (text : List ℕ) (cycle : ℕ) (values : List ℤ) → All IsNamed cells → IsState cells text cycle values → HasNone (IsFault cells text) }
{}

/// The lines of a net whose names are single words have such names.
pub fn names_are_words()
    ensures { (net : TheNet) (inputs : List OneLeaf) → HasWords net inputs → All IsNamed (cells_of net inputs) }
{}

/// The counter's state after two cycles.
pub fn a_counter_is_printed()
    ensures { state_text count_cells 2 (pos 0 ∷ pos 1 ∷ []) ≡ codes "state 2\ninput reset 0\nreg r 1\n" }
{}

/// Two faults of the counter's state: a value that is too great, and a line that is missing.
pub fn counter_states_are_refused()
    ensures value { IsFault count_cells (codes "state 2\ninput reset 0\nreg r 16\n") (ValueRange (record { line = 3; column = 7 })) }
    ensures missing { IsFault count_cells (codes "state 2\ninput reset 0\n") (BadLine (record { line = 3; column = 1 })) }
{}
