//! Laws of dumps. The functions do nothing.

ghost use Rattle.std.specs.Prelude.{◌≡◌, ℕ, List, ◌<◌, ◌^◌, ◌+◌, ◌∷◌, ◌++◌, length, slice_get, All, Some, None};
ghost use Rattle.bit_words.specs.declared.value.Value.{Value};
ghost use Rattle.ground_net.specs.declared.net.PortLeaf.{PortLeaf as Leaf};
ghost use Rattle.vcd_write.specs.Changes.{dump, entries, later, last_row};
ghost use Rattle.vcd_write.specs.Texts.{vcd_text};
ghost use Rattle.vcd_write.specs.Pieces.{header_text, cycles_text, end_text, dump_telling};
ghost use Rattle.row_texts.specs.Tellings.{run_text};
ghost use Rattle.vcd_write.specs.Reading.{last_bits, last_time, AreRows, VcdRead, HasPlainNames};

/// What is dumped of rows tells how many there are, and the bits of each variable in each cycle.
pub fn dumps_tell_their_rows()
    ensures count { (rows : List (List ℕ)) → last_time None (dump rows) ≡ Some (length rows) }
    ensures bits { (width : ℕ) (rows : List (List ℕ)) → All (λ r. length r ≡ width) rows → (c i : ℕ) (row : List ℕ) (v : ℕ) → slice_get rows c ≡ Some row → slice_get row i ≡ Some v
        → last_bits c i 0 None (dump rows) ≡ Some v }
{}

/// The text of a dump is read as its rows, and as no others.
pub fn texts_are_read_as_their_rows()
    ensures read { (top : List ℕ) (vars : List Leaf) (rows : List (List Value)) → HasPlainNames top vars → AreRows vars rows → length rows < 2 ^ 64 → VcdRead vars (vcd_text top vars rows) rows }
    ensures only { (vars : List Leaf) (text : List ℕ) (rows others : List (List Value)) → VcdRead vars text rows → VcdRead vars text others → rows ≡ others }
{}

/// Rows are dumped piece by piece: what is known between two pieces is the number of the next cycle and the row before it.
pub fn dumps_come_in_pieces()
    ensures first { (x : List ℕ) (xs ys : List (List ℕ)) → entries (x ∷ (xs ++ ys)) ≡ entries (x ∷ xs) ++ later (1 + length xs) (last_row x xs) ys }
    ensures more { (c : ℕ) (before : List ℕ) (xs ys : List (List ℕ)) → later c before (xs ++ ys) ≡ later c before xs ++ later (c + length xs) (last_row before xs) ys }
{}

/// The text of a dump is its front, what each cycle adds, and its end.
pub fn texts_come_in_pieces()
    ensures { (top : List ℕ) (vars : List Leaf) (rows : List (List Value)) → AreRows vars rows → vcd_text top vars rows ≡ header_text top vars ++ (cycles_text 0 None rows ++ end_text (length rows)) }
{}

/// As a text of rows it is the same.
pub fn texts_of_rows_are_dumps()
    ensures { (top : List ℕ) (vars : List Leaf) (rows : List (List Value)) → AreRows vars rows → run_text (dump_telling top vars) 0 rows ≡ vcd_text top vars rows }
{}
