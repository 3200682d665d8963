//! Laws of pieces. The functions do nothing.

ghost use Rattle.std.specs.Prelude.{◌≡◌, ℕ, ◌*◌, ◌≤◌, true, List, [], ◌∷◌, ◌++◌, Contains};
ghost use Rattle.flat_code.specs.Fine.{among};
ghost use Rattle.code_draft.specs.declared.draft.Draft.{Draft as TheDraft};
ghost use Rattle.code_draft.specs.Segments.{Segment};
ghost use Rattle.code_draft.specs.Pieces.{StandsIn, AddsPieces, AssignsPieces, OnlyReads};

/// No code is no piece, a segment that keeps nothing is one, and pieces go on from pieces.
pub fn pieces_go_on()
    ensures none { (locations : ℕ → List ℕ) (earlier read counts : List ℕ) (d : TheDraft) → AddsPieces locations earlier read counts d d }
    ensures one { (locations : ℕ → List ℕ) (earlier read counts outer : List ℕ) (count n : ℕ) (a b : TheDraft) → Contains counts count → Segment a b outer [] n → ((k : ℕ) → among outer k ≡ true → StandsIn locations earlier read k) → n ≤ 2 * count → AddsPieces locations earlier read counts a b }
    ensures more { (locations : ℕ → List ℕ) (earlier read counts : List ℕ) (a b c : TheDraft) → AddsPieces locations earlier read counts a b → AddsPieces locations earlier read counts b c → AddsPieces locations earlier read counts a c }
    ensures wider { (locations : ℕ → List ℕ) (earlier read counts all more_counts : List ℕ) (a b : TheDraft) → ((x : ℕ) → Contains read x → Contains all x) → ((n : ℕ) → Contains counts n → Contains more_counts n) → AddsPieces locations earlier read counts a b → AddsPieces locations earlier all more_counts a b }
{}

/// What only reads what a segment keeps belongs to the segment, which then keeps nothing.
pub fn readers_end_segments()
    ensures { (outer kept : List ℕ) (n : ℕ) (a b c : TheDraft) → Segment a b outer kept n → OnlyReads b c kept → Segment a c outer [] n }
{}

/// A leaf's segment comes behind those of other leaves, where it keeps the leaf's slots and reads those of earlier leaves that it may read.
pub fn leaves_come_in_turn()
    ensures none { (locations reads : ℕ → List ℕ) (counts : ℕ → ℕ) (d : TheDraft) → AssignsPieces locations reads counts [] d d }
    ensures more { (locations reads : ℕ → List ℕ) (counts : ℕ → ℕ) (leaves outer : List ℕ) (x n : ℕ) (a b c : TheDraft) → AssignsPieces locations reads counts leaves a b → Segment b c outer (locations x) n → ((k : ℕ) → among outer k ≡ true → StandsIn locations leaves (reads x) k) → n ≤ 2 * counts x → AssignsPieces locations reads counts (leaves ++ x ∷ []) a c }
    ensures same { (locations others reads : ℕ → List ℕ) (counts : ℕ → ℕ) (leaves : List ℕ) (a b : TheDraft) → AssignsPieces locations reads counts leaves a b → ((y : ℕ) → Contains leaves y → others y ≡ locations y) → AssignsPieces others reads counts leaves a b }
{}
