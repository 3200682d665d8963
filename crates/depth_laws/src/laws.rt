//! Laws of depth. The functions do nothing.

ghost use Rattle.std.specs.Prelude.{ℕ, ◌≤◌, ◌↔◌, List};
ghost use Rattle.fir_layout.specs.declared.laid.Laid.{Laid as LaidPart};
ghost use Rattle.fir_layout.specs.Layout.{IsLaidOut};
ghost use Rattle.fir_types.specs.declared.name.Name.{Name as AName};
ghost use Rattle.item_lines.specs.declared.line.LineModule.{LineModule as AModule};
ghost use Rattle.fir_grammar.specs.Grammar.{IsSpelled};
ghost use Rattle.fir_grammar.specs.Faults.{most};
ghost use Rattle.depth_laws.specs.Blocks.{text_blocks};
ghost use Rattle.depth_laws.specs.Brackets.{text_brackets};
ghost use Rattle.depth_laws.specs.Suffixes.{text_suffixes};
ghost use Rattle.depth_laws.specs.Depth.{IsNowhereDeep, IsShallowTree};
ghost use Rattle.depth_laws.specs.EmptyBlocks.{IsEmptyBlockAt};

/// Where a list that spells modules goes nowhere too deep, no more blocks of their lines are around one another than may be open.
pub fn shallow_texts_have_few_blocks()
    ensures { (text : List ℕ) (list : List LaidPart) (major : ℕ) (main : AName) (modules : List AModule) (names : List (List ℕ)) → IsSpelled text list major main modules names → IsNowhereDeep text list → text_blocks modules ≤ most }
{}

/// Where a list that spells modules goes nowhere too deep, no more brackets of their lines are around one another than may be open. The
/// bracket of a `printf` or `stop` isn't counted, nor is that of the `pad` round an argument, which no text writes.
pub fn shallow_texts_have_few_brackets()
    ensures { (text : List ℕ) (list : List LaidPart) (major : ℕ) (main : AName) (modules : List AModule) (names : List (List ℕ)) → IsSpelled text list major main modules names → IsNowhereDeep text list → text_brackets modules ≤ most }
{}

/// Where a list that spells modules goes nowhere too deep, no reference and no type of them has more suffixes than one may have.
pub fn shallow_texts_have_few_suffixes()
    ensures { (text : List ℕ) (list : List LaidPart) (major : ℕ) (main : AName) (modules : List AModule) (names : List (List ℕ)) → IsSpelled text list major main modules names → IsNowhereDeep text list → text_suffixes modules ≤ most }
{}

/// The laid list of a text that spells modules goes nowhere too deep exactly where they have no more blocks and no more brackets around one
/// another, and no more suffixes of one reference or type, than there may be.
pub fn texts_are_shallow_exactly_where_their_trees_are()
    ensures { (text : List ℕ) (list : List LaidPart) (major : ℕ) (main : AName) (modules : List AModule) (names : List (List ℕ)) → IsLaidOut text list → IsSpelled text list major main modules names → IsNowhereDeep text list ↔ IsShallowTree modules }
{}

/// So it is for any list that spells no block empty: a block that stands in the list with nothing in it may be too deep, and the modules
/// don't tell of it.
pub fn filled_lists_are_shallow_exactly_where_their_trees_are()
    ensures { (text : List ℕ) (list : List LaidPart) (major : ℕ) (main : AName) (modules : List AModule) (names : List (List ℕ)) → ((k : ℕ) → ¬ (IsEmptyBlockAt list k)) → IsSpelled text list major main modules names → IsNowhereDeep text list ↔ IsShallowTree modules }
{}

/// The laid list of a text spells no block empty.
pub fn laid_lists_have_no_empty_block()
    ensures { (text : List ℕ) (list : List LaidPart) → IsLaidOut text list → (k : ℕ) → ¬ (IsEmptyBlockAt list k) }
{}
