//! Laws of names. The functions do nothing.

ghost use Rattle.std.specs.Prelude.{◌≡◌, ◌≢◌, ℕ, List, true, slice_get, Some, Contains};
ghost use Rattle.std.specs.List.{All};
ghost use Rattle.fir_lexer.specs.declared.token.Token.{Token as TheToken};
ghost use Rattle.fir_lexer.specs.Tokens.{AreTokens};
ghost use Rattle.fir_layout.specs.declared.laid.Laid.{Laid as ALaid};
ghost use Rattle.fir_layout.specs.Layout.{tokens_in};
ghost use Rattle.fir_layout.specs.Pieces.{bytes_of};
ghost use Rattle.fir_tree.specs.declared.circuit.Circuit.{Circuit as TheCircuit};
ghost use Rattle.fir_grammar.specs.Grammar.{IsSpelled, IsCircuit, circuit_of, name_in};
ghost use Rattle.fir_types.specs.declared.name.Name.{Name as AName};
ghost use Rattle.item_lines.specs.declared.line.LineModule.{LineModule as AModule};
ghost use Rattle.fir_types.specs.declared.leaf.PathStep.{PathStep as Step};
ghost use Rattle.fir_tree.specs.LeafNames.{Texts, text_of, leaf_text};
ghost use Rattle.fir_meaning.specs.Components.{Design};
ghost use Rattle.ground_net.specs.declared.net.Net.{Net as TheNet};
ghost use Rattle.ground_net.specs.declared.net.Leaf.{Leaf as TheLeaf};
ghost use Rattle.ground_net.specs.declared.net.NetMemory.{NetMemory as TheMemory};
ghost use Rattle.ground_net.specs.declared.net.ElementLeaf.{ElementLeaf as TheElement};
ghost use Rattle.net_of_circuit.specs.NetOf.{IsNetOf};
ghost use Rattle.name_laws.specs.Names.{names_it, IsWord, IsName, IsItemName, AddItemNames, IsUnbroken};

/// What a token of a text names has letters, digits, `_`, `$` and `-` alone.
pub fn tokens_name_words()
    ensures { (text : List ℕ) (tokens : List TheToken) (token : TheToken) → AreTokens text tokens → Contains tokens token → names_it token.kind ≡ true → IsWord (name_in token.kind (bytes_of text token)) }
{}

/// So has each name that a text writes.
pub fn names_of_a_text_are_words()
    ensures { (text : List ℕ) (list : List ALaid) (major : ℕ) (main : AName) (modules : List AModule) (names : List (List ℕ)) → AreTokens text (tokens_in list) → IsSpelled text list major main modules names → All IsWord names }
{}

/// Behind the names that a text writes its circuit has those of the items, the `printf` and `stop` lines. They begin with `#`, and have
/// digits and letters behind it.
pub fn names_of_items_stand_behind()
    ensures { (main : AName) (modules : List AModule) (names : List (List ℕ)) → AddItemNames names (circuit_of main modules names).names }
{}

/// So each name of a circuit that a text spells has letters, digits, `_`, `$`, `-` and `#` alone.
pub fn names_of_a_circuit_are_names()
    ensures { (text : List ℕ) (list : List ALaid) (circuit : TheCircuit) → AreTokens text (tokens_in list) → IsCircuit text list circuit → All IsName circuit.names }
{}

/// The names that a text writes are told from those of items by their first byte.
pub fn words_are_no_item_names()
    ensures words { (name : List ℕ) → IsWord name → ¬ (IsItemName name) }
    ensures names { (name : List ℕ) → IsItemName name → IsName name }
{}

/// A word has no space, no line feed, and none of the marks that stand between the names of a leaf: `.`, `[` and `]`; and no `#`.
pub fn words_have_no_marks()
    ensures marks { (name : List ℕ) → IsWord name → (b : ℕ) → Contains name b → (b ≢ 32) × (b ≢ 10) × (b ≢ 46) × (b ≢ 91) × (b ≢ 93) × (b ≢ 35) }
    ensures words { (name : List ℕ) → IsWord name → IsName name }
    ensures names { (name : List ℕ) → IsName name → (b : ℕ) → Contains name b → (b ≢ 32) × (b ≢ 10) × (b ≢ 46) × (b ≢ 91) × (b ≢ 93) }
{}

/// Where the names of a circuit are such, each of them is one word without a space and a line feed, and so are the names of the leaves of a
/// module, of the flat leaves of its net and of the net's memories, with the ways to the leaves of their elements.
pub fn names_are_unbroken()
    ensures names { (texts : Texts) → All IsName texts → (id : ℕ) → IsUnbroken (text_of texts id) }
    ensures parts { (texts : Texts) → All IsName texts → (component : ℕ) (way : List Step) → IsUnbroken (leaf_text texts component way) }
    ensures leaves { (texts : Texts) (design : Design) (net : TheNet) → All IsName texts → IsNetOf texts design net → (x : ℕ) (leaf : TheLeaf) → slice_get net.leaves x ≡ Some leaf → IsUnbroken leaf.name }
    ensures memories { (texts : Texts) (design : Design) (net : TheNet) → All IsName texts → IsNetOf texts design net → (m : ℕ) (memory : TheMemory) → slice_get net.memories m ≡ Some memory → IsUnbroken memory.name }
    ensures ways { (texts : Texts) (design : Design) (net : TheNet) → All IsName texts → IsNetOf texts design net → (m k : ℕ) (memory : TheMemory) (leaf : TheElement) → slice_get net.memories m ≡ Some memory → slice_get memory.elements k ≡ Some leaf → IsUnbroken leaf.path }
{}
