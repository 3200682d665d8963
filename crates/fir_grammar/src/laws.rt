//! Laws of the grammar.

ghost use Rattle.std.specs.Prelude.{◌≡◌, ℕ, List, [], ◌∷◌, ◌++◌, take};
ghost use Rattle.fir_layout.specs.declared.laid.Laid.{Laid as LaidPart};
ghost use Rattle.fir_layout.specs.Pieces.{Piece, pieces_of};
ghost use Rattle.fir_tree.specs.declared.circuit.Circuit.{Circuit as TheCircuit};
ghost use Rattle.fir_grammar.specs.Grammar.{Symbol, A, Text, Derives, Front, IsCircuit};
ghost use Rattle.fir_grammar.specs.Faults.{FaultOf, IsDeepAt};
ghost use Rattle.fir_grammar.specs.Reading.{Stands, IsSettled};
ghost use Rattle.fir_tree.specs.declared.fault.ParseFault.{ParseFault as TheFault};

/// Every prefix of a derived list is a front.
pub fn prefixes_are_fronts()
    ensures { (symbols : List Symbol) (pieces : List Piece) (k : ℕ) → Derives symbols pieces → Front symbols (take k pieces) }
{}

/// The laid list that spells a circuit is derived as a text.
pub fn spelled_is_derived()
    ensures { (text : List ℕ) (list : List LaidPart) (circuit : TheCircuit) → IsCircuit text list circuit → Derives (A Text ∷ []) (pieces_of text list) }
{}

/// What may stand behind a type, an expression or another rule begins with no piece that the rule could go on with: a type
/// is followed by no `<` and no `[`, an expression by no `.`, `[` and `<`, a statement by no `else` and no block.
pub fn wanted_is_settled()
    ensures { (symbols : List Symbol) → Stands symbols → IsSettled symbols }
{}

/// A laid list spells at most one circuit.
pub fn one_circuit()
    ensures { (text : List ℕ) (list : List LaidPart) (first second : TheCircuit) → IsCircuit text list first → IsCircuit text list second → first ≡ second }
{}

/// A laid list has at most one fault.
pub fn one_fault()
    ensures { (text : List ℕ) (list : List LaidPart) (first second : TheFault) → FaultOf text list first → FaultOf text list second → first ≡ second }
{}

/// A laid list that spells a circuit, and goes nowhere too deep, has no fault.
pub fn circuits_have_no_fault()
    ensures { (text : List ℕ) (list : List LaidPart) (circuit : TheCircuit) (fault : TheFault) → IsCircuit text list circuit → ((k : ℕ) → ¬ (IsDeepAt (pieces_of text list) k)) → ¬ (FaultOf text list fault) }
{}

/// Every front goes on to a derived list, so the fronts are just the prefixes of what is derived.
pub fn fronts_are_prefixes()
    ensures { (symbols : List Symbol) (pieces : List Piece) → Front symbols pieces → (others : List Piece) × Derives symbols (pieces ++ others) }
{}
