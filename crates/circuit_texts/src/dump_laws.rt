//! Laws of dumps. The functions do nothing.

ghost use Rattle.std.specs.Prelude.{◌≡◌, ℕ, ◌<◌, ◌^◌, List, All};
ghost use Rattle.bit_words.specs.declared.value.Value.{Value as OneValue};
ghost use Rattle.fir_lexer.specs.Tokens.{AreTokens};
ghost use Rattle.fir_layout.specs.declared.laid.Laid.{Laid as ALaid};
ghost use Rattle.fir_layout.specs.Layout.{tokens_in};
ghost use Rattle.fir_tree.specs.LeafNames.{Texts};
ghost use Rattle.fir_tree.specs.declared.circuit.Circuit.{Circuit as TheCircuit};
ghost use Rattle.fir_tree.specs.declared.scope.Fitted.{Fitted as FittedCircuit};
ghost use Rattle.fir_grammar.specs.Grammar.{IsCircuit};
ghost use Rattle.fir_meaning.specs.Components.{Design, design_of};
ghost use Rattle.fir_meaning.specs.Loops.{HasNoLoop};
ghost use Rattle.circuit_laws.specs.WellFormed.{IsWellFormed};
ghost use Rattle.name_laws.specs.Names.{IsName};
ghost use Rattle.stimulus.specs.declared.stimulus.Stimulus.{Stimulus as TheStimulus};
ghost use Rattle.vcd_write.specs.Reading.{VcdRead};
ghost use Rattle.circuit_texts.specs.Variables.{NamesNoLeaf};
ghost use Rattle.circuit_texts.specs.VcdTexts.{IsVcdText};

/// A well formed circuit without a loop has at most one dump of the leaves that some words name, under a stimulus.
pub fn dumps_of_a_well_formed_circuit_are_one()
    ensures { (texts : Texts) (fitted : FittedCircuit) → IsWellFormed fitted → HasNoLoop (design_of fitted) → (names : List (List ℕ)) (stimulus : TheStimulus) (bytes other : List ℕ)
        → IsVcdText texts (design_of fitted) names stimulus bytes → IsVcdText texts (design_of fitted) names stimulus other → bytes ≡ other }
{}

/// There is no dump where a word names no leaf.
pub fn dumps_have_their_names()
    ensures { (texts : Texts) (design : Design) (names : List (List ℕ)) (stimulus : TheStimulus) (bytes : List ℕ) → IsVcdText texts design names stimulus bytes → NamesNoLeaf texts design names → ⊥ }
{}

/// A dump is read as its rows, and as no others, where the names of the circuit are names of a text.
pub fn dumps_are_read()
    ensures read { (texts : Texts) (design : Design) (names : List (List ℕ)) (stimulus : TheStimulus) (bytes : List ℕ) → All IsName texts → stimulus.cycles < 2 ^ 64
        → (dump : IsVcdText texts design names stimulus bytes) → VcdRead dump.vars bytes dump.rows }
    ensures only { (texts : Texts) (design : Design) (names : List (List ℕ)) (stimulus : TheStimulus) (bytes : List ℕ) → All IsName texts → stimulus.cycles < 2 ^ 64
        → (dump : IsVcdText texts design names stimulus bytes) (rows : List (List OneValue)) → VcdRead dump.vars bytes rows → rows ≡ dump.rows }
    ensures of_text { (text : List ℕ) (list : List ALaid) (circuit : TheCircuit) → AreTokens text (tokens_in list) → IsCircuit text list circuit → (design : Design) (names : List (List ℕ)) (stimulus : TheStimulus) (bytes : List ℕ)
        → stimulus.cycles < 2 ^ 64 → (dump : IsVcdText circuit.names design names stimulus bytes) → VcdRead dump.vars bytes dump.rows }
{}
