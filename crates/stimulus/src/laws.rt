//! Laws of the definitions that the contracts here name, and worked examples. The functions do nothing.

ghost use Rattle.std.specs.Prelude.{◌≡◌, ℕ, List, [], ◌∷◌, codes};
ghost use Rattle.bit_words.specs.declared.value.Value.{Value as OneValue};
ghost use Rattle.ground_net.specs.declared.net.Ports.{Ports as ThePorts};
ghost use Rattle.ground_net.specs.declared.net.PortLeaf.{PortLeaf as OneLeaf};
ghost use Rattle.stimulus.specs.declared.stimulus.Stimulus.{Stimulus as OneStimulus};
ghost use Rattle.stimulus.specs.Words.{told_lines};
ghost use Rattle.stimulus.specs.Forms.{setting_forms, Breaks, Said, Says};
ghost use Rattle.stimulus.specs.Stimuli.{IsStimulus};
ghost use Rattle.stimulus.specs.Rows.{zero_of, value_in};
ghost use Rattle.stimulus.specs.Words.{Word as TheWord};

/// A text writes one stimulus at most.
pub fn a_text_writes_one_stimulus()
    ensures { (text : List ℕ) (ports : ThePorts) (stimulus other : OneStimulus) → IsStimulus text ports stimulus → IsStimulus text ports other → stimulus ≡ other }
{}

/// A line says one thing, and one that says something breaks no form.
pub fn a_line_says_one_thing()
    ensures one { (line : List TheWord) (said other : Said) → Says line said → Says line other → said ≡ other }
    ensures formed { (line : List TheWord) (said : Said) (at : ℕ) → Says line said → Breaks setting_forms 0 line at → ⊥ }
{}

/// Words stand between white space, and blank lines and comments are skipped: `cycles 2` with a carriage return before its
/// line feed, a blank line, a comment, and ` 0 a 1` without a line feed.
pub fn lines_of_a_text()
    ensures { told_lines (codes "cycles 2\r\n \n; a\n 0 a\t1")
        ≡ (record { at = 0; bytes = codes "cycles" } ∷ record { at = 7; bytes = codes "2" } ∷ [])
        ∷ (record { at = 17; bytes = codes "0" } ∷ record { at = 19; bytes = codes "a" } ∷ record { at = 21; bytes = codes "1" } ∷ [])
        ∷ [] }
{}

/// A semicolon behind the first word ends no line: it is a byte of its word.
pub fn a_word_may_hold_a_semicolon()
    ensures { told_lines (codes "0 a;1") ≡ (record { at = 0; bytes = codes "0" } ∷ record { at = 2; bytes = codes "a;1" } ∷ []) ∷ [] }
{}

/// An input that is set in cycle 1 has the value from then on, until cycle 3 sets it to another one. Another input stays 0.
pub fn a_value_holds_until_it_is_changed()
    ensures before { (leaf : OneLeaf) (v w : OneValue) → value_in (record { cycle = 1; input = 0; value = v } ∷ record { cycle = 3; input = 0; value = w } ∷ []) 0 0 leaf ≡ zero_of leaf }
    ensures first { (leaf : OneLeaf) (v w : OneValue) → value_in (record { cycle = 1; input = 0; value = v } ∷ record { cycle = 3; input = 0; value = w } ∷ []) 1 0 leaf ≡ v }
    ensures holds { (leaf : OneLeaf) (v w : OneValue) → value_in (record { cycle = 1; input = 0; value = v } ∷ record { cycle = 3; input = 0; value = w } ∷ []) 2 0 leaf ≡ v }
    ensures changed { (leaf : OneLeaf) (v w : OneValue) → value_in (record { cycle = 1; input = 0; value = v } ∷ record { cycle = 3; input = 0; value = w } ∷ []) 9 0 leaf ≡ w }
    ensures other { (leaf : OneLeaf) (v w : OneValue) → value_in (record { cycle = 1; input = 0; value = v } ∷ record { cycle = 3; input = 0; value = w } ∷ []) 9 1 leaf ≡ zero_of leaf }
{}
