//! What statements are certain for, and what expressions mention, leaf by leaf.

ghost use Rattle.std.specs.Prelude.{◌≡◌, [], ◌∷◌, true, false};
ghost use Rattle.fir_meaning.specs.Components.{A_wire, flow_of};
ghost use Rattle.fir_meaning.specs.Mentions.{mentions};
ghost use Rattle.fir_meaning.specs.Certain.{is_certain, must_be_driven};
ghost use Rattle.definition_examples.specs.Samples.{leaf};
ghost use Rattle.definition_examples.specs.Sides.{pairs, whole_connect, from_element, to_element, choice, x_of, y_of, x_of_first, y_of_first};

/// The leaves of wires must be driven, of both orientations.
pub fn wires_must_be_driven()
    ensures plain { must_be_driven A_wire (flow_of A_wire false) ≡ true }
    ensures flipped { must_be_driven A_wire (flow_of A_wire true) ≡ true }
{}

/// `connect o, a` is certain for the leaf of `o` that isn't flipped and for the one of `a` that is, and for no others.
pub fn connects_are_certain_on_both_sides()
    ensures left { is_certain pairs (x_of 20) whole_connect ≡ true }
    ensures right { is_certain pairs (y_of 21) whole_connect ≡ true }
    ensures left_source { is_certain pairs (y_of 20) whole_connect ≡ false }
    ensures right_source { is_certain pairs (x_of 21) whole_connect ≡ false }
{}

/// A connect is certain on the side that has no dynamic index, and on that side alone.
pub fn dynamic_indices_are_uncertain()
    ensures plain_left { is_certain pairs (x_of 20) from_element ≡ true }
    ensures indexed_right { is_certain pairs y_of_first from_element ≡ false }
    ensures plain_right { is_certain pairs (y_of 20) to_element ≡ true }
    ensures indexed_left { is_certain pairs x_of_first to_element ≡ false }
{}

/// Each leaf of a choice mentions the condition and its own leaf of both operands.
pub fn choices_mention_leaf_by_leaf()
    ensures { mentions choice pairs ≡ (leaf 25 [] ∷ x_of 21 ∷ x_of 22 ∷ []) ∷ (leaf 25 [] ∷ y_of 21 ∷ y_of 22 ∷ []) ∷ [] }
{}
