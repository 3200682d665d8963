//! What registers hold next, and what that is made of.

ghost use Rattle.std.specs.Prelude.{◌≡◌, ◌⊎◌, ℤ, List, ℕ, [], pos, true};
ghost use Rattle.bit_words.specs.declared.value.Kind.TheVariants.{Unsigned};
ghost use Rattle.fir_types.specs.declared.fir_type.Shape.TheVariants as shape;
ghost use Rattle.fir_types.specs.declared.leaf.TypeLeaf.{TypeLeaf as ALeaf};
ghost use Rattle.fir_meaning.specs.Components.{Design, TypedModule, Component, Leaf, FlatLeaf, flat, type_in, kind_of_leaf, width_of_leaf};
ghost use Rattle.fir_meaning.specs.Loops.{TakesFrom};
ghost use Rattle.fir_meaning.specs.States.{Stands, leaf_of, is_register, next_of_register};
ghost use Rattle.definition_examples.specs.Samples.{typ, whole_leaf, leaf};
ghost use Rattle.definition_examples.specs.Sides.{pairs, x_of, x_leaf};
ghost use Rattle.definition_examples.specs.Registers.{IsMadeOf, of_pair, cut, resetting};

/// A `Reset` and an `AsyncReset` have one bit, without a sign.
pub fn resets_have_one_bit()
    ensures width { width_of_leaf (whole_leaf (typ shape.Reset)) ≡ 1 }
    ensures kind { kind_of_leaf (whole_leaf (typ shape.Reset)) ≡ Unsigned }
    ensures async_width { width_of_leaf (whole_leaf (typ shape.AsyncReset)) ≡ 1 }
    ensures async_kind { kind_of_leaf (whole_leaf (typ shape.AsyncReset)) ≡ Unsigned }
{}

/// An `init` that is wider than its register is cut: 19 in 8 bits is 3 in 4.
pub fn initial_values_are_cut()
    ensures { (held : ℤ) → next_of_register resetting cut cut.declaration.sort [] held ≡ pos 3 }
{}

/// What the edge takes for a register's leaf is what the leaf is made of: its live connects, its reset and `init`.
pub fn registers_take_what_they_are_made_of()
    ensures takes { (design : Design) (path : List ℕ) (m : TypedModule) (c : Component) (leaf : ALeaf) → Stands design path m c leaf → is_register c.declaration.sort ≡ true → (x : FlatLeaf) → TakesFrom design (flat m path (leaf_of c leaf)) x → (y : Leaf) × IsMadeOf (type_in m) c leaf y × (flat m path y ≡ x) }
    ensures all { (design : Design) (path : List ℕ) (m : TypedModule) (c : Component) (leaf : ALeaf) → Stands design path m c leaf → is_register c.declaration.sort ≡ true → (y : Leaf) → IsMadeOf (type_in m) c leaf y → TakesFrom design (flat m path (leaf_of c leaf)) (flat m path y) }
{}

/// A leaf of a register is made of its own part of `init` alone, and of the reset.
pub fn initial_values_count_leaf_by_leaf()
    ensures { (y : Leaf) → IsMadeOf pairs of_pair x_leaf y → (y ≡ leaf 25 []) ⊎ (y ≡ x_of 22) }
{}
