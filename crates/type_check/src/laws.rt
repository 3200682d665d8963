//! Laws of the definitions that the contracts here name. The functions do nothing.

ghost use Rattle.std.specs.Prelude.{◌↔◌, ◌≤ℤ◌, IsTrue, None, ℕ, ℤ, pos};
ghost use Rattle.bit_words.specs.Values.{InRange};
ghost use Rattle.bit_words.specs.declared.value.Kind.{Kind};
ghost use Rattle.bit_words.specs.declared.value.Kind.TheVariants.{Unsigned, Signed};
ghost use Rattle.fir_types.specs.Equivalence.{Equivalent};
ghost use Rattle.fir_types.specs.declared.fir_type.FirType.{FirType as TheType};
ghost use Rattle.type_check.specs.Expressions.{fits_literal};
ghost use Rattle.fir_tree.specs.Kinds.{holds};
ghost use Rattle.type_check.specs.Texts.{are_equivalent};

/// The question whether two types are equivalent is answered with yes exactly where they are.
pub fn equivalence_is_answered()
    ensures { (left right : TheType) → IsTrue (are_equivalent left right) ↔ Equivalent left right }
{}

/// A literal holds exactly the integers in the range of its kind and width. Without a width a `UInt` is any integer from 0
/// on, and a `SInt` any integer.
pub fn literals_hold_their_range()
    ensures width { (kind : Kind) (width : ℕ) (n : ℤ) → IsTrue (holds kind width n) ↔ InRange kind width n }
    ensures unsigned { (n : ℤ) → IsTrue (fits_literal Unsigned None n) ↔ (pos 0 ≤ℤ n) }
    ensures signed { (n : ℤ) → IsTrue (fits_literal Signed None n) }
{}
