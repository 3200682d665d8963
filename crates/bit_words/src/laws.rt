//! Laws of the definitions that the contracts here name. The functions do nothing.

ghost use Rattle.std.specs.Prelude.{◌≡◌, ℕ, ℤ, Bool, List};
ghost use Rattle.bit_words.specs.declared.value.Kind.{Kind};
ghost use Rattle.bit_words.specs.declared.value.Value.{Value};
ghost use Rattle.bit_words.specs.Values.{InRange, Congruent, integer_of, fit_of, bits_of};
ghost use Rattle.bit_words.specs.Numbers.{IsNumber};

/// For each kind and width an integer is fitted to the one integer in range that is congruent to it.
pub fn fits_to_one_congruent_in_range()
    ensures in_range { (kind : Kind) (width : ℕ) (n : ℤ) → InRange kind width (fit_of kind width n) }
    ensures congruent { (kind : Kind) (width : ℕ) (n : ℤ) → Congruent width (fit_of kind width n) n }
    ensures one { (kind : Kind) (width : ℕ) (n m : ℤ) → InRange kind width m → Congruent width m n → m ≡ fit_of kind width n }
{}

/// Fitting changes no integer that is in range already.
pub fn fitting_keeps_what_is_in_range()
    ensures { (kind : Kind) (width : ℕ) (n : ℤ) → InRange kind width n → fit_of kind width n ≡ n }
{}

/// The integer of a value is in the range of its kind and width, and its bits are those of the value.
pub fn values_are_in_range()
    ensures in_range { (value : Value) → InRange value.kind value.width (integer_of value) }
    ensures bits { (value : Value) → bits_of value.width (integer_of value) ≡ value.bits }
{}

/// A text is read as one number at most.
pub fn numbers_have_one_reading()
    ensures sign { (bytes : List ℕ) (a b : Bool) (m n : ℕ) → IsNumber bytes a m → IsNumber bytes b n → a ≡ b }
    ensures magnitude { (bytes : List ℕ) (a b : Bool) (m n : ℕ) → IsNumber bytes a m → IsNumber bytes b n → m ≡ n }
{}
