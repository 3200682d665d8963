//! Laws of the definitions that the contracts here name. The functions do nothing.

ghost use Rattle.std.specs.Prelude.{◌≡◌, ◌≢◌, ℕ, ◌<◌, List, map, true, ℤ, pos, ◌+ℤ◌, ◌*ℤ◌, ◌≤ℤ◌, ◌<ℤ◌, unsigned_abs};
ghost use Rattle.bit_words.specs.declared.value.Kind.{Kind};
ghost use Rattle.bit_words.specs.declared.value.Value.{Value};
ghost use Rattle.prim_ops.specs.declared.operation.PrimOp.{PrimOp};
ghost use Rattle.prim_ops.specs.declared.widths.Width.TheVariants.{Bits as bits_width};
ghost use Rattle.prim_ops.specs.Integers.{is_below};
ghost use Rattle.prim_ops.specs.Widths.{width_number, bounded, row_width};
ghost use Rattle.prim_ops.specs.Results.{quotient, remainder, floor_div, IsResult};

/// Over operands whose widths are in bits the width of a result is its formula's number, and `Over` above 128.
pub fn widths_in_bits_follow_the_formula()
    ensures { (prim : PrimOp) (kinds : List Kind) (widths params : List ℕ) → row_width prim kinds (map (λ w. bits_width w) widths) params ≡ bounded (width_number prim kinds widths params) }
{}

/// For each divisor but 0 the quotient and the remainder make up the numerator, and the remainder is nearer to 0 than the
/// divisor. It is below 0 only where the numerator is, and not above 0 there. So the quotient is rounded toward 0.
pub fn divisions_make_up_the_numerator()
    ensures whole { (a b : ℤ) → unsigned_abs b ≢ 0 → quotient a b *ℤ b +ℤ remainder a b ≡ a }
    ensures small { (a b : ℤ) → unsigned_abs b ≢ 0 → unsigned_abs (remainder a b) < unsigned_abs b }
    ensures below { (a b : ℤ) → is_below (remainder a b) ≡ true → is_below a ≡ true }
    ensures above { (a b : ℤ) → is_below a ≡ true → remainder a b ≤ℤ pos 0 }
{}

/// A division that is rounded down leaves less than the divisor, and nothing below 0.
pub fn shifts_round_down()
    ensures least { (n : ℤ) (by : ℕ) → 0 < by → (floor_div n by *ℤ pos by) ≤ℤ n }
    ensures greatest { (n : ℤ) (by : ℕ) → 0 < by → n <ℤ (floor_div n by *ℤ pos by +ℤ pos by) }
{}

/// An operation has one result on its operands and parameters.
pub fn operations_have_one_result()
    ensures kind { (prim : PrimOp) (values : List Value) (params : List ℕ) (a b : Value) → IsResult prim values params a → IsResult prim values params b → a.kind ≡ b.kind }
    ensures width { (prim : PrimOp) (values : List Value) (params : List ℕ) (a b : Value) → IsResult prim values params a → IsResult prim values params b → a.width ≡ b.width }
    ensures bits { (prim : PrimOp) (values : List Value) (params : List ℕ) (a b : Value) → IsResult prim values params a → IsResult prim values params b → a.bits ≡ b.bits }
{}
