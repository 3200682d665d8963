//! Laws of the definitions. The functions do nothing.

ghost use Rattle.std.specs.Prelude.{◌≡◌, ℕ, ◌≤◌, List, ℤ};
ghost use Rattle.bit_words.specs.declared.value.Kind.{Kind as TheKind};
ghost use Rattle.bit_words.specs.declared.value.Value.{Value as TheValue};
ghost use Rattle.bit_words.specs.Values.{integer_of, fit_of, InRange};
ghost use Rattle.prim_ops.specs.declared.operation.PrimOp.{PrimOp as ThePrim};
ghost use Rattle.prim_ops.specs.Results.{IsResult};
ghost use Rattle.prim_ops.specs.Values.{fitted, operation};

/// Values of one kind and one width with the same bits are one value.
pub fn values_are_their_bits()
    ensures { (v w : TheValue) → v.kind ≡ w.kind → v.width ≡ w.width → v.bits ≡ w.bits → v ≡ w }
{}

/// A value fitted to its own kind and width is itself.
pub fn values_fit_themselves()
    ensures { (v : TheValue) → fitted v.kind v.width (integer_of v) ≡ v }
{}

/// The integer of a fitted value is the one of the kind's range that is congruent to what was fitted, and it is in that range.
pub fn fitted_integers_are_in_range()
    ensures integer { (kind : TheKind) (width : ℕ) (n : ℤ) → width ≤ 128 → integer_of (fitted kind width n) ≡ fit_of kind width n }
    ensures range { (v : TheValue) → InRange v.kind v.width (integer_of v) }
    ensures kept { (kind : TheKind) (width : ℕ) (n : ℤ) → width ≤ 128 → InRange kind width n → integer_of (fitted kind width n) ≡ n }
{}

/// What the table says of an operation is its value.
pub fn results_are_operations()
    ensures { (prim : ThePrim) (values : List TheValue) (params : List ℕ) (result : TheValue) → IsResult prim values params result → result ≡ operation prim values params }
{}
