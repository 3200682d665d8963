//! Laws of accepted circuits. The functions do nothing.

ghost use Rattle.std.specs.Prelude.{◌≡◌, ℕ, true, List, length, slice_get, sum_by, Some};
ghost use Rattle.fir_types.specs.declared.fir_type.FirType.{FirType as TheType};
ghost use Rattle.fir_types.specs.Equivalence.{Equivalent};
ghost use Rattle.prim_ops.specs.declared.widths.Width.{Width as TheWidth};
ghost use Rattle.fir_layout.specs.declared.laid.Laid.{Laid as TheLaid};
ghost use Rattle.fir_tree.specs.declared.circuit.Circuit.{Circuit as ACircuit};
ghost use Rattle.fir_grammar.specs.Grammar.{IsCircuit};
ghost use Rattle.fir_tree.specs.declared.circuit.Module.{Module as AModule};
ghost use Rattle.fir_tree.specs.declared.scope.Fitted.{Fitted as FittedCircuit};
ghost use Rattle.fir_meaning.specs.Components.{TypedModule, declarations_of, modules_of};
ghost use Rattle.fir_meaning.specs.WellTyped.{HasTypes, known_in};
ghost use Rattle.type_filling.specs.Filling.{filled};
ghost use Rattle.circuit_laws.specs.WellFormed.{IsWellFormed};
ghost use Rattle.fitted_laws.specs.Shaped.{is_shaped_circuit};
ghost use Rattle.fitted_laws.specs.Accepted.{IsAccepted};
ghost use Rattle.fitted_laws.specs.OneBit.{ask_one_bit};
ghost use Rattle.fitted_laws.specs.Choices.{choose_in};

/// A type with widths in its places is equivalent to the type.
pub fn filled_types_are_equivalent()
    ensures { (typ : TheType) (widths : List TheWidth) → Equivalent typ (filled typ widths) }
{}

/// An accepted circuit has a type for each declaration of its text, and the modules that main reaches are well typed.
pub fn accepted_modules_are_well_typed()
    ensures declared { (fitted : FittedCircuit) → IsAccepted fitted → length fitted.declared ≡ sum_by (λ holder. length (declarations_of holder)) fitted.checked.resolved.modules }
    ensures typed { (fitted : FittedCircuit) → IsAccepted fitted → (k : ℕ) (holder : AModule) (m : TypedModule) → slice_get fitted.checked.resolved.modules k ≡ Some holder → slice_get (modules_of fitted) k ≡ Some m → slice_get fitted.checked.scope.reached k ≡ Some true → HasTypes holder m }
{}

/// In the modules of an accepted circuit that main reaches, each condition of a conditional and each reset is one UInt of at most one
/// bit, where an AsyncReset counts as a UInt of one bit.
pub fn accepted_conditions_have_one_bit()
    ensures { (fitted : FittedCircuit) → IsAccepted fitted → (k : ℕ) (holder : AModule) (m : TypedModule) → slice_get fitted.checked.resolved.modules k ≡ Some holder → slice_get (modules_of fitted) k ≡ Some m → slice_get fitted.checked.scope.reached k ≡ Some true → ask_one_bit (known_in m) holder.body ≡ true }
{}

/// In the same modules, the first operand of each mux that stands in an expression of the body is one UInt of at most one bit.
pub fn accepted_choices_have_one_bit()
    ensures { (fitted : FittedCircuit) → IsAccepted fitted → (k : ℕ) (holder : AModule) (m : TypedModule) → slice_get fitted.checked.resolved.modules k ≡ Some holder → slice_get (modules_of fitted) k ≡ Some m → slice_get fitted.checked.scope.reached k ≡ Some true → choose_in (known_in m) holder.body ≡ true }
{}

/// An accepted circuit is well formed.
pub fn accepted_circuits_are_well_formed()
    ensures { (fitted : FittedCircuit) → IsAccepted fitted → IsWellFormed fitted }
{}

/// In a circuit that a text spells, each operation has the operands and the parameters that it takes, and a mux has three operands.
pub fn spelled_circuits_are_shaped()
    ensures { (text : List ℕ) (list : List TheLaid) (circuit : ACircuit) → IsCircuit text list circuit → is_shaped_circuit circuit ≡ true }
{}
