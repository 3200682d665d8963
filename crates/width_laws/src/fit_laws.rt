//! Laws of fitted types. The functions do nothing.

ghost use Rattle.std.specs.Prelude.{◌≡◌, ℕ, true, List, map, flat_map, slice_get, Some, Contains};
ghost use Rattle.std.specs.List.{AllZip};
ghost use Rattle.prim_ops.specs.declared.widths.Width.{Width as TheWidth};
ghost use Rattle.fir_tree.specs.declared.circuit.Circuit.{Circuit as ACircuit};
ghost use Rattle.fir_tree.specs.declared.scope.Checked.{Checked as CheckedCircuit};
ghost use Rattle.fir_tree.specs.declared.scope.Fitted.{Fitted as FittedCircuit};
ghost use Rattle.fir_names.specs.Scopes.{IsScope};
ghost use Rattle.fir_meaning.specs.Components.{TypedModule, Component as AComponent, declarations_of, modules_of};
ghost use Rattle.width_fit.specs.Fitting.{IsFitted, IsFit};
ghost use Rattle.width_laws.specs.Declared.{declared_of, IsFilled};
ghost use Rattle.width_laws.specs.Numbered.{HasNumbers};

/// The fitted types are, declaration by declaration in text order, the declared types with widths in their places. What the
/// text gives stays.
pub fn fitted_declarations_are_those_of_the_text()
    ensures names { (circuit : ACircuit) → map (λ d. d.name) (declared_of circuit) ≡ flat_map (λ holder. map (λ d. d.name) (declarations_of holder)) circuit.modules }
    ensures types { (checked : CheckedCircuit) (widths : List TheWidth) (fitted : FittedCircuit) → IsFitted checked widths fitted → AllZip (λ d typ. IsFilled d typ) (declared_of checked.resolved) fitted.declared }
{}

/// Where the least widths have no fault, each place of each declared type has a number from 0 to 128, in each module that main reaches.
pub fn fitted_places_have_numbers()
    ensures { (fitted : FittedCircuit) → IsScope fitted.checked.resolved fitted.checked.scope → IsFit fitted.checked fitted → (k : ℕ) (m : TypedModule) → slice_get (modules_of fitted) k ≡ Some m → slice_get fitted.checked.scope.reached k ≡ Some true → (c : AComponent) → Contains m.components c → HasNumbers c.typ }
{}
