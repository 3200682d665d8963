//! Laws of items. The functions do nothing.

ghost use Rattle.std.specs.Prelude.{◌≡◌, ◌<◌, ◌^◌, ℕ, List, [], ◌∷◌, length, slice_get, Some};
ghost use Rattle.place_text.specs.declared.place.Place.{Place as APlace};
ghost use Rattle.fir_lexer.specs.Tokens.{AreTokens};
ghost use Rattle.fir_layout.specs.declared.laid.Laid.{Laid as ALaid};
ghost use Rattle.fir_layout.specs.Layout.{tokens_in};
ghost use Rattle.fir_types.specs.declared.name.Name.{Name as AName};
ghost use Rattle.prim_ops.specs.declared.widths.Width.{Width as TheWidth};
ghost use Rattle.fir_tree.specs.declared.expr.Expr.{Expr as AnExpr};
ghost use Rattle.fir_tree.specs.declared.circuit.Circuit.{Circuit as ACircuit};
ghost use Rattle.fir_tree.specs.declared.circuit.Module.{Module as AModule};
ghost use Rattle.fir_tree.specs.declared.scope.Fitted.{Fitted as FittedCircuit};
ghost use Rattle.item_lines.specs.declared.line.LineModule.{LineModule as SomeLines};
ghost use Rattle.item_lines.specs.Items.{zero_bit, wire_name, number_in};
ghost use Rattle.fir_grammar.specs.Grammar.{IsSpelled, IsCircuit, circuit_of};
ghost use Rattle.fir_meaning.specs.Components.{design_of};
ghost use Rattle.circuit_laws.specs.WellFormed.{IsWellFormed};
ghost use Rattle.width_fit.specs.Fitting.{IsFitted};
ghost use Rattle.reset_search.specs.Resolved.{IsResolved};
ghost use Rattle.found_items.specs.Finding.{HasItems};
ghost use Rattle.item_laws.specs.Drivers.{drivers, conditions};

/// In a module that a text spells the wire of item k is driven by two statements alone: by the connect of 0 at the beginning of the body,
/// and by the connect of the item's condition.
pub fn wires_have_two_connects()
    ensures { (text : List ℕ) (list : List ALaid) (major : ℕ) (main : AName) (modules : List SomeLines) (names : List (List ℕ)) → AreTokens text (tokens_in list) → IsSpelled text list major main modules names
        → (m k : ℕ) (lines : SomeLines) (holder : AModule) (condition : AnExpr) → slice_get modules m ≡ Some lines → slice_get (circuit_of main modules names).modules m ≡ Some holder
        → slice_get (conditions lines.body) k ≡ Some condition → length (conditions lines.body) < 2 ^ 64
        → (at : APlace) × (drivers (number_in (circuit_of main modules names).names (wire_name k)) holder.body ≡ Some (zero_bit at) ∷ Some condition ∷ []) }
{}

/// In a well formed circuit that a text spells, with its `Reset`s resolved and with types that widths give, the items are sound: their names
/// are there, and in each module at each path the wire of each item and the nodes of its arguments are what the item stands for.
pub fn spelled_circuits_have_items()
    ensures { (text : List ℕ) (list : List ALaid) (circuit : ACircuit) (fitted : FittedCircuit) (widths : List TheWidth) → IsCircuit text list circuit
        → IsResolved circuit fitted.checked.resolved → IsWellFormed fitted → IsFitted fitted.checked widths fitted → HasItems fitted.checked.resolved.names (design_of fitted) fitted.checked.resolved.prints }
{}
