//! Laws of the definitions. The functions do nothing.

ghost use Rattle.std.specs.Prelude.{◌≡◌, ℕ, List};
ghost use Rattle.fir_meaning.specs.Components.{Design, TypedModule, Component};
ghost use Rattle.net_of_circuit.specs.FlatOrder.{Placed, InFlatOrder};

/// The components of a run have one flat order.
pub fn flat_orders_are_one()
    ensures { (design : Design) (path : List ℕ) (m : TypedModule) (components : List Component) (a b : List Placed) → InFlatOrder design path m components a → InFlatOrder design path m components b → a ≡ b }
{}
