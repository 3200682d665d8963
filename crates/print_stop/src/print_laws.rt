//! The laws.

ghost use Rattle.std.specs.Prelude.{◌≡◌, ◌↔◌, ◌++◌, ◌∷◌, [], ℕ, map, true, List, Option as Optional, Some, ℤ, pos};
ghost use Rattle.bit_words.specs.declared.value.Value.{Value as AValue};
ghost use Rattle.bit_words.specs.Values.{integer_of};
ghost use Rattle.place_text.specs.declared.place.Place.{Place as APlace};
ghost use Rattle.fir_types.specs.declared.fir_type.FirType.{FirType as AType};
ghost use Rattle.fir_types.specs.declared.fir_type.Shape.TheVariants.{Unsigned};
ghost use Rattle.fir_types.specs.Leaves.{leaves};
ghost use Rattle.fir_tree.specs.declared.expr.Expr.{Expr as AnExpr};
ghost use Rattle.fir_tree.specs.declared.stmt.Stmt.{Stmt};
ghost use Rattle.item_lines.specs.Items.{heads, padded};
ghost use Rattle.fir_meaning.specs.Components.{Design, TypedModule, Component, A_node, module_at, component_named};
ghost use Rattle.fir_meaning.specs.Values.{Scene, Valuation, scene_of, value};
ghost use Rattle.fir_meaning.specs.Drives.{drives};
ghost use Rattle.fir_meaning.specs.States.{State, Inputs, Settled, seen};
ghost use Rattle.fir_meaning.specs.WellTyped.{Known, are_typed};
ghost use Rattle.print_stop.specs.Printing.{Enabled};
ghost use Rattle.print_stop.specs.Wires.{IsBit, whole_in, wire_leaf, OnlyZero};
ghost use Rattle.print_stop.specs.Wired.{IsItemWire};

/// What the statements of a module leave in the leaf of an item's wire is 1 exactly where the item is enabled: the run of the
/// statements behind the heads comes to its connect, and the lowest bit of its condition is 1.
pub fn wires_are_one_where_items_are_enabled()
    ensures { (scene : Scene) (wire : ℕ) (heads behind : List Stmt) (n : ℤ) → IsBit scene wire → OnlyZero scene wire heads → whole_in scene wire behind ≡ true
        → drives scene (wire_leaf wire) (heads ++ behind) ≡ Some n → (n ≡ pos 1) ↔ Enabled scene wire behind }
{}

/// The heads of items leave 0 in each wire of one bit.
pub fn heads_leave_zero()
    ensures { (scene : Scene) (wire k : ℕ) (places : List APlace) (names : List (List ℕ)) → IsBit scene wire → OnlyZero scene wire (heads k places names).0 }
{}

/// In well typed statements no reference names a part of a UInt, for it has none.
pub fn typed_references_name_whole_wires()
    ensures { (known : Known) (scene : Scene) (wire : ℕ) (typ : AType) (width : Optional ℕ) (block : List Stmt) → known wire ≡ Some typ → typ.shape ≡ Unsigned width
        → are_typed known block ≡ true → whole_in scene wire block ≡ true }
{}

/// In a settled cycle the wire of an item is 1 exactly where the item is enabled.
pub fn settled_wires_are_one_where_items_are_enabled()
    ensures { (design : Design) (s : State) (given : Inputs) (rho : Valuation) (path : List ℕ) (m : TypedModule) (c : Component) (behind : List Stmt) → Settled design s given rho
        → module_at design path ≡ Some m → IsItemWire m c behind
        → ((scene_of m path rho).integers c.declaration.name [] ≡ pos 1) ↔ Enabled (scene_of m path rho) c.declaration.name behind }
{}

/// In a settled cycle the node of an argument shows the argument's value.
pub fn settled_arguments_have_their_values()
    ensures { (design : Design) (s : State) (given : Inputs) (rho : Valuation) (path : List ℕ) (m : TypedModule) (c : Component) (e : AnExpr) (v : AValue) → Settled design s given rho
        → module_at design path ≡ Some m → component_named m c.declaration.name ≡ Some c → c.declaration.sort ≡ A_node (padded e) → value e (scene_of m path rho) ≡ v ∷ []
        → map (seen m path rho c) (leaves c.typ) ≡ integer_of v ∷ [] }
{}
