//! Laws of the definitions. The functions do nothing.

ghost use Rattle.std.specs.Prelude.{◌≡◌, ℕ, Bool, List, map, zip, length, slice_get, flat_map, sum_by, Some, nat_eq, if◌then◌else◌};
ghost use Rattle.std.specs.Map.{lookup};
ghost use Rattle.fir_types.specs.declared.fir_type.FirType.{FirType as TheType};
ghost use Rattle.fir_types.specs.Leaves.{leaves};
ghost use Rattle.fir_tree.specs.declared.circuit.Module.{Module as AModule};
ghost use Rattle.fir_tree.specs.LeafNames.{Texts};
ghost use Rattle.fir_meaning.specs.Components.{TypedModule, Component, Declaration as TheDeclaration, declarations_of};
ghost use Rattle.fir_meaning.specs.States.{is_port};
ghost use Rattle.fir_meaning.specs.WellTyped.{HasTypes, leaf_shape};
ghost use Rattle.ground_net.specs.declared.circuit.GroundLeaf.{GroundLeaf as ALeaf};
ghost use Rattle.net_of_circuit.specs.Numbers.{ModuleLeaf, module_leaves, is_set, table_of, leaves_before};
ghost use Rattle.net_of_circuit.specs.Lowering.{IsGroundLeaf};
ghost use Rattle.ground_exprs.specs.declared.component.Component.{Component as Known};
ghost use Rattle.ground_exprs.specs.Sources.{Entries};
ghost use Rattle.lower_aggregates.specs.declared.pieces.Piece.{Piece as APiece};
ghost use Rattle.lower_aggregates.specs.Headings.{headings_of};
ghost use Rattle.lower_aggregates.specs.Parts.{parts_from};
ghost use Rattle.lower_aggregates.specs.Held.{held_part, ArePieces};
ghost use Rattle.lower_aggregates.specs.Tables.{leaf_row, piece_rows, flags_of_piece, port_size};
ghost use Rattle.lower_aggregates.specs.Views.{KnowsPieces, AreNamedOnce};

/// Declarations with their types are the components of a module, and there are as many headings as declarations.
pub fn pieces_are_components()
    ensures counted { (holder : AModule) → length (headings_of holder) ≡ length (declarations_of holder) }
    ensures pieces { (holder : AModule) (types : List TheType) (m : TypedModule) (pieces : List APiece) → m.components ≡ map (λ both. record { declaration = both.0; typ = both.1 }) (zip (declarations_of holder) types) → map held_part pieces ≡ parts_from 0 (zip (headings_of holder) types) → ArePieces m pieces }
{}

/// The table of a module's pieces has the leaves of the module with their kinds and widths; so do the flags of those that may be set, and
/// the number of the ports' leaves.
pub fn tables_list_leaves()
    ensures counted { (texts : Texts) (m : TypedModule) (pieces : List APiece) (listed : List ALeaf) → ArePieces m pieces → map leaf_row listed ≡ flat_map (piece_rows texts) pieces → length listed ≡ length (module_leaves m) }
    ensures leaves { (texts : Texts) (holder : AModule) (m : TypedModule) (pieces : List APiece) (listed : List ALeaf) → HasTypes holder m → ArePieces m pieces → map leaf_row listed ≡ flat_map (piece_rows texts) pieces → (x : ℕ) (y : ModuleLeaf) (leaf : ALeaf) → slice_get (module_leaves m) x ≡ Some y → slice_get listed x ≡ Some leaf → IsGroundLeaf texts y leaf }
    ensures shapes { (texts : Texts) (holder : AModule) (m : TypedModule) (pieces : List APiece) (listed : List ALeaf) → HasTypes holder m → ArePieces m pieces → map leaf_row listed ≡ flat_map (piece_rows texts) pieces → (x : ℕ) (y : ModuleLeaf) → slice_get (module_leaves m) x ≡ Some y → (table_of listed).leaf x ≡ Some (leaf_shape y.1) }
    ensures flags { (m : TypedModule) (pieces : List APiece) (flags : List Bool) → ArePieces m pieces → flags ≡ flat_map flags_of_piece pieces → (x : ℕ) (y : ModuleLeaf) → slice_get (module_leaves m) x ≡ Some y → slice_get flags x ≡ Some (is_set y) }
    ensures ports { (m : TypedModule) (pieces : List APiece) (n : ℕ) → ArePieces m pieces → n ≡ sum_by port_size pieces → n ≡ sum_by (λ c. if is_port c.declaration.sort then length (leaves c.typ) else 0) m.components }
{}

/// Where no two declarations of a module have one name, each component is known by its name, with its type and the number of leaves
/// before it; and what is known is a component.
pub fn pieces_are_known_by_name()
    ensures once { (holder : AModule) (m : TypedModule) → HasTypes holder m → ((j k : ℕ) (d e : TheDeclaration) → slice_get (declarations_of holder) j ≡ Some d → slice_get (declarations_of holder) k ≡ Some e → d.name ≡ e.name → j ≡ k) → AreNamedOnce m.components }
    ensures components { (m : TypedModule) (pieces : List APiece) (entries : Entries) → ArePieces m pieces → KnowsPieces pieces entries → AreNamedOnce m.components → (k : ℕ) (c : Component) → slice_get m.components k ≡ Some c → (e : Known) × (lookup (nat_eq c.declaration.name) entries ≡ Some e) × (e.typ ≡ c.typ) × (e.first ≡ leaves_before m k) }
    ensures only { (m : TypedModule) (pieces : List APiece) (entries : Entries) → ArePieces m pieces → KnowsPieces pieces entries → (name : ℕ) (e : Known) → lookup (nat_eq name) entries ≡ Some e → (k : ℕ) × (c : Component) × (slice_get m.components k ≡ Some c) × (c.declaration.name ≡ name) }
{}
