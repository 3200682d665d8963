//! Laws of the definitions. The functions do nothing.

ghost use Rattle.std.specs.Prelude.{◌≡◌, ◌↔◌, true, ℕ, ◌+◌, ℤ, List, [], map, false, Option, Some, slice_get, length, Contains, ◌<◌, nat_lt};
ghost use Rattle.fir_tree.specs.declared.expr.Expr.{Expr as TheExpr};
ghost use Rattle.fir_tree.specs.declared.stmt.Stmt.{Stmt as TheStmt};
ghost use Rattle.fir_meaning.specs.Components.{Declaration as TheDeclaration, Leaf, told, declared_in_block, declarations_of, Component, TypedModule, modules_of, component_named, type_in, design_of, module_named, module_at};
ghost use Rattle.fir_meaning.specs.Values.{Scene, Integers, scene_with, value};
ghost use Rattle.fir_meaning.specs.States.{leaf_of};
ghost use Rattle.fir_meaning.specs.WellTyped.{known_in, typed, HasTypes};
ghost use Rattle.fir_types.specs.declared.leaf.TypeLeaf.{TypeLeaf as TheLeaf};
ghost use Rattle.fir_types.specs.Leaves.{leaves};
ghost use Rattle.fir_meaning.specs.Mentions.{Scope, joined, mentions};
ghost use Rattle.fir_meaning.specs.Drives.{effect, in_turn};
ghost use Rattle.fir_meaning.specs.Certain.{certain};
ghost use Rattle.fir_meaning.specs.Loops.{driving, live};
ghost use Rattle.fir_names.specs.Extents.{references};
ghost use Rattle.fir_names.specs.Scopes.{Instance, IsScope, Means};
ghost use Rattle.fir_types.specs.declared.name.Name.{Name as AName};
ghost use Rattle.place_text.specs.First.{HasNone};
ghost use Rattle.fir_names.specs.Faults.{IsFault};
ghost use Rattle.fir_tree.specs.declared.circuit.Circuit.{Circuit as ACircuit};
ghost use Rattle.fir_tree.specs.declared.circuit.Module.{Module as AModule};
ghost use Rattle.fir_tree.specs.declared.scope.Fitted.{Fitted as FittedCircuit};
ghost use Rattle.fir_tree.specs.declared.scope.Scope.{Scope as AScope};
ghost use Rattle.prim_ops.specs.Shapes.{Shape, shape_of_value};
ghost use Rattle.circuit_laws.specs.Names.{named_in, Avoids, Outside};
ghost use Rattle.circuit_laws.specs.Standing.{IsAlone};
ghost use Rattle.circuit_laws.specs.Open.{left_by};
ghost use Rattle.circuit_laws.specs.Offsets.{offset};
ghost use Rattle.circuit_laws.specs.Shapes.{shapes};
ghost use Rattle.circuit_laws.specs.OpenReads.{live_by};
ghost use Rattle.circuit_laws.specs.WellFormed.{IsWellFormed, IsKnownModule};

/// A statement that doesn't name a component leaves its leaves alone: it leaves in them what was there, is not certain for
/// them, and has no live connect of them.
pub fn unnamed_leaves_stay()
    ensures effect { (s : TheStmt) (leaf : Leaf) → Avoids leaf.component (named_in s) → (scene : Scene) (last : Option ℤ) → effect scene leaf s last ≡ last }
    ensures certain { (s : TheStmt) (leaf : Leaf) → Avoids leaf.component (named_in s) → (types : Scope) → certain types leaf s ≡ false }
    ensures live { (s : TheStmt) (leaf : Leaf) → Avoids leaf.component (named_in s) → (types : Scope) → (driving types leaf s).live ≡ [] }
{}

/// An expression mentions leaves of those components alone that it names.
pub fn mentioned_leaves_are_named()
    ensures { (e : TheExpr) (c : ℕ) → Avoids c (references e) → (types : Scope) → Outside c (joined (mentions e types)) }
{}

/// Where only the statements behind a declaration in its block name it, the whole body leaves in its leaves what its block does, if
/// the conditions around the declaration aren't asked.
pub fn bodies_leave_what_blocks_do()
    ensures { (d : TheDeclaration) (number : ℕ) (body : List TheStmt) (before : ℕ) → IsAlone d number body → (leaf : Leaf) → leaf.component ≡ d.name → (scene : Scene) (last : Option ℤ) → left_by scene leaf (before + number) before body last ≡ in_turn (map (effect scene leaf) d.block) last }
{}

/// In a circuit whose names have no fault, every declaration of a module's body is named only by the statements behind it in its
/// block.
pub fn declarations_stand_alone()
    ensures { (circuit : ACircuit) (scope : AScope) → IsScope circuit scope → HasNone (IsFault circuit) → (holder : AModule) → Contains circuit.modules holder → (number : ℕ) (d : TheDeclaration) → slice_get (declared_in_block (map told holder.body)) number ≡ Some d → IsAlone d number holder.body }
{}

/// No two declarations of a module have one name.
pub fn names_are_declared_once()
    ensures { (circuit : ACircuit) → HasNone (IsFault circuit) → (holder : AModule) → Contains circuit.modules holder → (j k : ℕ) (d e : TheDeclaration) → slice_get (declarations_of holder) j ≡ Some d → slice_get (declarations_of holder) k ≡ Some e → d.name ≡ e.name → j ≡ k }
{}

/// In a circuit whose names have no fault, what a module's whole body leaves in the leaves of a declaration is what the statements of
/// its block do, where the conditions around the declaration aren't asked. The declarations are numbered in text order, ports first.
pub fn modules_leave_what_blocks_do()
    ensures { (circuit : ACircuit) (scope : AScope) → IsScope circuit scope → HasNone (IsFault circuit) → (holder : AModule) → Contains circuit.modules holder → (number : ℕ) (d : TheDeclaration) → slice_get (declarations_of holder) number ≡ Some d → (leaf : Leaf) → leaf.component ≡ d.name → (scene : Scene) (last : Option ℤ) → left_by scene leaf number (length holder.ports) holder.body last ≡ in_turn (map (effect scene leaf) d.block) last }
{}

/// And its live connects in the whole body are those in its block.
pub fn modules_have_the_live_connects_of_blocks()
    ensures { (circuit : ACircuit) (scope : AScope) → IsScope circuit scope → HasNone (IsFault circuit) → (holder : AModule) → Contains circuit.modules holder → (number : ℕ) (d : TheDeclaration) → slice_get (declarations_of holder) number ≡ Some d → (leaf : Leaf) → leaf.component ≡ d.name → (types : Scope) → live_by types leaf number (length holder.ports) holder.body ≡ live types leaf d.block }
{}

/// The kinds and widths of an expression's values don't depend on what the leaves have.
pub fn values_have_shapes()
    ensures { (e : TheExpr) (scene : Scene) → map shape_of_value (value e scene) ≡ shapes e scene.types }
{}

/// In a circuit whose names have no fault, each component of a module of its design is the one of its name.
pub fn components_are_named()
    ensures { (fitted : FittedCircuit) → HasNone (IsFault fitted.checked.resolved) → (m : TypedModule) → Contains (modules_of fitted) m → (c : Component) → Contains m.components c → component_named m c.declaration.name ≡ Some c }
{}

/// Each module of a design is one of the circuit's, whose declarations its components are.
pub fn components_are_declared()
    ensures { (fitted : FittedCircuit) (m : TypedModule) → Contains (modules_of fitted) m → (holder : AModule) × Contains fitted.checked.resolved.modules holder × ((c : Component) → Contains m.components c → (k : ℕ) × (slice_get (declarations_of holder) k ≡ Some c.declaration)) }
{}

/// Where leaves are numbered in text order, a leaf's number is below the number of leaves before a place just where its declaration
/// stands before that place.
pub fn leaves_stand_where_declarations_do()
    ensures { (counts : List ℕ) (k n c j : ℕ) → slice_get counts k ≡ Some c → j < c → nat_lt (offset k counts + j) (offset n counts) ≡ nat_lt k n }
{}

/// In a well typed module the values of a well typed expression have its kinds and widths, leaf by leaf, whatever the leaves have. For
/// each of them it mentions leaves of the module's components alone.
pub fn typed_expressions_have_their_shapes()
    ensures shapes { (holder : AModule) (m : TypedModule) → HasTypes holder m → (e : TheExpr) (ss : List Shape) → typed e (known_in m) ≡ Some ss → shapes e (type_in m) ≡ ss }
    ensures values { (holder : AModule) (m : TypedModule) → HasTypes holder m → (e : TheExpr) (ss : List Shape) → typed e (known_in m) ≡ Some ss → (f : Integers) → map shape_of_value (value e (scene_with (type_in m) f)) ≡ ss }
    ensures counted { (holder : AModule) (m : TypedModule) → HasTypes holder m → (e : TheExpr) (ss : List Shape) → typed e (known_in m) ≡ Some ss → length (mentions e (type_in m)) ≡ length ss }
    ensures leaves { (holder : AModule) (m : TypedModule) → HasTypes holder m → (e : TheExpr) (ss : List Shape) → typed e (known_in m) ≡ Some ss → (y : Leaf) → Contains (joined (mentions e (type_in m))) y → (c : Component) × (component_named m y.component ≡ Some c) × (leaf : TheLeaf) × Contains (leaves c.typ) leaf × (leaf_of c leaf ≡ y) }
{}

/// The module of a name is the first one that has it. Where the names have no fault, each module of a design is the one of its name.
pub fn modules_are_named()
    ensures meant { (fitted : FittedCircuit) (name k : ℕ) (m : TypedModule) → Means fitted.checked.resolved name k → slice_get (modules_of fitted) k ≡ Some m → module_named (design_of fitted) name ≡ Some m }
    ensures numbered { (fitted : FittedCircuit) (name : ℕ) (m : TypedModule) → module_named (design_of fitted) name ≡ Some m → (k : ℕ) × Means fitted.checked.resolved name k × (slice_get (modules_of fitted) k ≡ Some m) }
    ensures itself { (fitted : FittedCircuit) → HasNone (IsFault fitted.checked.resolved) → (k : ℕ) (m : TypedModule) → slice_get (modules_of fitted) k ≡ Some m → module_named (design_of fitted) m.name ≡ Some m }
    ensures once { (fitted : FittedCircuit) → HasNone (IsFault fitted.checked.resolved) → (j k : ℕ) (m n : TypedModule) → slice_get (modules_of fitted) j ≡ Some m → slice_get (modules_of fitted) k ≡ Some n → m.name ≡ n.name → j ≡ k }
{}

/// In a well formed circuit main reaches a module exactly where it stands at some path; and what stands at a path is well typed.
pub fn reached_modules_stand_at_paths()
    ensures reached { (fitted : FittedCircuit) → IsWellFormed fitted → (k : ℕ) (m : TypedModule) → slice_get (modules_of fitted) k ≡ Some m → (slice_get fitted.checked.scope.reached k ≡ Some true) ↔ ((path : List ℕ) × (module_at (design_of fitted) path ≡ Some m)) }
    ensures typed { (fitted : FittedCircuit) → IsWellFormed fitted → (path : List ℕ) (m : TypedModule) → module_at (design_of fitted) path ≡ Some m → IsKnownModule fitted m }
{}

/// Where the names of a circuit have no fault, modules have ranks that fall along instances.
pub fn modules_have_ranks()
    ensures { (circuit : ACircuit) → HasNone (IsFault circuit) → (rank : ℕ → ℕ) × ((k : ℕ) → k < length circuit.modules → rank k < length circuit.modules) × ((from to : ℕ) (target : AName) → Instance circuit from target to → rank to < rank from) }
{}
