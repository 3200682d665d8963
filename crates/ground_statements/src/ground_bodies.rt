//! Laws of the definitions. The functions do nothing.

ghost use Rattle.std.specs.Prelude.{◌≡◌, ◌+◌, ℕ, Bool, true, List, Some, length, Contains};
ghost use Rattle.place_text.specs.First.{HasNone};
ghost use Rattle.fir_types.specs.declared.leaf.TypeLeaf.{TypeLeaf as TheLeaf};
ghost use Rattle.fir_tree.specs.declared.circuit.Circuit.{Circuit as ACircuit};
ghost use Rattle.fir_tree.specs.declared.circuit.Module.{Module as AModule};
ghost use Rattle.fir_tree.specs.declared.scope.Scope.{Scope as AScope};
ghost use Rattle.fir_names.specs.Scopes.{IsScope};
ghost use Rattle.fir_names.specs.Faults.{IsFault};
ghost use Rattle.fir_meaning.specs.Components.{TypedModule, Component, type_in};
ghost use Rattle.fir_meaning.specs.States.{leaf_of};
ghost use Rattle.fir_meaning.specs.WellTyped.{HasTypes, are_typed, known_in};
ghost use Rattle.ground_net.specs.declared.circuit.GroundLeaf.{GroundLeaf as ALeaf};
ghost use Rattle.ground_net.specs.declared.circuit.GroundStmt.{GroundStmt as Statement};
ghost use Rattle.ground_net.specs.Shapes.{Table};
ghost use Rattle.net_of_circuit.specs.Numbers.{leaves_before, number_of, table_of};
ghost use Rattle.ground_exprs.specs.Sources.{Entries, AreNarrow, Knows, known_of};
ghost use Rattle.ground_statements.specs.Connects.{IsOneToOne};
ghost use Rattle.ground_statements.specs.Bodies.{IsViewOf, HasTable, Stands, IsBody, IsWholeBody, numbering};

/// What is known of a module's components by their names: they are narrow, and have the types and the numbers of the module's; the whole
/// body is well typed among them; and each leaf has a number of its own, by the places of its component and of itself there.
pub fn views_know_their_modules()
    ensures narrow { (holder : AModule) (m : TypedModule) (entries : Entries) (settable : List Bool) → HasTypes holder m → IsViewOf m entries settable → AreNarrow entries }
    ensures types { (m : TypedModule) (entries : Entries) (settable : List Bool) → IsViewOf m entries settable → known_of entries ≡ known_in m }
    ensures typed { (holder : AModule) (m : TypedModule) (entries : Entries) (settable : List Bool) → HasTypes holder m → IsViewOf m entries settable → are_typed (known_of entries) holder.body ≡ true }
    ensures knows { (holder : AModule) (m : TypedModule) (entries : Entries) (settable : List Bool) (table : Table) → HasTypes holder m → IsViewOf m entries settable → HasTable m table → Knows (numbering m table) (type_in m) entries }
    ensures once { (m : TypedModule) (table : Table) → IsOneToOne (numbering m table) }
    ensures numbers { (holder : AModule) (m : TypedModule) (entries : Entries) (settable : List Bool) → HasTypes holder m → IsViewOf m entries settable → (k j : ℕ) (c : Component) (leaf : TheLeaf) → Stands m k j c leaf → number_of m (leaf_of c leaf) ≡ Some (leaves_before m k + j) }
{}

/// The ground statements of a module's whole body leave in each leaf what the statements of its component's block do, or the value of its
/// node, and read the same leaves. The ports are declared before the body.
pub fn whole_bodies_are_those_of_modules()
    ensures { (circuit : ACircuit) (scope : AScope) → IsScope circuit scope → HasNone (IsFault circuit) → (holder : AModule) → Contains circuit.modules holder → (m : TypedModule) → HasTypes holder m → (entries : Entries) (settable : List Bool) → IsViewOf m entries settable → (listed : List ALeaf) → HasTable m (table_of listed) → (before behind : ℕ) (made : List Statement) → before ≡ leaves_before m (length holder.ports) → IsBody entries settable holder.body before behind made → IsWholeBody m listed made }
{}
