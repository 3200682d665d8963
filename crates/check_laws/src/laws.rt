//! Laws of checked circuits. The functions do nothing.

ghost use Rattle.std.specs.Prelude.{◌≡◌, ◌≢◌, ◌↔◌, ℕ, Contains, [], map, slice_get, Some};
ghost use Rattle.place_text.specs.declared.place.Place.{Place as ThePlace};
ghost use Rattle.fir_types.specs.declared.memory.Memory.{Memory as AMemory};
ghost use Rattle.fir_types.specs.Memories.{IsValid};
ghost use Rattle.type_check.specs.declared.fault.TypeFault.TheVariants.{MemoryField};
ghost use Rattle.type_check.specs.Memories.{memory_faults};
ghost use Rattle.type_check.specs.Faults.{IsFault};
ghost use Rattle.place_text.specs.First.{HasNone};
ghost use Rattle.fir_tree.specs.declared.circuit.Circuit.{Circuit as ACircuit};
ghost use Rattle.fir_tree.specs.declared.circuit.Module.{Module as AModule};
ghost use Rattle.check_laws.specs.Blocks.{Declares};
ghost use Rattle.fir_tree.specs.declared.expr.Expr.{Expr as AnExpr};
ghost use Rattle.fir_types.specs.declared.fir_type.FirType.{FirType as TheType};
ghost use Rattle.fir_tree.specs.declared.part.Part.{Part as APart};
ghost use Rattle.type_check.specs.Parts.{Known};
ghost use Rattle.type_check.specs.Expressions.{found_of, Has};
ghost use Rattle.check_laws.specs.Typing.{IsPart, HaveTypes};
ghost use Rattle.type_check.specs.declared.fault.TypeFault.{TypeFault as AFault};
ghost use Rattle.check_laws.specs.Faults.{StandsIn, IsAtFault, IsComplete};
ghost use Rattle.std.specs.Prelude.{List};
ghost use Rattle.check_laws.specs.Nodes.{NodesOf, ListTypes};
ghost use Rattle.fir_types.specs.declared.leaf.TypeLeaf.{TypeLeaf as ALeaf};
ghost use Rattle.fir_types.specs.Leaves.{leaves, way_of};
ghost use Rattle.fir_tree.specs.declared.part.Flow.TheVariants.{Source as source_flow};
ghost use Rattle.type_check.specs.Statements.{connects};
ghost use Rattle.check_laws.specs.Driving.{driven_flow};

/// An expression is found to be a part exactly where its operands are parts and meet the conditions on them; so it has exactly the
/// type that the relation tells, and at most one.
pub fn expressions_have_types()
    ensures parts { (known : Known) (e : AnExpr) (part : APart) → ((found_of known e).part ≡ Some part) ↔ IsPart known e part }
    ensures types { (known : Known) (e : AnExpr) (typ : TheType) → Has known e typ ↔ ((part : APart) × IsPart known e part × (part.typ ≡ typ)) }
{}

/// The faults that are found of an expression are exactly those that it, or an expression that stands in it as an operand or an
/// index, has of its own: at a reference, a literal, an operation or a choice whose operands are parts and miss a condition, of that
/// condition's kind and at its place. One without faults is a part, where each reference in it begins at a known component and each
/// choice in it has three operands.
pub fn expressions_are_at_fault()
    ensures faults { (known : Known) (e : AnExpr) (fault : AFault) → Contains (found_of known e).faults fault ↔ ((inner : AnExpr) × StandsIn inner e × IsAtFault known inner fault) }
    ensures faultless { (known : Known) (e : AnExpr) → ((inner : AnExpr) → StandsIn inner e → IsComplete known inner) → HasNone (Contains (found_of known e).faults) → ((part : APart) × IsPart known e part) }
{}

/// The types that are found of an expression are those of its nodes in text order, one for each: the type of the part that it is,
/// or an empty bundle at its place where it is none. Each expression has such nodes. In one without faults all of them have types,
/// where each reference in it begins at a known component and each choice in it has three operands.
pub fn nodes_have_types()
    ensures types { (known : Known) (e : AnExpr) (nodes : List AnExpr) → NodesOf e nodes → ListTypes known nodes (found_of known e).nodes }
    ensures faultless { (known : Known) (e : AnExpr) (nodes : List AnExpr) → ((inner : AnExpr) → StandsIn inner e → IsComplete known inner) → HasNone (Contains (found_of known e).faults) → NodesOf e nodes → HaveTypes known nodes (found_of known e).nodes }
    ensures nodes { (e : AnExpr) → ((nodes : List AnExpr) × NodesOf e nodes) }
{}

/// A memory is valid exactly where none of its faults is one of its lines. (Its other faults are those of the type of its
/// elements.) So in a circuit without faults each memory that a module's body declares, in any block, is valid.
pub fn checked_memories_are_valid()
    ensures memories { (memory : AMemory) → IsValid memory ↔ ((at : ThePlace) → ¬ (Contains (memory_faults memory) (MemoryField at))) }
    ensures circuits { (circuit : ACircuit) (m : AModule) (memory : AMemory) → HasNone (IsFault circuit) → Contains circuit.modules m → Declares memory m.body → IsValid memory }
{}

/// The sides of a connect without a fault have as many leaves, at the same places and turned round alike, and of each pair the one
/// that is driven is no source: the left one, or the right one where they are turned round.
pub fn connects_drive_no_source()
    ensures ways { (known : Known) (left right : AnExpr) (l r : APart) → (connects left right known).faults ≡ [] → (found_of known left).part ≡ Some l → (found_of known right).part ≡ Some r → map way_of (leaves l.typ) ≡ map way_of (leaves r.typ) }
    ensures driven { (known : Known) (left right : AnExpr) (l r : APart) → (connects left right known).faults ≡ [] → (found_of known left).part ≡ Some l → (found_of known right).part ≡ Some r → (k : ℕ) (x y : ALeaf) → slice_get (leaves l.typ) k ≡ Some x → slice_get (leaves r.typ) k ≡ Some y → driven_flow l r x y ≢ source_flow }
{}
