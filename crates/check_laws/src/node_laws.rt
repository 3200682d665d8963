//! Laws of the nodes of a circuit. The functions do nothing.

ghost use Rattle.std.specs.Prelude.{◌≡◌, ℕ, List, [], ◌∷◌, map, Contains, Some};
ghost use Rattle.std.specs.List.{AllZip};
ghost use Rattle.place_text.specs.First.{HasNone};
ghost use Rattle.place_text.specs.declared.place.Place.{Place as ThePlace};
ghost use Rattle.fir_types.specs.declared.fir_type.FirType.{FirType as TheType};
ghost use Rattle.fir_types.specs.declared.name.Name.{Name as TheName};
ghost use Rattle.prim_ops.specs.declared.operation.PrimOp.{PrimOp as TheOp};
ghost use Rattle.fir_tree.specs.declared.circuit.Circuit.{Circuit as ACircuit};
ghost use Rattle.fir_tree.specs.declared.scope.Scope.{Scope as AScope};
ghost use Rattle.fir_tree.specs.declared.circuit.Module.{Module as AModule};
ghost use Rattle.fir_tree.specs.declared.expr.Expr.{Expr as AnExpr};
ghost use Rattle.fir_tree.specs.declared.expr.Suffix.{Suffix as ASuffix};
ghost use Rattle.fir_tree.specs.declared.expr.Form.TheVariants as form;
ghost use Rattle.fir_tree.specs.declared.expr.Suffix.TheVariants as suffix;
ghost use Rattle.fir_tree.specs.declared.stmt.Stmt.{Stmt as AStmt};
ghost use Rattle.fir_tree.specs.declared.stmt.Stmt.TheVariants as stmt;
ghost use Rattle.prim_ops.specs.Shapes.{Shape as AShape, shape_of_row};
ghost use Rattle.fir_meaning.specs.Components.{TypedModule};
ghost use Rattle.fir_meaning.specs.WellTyped.{known_in, typed, HasTypes};
ghost use Rattle.fir_names.specs.Scopes.{IsScope};
ghost use Rattle.type_check.specs.Expressions.{Has};
ghost use Rattle.type_check.specs.Faults.{IsFault};
ghost use Rattle.type_check.specs.Statements.{types_of};
ghost use Rattle.check_laws.specs.CircuitNodes.{Node as ANode, NodesOfCircuit, IsListed, HasThree};
ghost use Rattle.check_laws.specs.Conditions.{BlockIn, IsConditionIn, StandsInBlock, IsOneUInt};

/// The table of a circuit's types lists the types of its nodes in text order, one for each: the type of the part that it is among the
/// components that are known where it stands, or an empty bundle at its place where it is none. Each circuit has one such list of
/// nodes. Where names mean what the scope says, types have no fault and each choice has three operands, every node has its type.
pub fn tables_list_nodes()
    ensures types { (circuit : ACircuit) (nodes : List ANode) → NodesOfCircuit circuit nodes → AllZip (λ node typ. IsListed node typ) nodes (types_of circuit) }
    ensures faultless { (circuit : ACircuit) (scope : AScope) (nodes : List ANode) → IsScope circuit scope → HasNone (IsFault circuit) → NodesOfCircuit circuit nodes → ((node : ANode) → Contains nodes node → HasThree node.e) → AllZip (λ node typ. Has node.known node.e typ) nodes (types_of circuit) }
    ensures nodes { (circuit : ACircuit) → ((nodes : List ANode) × NodesOfCircuit circuit nodes) }
    ensures once { (circuit : ACircuit) (nodes others : List ANode) → NodesOfCircuit circuit nodes → NodesOfCircuit circuit others → nodes ≡ others }
{}

/// In a well typed module, as main reaches them in an accepted circuit, each expression that stands in its body has kinds and widths. A
/// condition, the first operand of a mux and an index are one UInt each, and so is the value of a reset, which may be an AsyncReset. The
/// operands of an operation are one number each, of kinds and widths that its row takes, and its result is what the row gives: to them
/// an AsyncReset is a UInt of one bit.
pub fn operands_have_their_kinds()
    ensures typed { (holder : AModule) (m : TypedModule) → HasTypes holder m → (e : AnExpr) → StandsInBlock e holder.body → (shapes : List AShape) × (typed e (known_in m) ≡ Some shapes) }
    ensures conditions { (holder : AModule) (m : TypedModule) → HasTypes holder m → (e : AnExpr) → IsConditionIn e holder.body → IsOneUInt (known_in m) e }
    ensures resets { (holder : AModule) (m : TypedModule) → HasTypes holder m → (block : List AStmt) (name : TheName) (typ : TheType) (clock reset init : AnExpr) → BlockIn block holder.body → Contains block (stmt.RegReset name typ clock reset init) → IsOneUInt (known_in m) reset }
    ensures choices { (holder : AModule) (m : TypedModule) → HasTypes holder m → (e condition : AnExpr) (others : List AnExpr) → StandsInBlock e holder.body → e.form ≡ form.Mux (condition ∷ others) → IsOneUInt (known_in m) condition }
    ensures indices { (holder : AModule) (m : TypedModule) → HasTypes holder m → (e index : AnExpr) (name : TheName) (suffixes : List ASuffix) (bracket : ThePlace) → StandsInBlock e holder.body → e.form ≡ form.Ref name suffixes → Contains suffixes (suffix.Index bracket index) → IsOneUInt (known_in m) index }
    ensures operations { (holder : AModule) (m : TypedModule) → HasTypes holder m → (e : AnExpr) (op : TheOp) (operands : List AnExpr) (params : List ℕ) → StandsInBlock e holder.body → e.form ≡ form.Prim op operands params → (row : List AShape) × (result : AShape) × (map (λ operand. typed operand (known_in m)) operands ≡ map (λ s. Some (s ∷ [])) row) × (shape_of_row op params row ≡ Some result) × (typed e (known_in m) ≡ Some (result ∷ [])) }
{}
