//! Laws of the nodes of circuits that a text spells. The functions do nothing.

ghost use Rattle.std.specs.Prelude.{◌≡◌, ℕ, true, List, Contains};
ghost use Rattle.std.specs.List.{AllZip};
ghost use Rattle.place_text.specs.First.{HasNone};
ghost use Rattle.fir_layout.specs.declared.laid.Laid.{Laid as TheLaid};
ghost use Rattle.fir_grammar.specs.Grammar.{IsCircuit};
ghost use Rattle.fir_tree.specs.declared.circuit.Circuit.{Circuit as ACircuit};
ghost use Rattle.fir_tree.specs.declared.scope.Scope.{Scope as AScope};
ghost use Rattle.fir_names.specs.Scopes.{IsScope};
ghost use Rattle.type_check.specs.Expressions.{Has};
ghost use Rattle.type_check.specs.Faults.{IsFault};
ghost use Rattle.type_check.specs.Statements.{types_of};
ghost use Rattle.fitted_laws.specs.Shaped.{is_shaped_circuit};
ghost use Rattle.check_laws.specs.CircuitNodes.{Node as ANode, NodesOfCircuit, HasThree};

/// In a circuit whose operations have their operands, as those that a text spells, each choice has three operands. So where names
/// mean what the scope says and types have no fault, every node has its type in the table: in a circuit that a text spells no more is
/// asked of it.
pub fn shaped_circuits_have_typed_nodes()
    ensures choices { (circuit : ACircuit) (nodes : List ANode) → is_shaped_circuit circuit ≡ true → NodesOfCircuit circuit nodes → (node : ANode) → Contains nodes node → HasThree node.e }
    ensures types { (circuit : ACircuit) (scope : AScope) (nodes : List ANode) → is_shaped_circuit circuit ≡ true → IsScope circuit scope → HasNone (IsFault circuit) → NodesOfCircuit circuit nodes → AllZip (λ node typ. Has node.known node.e typ) nodes (types_of circuit) }
    ensures spelled { (text : List ℕ) (list : List TheLaid) (circuit : ACircuit) (scope : AScope) (nodes : List ANode) → IsCircuit text list circuit → IsScope circuit scope → HasNone (IsFault circuit) → NodesOfCircuit circuit nodes → AllZip (λ node typ. Has node.known node.e typ) nodes (types_of circuit) }
{}
