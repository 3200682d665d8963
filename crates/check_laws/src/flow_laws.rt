//! The law of the flows of references. The function does nothing.

ghost use Rattle.std.specs.Prelude.{◌≡◌, ℕ, List, Contains, slice_get, Some};
ghost use Rattle.std.specs.List.{AllZip};
ghost use Rattle.place_text.specs.First.{HasNone};
ghost use Rattle.fir_tree.specs.declared.circuit.Circuit.{Circuit as ACircuit};
ghost use Rattle.fir_tree.specs.declared.scope.Scope.{Scope as AScope};
ghost use Rattle.fir_names.specs.Scopes.{IsScope};
ghost use Rattle.fir_tree.specs.declared.part.Part.{Part as APart};
ghost use Rattle.reference_flow.specs.Flows.{reference_flows, flow_number};
ghost use Rattle.type_check.specs.Faults.{IsFault};
ghost use Rattle.check_laws.specs.Typing.{IsPart};
ghost use Rattle.check_laws.specs.CircuitNodes.{Node as ANode, NodesOfCircuit, HasThree};
ghost use Rattle.check_laws.specs.References.{references_in, IsJudged};

/// Where names mean what the scope says, types have no fault and each choice has three operands, the references among a circuit's nodes
/// are those that the flows are listed for, in the same order, and each is judged to be a part with the flow at its place: the flow with
/// the number of a reference is that of the part that it is among the components that are known where it stands.
pub fn judged_flows_are_listed()
    ensures lists { (circuit : ACircuit) (scope : AScope) (nodes : List ANode) → IsScope circuit scope → HasNone (IsFault circuit) → NodesOfCircuit circuit nodes → ((node : ANode) → Contains nodes node → HasThree node.e) → AllZip IsJudged (references_in nodes) (reference_flows circuit) }
    ensures numbers { (circuit : ACircuit) (scope : AScope) (nodes : List ANode) → IsScope circuit scope → HasNone (IsFault circuit) → NodesOfCircuit circuit nodes → ((node : ANode) → Contains nodes node → HasThree node.e) → (n : ℕ) (node : ANode) → slice_get (references_in nodes) n ≡ Some node → (part : APart) → IsPart node.known node.e part → part.flow ≡ flow_number circuit n }
{}
