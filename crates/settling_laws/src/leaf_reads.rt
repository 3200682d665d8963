//! Laws of leaves. The functions do nothing.

ghost use Rattle.std.specs.Prelude.{◌≡◌, ℕ, ℤ, true, List, Some, Contains};
ghost use Rattle.bit_words.specs.Values.{integer_of};
ghost use Rattle.fir_types.specs.declared.fir_type.FirType.{FirType as AType};
ghost use Rattle.fir_types.specs.declared.leaf.TypeLeaf.{TypeLeaf as TheLeaf};
ghost use Rattle.fir_types.specs.Leaves.{leaves};
ghost use Rattle.fir_tree.specs.declared.scope.Fitted.{Fitted as FittedCircuit};
ghost use Rattle.fir_tree.specs.declared.stmt.Stmt.{Stmt as TheStmt};
ghost use Rattle.fir_meaning.specs.Components.{Leaf, FlatLeaf, design_of};
ghost use Rattle.fir_meaning.specs.Values.{Scene, fitted_to};
ghost use Rattle.fir_meaning.specs.Drives.{drives};
ghost use Rattle.fir_meaning.specs.States.{State, Inputs, Trace, IsLeafOf};
ghost use Rattle.fir_meaning.specs.Loops.{ReadsLeaf, HasNoLoop, HasLeaves, TakesLeaves};
ghost use Rattle.fir_meaning.specs.WellTyped.{Known, are_typed};
ghost use Rattle.circuit_laws.specs.WellFormed.{IsWellFormed};

/// What a leaf of a well formed circuit reads is a leaf of the run.
pub fn reads_are_of_leaves()
    ensures { (fitted : FittedCircuit) → IsWellFormed fitted → (x y : FlatLeaf) → ReadsLeaf (design_of fitted) x y → IsLeafOf (design_of fitted) y }
{}

/// And so is what the edge takes: of leaves of the run alone the next state is made.
pub fn edges_take_leaves()
    ensures { (fitted : FittedCircuit) → IsWellFormed fitted → TakesLeaves (design_of fitted) }
{}

/// The leaves of its run are finitely many.
pub fn leaves_are_finitely_many()
    ensures { (fitted : FittedCircuit) → IsWellFormed fitted → (all : List FlatLeaf) × HasLeaves (design_of fitted) all }
{}

/// A well formed circuit without a loop has at most one trace from a state under given inputs.
pub fn circuits_have_one_trace()
    ensures { (fitted : FittedCircuit) → IsWellFormed fitted → HasNoLoop (design_of fitted) → (state : State) (given : List Inputs) (rows other : List (List ℤ)) → Trace (design_of fitted) state given rows → Trace (design_of fitted) state given other → rows ≡ other }
{}

/// What the statements of a well typed block leave in a leaf has the leaf's kind and width, where no other leaf of the component has its
/// way.
pub fn driven_leaves_are_fitted()
    ensures { (known : Known) (scene : Scene) → ((name : ℕ) (typ : AType) → known name ≡ Some typ → scene.types name ≡ typ) → (leaf : Leaf) (part : TheLeaf) → ((other : TheLeaf) → Contains (leaves (scene.types leaf.component)) other → other.path ≡ leaf.way → other.typ ≡ part.typ) → (block : List TheStmt) → are_typed known block ≡ true → (n : ℤ) → drives scene leaf block ≡ Some n → integer_of (fitted_to part n) ≡ n }
{}
