//! Laws of the definitions. The functions do nothing.

ghost use Rattle.std.specs.Prelude.{◌≡◌, ℕ, ℤ, List, [], slice_get, Some, None, IsSome, true, Contains};
ghost use Rattle.bit_words.specs.declared.value.Kind.{Kind as TheKind};
ghost use Rattle.bit_words.specs.Values.{InRange};
ghost use Rattle.bit_words.specs.LeastWidths.{IsLeastWidth};
ghost use Rattle.fir_tree.specs.declared.expr.Expr.{Expr as TheExpr};
ghost use Rattle.fir_tree.specs.declared.stmt.Stmt.{Stmt as TheStmt};
ghost use Rattle.fir_types.specs.declared.leaf.TypeLeaf.{TypeLeaf as TheLeaf};
ghost use Rattle.fir_tree.specs.declared.scope.Fitted.{Fitted as FittedCircuit};
ghost use Rattle.fir_meaning.specs.Components.{Design, TypedModule, Component, Leaf, FlatLeaf, HasBundles, design_of, flow_of};
ghost use Rattle.fir_meaning.specs.Values.{Integers, Valuation, scene_of, scene_with, value, least_width};
ghost use Rattle.fir_meaning.specs.Mentions.{Scope, Agree, joined, mentions};
ghost use Rattle.fir_meaning.specs.Drives.{drives};
ghost use Rattle.fir_meaning.specs.Certain.{is_certain, must_be_driven, IsInitialized};
ghost use Rattle.fir_meaning.specs.States.{State, SameState, Inputs, Settled, Stands, WatchedTrace, Trace, next, leaf_of, IsLeafOf};
ghost use Rattle.fir_meaning.specs.Loops.{live, HasNoLoop, HasLeaves, TakesLeaves};

/// The width of a literal that gives none is the least, from 1 on, that holds its number.
pub fn literals_have_the_least_width()
    ensures { (kind : TheKind) (number : ℤ) → InRange kind 128 number → IsLeastWidth kind number (least_width kind number) }
{}

/// The value of an expression depends only on the leaves that it mentions, leaf by leaf.
pub fn values_follow_mentions()
    ensures whole { (e : TheExpr) (types : Scope) (f g : Integers) → Agree f g (joined (mentions e types)) → value e (scene_with types f) ≡ value e (scene_with types g) }
    ensures each { (e : TheExpr) (types : Scope) (f g : Integers) (k : ℕ) (mentioned : List Leaf) → slice_get (mentions e types) k ≡ Some mentioned → Agree f g mentioned → slice_get (value e (scene_with types f)) k ≡ slice_get (value e (scene_with types g)) k }
{}

/// What the statements of a block leave in a leaf depends only on the leaves that its live connects mention, in an index, in a
/// condition or in their sources.
pub fn drives_follow_live_connects()
    ensures { (block : List TheStmt) (leaf : Leaf) (types : Scope) (f g : Integers) → Agree f g (joined (live types leaf block)) → drives (scene_with types f) leaf block ≡ drives (scene_with types g) leaf block }
{}

/// A block without a live connect of a leaf leaves nothing in it.
pub fn undriven_without_live_connects()
    ensures { (block : List TheStmt) (leaf : Leaf) (types : Scope) (f : Integers) → live types leaf block ≡ [] → drives (scene_with types f) leaf block ≡ None }
{}

/// Statements that are certain for a leaf leave something in it, whatever the leaves of the module are.
pub fn certain_statements_drive()
    ensures { (block : List TheStmt) (leaf : Leaf) (types : Scope) (f : Integers) → is_certain types leaf block ≡ true → IsSome (drives (scene_with types f) leaf block) }
{}

/// In an initialized circuit the statements leave something in every leaf that must be driven, whatever the valuation.
pub fn initialized_leaves_are_driven()
    ensures { (fitted : FittedCircuit) → IsInitialized (design_of fitted) → (path : List ℕ) (m : TypedModule) (c : Component) (leaf : TheLeaf) → Stands (design_of fitted) path m c leaf → must_be_driven c.declaration.sort (flow_of c.declaration.sort leaf.flip) ≡ true → (rho : Valuation) → IsSome (drives (scene_of m path rho) (leaf_of c leaf) c.declaration.block) }
{}

/// Where no leaf reads itself through a chain, any two valuations that are settled for one state and the same inputs agree on
/// every leaf of the run. The circuit's leaves are finitely many, what a leaf reads is one of them, and instances and memories
/// have the leaves of their ports, as in every accepted circuit.
pub fn settled_valuations_agree()
    ensures { (design : Design) (all : List FlatLeaf) → HasBundles design → HasNoLoop design → HasLeaves design all → (state : State) (given : Inputs) (rho other : Valuation) → Settled design state given rho → Settled design state given other → (x : FlatLeaf) → IsLeafOf design x → rho x.path x.component x.way ≡ other x.path x.component x.way }
{}

/// The next state depends only on the state and on what the leaves have in the cycle: in all that memories hold, too, as memories have
/// the leaves of their ports.
pub fn next_states_agree()
    ensures { (design : Design) → HasBundles design → TakesLeaves design → (first second : State) (rho other : Valuation) → SameState design first second → ((x : FlatLeaf) → IsLeafOf design x → rho x.path x.component x.way ≡ other x.path x.component x.way) → SameState design (next design first rho) (next design second other) }
{}

/// A circuit without a loop has at most one trace from a state under given inputs.
pub fn traces_agree()
    ensures { (design : Design) (all : List FlatLeaf) → HasBundles design → HasNoLoop design → HasLeaves design all → TakesLeaves design → (state : State) (given : List Inputs) (rows other : List (List ℤ)) → Trace design state given rows → Trace design state given other → rows ≡ other }
{}

/// Nor has it two for any leaves of the run.
pub fn watched_traces_agree()
    ensures { (design : Design) (all : List FlatLeaf) → HasBundles design → HasNoLoop design → HasLeaves design all → TakesLeaves design → (watch : List FlatLeaf) → ((x : FlatLeaf) → Contains watch x → IsLeafOf design x) → (state : State) (given : List Inputs) (rows other : List (List ℤ)) → WatchedTrace design watch state given rows → WatchedTrace design watch state given other → rows ≡ other }
{}
