//! Laws of the definitions. The functions do nothing.

ghost use Rattle.std.specs.Prelude.{◌≡◌, List, length};
ghost use Rattle.fir_tree.specs.declared.scope.Fitted.{Fitted as FittedCircuit};
ghost use Rattle.fir_meaning.specs.Components.{FlatLeaf, design_of};
ghost use Rattle.fir_meaning.specs.Values.{Valuation};
ghost use Rattle.fir_meaning.specs.Certain.{IsInitialized};
ghost use Rattle.fir_meaning.specs.States.{State, Inputs, Settled, HasOneSettled, IsLeafOf};
ghost use Rattle.fir_meaning.specs.Loops.{HasNoLoop, HasLeaves};
ghost use Rattle.circuit_laws.specs.WellFormed.{IsWellFormed};
ghost use Rattle.settling_laws.specs.Sweeps.{swept};

/// In a well formed and initialized circuit without a loop the valuation is settled after as many sweeps as there are leaves, whatever
/// the state and the inputs are.
pub fn sweeps_settle()
    ensures { (fitted : FittedCircuit) (all : List FlatLeaf) → IsWellFormed fitted → IsInitialized (design_of fitted) → HasNoLoop (design_of fitted) → HasLeaves (design_of fitted) all → (s : State) (given : Inputs) → Settled (design_of fitted) s given (swept (design_of fitted) s given (length all)) }
{}

/// So there is one settled valuation, and on each leaf of the run it has what these sweeps have.
pub fn one_settled_by_sweeps()
    ensures one { (fitted : FittedCircuit) (all : List FlatLeaf) → IsWellFormed fitted → IsInitialized (design_of fitted) → HasNoLoop (design_of fitted) → HasLeaves (design_of fitted) all → (s : State) (given : Inputs) → HasOneSettled (design_of fitted) s given }
    ensures agrees { (fitted : FittedCircuit) (all : List FlatLeaf) → IsWellFormed fitted → IsInitialized (design_of fitted) → HasNoLoop (design_of fitted) → HasLeaves (design_of fitted) all → (s : State) (given : Inputs) (rho : Valuation) → Settled (design_of fitted) s given rho → (x : FlatLeaf) → IsLeafOf (design_of fitted) x → rho x.path x.component x.way ≡ swept (design_of fitted) s given (length all) x.path x.component x.way }
{}
