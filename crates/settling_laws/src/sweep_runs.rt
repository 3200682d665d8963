//! Laws of runs. The functions do nothing.

ghost use Rattle.std.specs.Prelude.{◌≡◌, ℕ, suc, ◌+◌, ◌≤◌, List, length};
ghost use Rattle.fir_tree.specs.declared.scope.Fitted.{Fitted as FittedCircuit};
ghost use Rattle.fir_meaning.specs.Components.{Design, FlatLeaf, HasBundles, design_of};
ghost use Rattle.fir_meaning.specs.Values.{Valuation};
ghost use Rattle.fir_meaning.specs.Certain.{IsInitialized};
ghost use Rattle.fir_meaning.specs.States.{State, SameState, Inputs, Settled, next};
ghost use Rattle.fir_meaning.specs.Loops.{HasNoLoop, HasLeaves};
ghost use Rattle.circuit_laws.specs.WellFormed.{IsWellFormed};
ghost use Rattle.settling_laws.specs.Sweeps.{swept};

use crate::sweep_laws::sweeps_settle;

/// What is settled for a state is settled for one that is the same as far as the design goes, where memories have the leaves of their
/// ports.
pub fn same_states_settle_alike()
    ensures { (design : Design) → HasBundles design → (s t : State) → SameState design t s → (given : Inputs) (rho : Valuation) → Settled design t given rho → Settled design s given rho }
{}

/// And after a cycle they are the same again.
pub fn same_states_go_on_alike()
    ensures { (design : Design) → HasBundles design → (s t : State) → SameState design s t → (rho : Valuation) → SameState design (next design s rho) (next design t rho) }
{}

/// A sweep that changes nothing is the last one: later ones change nothing.
pub fn still_sweeps_stay()
    ensures { (design : Design) (s : State) (given : Inputs) (n : ℕ) → swept design s given (suc n) ≡ swept design s given n → (k : ℕ) → swept design s given (n + k) ≡ swept design s given n }
{}

/// So in a well formed and initialized circuit without a loop the valuation is settled where a sweep has changed nothing, after no more
/// sweeps than there are leaves.
pub fn still_sweeps_are_settled()
    ensures { (fitted : FittedCircuit) (all : List FlatLeaf) → IsWellFormed fitted → IsInitialized (design_of fitted) → HasNoLoop (design_of fitted) → HasLeaves (design_of fitted) all → (s : State) (given : Inputs) (n : ℕ) → n ≤ length all → swept (design_of fitted) s given (suc n) ≡ swept (design_of fitted) s given n → Settled (design_of fitted) s given (swept (design_of fitted) s given n) }
{
    sweeps_settle();
}
