//! Laws of runs. The functions do nothing.

ghost use Rattle.std.specs.Prelude.{◌≡◌, ℕ, List};
ghost use Rattle.bit_words.specs.declared.value.Value.{Value as AValue};
ghost use Rattle.fir_tree.specs.declared.scope.Fitted.{Fitted as FittedCircuit};
ghost use Rattle.fir_meaning.specs.Components.{design_of};
ghost use Rattle.fir_meaning.specs.States.{State, Inputs};
ghost use Rattle.fir_meaning.specs.Loops.{HasNoLoop};
ghost use Rattle.circuit_laws.specs.WellFormed.{IsWellFormed};
ghost use Rattle.plain_run.specs.Watching.{RunsWatched};

use net_of_circuit::laws::flat_orders_are_one;

/// Whichever leaves of the run are watched, a well formed circuit without a loop has at most one list of rows from a state under given
/// inputs.
pub fn rows_are_one()
    ensures { (fitted : FittedCircuit) → IsWellFormed fitted → HasNoLoop (design_of fitted) → (watch : List ℕ) (state : State) (given : List Inputs) (rows other : List (List AValue)) → RunsWatched (design_of fitted) watch state given rows → RunsWatched (design_of fitted) watch state given other → rows ≡ other }
{
    flat_orders_are_one();
}
