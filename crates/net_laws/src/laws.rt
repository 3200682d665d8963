//! Laws of the definitions. The functions do nothing.

ghost use Rattle.std.specs.Prelude.{◌≡◌, ℕ, List, slice_get, Some, map};
ghost use Rattle.std.specs.List.{AllZip};
ghost use Rattle.bit_words.specs.declared.value.Value.{Value as TheValue};
ghost use Rattle.bit_words.specs.Values.{integer_of};
ghost use Rattle.fir_tree.specs.LeafNames.{Texts};
ghost use Rattle.fir_meaning.specs.Components.{Design};
ghost use Rattle.fir_meaning.specs.States.{State, Inputs, Settled, Trace, WatchedTrace, HasOneSettled, next};
ghost use Rattle.fir_meaning.specs.Loops.{HasNoLoop};
ghost use Rattle.ground_net.specs.declared.net.Net.{Net as TheNet};
ghost use Rattle.ground_net.specs.Grounds.{Instant};
ghost use Rattle.ground_net.specs.Reads.{IsOrder};
ghost use Rattle.ground_net.specs.Watching.{watched};
ghost use Rattle.ground_net.specs.Cycles.{NetState, instant_of};
ghost use Rattle.ground_net.specs.Cycles as cycles;
ghost use Rattle.ground_net.specs.Nets.{IsWithin, AreInputs};
ghost use Rattle.net_of_circuit.specs.FlatOrder.{Placed, Standing, all_leaves, flat_of, ListsLeaves};
ghost use Rattle.net_of_circuit.specs.NetOf.{valuation_of, seen_valuation, MatchingInputs};
ghost use Rattle.net_laws.specs.Runs.{Run, AreGiven};
ghost use Rattle.net_laws.specs.Serves.{Serves, Matches};

/// What is seen of a leaf of the circuit is the value of its number in flat order.
pub fn leaves_are_seen_by_number()
    ensures { (design : Design) (placed : List Placed) → ListsLeaves design placed → (instant : Instant) (x : ℕ) (y : Standing) → slice_get (all_leaves placed) x ≡ Some y → valuation_of (all_leaves placed) instant y.0.path y.0.c.declaration.name y.1.path ≡ integer_of (instant.leaf x) }
{}

/// Where the assignments of a circuit's net have an order, no leaf of the circuit reads itself.
pub fn ordered_circuits_have_no_loop()
    ensures { (texts : Texts) (design : Design) (net : TheNet) (sequence : List ℕ) → Serves texts design net → IsOrder net sequence → HasNoLoop design }
{}

/// What is seen of values that are settled in the net is settled in the circuit, where states and inputs match and are in range.
pub fn settled_nets_settle_circuits()
    ensures { (texts : Texts) (design : Design) (net : TheNet) (sequence : List ℕ) (serves : Serves texts design net) → IsOrder net sequence → (s : State) (t : NetState) (given : Inputs) (numbered : cycles.Inputs) (rho : cycles.Valuation) → Matches serves s t → IsWithin net t → MatchingInputs (all_leaves serves.of.placed) net given numbered → AreInputs net numbered → cycles.Settled net t numbered rho → Settled design s given (seen_valuation serves.of.placed net t rho) }
{}

/// And the next states match and are in range again.
pub fn next_states_match()
    ensures matching { (texts : Texts) (design : Design) (net : TheNet) (sequence : List ℕ) (serves : Serves texts design net) → IsOrder net sequence → (s : State) (t : NetState) (numbered : cycles.Inputs) (rho : cycles.Valuation) → Matches serves s t → IsWithin net t → cycles.Settled net t numbered rho → Matches serves (next design s (seen_valuation serves.of.placed net t rho)) (cycles.next net t (instant_of net t rho)) }
    ensures within { (texts : Texts) (design : Design) (net : TheNet) (sequence : List ℕ) (serves : Serves texts design net) → IsOrder net sequence → (s : State) (t : NetState) (numbered : cycles.Inputs) (rho : cycles.Valuation) → Matches serves s t → IsWithin net t → cycles.Settled net t numbered rho → IsWithin net (cycles.next net t (instant_of net t rho)) }
{}

/// A circuit whose net has an order has exactly one settled valuation for each state and each inputs that are in range.
pub fn circuits_have_one_settled_valuation()
    ensures { (texts : Texts) (design : Design) (net : TheNet) (sequence : List ℕ) (serves : Serves texts design net) → IsOrder net sequence → (s : State) (t : NetState) (given : Inputs) (numbered : cycles.Inputs) → Matches serves s t → IsWithin net t → MatchingInputs (all_leaves serves.of.placed) net given numbered → AreInputs net numbered → HasOneSettled design s given }
{}

/// The rows of a run of the net, watched at numbers of flat order, are those of a trace of the circuit, watched at the leaves that stand there.
pub fn watched_runs_are_traces()
    ensures { (texts : Texts) (design : Design) (net : TheNet) (sequence : List ℕ) (serves : Serves texts design net) → IsOrder net sequence → (s : State) (t : NetState) → Matches serves s t → IsWithin net t → (given : List Inputs) (numbered : List cycles.Inputs) → AreGiven (all_leaves serves.of.placed) net given numbered → (watch : List ℕ) (leaves : List Standing) → AllZip (λ x y. slice_get (all_leaves serves.of.placed) x ≡ Some y) watch leaves → (rows : List (List TheValue)) → Run net watch t numbered rows → WatchedTrace design (map flat_of leaves) s given (map (map integer_of) rows) }
{}

/// The rows of a run of the net are those of a trace of the circuit, watched leaf by watched leaf.
pub fn runs_are_traces()
    ensures { (texts : Texts) (design : Design) (net : TheNet) (sequence : List ℕ) (serves : Serves texts design net) → IsOrder net sequence → (s : State) (t : NetState) → Matches serves s t → IsWithin net t → (given : List Inputs) (numbered : List cycles.Inputs) → AreGiven (all_leaves serves.of.placed) net given numbered → (rows : List (List TheValue)) → Run net (map (λ p. p.leaf) (watched net)) t numbered rows → Trace design s given (map (map integer_of) rows) }
{}
