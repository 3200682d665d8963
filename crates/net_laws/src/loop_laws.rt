//! Laws of the definitions. The functions do nothing.

ghost use Rattle.std.specs.Prelude.{◌≡◌, ◌⊎◌, ℕ, List, Result, slice_get, Some};
ghost use Rattle.place_text.specs.declared.place.Place.{Place as ThePlace};
ghost use Rattle.place_text.specs.Verdicts.{IsVerdict};
ghost use Rattle.fir_tree.specs.LeafNames.{Texts};
ghost use Rattle.fir_meaning.specs.Components.{Design};
ghost use Rattle.fir_meaning.specs.Loops.{HasNoLoop};
ghost use Rattle.ground_net.specs.declared.net.Net.{Net as TheNet};
ghost use Rattle.ground_net.specs.declared.net.Ordered.{Ordered as TheOrdered};
ghost use Rattle.ground_net.specs.Reads as net_reads;
ghost use Rattle.net_of_circuit.specs.FlatOrder.{Standing, all_leaves, flat_of};
ghost use Rattle.net_laws.specs.Serves.{Serves};
ghost use Rattle.comb_order.specs.declared.fault.OrderFault.{OrderFault as TheFault};
ghost use Rattle.comb_order.specs.Faults.{IsFault, IsOrdered, place_of, rank_of};
ghost use Rattle.net_laws.specs.FirstLoops.{IsOnLoop, IsFirstLoopOf, IsLoopFault, IsOrderedFor};

/// A leaf of the net is on a loop exactly where the leaf of the circuit that has its number is.
pub fn leaves_are_on_the_same_loops()
    ensures of_net { (texts : Texts) (design : Design) (net : TheNet) (serves : Serves texts design net) (x : ℕ) (y : Standing) → slice_get (all_leaves serves.of.placed) x ≡ Some y → net_reads.IsOnLoop net x → IsOnLoop design (flat_of y) }
    ensures of_circuit { (texts : Texts) (design : Design) (net : TheNet) (serves : Serves texts design net) (x : ℕ) (y : Standing) → slice_get (all_leaves serves.of.placed) x ≡ Some y → IsOnLoop design (flat_of y) → net_reads.IsOnLoop net x }
{}

/// The net has no loop exactly where the circuit has none.
pub fn nets_without_loops_are_of_circuits_without_loops()
    ensures of_net { (texts : Texts) (design : Design) (net : TheNet) → Serves texts design net → net_reads.HasNoLoop net → HasNoLoop design }
    ensures of_circuit { (texts : Texts) (design : Design) (net : TheNet) → Serves texts design net → HasNoLoop design → net_reads.HasNoLoop net }
{}

/// The first leaf that is on a loop has one place in the net and in the circuit.
pub fn first_loops_are_the_same()
    ensures of_net { (texts : Texts) (design : Design) (net : TheNet) → Serves texts design net → (place : ThePlace) → net_reads.IsFirstLoop net place → IsFirstLoopOf design place }
    ensures of_circuit { (texts : Texts) (design : Design) (net : TheNet) → Serves texts design net → (place : ThePlace) → IsFirstLoopOf design place → net_reads.IsFirstLoop net place }
{}

/// A circuit has one first loop at most, and none where no leaf reads itself.
pub fn first_loops_are_one()
    ensures one { (design : Design) (here other : ThePlace) → IsFirstLoopOf design here → IsFirstLoopOf design other → here ≡ other }
    ensures none { (design : Design) (place : ThePlace) → HasNoLoop design → ¬ (IsFirstLoopOf design place) }
{}

/// A circuit that a net serves has no loop, or a first one.
pub fn circuits_have_no_loop_or_a_first_one()
    ensures { (texts : Texts) (design : Design) (net : TheNet) → Serves texts design net → HasNoLoop design ⊎ ((place : ThePlace) × IsFirstLoopOf design place) }
{}

/// Where no leaf of the circuit reads itself, the assignments of a net that serves it have an order.
pub fn circuits_without_loops_have_orders()
    ensures { (texts : Texts) (design : Design) (net : TheNet) → Serves texts design net → HasNoLoop design → (sequence : List ℕ) × net_reads.IsOrder net sequence }
{}

/// The fault of a net that serves a circuit is the circuit's.
pub fn faults_are_of_circuits()
    ensures of_net { (texts : Texts) (design : Design) (net : TheNet) → Serves texts design net → (fault : TheFault) → IsFault net fault → IsLoopFault design fault }
    ensures of_circuit { (texts : Texts) (design : Design) (net : TheNet) → Serves texts design net → (fault : TheFault) → IsLoopFault design fault → IsFault net fault }
{}

/// The verdict over a net that serves a circuit is one over the circuit: it is Ok, with an order, only where no leaf of the circuit
/// reads itself, and else the fault is the circuit's first loop, or want of memory.
pub fn verdicts_are_of_circuits()
    ensures { (texts : Texts) (design : Design) (net : TheNet) → Serves texts design net → (result : Result TheOrdered TheFault) → IsVerdict place_of rank_of (IsFault net) (IsOrdered net) result → IsVerdict place_of rank_of (IsLoopFault design) (IsOrderedFor design net) result }
{}
