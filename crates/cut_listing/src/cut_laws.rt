//! Laws of the definitions. The functions do nothing.

ghost use Rattle.std.specs.Prelude.{◌≡◌, ℕ, List, [], length, Some};
ghost use Rattle.fir_tree.specs.LeafNames.{Texts};
ghost use Rattle.fir_tree.specs.declared.scope.Fitted.{Fitted as FittedCircuit};
ghost use Rattle.fir_meaning.specs.Components.{Design, TypedModule, design_of, module_named};
ghost use Rattle.circuit_laws.specs.WellFormed.{IsWellFormed};
ghost use Rattle.ground_net.specs.declared.net.Net.{Net as TheNet};
ghost use Rattle.ground_net.specs.declared.net.Ordered.{Ordered as TheOrdered};
ghost use Rattle.ground_net.specs.declared.net.Cut.{Cut as TheCut};
ghost use Rattle.ground_net.specs.Cones.{sinks};
ghost use Rattle.net_of_circuit.specs.FlatOrder.{Placed, InFlatOrder};
ghost use Rattle.net_of_circuit.specs.NetOf.{IsNetOf};
ghost use Rattle.net_laws.specs.Serves.{Serves};
ghost use Rattle.cone_cutter.specs.Cuts.{IsCut, InConeOf};
ghost use Rattle.cut_listing.specs.Listing.{listing_of};
ghost use Rattle.cut_listing.specs.CircuitCuts.{watch, IsCutText, StandOnce};

/// Cuts of nets whose sinks are as many and have the same cones have one listing, whatever the orders of their assignments.
pub fn same_cones_have_one_listing()
    ensures { (a b : TheOrdered) (seen other : List ℕ) (workers : ℕ) (cut same : TheCut) → length (sinks a.net seen) ≡ length (sinks b.net other) → ((k x : ℕ) → InConeOf a.net seen k x → InConeOf b.net other k x) → ((k x : ℕ) → InConeOf b.net other k x → InConeOf a.net seen k x) → IsCut a seen workers cut → IsCut b other workers same → listing_of cut ≡ listing_of same }
{}

/// The nets of a circuit have the same sinks, and these the same cones.
pub fn nets_of_a_circuit_have_the_same_cones()
    ensures sinks { (texts : Texts) (design : Design) (net other : TheNet) (serves : Serves texts design net) → StandOnce serves.of.placed → IsNetOf texts design other → sinks net (watch net) ≡ sinks other (watch other) }
    ensures cones { (texts : Texts) (design : Design) (net other : TheNet) (serves : Serves texts design net) → StandOnce serves.of.placed → IsNetOf texts design other → (k x : ℕ) → InConeOf net (watch net) k x → InConeOf other (watch other) k x }
    ensures back { (texts : Texts) (design : Design) (net other : TheNet) (serves : Serves texts design net) → StandOnce serves.of.placed → IsNetOf texts design other → (k x : ℕ) → InConeOf other (watch other) k x → InConeOf net (watch net) k x }
{}

/// A circuit that a net serves has one cut, whichever net of it is cut and in whichever order its assignments stand.
pub fn cuts_are_one()
    ensures { (texts : Texts) (design : Design) (net : TheNet) (serves : Serves texts design net) → StandOnce serves.of.placed → (workers : ℕ) (bytes other : List ℕ) → IsCutText texts design workers bytes → IsCutText texts design workers other → bytes ≡ other }
{}

/// Each component of the run of a well formed circuit stands once in its flat order.
pub fn components_stand_once()
    ensures { (fitted : FittedCircuit) → IsWellFormed fitted → (main : TypedModule) → module_named (design_of fitted) (design_of fitted).main ≡ Some main → (placed : List Placed) → InFlatOrder (design_of fitted) [] main main.components placed → StandOnce placed }
{}

/// A well formed circuit has at most one cut.
pub fn cuts_of_a_well_formed_circuit_are_one()
    ensures { (texts : Texts) (fitted : FittedCircuit) → IsWellFormed fitted → (workers : ℕ) (bytes other : List ℕ) → IsCutText texts (design_of fitted) workers bytes → IsCutText texts (design_of fitted) workers other → bytes ≡ other }
{}
