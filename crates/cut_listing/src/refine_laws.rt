//! Laws of the definitions. The functions do nothing.

ghost use Rattle.std.specs.Prelude.{◌≡◌, ℕ, List, length};
ghost use Rattle.fir_tree.specs.LeafNames.{Texts};
ghost use Rattle.fir_tree.specs.declared.scope.Fitted.{Fitted as FittedCircuit};
ghost use Rattle.fir_meaning.specs.Components.{Design, design_of};
ghost use Rattle.circuit_laws.specs.WellFormed.{IsWellFormed};
ghost use Rattle.ground_net.specs.declared.net.Net.{Net as TheNet};
ghost use Rattle.ground_net.specs.declared.net.Ordered.{Ordered as TheOrdered};
ghost use Rattle.ground_net.specs.declared.net.Cut.{Cut as TheCut};
ghost use Rattle.ground_net.specs.Cones.{sinks};
ghost use Rattle.net_laws.specs.Serves.{Serves};
ghost use Rattle.cone_cutter.specs.Cuts.{IsCut, InConeOf};
ghost use Rattle.cut_listing.specs.CircuitCuts.{StandOnce};
ghost use Rattle.cut_refine.specs.declared.refined.Refined.{Refined as TheRefined};
ghost use Rattle.cut_refine.specs.Refining.{IsRefined};
ghost use Rattle.cut_listing.specs.RefinedTexts.{refined_listing, IsRefinedText};

/// Refined cuts of nets whose sinks are as many and have the same cones have one listing, whatever the orders of their assignments.
pub fn same_cones_have_one_refined_listing()
    ensures { (a b : TheOrdered) (seen other : List ℕ) (workers : ℕ) (start same : TheCut) (refined again : TheRefined) → length (sinks a.net seen) ≡ length (sinks b.net other)
        → ((k x : ℕ) → InConeOf a.net seen k x → InConeOf b.net other k x) → ((k x : ℕ) → InConeOf b.net other k x → InConeOf a.net seen k x)
        → IsCut a seen workers start → IsCut b other workers same → IsRefined a seen start refined → IsRefined b other same again → refined_listing refined ≡ refined_listing again }
{}

/// A circuit that a net serves has one refined cut, whichever net of it is cut and in whichever order its assignments stand.
pub fn refined_texts_are_one()
    ensures { (texts : Texts) (design : Design) (net : TheNet) (serves : Serves texts design net) → StandOnce serves.of.placed → (workers : ℕ) (bytes other : List ℕ) → IsRefinedText texts design workers bytes → IsRefinedText texts design workers other → bytes ≡ other }
{}

/// A well formed circuit has at most one refined cut.
pub fn refined_texts_of_a_well_formed_circuit_are_one()
    ensures { (texts : Texts) (fitted : FittedCircuit) → IsWellFormed fitted → (workers : ℕ) (bytes other : List ℕ) → IsRefinedText texts (design_of fitted) workers bytes → IsRefinedText texts (design_of fitted) workers other → bytes ≡ other }
{}
