//! Laws of moves and of refined cuts. The functions do nothing.

ghost use Rattle.std.specs.Prelude.{◌≡◌, ◌≢◌, ◌⊎◌, ℕ, ◌+◌, ◌<◌, ◌≤◌, List, [], ◌∷◌, length, slice_get, slice_index, Some};
ghost use Rattle.ground_net.specs.declared.net.Net.{Net as TheNet};
ghost use Rattle.ground_net.specs.declared.net.Ordered.{Ordered as TheOrdered};
ghost use Rattle.ground_net.specs.declared.net.Cut.{Cut as TheCut};
ghost use Rattle.ground_net.specs.Cones.{sinks};
ghost use Rattle.cone_cutter.specs.Cuts.{InConeOf, IsCut};
ghost use Rattle.cone_cutter.specs.Splits.{IsSplit};
ghost use Rattle.cut_refine.specs.declared.refined.Move.{Move as TheMove};
ghost use Rattle.cut_refine.specs.declared.refined.Refined.{Refined as TheRefined};
ghost use Rattle.cut_refine.specs.Costs.{SinkRow, AreRowsOf, cost, moved, lost, gained};
ghost use Rattle.cut_refine.specs.Refining.{HasCost, IsGreatest, IsMove, NoneLowers, Refines, IsRefined};
ghost use Rattle.cut_refine.specs.Examples.{four_cones};

/// The part that a sink leaves loses what that sink alone needed there, the part that it goes to gains what none of its sinks needed, and
/// no other part changes.
pub fn moves_change_two_costs()
    ensures leaves { (p s t : ℕ) (xs : List ℕ) (rows : List SinkRow) (r : SinkRow) → slice_get rows s ≡ Some r → r.0 ≡ p → t ≢ p → cost p xs (moved rows s r t) + lost p xs rows r ≡ cost p xs rows }
    ensures enters { (p s t : ℕ) (xs : List ℕ) (rows : List SinkRow) (r : SinkRow) → slice_get rows s ≡ Some r → r.0 ≢ p → t ≡ p → cost p xs (moved rows s r t) ≡ cost p xs rows + gained p xs rows r }
    ensures aside { (p s t : ℕ) (xs : List ℕ) (rows : List SinkRow) (r : SinkRow) → slice_get rows s ≡ Some r → r.0 ≢ p → t ≢ p → cost p xs (moved rows s r t) ≡ cost p xs rows }
{}

/// Counted sink by sink, the cost of a part is how many assignments its sinks need.
pub fn counts_are_costs()
    ensures { (net : TheNet) (watch owners xs : List ℕ) (rows : List SinkRow) → AreRowsOf (InConeOf net watch) owners xs rows → (part : ℕ) → HasCost (InConeOf net watch) owners part (cost part xs rows) }
{}

/// No move of a sink of another part lowers the cost of a part that has the greatest one. Where two parts have it, no move lowers it.
pub fn other_sinks_lower_nothing()
    ensures kept { (ordered : TheOrdered) (watch : List ℕ) (workers : ℕ) (start : TheCut) → IsCut ordered watch workers start
        → (owners : List ℕ) → length owners ≡ length (sinks ordered.net watch) → (part greatest : ℕ) → part < workers → HasCost (InConeOf ordered.net watch) owners part greatest
        → (move : TheMove) → IsMove (InConeOf ordered.net watch) workers owners move → slice_index owners move.sink ≢ part → greatest ≤ move.greatest }
    ensures two { (ordered : TheOrdered) (watch : List ℕ) (workers : ℕ) (start : TheCut) → IsCut ordered watch workers start
        → (owners : List ℕ) → length owners ≡ length (sinks ordered.net watch) → (part other greatest : ℕ) → part < workers → other < workers → part ≢ other
        → HasCost (InConeOf ordered.net watch) owners part greatest → HasCost (InConeOf ordered.net watch) owners other greatest → NoneLowers (InConeOf ordered.net watch) workers owners greatest }
{}

/// At the end of refining no move of one sink lowers the greatest cost of a part.
pub fn refined_cuts_are_not_improved()
    ensures none { (net : TheNet) (watch : List ℕ) (workers : ℕ) (owners last : List ℕ) (least : ℕ) → Refines (InConeOf net watch) workers owners last least → NoneLowers (InConeOf net watch) workers last least }
    ensures greatest { (net : TheNet) (watch : List ℕ) (workers : ℕ) (owners last : List ℕ) (least : ℕ) → Refines (InConeOf net watch) workers owners last least → IsGreatest (InConeOf net watch) workers last least }
{}

/// Each sink stands in one part of a refined cut, and each part has exactly what its sinks need, in the order of the sequence.
pub fn refined_cuts_are_splits()
    ensures { (ordered : TheOrdered) (watch : List ℕ) (start : TheCut) (refined : TheRefined) → IsRefined ordered watch start refined → IsSplit ordered watch refined.cut.parts }
{}

/// A cut is refined in one way.
pub fn refined_cuts_are_one()
    ensures { (ordered : TheOrdered) (watch : List ℕ) (start : TheCut) (refined other : TheRefined) → IsRefined ordered watch start refined → IsRefined ordered watch start other → refined ≡ other }
{}

/// No row of the table has less than the greatest cost.
pub fn rows_lower_nothing()
    ensures { (ordered : TheOrdered) (watch : List ℕ) (start : TheCut) (refined : TheRefined) → IsRefined ordered watch start refined → (i : ℕ) (row : TheMove) → slice_get refined.table i ≡ Some row → refined.greatest ≤ row.greatest }
{}

/// The four registers of the example are refined by one move, of the third to the other part.
pub fn four_registers_take_one_move()
    ensures { Refines four_cones 2 (0 ∷ 1 ∷ 0 ∷ 0 ∷ []) (0 ∷ 1 ∷ 1 ∷ 0 ∷ []) 5 }
{}
