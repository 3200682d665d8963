//! Laws of cuts, and what the definitions say of two small nets. The functions do nothing.

ghost use Rattle.std.specs.Prelude.{ℕ, List, [], ◌∷◌, ◌+◌, ◌≤◌, length};
ghost use Rattle.ground_net.specs.declared.net.Ordered.{Ordered as TheOrdered};
ghost use Rattle.ground_net.specs.declared.net.Cut.{Cut as TheCut};
ghost use Rattle.ground_net.specs.declared.net.CutPart.{CutPart as ThePart};
ghost use Rattle.ground_net.specs.declared.net.Net.{Net as TheNet};
ghost use Rattle.ground_net.specs.Cones.{sinks};
ghost use Rattle.ground_net.specs.Reads.{IsOrder};
ghost use Rattle.cone_cutter.specs.Cuts.{IsCut};
ghost use Rattle.cone_cutter.specs.Examples.{sharing, sharing_cut, crossing, crossing_cut};
ghost use Rattle.cone_cutter.specs.Splits.{IsSplit, IsUnion, IsClosed, StandBehindReads};

/// Each sink stands in one partition of a cut, and each partition has exactly the union of its sinks' cones, in the order of the
/// sequence.
pub fn cuts_are_splits()
    ensures { (ordered : TheOrdered) (watch : List ℕ) (workers : ℕ) (it : TheCut) → IsCut ordered watch workers it → IsSplit ordered watch it.parts }
{}

/// What an assignment of a partition reads is also in the partition, where it is an assignment; and it stands before it, where the
/// sequence is an order.
pub fn partitions_have_what_they_read()
    ensures closed { (net : TheNet) (watch sequence : List ℕ) (part : ThePart) → IsUnion net watch sequence part → IsClosed net part.assignments }
    ensures in_order { (net : TheNet) (watch sequence : List ℕ) (part : ThePart) → IsOrder net sequence → IsUnion net watch sequence part → StandBehindReads net part.assignments }
{}

/// A net has at most so many sinks as there are watched leaves, registers and memories.
pub fn sinks_are_few()
    ensures { (net : TheNet) (watch : List ℕ) → length (sinks net watch) ≤ length watch + (length net.registers + length net.memories) }
{}

/// What several sinks need is in several partitions, and then counts once for each.
pub fn shared_assignments_are_replicated()
    ensures { IsCut sharing (2 ∷ []) 2 sharing_cut }
{}

/// Cones of one size are placed in the order of the sinks.
pub fn ties_go_by_numbers()
    ensures { IsCut crossing (2 ∷ []) 2 crossing_cut }
{}
