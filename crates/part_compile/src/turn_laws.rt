//! Laws of turns.

ghost use Rattle.std.specs.Prelude.{◌≡◌, ℕ, List, Some, Contains};
ghost use Rattle.ground_net.specs.declared.ground.Ground.{Ground as TheGround};
ghost use Rattle.ground_net.specs.declared.net.Net.{Net as TheNet};
ghost use Rattle.ground_net.specs.declared.net.CutPart.{CutPart as ThePart};
ghost use Rattle.ground_net.specs.Grounds.{mentions};
ghost use Rattle.ground_net.specs.Reads.{IsAssigned, IsOrder};
ghost use Rattle.ground_net.specs.Shapes.{Shape, Table, shape};
ghost use Rattle.ground_net.specs.Nets.{IsNet, table_of};
ghost use Rattle.cone_cutter.specs.Splits.{IsUnion};
ghost use Rattle.code_draft.specs.declared.sources.Sources.{Sources as TheSources};
ghost use Rattle.code_emit.specs.Emits.{sources_table};
ghost use Rattle.partition_code.specs.Sequences.{InTurn, turned_table};
ghost use Rattle.part_compile.specs.Complete.{AreAllOf};
ghost use Rattle.part_compile.specs.Knowing.{Knows};

/// A part's assignments stand in turn, where the sequence of the net is an order; and behind them the part's leaves are known.
pub fn parts_stand_in_turn()
    ensures turn { (net : TheNet) (watch sequence : List ℕ) (part : ThePart) (S : TheSources) → IsNet net → IsOrder net sequence → IsUnion net watch sequence part → AreAllOf net S → InTurn (sources_table S) net.drivers part.assignments }
    ensures known { (net : TheNet) (watch sequence : List ℕ) (part : ThePart) (S : TheSources) → IsNet net → IsOrder net sequence → IsUnion net watch sequence part → AreAllOf net S → Knows net (Contains part.assignments) (turned_table (sources_table S) net.drivers part.assignments) }
{}

/// An expression of whose assignments all are known has the kind and the width that it has in the net.
pub fn known_shapes_are_the_nets()
    ensures { (net : TheNet) (these : List ℕ) (table : Table) (g : TheGround) (s : Shape) → Knows net (Contains these) table → shape g (table_of net) ≡ Some s → ((y : ℕ) → Contains (mentions g) y → IsAssigned net.leaves y → Contains these y) → shape g table ≡ Some s }
{}
