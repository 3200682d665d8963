//! Laws of the definitions. The functions do nothing.

ghost use Rattle.std.specs.Prelude.{◌≡◌, ◌≢◌, ◌<◌, ◌+◌, ℕ, List, [], ◌∷◌, codes, length, map, slice_get, slice_index, Some};
ghost use Rattle.ground_net.specs.declared.circuit.DrivenCircuit.{DrivenCircuit};
ghost use Rattle.ground_net.specs.declared.circuit.DrivenModule.{DrivenModule};
ghost use Rattle.ground_net.specs.declared.circuit.GroundInstance.{GroundInstance};
ghost use Rattle.ground_net.specs.declared.circuit.GroundLeaf.{GroundLeaf};
ghost use Rattle.ground_net.specs.declared.ground.Ground.{Ground};
ghost use Rattle.ground_net.specs.Grounds.{Instant, value, mentions};
ghost use Rattle.ground_net.specs.Renumbering.{seen_by};
ghost use Rattle.flatten_instances.specs.Instances.{HasInstances, IsInTurn, prefix_of};
ghost use Rattle.flatten_instances.specs.Examples.{two_instances, outer, four_items};
ghost use Rattle.flatten_instances.specs.FlatOrder.{Spot, spot, Item, InFlatOrder, leaf_spots};
ghost use Rattle.flatten_instances.specs.Numbers.{AreNumbers, driver_with};

/// The items of a module at a path have one flat order.
pub fn flat_orders_are_one()
    ensures { (driven : DrivenCircuit) (path : List ℕ) (n : ℕ) (m : DrivenModule) (y k i : ℕ) (a b : List Item) → InFlatOrder driven path n m y k i a → InFlatOrder driven path n m y k i b → a ≡ b }
{}

/// Each leaf stands once in the flat order.
pub fn leaves_stand_once()
    ensures { (driven : DrivenCircuit) (path : List ℕ) (n : ℕ) (m : DrivenModule) (y k i : ℕ) (items : List Item) (s : Spot) (a b : ℕ) → InFlatOrder driven path n m y k i items → slice_get (leaf_spots items) a ≡ Some s → slice_get (leaf_spots items) b ≡ Some s → a ≡ b }
{}

/// The leaves of a module's ports come first.
pub fn ports_come_first()
    ensures { (driven : DrivenCircuit) (path : List ℕ) (n : ℕ) (m : DrivenModule) (items : List Item) (y : ℕ) → IsInTurn driven m → InFlatOrder driven path n m 0 0 0 items → y < m.ports → slice_get (leaf_spots items) y ≡ Some (spot path n y) }
{}

/// Different leaves of a module have different flat numbers, all below the number of flat leaves.
pub fn numbers_differ()
    ensures differ { (driven : DrivenCircuit) (spots : List Spot) (path : List ℕ) (n : ℕ) (numbers : List ℕ) (y z x : ℕ) → AreNumbers driven spots path n numbers → slice_get numbers y ≡ Some x → slice_get numbers z ≡ Some x → y ≡ z }
    ensures below { (driven : DrivenCircuit) (spots : List Spot) (path : List ℕ) (n : ℕ) (numbers : List ℕ) (y x : ℕ) → AreNumbers driven spots path n numbers → slice_get numbers y ≡ Some x → x < length spots }
{}

/// No leaf in the flat order is a leaf of an instance in its module: those stand as the leaves of the instance's module.
pub fn instances_leaves_stand_inside()
    ensures { (driven : DrivenCircuit) (main m child : DrivenModule) (items : List Item) (a i j : ℕ) (s : Spot) (gi : GroundInstance) → HasInstances driven → slice_get driven.modules driven.main ≡ Some main → InFlatOrder driven [] driven.main main 0 0 0 items → slice_get (leaf_spots items) a ≡ Some s → slice_get driven.modules s.within ≡ Some m → slice_get m.instances i ≡ Some gi → slice_get driven.modules gi.module ≡ Some child → j < child.ports → s.number ≢ gi.first + j }
{}

/// A driver with flat numbers has the value that the module's driver has where each leaf is seen under its flat number, and
/// mentions the flat numbers of the leaves that the module's driver mentions.
pub fn drivers_follow_their_modules()
    ensures value { (numbers : List ℕ) (g flat : Ground) (instant : Instant) → driver_with numbers (Some g) ≡ Some flat → value flat instant ≡ value g (seen_by (slice_index numbers) instant) }
    ensures mentions { (numbers : List ℕ) (g flat : Ground) → driver_with numbers (Some g) ≡ Some flat → mentions flat ≡ map (slice_index numbers) (mentions g) }
{}

/// Two instances of one module have leaves of their own, in text order among those of their holder.
pub fn two_instances_have_their_own_leaves()
    ensures order { (port of_i own of_j inside : GroundLeaf) → InFlatOrder (two_instances port of_i own of_j inside) [] 0 (outer port of_i own of_j) 0 0 0 four_items }
    ensures numbers { (port of_i own of_j inside : GroundLeaf) → AreNumbers (two_instances port of_i own of_j inside) (leaf_spots four_items) [] 0 (0 ∷ 1 ∷ 2 ∷ 3 ∷ []) }
    ensures prefix { (port of_i own of_j inside : GroundLeaf) → prefix_of (two_instances port of_i own of_j inside) (1 ∷ []) ≡ codes "j." }
{}
