//! Laws of the definitions that the contracts here name. The functions do nothing.

ghost use Rattle.std.specs.Prelude.{◌≡◌, ◌≤◌, ◌^◌, ℕ, false, Some, map, length};
ghost use Rattle.std.specs.List.{AllByRecursion};
ghost use Rattle.fir_types.specs.declared.fir_type.FirType.{FirType as TheType};
ghost use Rattle.fir_types.specs.Bundles.{address_bits, mask_of};
ghost use Rattle.fir_types.specs.Passivity.{IsPassive};
ghost use Rattle.fir_types.specs.declared.fir_type.Shape.TheVariants as shape;
ghost use Rattle.fir_types.specs.Leaves.{leaves, count, way_of};
ghost use Rattle.fir_types.specs.Equivalence.{Equivalent};

/// The number of a type's leaves is the length of their list.
pub fn leaves_are_counted()
    ensures { (typ : TheType) → count typ ≡ length (leaves typ) }
{}

/// An address has the least number of bits, from one on, that tell the elements of a memory apart.
pub fn address_bits_are_the_least()
    ensures some { (depth : ℕ) → depth ≤ 2 ^ 128 → 1 ≤ address_bits depth }
    ensures enough { (depth : ℕ) → depth ≤ 2 ^ 128 → depth ≤ 2 ^ address_bits depth }
    ensures least { (depth bits : ℕ) → depth ≤ 2 ^ 128 → 1 ≤ bits → depth ≤ 2 ^ bits → address_bits depth ≤ bits }
{}

/// Types are equivalent to themselves, both ways, and to what an equivalent one is equivalent to.
pub fn equivalence_is_an_equivalence()
    ensures itself { (typ : TheType) → Equivalent typ typ }
    ensures both_ways { (left right : TheType) → Equivalent left right → Equivalent right left }
    ensures further { (left middle right : TheType) → Equivalent left middle → Equivalent middle right → Equivalent left right }
{}

/// Equivalent types have, place by place, leaves with the same paths and orientations.
pub fn equivalent_types_have_the_same_leaves()
    ensures { (left right : TheType) → Equivalent left right → map way_of (leaves left) ≡ map way_of (leaves right) }
{}

/// A mask has the leaves of the data, with the same paths and orientations, and each is one bit.
pub fn masks_have_the_leaves_of_the_data()
    ensures same { (data_type : TheType) → map way_of (leaves (mask_of data_type)) ≡ map way_of (leaves data_type) }
    ensures bits { (data_type : TheType) → AllByRecursion (λ leaf. leaf.typ.shape ≡ shape.Unsigned (Some 1)) (leaves (mask_of data_type)) }
{}

/// No leaf of a passive type is turned round.
pub fn passive_types_have_no_turned_leaf()
    ensures { (typ : TheType) → IsPassive typ → AllByRecursion (λ leaf. leaf.flip ≡ false) (leaves typ) }
{}
