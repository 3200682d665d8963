//! Laws of types. The functions do nothing.

ghost use Rattle.std.specs.Prelude.{◌≡◌, List, map, filter_map, is_some, true};
ghost use Rattle.std.specs.List.{AllByRecursion};
ghost use Rattle.fir_types.specs.declared.fir_type.FirType.{FirType as TheType};
ghost use Rattle.fir_types.specs.declared.port.Port.{Port as ThePort};
ghost use Rattle.fir_types.specs.declared.memory.Memory.{Memory as TheMemory};
ghost use Rattle.fir_types.specs.Leaves.{leaves, way_of};
ghost use Rattle.fir_types.specs.Equivalence.{Equivalent};
ghost use Rattle.fir_types.specs.Bundles.{instance_of, memory_of};
ghost use Rattle.fir_types.specs.Memories.{AreDifferent, element_of, port_name_in};
ghost use Rattle.check_laws.specs.GroundKinds.{ground_kind};
ghost use Rattle.check_laws.specs.DoubledFields.{HasNoDoubledField};
ghost use Rattle.check_laws.specs.Paths.{HaveDifferentPaths};

/// Equivalent types have, place by place, leaves with the same paths and orientations and of the same kinds, where a `Reset` is a
/// `UInt` and an `AsyncReset` has a kind of its own. Each leaf has a kind.
pub fn equivalent_types_have_the_same_ways()
    ensures ways { (left right : TheType) → Equivalent left right → map way_of (leaves left) ≡ map way_of (leaves right) }
    ensures kinds { (left right : TheType) → Equivalent left right → map ground_kind (leaves left) ≡ map ground_kind (leaves right) }
    ensures ground { (typ : TheType) → AllByRecursion (λ leaf. is_some (ground_kind leaf) ≡ true) (leaves typ) }
{}

/// Where no bundle in a type has two fields of one name, no two of its leaves have one path. So it is with an instance of ports, and
/// with a memory, whose own names differ.
pub fn ways_differ_without_doubled_fields()
    ensures types { (typ : TheType) → HasNoDoubledField typ → HaveDifferentPaths (leaves typ) }
    ensures instances { (ports : List ThePort) → AreDifferent (map (λ port. port.name.id) ports) → AllByRecursion (λ port. HasNoDoubledField port.typ) ports → HaveDifferentPaths (leaves (instance_of ports)) }
    ensures memories { (memory : TheMemory) → AreDifferent (filter_map port_name_in memory.lines) → HasNoDoubledField (element_of memory) → HaveDifferentPaths (leaves (memory_of memory)) }
{}
