//! Laws of the definitions. The functions do nothing.

ghost use Rattle.std.specs.Prelude.{◌≡◌, ℕ, ◌+◌, true, List, [], ◌∷◌, map, length, slice_get, Some, Contains};
ghost use Rattle.fir_tree.specs.LeafNames.{Texts};
ghost use Rattle.fir_types.specs.declared.memory.Memory.{Memory as AMemory};
ghost use Rattle.fir_types.specs.declared.leaf.TypeLeaf.{TypeLeaf as TheLeaf};
ghost use Rattle.fir_types.specs.Leaves.{leaves};
ghost use Rattle.fir_tree.specs.declared.circuit.Module.{Module as AModule};
ghost use Rattle.fir_tree.specs.declared.expr.Expr.{Expr as TheExpr};
ghost use Rattle.fir_meaning.specs.Components.{TypedModule, A_memory, Component as AComponent, type_in, ports_bundle};
ghost use Rattle.fir_meaning.specs.MemoryPorts.{MemoryPort, memory_ports};
ghost use Rattle.fir_types.specs.declared.fir_type.FirType.{FirType as AType};
ghost use Rattle.ground_net.specs.declared.net.NetPort.{NetPort as APort};
ghost use Rattle.fir_meaning.specs.States.{is_register, leaf_of};
ghost use Rattle.fir_meaning.specs.WellTyped.{HasTypes, is_condition, are_typed, Known as Types};
ghost use Rattle.std.specs.List.{list_all};
ghost use Rattle.lower_aggregates.specs.Headings.{headings_of};
ghost use Rattle.ground_net.specs.declared.net.NetReset.{NetReset as AReset};
ghost use Rattle.ground_net.specs.declared.net.NetRegister.{NetRegister as ARegister};
ghost use Rattle.ground_net.specs.Shapes.{Table};
ghost use Rattle.net_of_circuit.specs.Numbers.{leaves_before, ModuleLeaf, module_leaves, number_of, register_numbers, memory_parts, instance_parts};
ghost use Rattle.lower_aggregates.specs.Parts.{parts_of};
ghost use Rattle.net_of_circuit.specs.Lowering.{IsReset, IsGroundPort, HasReset, IsGroundInstance, IsGroundMemory};
ghost use Rattle.ground_net.specs.declared.circuit.GroundMemory.{GroundMemory as AGroundMemory};
ghost use Rattle.std.specs.Prelude.{nat_eq};
ghost use Rattle.std.specs.Map.{lookup};
ghost use Rattle.fir_tree.specs.declared.circuit.Circuit.{Circuit as ACircuit};
ghost use Rattle.fir_names.specs.Scopes.{Means};
ghost use Rattle.ground_net.specs.declared.circuit.GroundInstance.{GroundInstance as AnInstance};
ghost use Rattle.ground_exprs.specs.declared.source.Source.{Source as ASource};
ghost use Rattle.ground_exprs.specs.Sources.{Entries, Knows, IsLowered, known_of};
ghost use Rattle.lower_aggregates.specs.Registers.{IsInit, AreRegisters, RegisterAt, is_typed_sort};
ghost use Rattle.lower_aggregates.specs.Memories.{MemoryRow, memory_row, memories_in, ports_from, reading_of, first_mode_of, stored};
ghost use Rattle.lower_aggregates.specs.Elements.{own_row};
ghost use Rattle.fir_types.specs.declared.memory.PortMode.{PortMode as AMode};
ghost use Rattle.lower_aggregates.specs.Instances.{InstanceRow, instance_row, Numbers, instances_from};
ghost use Rattle.lower_aggregates.specs.Standing.{MemoryThere, InstanceThere};

/// What a register's leaf has for a reset, made of the sources of its reset and of its `init`, is the register's: the k-th leaf takes the
/// k-th source, fitted to the leaf's kind and width, and 0 where there is none.
pub fn resets_are_those_of_registers()
    ensures { (holder : AModule) (m : TypedModule) (table : Table) → HasTypes holder m → (entries : Entries) → Knows (record { number = number_of m; table = table }) (type_in m) entries → (c : AComponent) → Contains m.components c → type_in m c.declaration.name ≡ c.typ → is_register c.declaration.sort ≡ true → (j : ℕ) (leaf : TheLeaf) → slice_get (leaves c.typ) j ≡ Some leaf → (reset init : TheExpr) → is_condition (known_of entries) reset ≡ true → (s : ASource) (inits : List ASource) → IsLowered entries reset (s ∷ []) → IsLowered entries init inits → (made : AReset) → made.reset ≡ s.expr → IsInit (slice_get inits j) leaf made.init → IsReset m table (c, leaf) reset init made }
{}

/// The registers of a module's components are those of its registers' leaves, in order.
pub fn registers_are_numbered()
    ensures leaves { (entries : Entries) (m : TypedModule) (registers : List ARegister) → AreRegisters entries (parts_of m) registers → map (λ r. r.leaf) registers ≡ register_numbers m }
    ensures each { (entries : Entries) (m : TypedModule) (registers : List ARegister) → AreRegisters entries (parts_of m) registers → (i : ℕ) (r : ARegister) → slice_get registers i ≡ Some r → RegisterAt entries 0 m.components r }
{}

/// What is said of the memories of a module's components is said of its memories, in order, and of its instances likewise.
pub fn memories_and_instances_stand_in_order()
    ensures memories { (texts : Texts) (m : TypedModule) (k : ℕ) (part : ℕ × AComponent × AMemory) (row : MemoryRow) → slice_get (memory_parts m.components) k ≡ Some part → slice_get (memories_in texts (parts_of m)) k ≡ Some row → MemoryThere texts 0 0 m.components part row }
    ensures all_memories { (texts : Texts) (m : TypedModule) → length (memories_in texts (parts_of m)) ≡ length (memory_parts m.components) }
    ensures instances { (texts : Texts) (numbers : Numbers) (m : TypedModule) (i : ℕ) (part : ℕ × AComponent × ℕ) (row : InstanceRow) → slice_get (instance_parts m.components) i ≡ Some part → slice_get (instances_from texts numbers 0 (parts_of m)) i ≡ Some row → InstanceThere texts numbers 0 0 0 m.components part row }
    ensures all_instances { (texts : Texts) (numbers : Numbers) (m : TypedModule) → length (instances_from texts numbers 0 (parts_of m)) ≡ length (instance_parts m.components) }
{}

/// In a well typed body the reset and the `init` of each register are well typed.
pub fn resets_are_typed()
    ensures { (known : Types) (holder : AModule) → are_typed known holder.body ≡ true → list_all (λ h. is_typed_sort known h.sort) (headings_of holder) ≡ true }
{}

/// The ports of a memory have the numbers of their leaves, where an element has this type.
pub fn ports_have_their_numbers()
    ensures { (m : TypedModule) (c : AComponent) (memory : AMemory) (element : AType) (first : ℕ) → leaves c.typ ≡ leaves (ports_bundle memory element) → ((j : ℕ) (leaf : TheLeaf) → slice_get (leaves c.typ) j ≡ Some leaf → number_of m (leaf_of c leaf) ≡ Some (first + j)) → (q : ℕ) (port : MemoryPort) (np : APort) → slice_get (memory_ports memory) q ≡ Some port → slice_get (ports_from first (length (leaves element)) (reading_of memory) (memory_ports memory)) q ≡ Some np → IsGroundPort m c memory element port np }
{}

/// Each register of a module has the reset of its leaf.
pub fn registers_have_their_resets()
    ensures { (holder : AModule) (m : TypedModule) (table : Table) → HasTypes holder m → (entries : Entries) → Knows (record { number = number_of m; table = table }) (type_in m) entries → are_typed (known_of entries) holder.body ≡ true → ((k : ℕ) (c : AComponent) → slice_get m.components k ≡ Some c → type_in m c.declaration.name ≡ c.typ) → (registers : List ARegister) → AreRegisters entries (parts_of m) registers → (i : ℕ) (r : ARegister) (y : ModuleLeaf) → slice_get registers i ≡ Some r → slice_get (module_leaves m) r.leaf ≡ Some y → HasReset m table y y.0.declaration.sort r.reset }
{}

/// Each instance is one of the module's, where names have the numbers of their modules.
pub fn instances_are_those_of_modules()
    ensures { (texts : Texts) (circuit : ACircuit) (numbers : Numbers) (m : TypedModule) (made : List AnInstance) → ((name number : ℕ) → lookup (nat_eq name) numbers ≡ Some number → Means circuit name number) → map instance_row made ≡ instances_from texts numbers 0 (parts_of m) → (i : ℕ) (part : ℕ × AComponent × ℕ) (gi : AnInstance) → slice_get (instance_parts m.components) i ≡ Some part → slice_get made i ≡ Some gi → IsGroundInstance texts circuit m part.0 part.1 part.2 gi }
{}

/// What the first port of a memory shows is the leaves of its elements.
pub fn ports_show_their_elements()
    ensures { (texts : Texts) (memory : AMemory) (element : AType) (listed : List TheLeaf) (m : AMode) → listed ≡ leaves (ports_bundle memory element) → first_mode_of memory.lines ≡ Some m → stored texts memory listed ≡ map (own_row texts) (leaves element) }
{}

/// Each memory is one of the module's, where its leaves are those of its ports and have their numbers.
pub fn memories_are_those_of_modules()
    ensures { (texts : Texts) (holder : AModule) (m : TypedModule) → HasTypes holder m → ((c : AComponent) (memory : AMemory) → Contains m.components c → c.declaration.sort ≡ A_memory memory → (element : AType) × (leaves c.typ ≡ leaves (ports_bundle memory element))) → ((k j : ℕ) (c : AComponent) (leaf : TheLeaf) → slice_get m.components k ≡ Some c → slice_get (leaves c.typ) j ≡ Some leaf → number_of m (leaf_of c leaf) ≡ Some (leaves_before m k + j)) → (made : List AGroundMemory) → map memory_row made ≡ memories_in texts (parts_of m) → (k : ℕ) (part : ℕ × AComponent × AMemory) (g : AGroundMemory) → slice_get (memory_parts m.components) k ≡ Some part → slice_get made k ≡ Some g → IsGroundMemory texts m part.0 part.1 part.2 g }
{}
