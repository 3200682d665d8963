//! Laws of the definitions. The functions do nothing.

ghost use Rattle.std.specs.Prelude.{◌≡◌, ◌<◌, ℕ, ◌∷◌, [], ◌++◌, Some, None, true, false, length, slice_get};
ghost use Rattle.bit_words.specs.Values.{integer_of};
ghost use Rattle.prim_ops.specs.Values.{fitted};
ghost use Rattle.prim_ops.specs.Ports.{read_by_port};
ghost use Rattle.ground_net.specs.declared.circuit.FlatCircuit.{FlatCircuit as TheCircuit};
ghost use Rattle.ground_net.specs.declared.circuit.GroundMemory.{GroundMemory as TheGroundMemory};
ghost use Rattle.ground_net.specs.declared.net.Net.{Net as TheNet};
ghost use Rattle.ground_net.specs.declared.net.NetMemory.{NetMemory as TheMemory};
ghost use Rattle.ground_net.specs.declared.net.NetPort.{NetPort as ThePort};
ghost use Rattle.ground_net.specs.declared.net.NetRead.{NetRead as TheRead};
ghost use Rattle.ground_net.specs.declared.net.ElementLeaf.{ElementLeaf as TheElement};
ghost use Rattle.ground_net.specs.declared.net.Role.TheVariants.{Captured};
ghost use Rattle.ground_net.specs.Grounds.{value, mentions};
ghost use Rattle.ground_net.specs.Reads.{IsAssigned, driver_of};
ghost use Rattle.ground_net.specs.Cones.{or_no_leaf};
ghost use Rattle.ground_net.specs.Cycles.{NetState, Valuation, instant_of, shown, captures};
ghost use Rattle.ground_net.specs.Nets.{IsNet, IsWithin, HasRole};
ghost use Rattle.memory_ports.specs.Placing.{load_of, data_of, IsRead, data_in, IsPlaced};
ghost use Rattle.memory_ports.specs.Sound.{IsSound};

/// A load has what its port reads, from what the memory holds at the beginning of the cycle, fitted to the leaf of the element; in
/// a state that is in range it is that integer.
pub fn loads_are_what_ports_read()
    ensures value { (net : TheNet) (s : NetState) (rho : Valuation) (m k : ℕ) (memory : TheMemory) (port : ThePort) (read : TheRead) (element : TheElement) → slice_get net.memories m ≡ Some memory → port.read ≡ Some read → slice_get memory.elements k ≡ Some element → value (load_of m k port) (instant_of net s rho) ≡ fitted element.kind element.width (read_by_port memory.depth (s.contents m) (shown (instant_of net s rho) port) k) }
    ensures integer { (net : TheNet) (s : NetState) (rho : Valuation) (m k : ℕ) (memory : TheMemory) (port : ThePort) (read : TheRead) (element : TheElement) → slice_get net.memories m ≡ Some memory → port.read ≡ Some read → slice_get memory.elements k ≡ Some element → IsWithin net s → integer_of (value (load_of m k port) (instant_of net s rho)) ≡ read_by_port memory.depth (s.contents m) (shown (instant_of net s rho) port) k }
{}

/// A load mentions the port's address, the mode of a readwriter, and `en`.
pub fn loads_mention_their_ports()
    ensures { (m k : ℕ) (port : ThePort) → mentions (load_of m k port) ≡ port.addr ∷ (or_no_leaf port.mode ++ port.en ∷ []) }
{}

/// A leaf of a sound circuit that a port reads shows those data, and a leaf that none reads shows none.
pub fn leaves_show_what_ports_read()
    ensures read { (flat : TheCircuit) → IsSound flat → (m p k x : ℕ) (memory : TheGroundMemory) (port : ThePort) (read : TheRead) → IsRead flat.memories m p k x memory port read → slice_get (data_in flat) x ≡ Some (Some (data_of m k port read)) }
    ensures none { (flat : TheCircuit) (x : ℕ) → x < length flat.leaves → ((m p k : ℕ) (memory : TheGroundMemory) (port : ThePort) (read : TheRead) → IsRead flat.memories m p k x memory port read → ⊥) → slice_get (data_in flat) x ≡ Some None }
{}

/// In the net of a sound circuit the leaf of data of latency 0 is an assignment, and has its load for a driver.
pub fn data_of_the_cycle_are_loads()
    ensures assigned { (flat : TheCircuit) (net : TheNet) → IsPlaced flat net → IsSound flat → (m p k x : ℕ) (memory : TheGroundMemory) (port : ThePort) (read : TheRead) → IsRead flat.memories m p k x memory port read → read.captured ≡ false → IsAssigned net.leaves x }
    ensures driver { (flat : TheCircuit) (net : TheNet) → IsPlaced flat net → IsSound flat → (m p k x : ℕ) (memory : TheGroundMemory) (port : ThePort) (read : TheRead) → IsRead flat.memories m p k x memory port read → read.captured ≡ false → driver_of net x ≡ Some (load_of m k port) }
{}

/// In the net of a sound circuit the leaf of data of latency 1 is a captured read, and has no driver.
pub fn late_data_are_captured()
    ensures captured { (flat : TheCircuit) (net : TheNet) → IsPlaced flat net → IsSound flat → (m p k x : ℕ) (memory : TheGroundMemory) (port : ThePort) (read : TheRead) → IsRead flat.memories m p k x memory port read → read.captured ≡ true → (n : ℕ) × HasRole net x (Captured n) }
    ensures undriven { (flat : TheCircuit) (net : TheNet) → IsPlaced flat net → IsSound flat → (m p k x : ℕ) (memory : TheGroundMemory) (port : ThePort) (read : TheRead) → IsRead flat.memories m p k x memory port read → read.captured ≡ true → driver_of net x ≡ None }
{}

/// In a well formed net the captured read of a leaf is that of the port which names the leaf.
pub fn captured_data_are_captures()
    ensures { (net : TheNet) → IsNet net → (m p k x n : ℕ) (memory : TheMemory) (port : ThePort) (read : TheRead) → slice_get net.memories m ≡ Some memory → slice_get memory.ports p ≡ Some port → port.read ≡ Some read → read.captured ≡ true → slice_get read.leaves k ≡ Some x → HasRole net x (Captured n) → slice_get (captures net) n ≡ Some (record { number = m; memory = memory; port = port; after = read.after; element = k; leaf = x }) }
{}
