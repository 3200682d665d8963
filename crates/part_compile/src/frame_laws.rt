//! Laws of frames, and what the definitions say of small nets. The functions do nothing.

ghost use Rattle.std.specs.Prelude.{◌≡◌, ℕ, ◌≤◌, ◌*◌, ◌++◌, max, true, false, length, filter, flat_map, List, [], ◌∷◌, Some, None, slice_get, Option, Contains, ◌<◌, All};
ghost use Rattle.ground_net.specs.declared.ground.Ground.{Ground as TheGround};
ghost use Rattle.ground_net.specs.declared.net.Net.{Net as TheNet};
ghost use Rattle.ground_net.specs.declared.net.NetRegister.{NetRegister as TheRegister};
ghost use Rattle.ground_net.specs.declared.net.CutPart.{CutPart as ThePart};
ghost use Rattle.ground_net.specs.Reads.{direct_reads, driver_of};
ghost use Rattle.ground_net.specs.Cones.{A_register, A_memory};
ghost use Rattle.partition_code.specs.Codes.{sinks_of_part};
ghost use Rattle.cone_cutter.specs.Examples.{crossing};
ghost use Rattle.flat_code.specs.declared.code.Code.{Code as TheCode};
ghost use Rattle.flat_code.specs.Codes.{frame_length};
ghost use Rattle.flat_code.specs.Fine.{among, slots_of};
ghost use Rattle.code_draft.specs.declared.draft.Draft.{Draft as TheDraft};
ghost use Rattle.code_draft.specs.declared.sources.Sources.{Sources as TheSources};
ghost use Rattle.code_emit.specs.Counts.{tips};
ghost use Rattle.code_emit.specs.Spans.{leaf_slots, Evaluates};
ghost use Rattle.partition_code.specs.Sequences.{driver_in};
ghost use Rattle.partition_code.specs.Segmented.{InSegments};
ghost use Rattle.ground_net.specs.Grounds.{mentions};
ghost use Rattle.code_memories.specs.Nexts.{next_ground};
ghost use Rattle.ground_net.specs.Nets.{IsPort};
ghost use Rattle.ground_net.specs.declared.net.NetMemory.{NetMemory as TheMemory};
ghost use Rattle.ground_net.specs.declared.net.NetPort.{NetPort as ThePort};
ghost use Rattle.code_memories.specs.WriteGroups.{IsWriteGroup};
ghost use Rattle.code_memories.specs.Groups.{IsCaptureGroup};
ghost use Rattle.code_draft.specs.Pieces.{StandsIn, AssignsPieces, AddsPieces};
ghost use Rattle.code_place.specs.Live.{most_live_of};
ghost use Rattle.part_compile.specs.SlotBounds.{live_behind, most_assignments, most_nodes, frame_bound, sink_nodes, memory_nodes, sinks_read, sinks_nodes, assignment_nodes};
ghost use Rattle.part_compile.specs.Examples.{chain, whole_chain, gathering, whole_gathering, gathering_alone, resetting, memory, port, writes, reads};
ghost use Rattle.part_compile.specs.Pieces.{Once, GroupFits, HasDrivers, InPieces};

/// Of a code of a part in pieces no more slots are live at once than two for each assignment that is live at once and two for each
/// node of the largest driver. So the frame of a code that is placed in as many slots, or in some number that is no greater than this
/// bound, is no longer, where each assignment has a driver.
pub fn frames_are_few()
    ensures live { (net : TheNet) (watch : List ℕ) (part : ThePart) (code : TheCode) → InPieces net watch part code → most_live_of code ≤ frame_bound net watch part }
    ensures placed { (net : TheNet) (watch : List ℕ) (part : ThePart) (code placed : TheCode) (most : ℕ) → HasDrivers net part → InPieces net watch part code → most ≤ frame_bound net watch part → placed.slots ≤ max most (max 1 (most_live_of code)) → placed.slots ≤ code.slots → frame_length placed ≤ frame_bound net watch part }
{}

/// Behind each position of a part's sequence, two slots for each assignment that stands at or before it and that a sink or an assignment
/// behind it reads directly are no more than the code of the part may take.
pub fn live_assignments_have_room()
    ensures { (net : TheNet) (watch : List ℕ) (part : ThePart) (done rest : List ℕ) → done ++ rest ≡ part.assignments → 2 * length (filter (among (sinks_read net watch part ++ flat_map (direct_reads net) rest)) done) ≤ frame_bound net watch part }
{}

/// The code of a part is in pieces, where its assignments have one each in turn and its sinks add some behind, over slots in which the
/// values of the assignments stand, and it has no slots but theirs and shows such slots.
pub fn drafts_are_pieces()
    ensures { (net : TheNet) (watch : List ℕ) (part : ThePart) (code : TheCode) (locations : ℕ → List ℕ) (start mid last : TheDraft) → ((x : ℕ) → length (locations x) ≤ 2) → start.instrs ≡ [] → start.slots ≡ 0 → AssignsPieces locations (direct_reads net) (assignment_nodes net) part.assignments start mid → AddsPieces locations part.assignments (sinks_read net watch part) (sinks_nodes net watch part) mid last → code.instrs ≡ last.instrs → code.ports ≡ last.ports → code.wides ≡ last.wides → code.slots ≡ last.slots → ((k : ℕ) → among (slots_of code.shown) k ≡ true → StandsIn locations part.assignments (sinks_read net watch part) k) → InPieces net watch part code }
{}

/// Assignments that have segments in turn have pieces in turn, where each stands once, no leaf is found in the frame before, and each
/// reads what its driver mentions and has as many nodes as its driver has tips.
pub fn turns_are_pieces()
    ensures { (drivers : List (Option TheGround)) (reads : ℕ → List ℕ) (counts : ℕ → ℕ) (leaves : List ℕ) (S T : TheSources) (old new : TheDraft) → ((x : ℕ) (g : TheGround) → driver_in drivers x ≡ Some g → ((y : ℕ) → Contains (mentions g) y → Contains (reads x) y) × (tips g ≤ counts x)) → InSegments drivers leaves S old T new → ((y k : ℕ) → among (leaf_slots S y) k ≡ true → ⊥) → Once leaves → ((y : ℕ) → Contains leaves y → y < length S.leaves) → AssignsPieces (leaf_slots T) reads counts leaves old new }
{}

/// Groups of expressions that are evaluated and not kept are pieces, where each group fits.
pub fn groups_are_pieces()
    ensures { (S : TheSources) (earlier read counts : List ℕ) (groups : List (List TheGround)) (old new : TheDraft) → ((y k : ℕ) → among (leaf_slots S y) k ≡ true → Contains earlier y) → Evaluates S groups old new → All (GroupFits S read counts) groups → AddsPieces (leaf_slots S) earlier read counts old new }
{}

/// What a register holds next fits, where its own leaf isn't in the frame, and so do the leaves of each write of a memory and
/// what each of its captured reads shows next.
pub fn sinks_fit()
    ensures register { (net : TheNet) (watch : List ℕ) (part : ThePart) (S : TheSources) (n : ℕ) (register : TheRegister) → Contains (sinks_of_part net watch part) (A_register n) → slice_get net.registers n ≡ Some register → ((k : ℕ) → among (leaf_slots S register.leaf) k ≡ true → ⊥) → GroupFits S (sinks_read net watch part) (sinks_nodes net watch part) (next_ground register (driver_of net register.leaf) ∷ []) }
    ensures capture { (net : TheNet) (watch : List ℕ) (part : ThePart) (S : TheSources) (m : ℕ) (gs : List TheGround) → Contains (sinks_of_part net watch part) (A_memory m) → ((p : ℕ) (memory : TheMemory) (port : ThePort) → slice_get net.memories m ≡ Some memory → slice_get memory.ports p ≡ Some port → IsPort net memory port) → IsCaptureGroup net m gs → GroupFits S (sinks_read net watch part) (sinks_nodes net watch part) gs }
    ensures write { (net : TheNet) (watch : List ℕ) (part : ThePart) (S : TheSources) (m : ℕ) (gs : List TheGround) → Contains (sinks_of_part net watch part) (A_memory m) → IsWriteGroup net m gs → GroupFits S (sinks_read net watch part) (sinks_nodes net watch part) gs }
{}

/// A part with an assignment that has a driver, or with a register, has a driver with nodes.
pub fn drivers_have_nodes()
    ensures assignment { (net : TheNet) (watch : List ℕ) (part : ThePart) (x : ℕ) (driver : TheGround) → Contains part.assignments x → driver_of net x ≡ Some driver → 1 ≤ most_nodes net watch part }
    ensures register { (net : TheNet) (watch : List ℕ) (part : ThePart) (k : ℕ) (register : TheRegister) → Contains (sinks_of_part net watch part) (A_register k) → slice_get net.registers k ≡ Some register → 1 ≤ most_nodes net watch part }
{}

/// A part of nothing has no slots.
pub fn empty_parts_take_nothing()
    ensures { (net : TheNet) (watch : List ℕ) → frame_bound net watch (record { sinks = []; assignments = [] }) ≡ 0 }
{}

/// In a chain one assignment is live at a time: only the next one reads it.
pub fn chains_keep_one_assignment()
    ensures first { live_behind chain (3 ∷ []) whole_chain 0 ≡ 1 ∷ [] }
    ensures second { live_behind chain (3 ∷ []) whole_chain 1 ≡ 2 ∷ [] }
    ensures last { live_behind chain (3 ∷ []) whole_chain 2 ≡ 3 ∷ [] }
    ensures live { most_assignments chain (3 ∷ []) whole_chain ≡ 1 }
    ensures nodes { most_nodes chain (3 ∷ []) whole_chain ≡ 2 }
    ensures bound { frame_bound chain (3 ∷ []) whole_chain ≡ 6 }
{}

/// Assignments are live until the last one that reads them, and those that a sink reads to the end.
pub fn read_assignments_stay()
    ensures gathered { live_behind gathering (4 ∷ []) whole_gathering 2 ≡ 1 ∷ 2 ∷ 3 ∷ [] }
    ensures held { live_behind gathering (4 ∷ []) whole_gathering 3 ≡ 1 ∷ 4 ∷ [] }
    ensures shown { live_behind gathering (4 ∷ []) gathering_alone 3 ≡ 4 ∷ [] }
    ensures live { most_assignments gathering (4 ∷ []) whole_gathering ≡ 3 }
    ensures nodes { most_nodes gathering (4 ∷ []) whole_gathering ≡ 4 }
{}

/// A register's reset and `init` count with its driver; a register that nothing drives has its own leaf.
pub fn registers_count_their_resets()
    ensures driven { sink_nodes resetting (A_register 0) ≡ 5 ∷ [] }
    ensures kept { sink_nodes resetting (A_register 1) ≡ 1 ∷ [] }
    ensures most { most_nodes resetting [] (record { sinks = 0 ∷ 1 ∷ []; assignments = 1 ∷ [] }) ≡ 5 }
    ensures crossed { frame_bound crossing.net (2 ∷ []) (record { sinks = 0 ∷ 2 ∷ []; assignments = 2 ∷ 6 ∷ [] }) ≡ 10 }
{}

/// A write counts its leaves, and a captured read what it shows next; what is read at once counts nothing.
pub fn memories_count_writes_and_captures()
    ensures writer { memory_nodes 0 (memory (port None writes None ∷ [])) ≡ 4 ∷ [] }
    ensures readwriter { memory_nodes 0 (memory (port (Some 2) writes None ∷ [])) ≡ 5 ∷ [] }
    ensures captured { memory_nodes 0 (memory (port None None (reads true false) ∷ [])) ≡ 6 ∷ [] }
    ensures at_once { memory_nodes 0 (memory (port None None (reads false false) ∷ [])) ≡ [] }
    ensures after { memory_nodes 0 (memory (port None writes None ∷ port None None (reads true true) ∷ [])) ≡ 4 ∷ 22 ∷ [] }
{}
