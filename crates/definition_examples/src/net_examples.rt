//! Laws of the nets of specs/. The functions do nothing.

ghost use Rattle.std.specs.Prelude.{◌≡◌, ◌⊎◌, ℕ, ◌∷◌, [], ◌-◌, ◌^◌, pos, negsuc, true, false, Some, None};
ghost use Rattle.ground_net.specs.declared.ground.Ground.TheVariants.{Load as A_load, Const as A_constant};
ghost use Rattle.ground_net.specs.Grounds.{value};
ghost use Rattle.ground_net.specs.Cones.{A_watched, A_register, A_memory, InCone, sinks, needs};
ghost use Rattle.ground_net.specs.Reads.{IsOrder};
ghost use Rattle.ground_net.specs.Statements.{live, is_certain};
ghost use Rattle.ground_net.specs.Cycles.{instant_of};
ghost use Rattle.ground_net.specs.Nets.{IsNet};
ghost use Rattle.ground_net.specs.Words.{SaysItsWords, words_of, register_word, memory_word, element_word, captured_word, state_words};
ghost use Rattle.definition_examples.specs.Circuits.{uint, of_readwriter, holding, asking, asked, delayed};
ghost use Rattle.definition_examples.specs.Kept.{keeping, kept_state, pairs};
ghost use Rattle.definition_examples.specs.Needing.{between, of_ports, a_writer, a_reader, a_readwriter, chained};
ghost use Rattle.definition_examples.specs.Writing.{met, registered, sint};
ghost use Rattle.definition_examples.specs.Choosing.{chosen_by, selected_by, sets, sets_leaf, two_arms, lone_arm, sets_where, left_by, nothing_selected, takes, taking_arm, taking_arms, nested};

/// A readwriter whose mode is 1 writes, and reads 0.
pub fn readwriters_write_in_mode_1()
    ensures written { (asked 4 1 1 2).contents 0 2 0 ≡ pos 77 }
    ensures others { (asked 4 1 1 2).contents 0 3 0 ≡ pos 4 }
    ensures read { (asked 4 1 1 2).captured 0 ≡ pos 0 }
{}

/// A readwriter whose mode is 0 reads, and writes nothing.
pub fn readwriters_read_in_mode_0()
    ensures kept { (asked 4 1 0 2).contents 0 2 0 ≡ pos 4 }
    ensures read { (asked 4 1 0 2).captured 0 ≡ pos 4 }
{}

/// A port that is disabled writes nothing and reads 0, whatever was captured before.
pub fn disabled_ports_read_0()
    ensures kept { (asked 4 0 1 2).contents 0 2 0 ≡ pos 4 }
    ensures read { (asked 4 0 0 2).captured 0 ≡ pos 0 }
{}

/// Past the depth nothing is written, and 0 is read and loaded. The address isn't wrapped.
pub fn addresses_past_the_depth_have_nothing()
    ensures kept { (asked 3 1 1 3).contents 0 3 0 ≡ pos 4 }
    ensures first { (asked 3 1 1 3).contents 0 0 0 ≡ pos 4 }
    ensures read { (asked 3 1 0 3).captured 0 ≡ pos 0 }
    ensures loaded { value (A_load 0 0 (A_constant (uint 2 3) ∷ A_constant (uint 1 1) ∷ [])) (instant_of (of_readwriter 3) holding (asking 0 0 0)) ≡ uint 8 0 }
    ensures last { value (A_load 0 0 (A_constant (uint 2 2) ∷ A_constant (uint 1 1) ∷ [])) (instant_of (of_readwriter 3) holding (asking 0 0 0)) ≡ uint 8 4 }
{}

/// There are well formed nets: one with inputs, an assignment, a captured read and a register.
pub fn nets_exist()
    ensures well_formed { IsNet delayed }
    ensures words { SaysItsWords delayed }
    ensures order { IsOrder delayed (2 ∷ []) }
{}

/// The registers come first, then the memories, and then the captured reads; a memory goes element by element, and an element leaf
/// by leaf. Up to 64 bits take one word; more take two, the low one first.
pub fn words_stand_in_flat_order()
    ensures registers_first { words_of keeping kept_state ≡ 11 ∷ 12 ∷ (2 ^ 64 - 1) ∷ (2 ^ 64 - 1) ∷ 1 ∷ 21 ∷ 22 ∷ 23 ∷ 31 ∷ 32 ∷ 33 ∷ 1 ∷ 2 ∷ 3 ∷ 51 ∷ 52 ∷ 53 ∷ [] }
{}

/// Where these words begin.
pub fn words_are_found()
    ensures first { register_word keeping 0 ≡ 0 }
    ensures behind_two { register_word keeping 1 ≡ 2 }
    ensures behind_one { register_word keeping 2 ≡ 3 }
    ensures memory { memory_word keeping 0 ≡ 5 }
    ensures next_memory { memory_word keeping 1 ≡ 11 }
    ensures first_element { element_word keeping 0 pairs 0 1 ≡ 6 }
    ensures next_element { element_word keeping 0 pairs 1 0 ≡ 8 }
    ensures read { captured_word keeping 0 ≡ 14 }
    ensures next_read { captured_word keeping 1 ≡ 15 }
    ensures all { state_words keeping ≡ 17 }
    ensures said { SaysItsWords keeping }
{}

/// The sinks are the watched leaves as they are watched, and then the registers and the memories in flat order, also those without
/// ports and behind the last leaf.
pub fn memories_are_sinks_in_flat_order()
    ensures { sinks between (2 ∷ 1 ∷ []) ≡ A_watched 2 ∷ A_watched 1 ∷ A_register 0 ∷ A_memory 0 ∷ A_register 1 ∷ A_memory 1 ∷ A_memory 2 ∷ [] }
{}

/// A watched leaf needs itself. A register needs its driver, its reset and its `init`; one that has none of them needs nothing, and
/// nor does a memory without ports.
pub fn registers_need_their_resets()
    ensures watched { needs between (A_watched 2) ≡ 2 ∷ [] }
    ensures with_reset { needs between (A_register 0) ≡ 5 ∷ 6 ∷ 7 ∷ [] }
    ensures without { needs between (A_register 1) ≡ [] }
    ensures memory { needs between (A_memory 0) ≡ [] }
{}

/// A memory needs all that its writers show, and of a reader whose data come a cycle later the address and `en`. A reader whose data
/// come at once needs nothing there. Of a readwriter it is all but the data that it reads.
pub fn memories_need_what_ports_show()
    ensures writer { needs (of_ports (a_writer ∷ [])) (A_memory 0) ≡ 10 ∷ 11 ∷ 12 ∷ 13 ∷ 14 ∷ 15 ∷ [] }
    ensures at_once { needs (of_ports (a_reader false ∷ [])) (A_memory 0) ≡ [] }
    ensures later { needs (of_ports (a_reader true ∷ [])) (A_memory 0) ≡ 20 ∷ 21 ∷ [] }
    ensures both { needs (of_ports (a_readwriter true ∷ [])) (A_memory 0) ≡ 30 ∷ 31 ∷ 34 ∷ 35 ∷ 36 ∷ 37 ∷ 38 ∷ [] }
    ensures both_at_once { needs (of_ports (a_readwriter false ∷ [])) (A_memory 0) ≡ 30 ∷ 31 ∷ 34 ∷ 35 ∷ 36 ∷ 37 ∷ 38 ∷ [] }
    ensures all { needs (of_ports (a_reader true ∷ a_reader false ∷ a_writer ∷ [])) (A_memory 0) ≡ 20 ∷ 21 ∷ 10 ∷ 11 ∷ 12 ∷ 13 ∷ 14 ∷ 15 ∷ [] }
{}

/// The cone of a memory is what its writers show, and what that reads: not the address of a reader whose data come at once.
pub fn cones_go_behind_ports()
    ensures address { InCone chained (A_memory 0) 2 }
    ensures behind { InCone chained (A_memory 0) 1 }
    ensures only { (x : ℕ) → InCone chained (A_memory 0) x → (x ≡ 2) ⊎ (x ≡ 1) }
{}

/// Of two readers at an element that is written, one has what stood there before, and the other what is written. Each memory has its
/// own contents and reads.
pub fn reads_stand_before_or_after_writes()
    ensures before { (met 1 1 0 0).captured 1 ≡ pos 5 }
    ensures before_too { (met 1 1 0 0).captured 2 ≡ pos 6 }
    ensures after { (met 1 1 0 0).captured 3 ≡ pos 71 }
    ensures after_too { (met 1 1 0 0).captured 4 ≡ pos 72 }
    ensures after_all { (met 1 1 1 1).captured 3 ≡ pos 81 }
    ensures other_memory { (met 1 1 0 0).captured 0 ≡ pos 3 }
    ensures other_contents { (met 1 1 0 0).contents 0 2 0 ≡ pos 3 }
{}

/// Each leaf of an element has what the later of the ports wrote whose mask for it is 1, and without one it is kept.
pub fn masks_are_leaf_by_leaf()
    ensures first_leaf { (met 1 0 0 0).contents 1 2 0 ≡ pos 71 }
    ensures first_leaf_alone { (met 1 0 0 0).contents 1 2 1 ≡ pos 6 }
    ensures second_leaf { (met 0 1 0 0).contents 1 2 1 ≡ pos 72 }
    ensures second_leaf_alone { (met 0 1 0 0).contents 1 2 0 ≡ pos 5 }
    ensures later_port { (met 1 1 1 1).contents 1 2 0 ≡ pos 81 }
    ensures later_port_where_masked { (met 1 1 0 1).contents 1 2 0 ≡ pos 71 }
    ensures later_leaf { (met 1 1 0 1).contents 1 2 1 ≡ pos 82 }
    ensures other_element { (met 1 1 1 1).contents 1 3 0 ≡ pos 5 }
{}

/// A reset that is 1 takes `init`, whether there is a driver or not; else a driver is taken, and without one the value is kept.
pub fn resets_stand_before_drivers()
    ensures reset_and_driver { (registered 1).registers 0 ≡ negsuc 2 }
    ensures reset_alone { (registered 1).registers 1 ≡ negsuc 2 }
    ensures driver { (registered 0).registers 0 ≡ negsuc 4 }
    ensures kept { (registered 0).registers 1 ≡ pos 6 }
    ensures driver_alone { (registered 1).registers 2 ≡ negsuc 4 }
    ensures neither { (registered 1).registers 3 ≡ pos 6 }
{}

/// A choice takes the value behind the first condition that is 1, and the last item where none is. A condition that is 2 or 3 isn't 1.
pub fn choices_take_the_first_that_is_1()
    ensures first { chosen_by 1 1 1 ≡ uint 8 10 }
    ensures second { chosen_by 2 1 1 ≡ uint 8 20 }
    ensures third { chosen_by 0 3 1 ≡ uint 8 30 }
    ensures none { chosen_by 0 2 0 ≡ uint 8 40 }
{}

/// A selection past its end is 0 of the first item's kind and width, and without an item 0 of no bits.
pub fn selections_end_in_0()
    ensures first { selected_by 0 ≡ sint (negsuc 0) }
    ensures last { selected_by 2 ≡ sint (negsuc 2) }
    ensures past { selected_by 3 ≡ sint (pos 0) }
    ensures empty { nothing_selected ≡ uint 0 0 }
{}

/// Of the connects that happen the last stays, and those of other leaves are nothing to a leaf.
pub fn last_connects_stay()
    ensures last { left_by (sets 10 ∷ sets 20 ∷ []) 0 0 ≡ Some (uint 8 20) }
    ensures others { left_by (sets 10 ∷ sets_leaf 2 50 ∷ []) 0 0 ≡ Some (uint 8 10) }
    ensures others_alone { left_by (sets_leaf 2 50 ∷ sets_leaf 4 50 ∷ []) 0 0 ≡ None }
    ensures all_hold { left_by (sets 10 ∷ sets_where 20 ∷ []) 1 1 ≡ Some (uint 8 20) }
    ensures one_fails { left_by (sets 10 ∷ sets_where 20 ∷ []) 1 0 ≡ Some (uint 8 10) }
    ensures over_when { left_by (two_arms 4 ∷ sets 40 ∷ []) 1 1 ≡ Some (uint 8 40) }
    ensures before_when { left_by (sets 40 ∷ lone_arm 4 ∷ []) 0 0 ≡ Some (uint 8 40) }
    ensures in_when { left_by (sets 40 ∷ lone_arm 4 ∷ []) 1 0 ≡ Some (uint 8 10) }
{}

/// The first arm counts whose condition is 1, and else the `else`.
pub fn first_arms_count()
    ensures first { left_by (two_arms 4 ∷ []) 1 1 ≡ Some (uint 8 10) }
    ensures second { left_by (two_arms 4 ∷ []) 0 1 ≡ Some (uint 8 20) }
    ensures neither { left_by (two_arms 4 ∷ []) 0 2 ≡ Some (uint 8 30) }
{}

/// Conditions around the declaration of a leaf aren't asked: a leaf is declared in the `when` where its number isn't below that of
/// the leaves before it.
pub fn inner_leaves_ask_nothing()
    ensures asked { left_by (lone_arm 4 ∷ []) 0 0 ≡ None }
    ensures directly_in { left_by (lone_arm 3 ∷ []) 0 0 ≡ Some (uint 8 10) }
    ensures further_in { left_by (lone_arm 2 ∷ []) 0 0 ≡ Some (uint 8 10) }
    ensures outer_condition { left_by (nested ∷ []) 0 1 ≡ Some (uint 8 10) }
    ensures inner_condition { left_by (nested ∷ []) 1 0 ≡ None }
{}

/// A connect is live where no later statement is certain: a later connect without conditions, or a `when` with an `else` all of whose
/// blocks are certain.
pub fn covered_connects_are_not_live()
    ensures covered { live 3 (takes 4 ∷ takes 5 ∷ []) ≡ (5 ∷ []) ∷ [] }
    ensures under_condition { live 3 (takes 4 ∷ taking_arm 4 ∷ []) ≡ (4 ∷ []) ∷ (0 ∷ 6 ∷ []) ∷ [] }
    ensures with_conditions { live 3 (takes 4 ∷ sets_where 20 ∷ []) ≡ (4 ∷ []) ∷ (0 ∷ 1 ∷ []) ∷ [] }
    ensures covered_by_when { live 3 (takes 4 ∷ taking_arms 4 ∷ []) ≡ (0 ∷ 6 ∷ []) ∷ (0 ∷ 1 ∷ 7 ∷ []) ∷ (0 ∷ 1 ∷ 8 ∷ []) ∷ [] }
    ensures certain { is_certain 3 (taking_arms 4 ∷ []) ≡ true }
    ensures without_else { is_certain 3 (taking_arm 4 ∷ []) ≡ false }
    ensures conditional { is_certain 3 (sets_where 20 ∷ []) ≡ false }
{}

/// What is taken in an arm reads the conditions of the arm and of those before it, where the leaf stands around the `when`.
pub fn arms_read_the_conditions_before_them()
    ensures around { live 3 (taking_arms 4 ∷ []) ≡ (0 ∷ 6 ∷ []) ∷ (0 ∷ 1 ∷ 7 ∷ []) ∷ (0 ∷ 1 ∷ 8 ∷ []) ∷ [] }
    ensures within { live 3 (taking_arm 3 ∷ []) ≡ (6 ∷ []) ∷ [] }
{}
