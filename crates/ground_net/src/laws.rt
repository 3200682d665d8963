//! Laws of the definitions. The functions do nothing.

ghost use Rattle.std.specs.Prelude.{◌≡◌, ◌<◌, ℕ, List, Some, length, slice_get};
ghost use Rattle.bit_words.specs.Values.{integer_of};
ghost use Rattle.prim_ops.specs.Values.{fitted};
ghost use Rattle.ground_net.specs.declared.net.NetMemory.{NetMemory as TheMemory};
ghost use Rattle.ground_net.specs.declared.ground.Ground.{Ground as TheGround};
ghost use Rattle.ground_net.specs.declared.net.Net.{Net as TheNet};
ghost use Rattle.ground_net.specs.Grounds.{Instant, value};
ghost use Rattle.ground_net.specs.Reads.{IsOrder, HasNoLoop, MentionsLeaves};
ghost use Rattle.ground_net.specs.Shapes.{Shape, Table, HasShapes, shape, shape_of_value};
ghost use Rattle.ground_net.specs.Cycles.{NetState, Inputs, Valuation, Settled, HasOneSettled, instant_of, next};
ghost use Rattle.ground_net.specs.Nets.{IsNet, IsWithin, table_of, register_shapes, element_shapes, captured_shapes};
ghost use Rattle.ground_net.specs.Words.{words_of, state_words, state_of, AreStateWords};

/// An order of the assignments of a well formed net gives exactly one settled valuation for each state and each inputs.
pub fn one_settled()
    ensures { (net : TheNet) (sequence : List ℕ) → IsNet net → IsOrder net sequence → (s : NetState) (given : Inputs) → HasOneSettled net s given }
{}

/// What an assignment of a well formed net reads is a leaf of the net.
pub fn drivers_mention_leaves()
    ensures { (net : TheNet) → IsNet net → MentionsLeaves net }
{}

/// Where the assignments have an order, no leaf reads itself.
pub fn orders_have_no_loops()
    ensures { (net : TheNet) (sequence : List ℕ) → IsOrder net sequence → HasNoLoop net }
{}

/// A well formed expression has a value of its kind and its width in each cycle.
pub fn values_have_their_shapes()
    ensures { (g : TheGround) (table : Table) (instant : Instant) (s : Shape) → shape g table ≡ Some s → HasShapes table instant → shape_of_value (value g instant) ≡ s }
{}

/// Settled values have the kinds and widths of their leaves, where the assignments of a well formed net have an order.
pub fn settled_values_have_their_shapes()
    ensures { (net : TheNet) (sequence : List ℕ) → IsNet net → IsOrder net sequence → (s : NetState) (given : Inputs) (rho : Valuation) → Settled net s given rho → HasShapes (table_of net) (instant_of net s rho) }
{}

/// The next state of a well formed net is in the ranges of its leaves.
pub fn next_states_are_within()
    ensures { (net : TheNet) → IsNet net → (s : NetState) (instant : Instant) → HasShapes (table_of net) instant → IsWithin net s → IsWithin net (next net s instant) }
{}

/// The state of a state's words has each of its integers, fitted to the leaf that keeps it.
pub fn words_and_back()
    ensures registers { (net : TheNet) (s : NetState) (n : ℕ) (t : Shape) → slice_get (register_shapes net) n ≡ Some t → (state_of net (words_of net s)).registers n ≡ integer_of (fitted t.kind t.width (s.registers n)) }
    ensures contents { (net : TheNet) (s : NetState) (m element k : ℕ) (memory : TheMemory) (t : Shape) → slice_get net.memories m ≡ Some memory → slice_get (element_shapes memory) k ≡ Some t → element < memory.depth → (state_of net (words_of net s)).contents m element k ≡ integer_of (fitted t.kind t.width (s.contents m element k)) }
    ensures captured { (net : TheNet) (s : NetState) (n : ℕ) (t : Shape) → slice_get (captured_shapes net) n ≡ Some t → (state_of net (words_of net s)).captured n ≡ integer_of (fitted t.kind t.width (s.captured n)) }
{}

/// Words within the widths of a net's state are those of the state that they give, which is within its leaves' ranges; and the words of
/// each state are such words.
pub fn words_are_of_states()
    ensures back { (net : TheNet) (words : List ℕ) → AreStateWords net words → words_of net (state_of net words) ≡ words }
    ensures within { (net : TheNet) (words : List ℕ) → IsWithin net (state_of net words) }
    ensures fit { (net : TheNet) (s : NetState) → AreStateWords net (words_of net s) }
    ensures counted { (net : TheNet) (words : List ℕ) → AreStateWords net words → length words ≡ state_words net }
{}
