//! Examples of the flat size, and of what memories have. The functions do nothing.

ghost use Rattle.std.specs.Prelude.{◌≡◌};
ghost use Rattle.fir_tree.specs.LeafNames.{Texts};
ghost use Rattle.fir_tree.specs.declared.stmt.Stmt.TheVariants as stmt;
ghost use Rattle.size_check.specs.Owns.{stmt_own, module_own, captured};
ghost use Rattle.size_laws.specs.Samples.{types, else_when, otherwise, by_index, register, memory, inside, around, both};

/// A statement in an `else when` stands under the conditions before it as well, and so does one in an `else`: the `when` with two
/// conditions has 3, and `skip` behind both of them 3; with one condition they have 2 each.
pub fn arms_stand_under_the_conditions_before()
    ensures else_when { (texts : Texts) → (stmt_own texts types else_when 0).size ≡ 6 }
    ensures otherwise { (texts : Texts) → (stmt_own texts types otherwise 0).size ≡ 4 }
{}

/// In `connect o, v[w[0]]` the index's own nodes and leaves count: 6 times the five leaves of `w`.
pub fn indices_count_with_their_leaves()
    ensures { (texts : Texts) → (stmt_own texts types by_index 0).size ≡ 30 }
{}

/// An instance counts with the leaves of its bundle, and has none of its own.
pub fn instances_count_with_their_bundles()
    ensures size { (texts : Texts) → (module_own texts both around).size ≡ 3 }
    ensures leaves { (texts : Texts) → (module_own texts both around).leaves ≡ 0 }
    ensures inside { (texts : Texts) → (module_own texts both inside).size ≡ 3 }
{}

/// A register counts with its clock, times its leaves, each of which has two words.
pub fn registers_count_with_their_clocks()
    ensures size { (texts : Texts) → (stmt_own texts types register 0).size ≡ 6 }
    ensures leaves { (texts : Texts) → (stmt_own texts types register 0).leaves ≡ 3 }
    ensures words { (texts : Texts) → (stmt_own texts types register 0).words ≡ 6 }
{}

/// Elements of memories have two words for each leaf, and where reads come a cycle later each port that reads has two more: a reader
/// and a readwriter, and no writer.
pub fn captured_reads_have_words()
    ensures late { (texts : Texts) → (stmt_own texts types (stmt.Mem (memory 1)) 0).words ≡ 12 }
    ensures at_once { (texts : Texts) → (stmt_own texts types (stmt.Mem (memory 0)) 0).words ≡ 8 }
{}
