//! The laws.

ghost use Rattle.std.specs.Prelude.{◌≡◌, ℕ, ◌++◌, List, map, zip, All};
ghost use Rattle.std.specs.List.{AllZip};
ghost use Rattle.bit_words.specs.declared.value.Value.{Value as AValue};
ghost use Rattle.bit_words.specs.Values.{integer_of};
ghost use Rattle.fir_tree.specs.declared.print.PrintItem.{PrintItem as APrint};
ghost use Rattle.fir_meaning.specs.Components.{Design, FlatLeaf, HasBundles};
ghost use Rattle.fir_meaning.specs.States.{State, Inputs, WatchedTrace};
ghost use Rattle.fir_meaning.specs.Loops.{HasNoLoop, HasLeaves, TakesLeaves};
ghost use Rattle.row_texts.specs.Tellings.{run_text};
ghost use Rattle.print_stop.specs.Logging.{log_telling};
ghost use Rattle.print_stop.specs.Printing.{PathItem, Logs, with_feed};
ghost use Rattle.fir_tree.specs.LeafNames.{Texts};
ghost use Rattle.print_stop.specs.RunItems.{AreItems};
ghost use Rattle.print_stop.specs.Logs.{IsLogOf};
ghost use Rattle.print_stop.specs.Sound.{IsSound, IsOfLeaf, IsOfPrint, all_leaves};

/// Items print one text from a state under given inputs, and end in one way.
pub fn logs_agree()
    ensures { (design : Design) (all : List FlatLeaf) → HasBundles design → HasNoLoop design → HasLeaves design all → TakesLeaves design
        → (items : List PathItem) (nodes : List (List ℕ)) → AllZip (IsSound design) items nodes → (cycle : ℕ) (state : State) (given : List Inputs) (printed other line last : List ℕ)
        → Logs design items cycle state given printed line → Logs design items cycle state given other last → (printed ≡ other) × (line ≡ last) }
{}

/// The rows of a run that is watched at the leaves of its items tell its log: of each item the wire and the nodes of its arguments.
pub fn rows_tell_logs()
    ensures { (design : Design) (items : List PathItem) (nodes : List (List ℕ)) (prints : List APrint) → AllZip (IsSound design) items nodes → AllZip IsOfPrint items prints
        → (cycle : ℕ) (state : State) (given : List Inputs) (rows : List (List AValue)) → All (AllZip (IsOfLeaf design) (all_leaves (zip items nodes))) rows
        → WatchedTrace design (all_leaves (zip items nodes)) state given (map (map integer_of) rows)
        → (printed : List ℕ) × (line : List ℕ) × Logs design items cycle state given printed line × (run_text (log_telling prints) cycle rows ≡ with_feed printed ++ line) }
{}

/// A circuit without a loop has at most one log under given inputs, where the wires and nodes of its items stand in their modules.
pub fn logs_are_one()
    ensures { (texts : Texts) (design : Design) (prints : List APrint) (all : List FlatLeaf) → HasBundles design → HasNoLoop design → HasLeaves design all → TakesLeaves design
        → ((items : List PathItem) → AreItems texts design prints items → (nodes : List (List ℕ)) × AllZip (IsSound design) items nodes)
        → (given : List Inputs) (bytes other : List ℕ) → IsLogOf texts design prints given bytes → IsLogOf texts design prints given other → bytes ≡ other }
{}
