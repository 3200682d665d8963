//! Runs that go on from a state, and their texts. The functions do nothing.

ghost use Rattle.std.specs.Prelude.{◌≡◌, ℕ, ◌≤◌, List, ◌++◌, All, Option, Some, None};
ghost use Rattle.fir_lexer.specs.Tokens.{AreTokens};
ghost use Rattle.fir_layout.specs.declared.laid.Laid.{Laid as ALaid};
ghost use Rattle.fir_layout.specs.Layout.{tokens_in};
ghost use Rattle.fir_tree.specs.LeafNames.{Texts};
ghost use Rattle.fir_tree.specs.declared.circuit.Circuit.{Circuit as TheCircuit};
ghost use Rattle.fir_tree.specs.declared.scope.Fitted.{Fitted as FittedCircuit};
ghost use Rattle.fir_grammar.specs.Grammar.{IsCircuit};
ghost use Rattle.fir_meaning.specs.Components.{Design, design_of};
ghost use Rattle.fir_meaning.specs.Loops.{HasNoLoop};
ghost use Rattle.fir_meaning.specs.States.{State, SameState};
ghost use Rattle.ground_net.specs.declared.net.Net.{Net as TheNet};
ghost use Rattle.ground_net.specs.declared.net.Ports.{Ports as ThePorts};
ghost use Rattle.circuit_laws.specs.WellFormed.{IsWellFormed};
ghost use Rattle.net_laws.specs.Serves.{Serves};
ghost use Rattle.name_laws.specs.Names.{IsName};
ghost use Rattle.stimulus.specs.declared.stimulus.Stimulus.{Stimulus as TheStimulus};
ghost use Rattle.stimulus.specs.Stimuli.{IsFormed};
ghost use Rattle.circuit_texts.specs.StimulusParts.{first_part, second_part};
ghost use Rattle.trace_print.specs.Trace.{header_of};
ghost use Rattle.circuit_run.specs.Ports.{ArePortsOf};
ghost use Rattle.circuit_run.specs.Traces.{watched_names, IsTraceText};
ghost use Rattle.snapshot_text.specs.declared.fault.StateFault.{StateFault as TheFault};
ghost use Rattle.snapshot_text.specs.declared.snapshot.Snapshot.{Snapshot as TheSnapshot};
ghost use Rattle.snapshot_text.specs.Texts.{most_cycles};
ghost use Rattle.circuit_texts.specs.Held.{IsStateText, IsReadAs, IsFirstStateFault};
ghost use Rattle.circuit_texts.specs.StateTexts.{IsResumedText, IsSavedText};

/// A well formed circuit without a loop has at most one text of a run that goes on from where it begins, under a stimulus.
pub fn resumed_texts_are_one()
    ensures { (texts : Texts) (fitted : FittedCircuit) → IsWellFormed fitted → HasNoLoop (design_of fitted) → (stimulus : TheStimulus) (begin : Option (List ℕ)) (bytes other : List ℕ)
        → IsResumedText texts (design_of fitted) stimulus begin bytes → IsResumedText texts (design_of fitted) stimulus begin other → bytes ≡ other }
{}

/// And at most one text of the state behind such a run.
pub fn saved_texts_are_one()
    ensures { (texts : Texts) (fitted : FittedCircuit) → IsWellFormed fitted → HasNoLoop (design_of fitted) → (stimulus : TheStimulus) (begin : Option (List ℕ)) (bytes other : List ℕ)
        → IsSavedText texts (design_of fitted) stimulus begin bytes → IsSavedText texts (design_of fitted) stimulus begin other → bytes ≡ other }
{}

/// The text of a state is read as that state, where its number of cycles may be read; and a text is read as one state, with one number of
/// cycles and one row of inputs.
pub fn state_texts_are_read_back()
    ensures read { (texts : Texts) (design : Design) (s : State) (snapshot : TheSnapshot) (text : List ℕ) → snapshot.cycle ≤ most_cycles → IsStateText texts design s snapshot text → IsReadAs texts design text s snapshot }
    ensures only { (texts : Texts) (fitted : FittedCircuit) → IsWellFormed fitted → HasNoLoop (design_of fitted) → (text : List ℕ) (s t : State) (snapshot other : TheSnapshot)
        → IsReadAs texts (design_of fitted) text s snapshot → IsReadAs texts (design_of fitted) text t other
        → SameState (design_of fitted) s t × (snapshot.cycle ≡ other.cycle) × (snapshot.inputs ≡ other.inputs) }
{}

/// A text has at most one first fault as a state of such a circuit.
pub fn first_state_faults_are_one()
    ensures { (texts : Texts) (fitted : FittedCircuit) → IsWellFormed fitted → HasNoLoop (design_of fitted) → (text : List ℕ) (fault other : TheFault)
        → IsFirstStateFault texts (design_of fitted) text fault → IsFirstStateFault texts (design_of fitted) text other → fault ≡ other }
{}

/// A text that is read as a state of such a circuit has no first fault, and one with a first fault is read as no state, where the circuit's
/// names are names of a text.
pub fn states_have_no_first_fault()
    ensures names { (texts : Texts) (fitted : FittedCircuit) → IsWellFormed fitted → HasNoLoop (design_of fitted) → All IsName texts → (text : List ℕ) (s : State) (snapshot : TheSnapshot) (fault : TheFault)
        → IsReadAs texts (design_of fitted) text s snapshot → IsFirstStateFault texts (design_of fitted) text fault → ⊥ }
    ensures of_text { (source : List ℕ) (list : List ALaid) (circuit : TheCircuit) → AreTokens source (tokens_in list) → IsCircuit source list circuit → (fitted : FittedCircuit) → IsWellFormed fitted → HasNoLoop (design_of fitted)
        → (text : List ℕ) (s : State) (snapshot : TheSnapshot) (fault : TheFault) → IsReadAs circuit.names (design_of fitted) text s snapshot → IsFirstStateFault circuit.names (design_of fitted) text fault → ⊥ }
{}

/// A run that goes on from no text is one from the state in which all is 0.
pub fn resumed_texts_without_a_state_are_traces()
    ensures traces { (texts : Texts) (design : Design) (stimulus : TheStimulus) (bytes : List ℕ) → IsResumedText texts design stimulus None bytes → IsTraceText texts design stimulus bytes }
    ensures resumed { (texts : Texts) (design : Design) (net : TheNet) → Serves texts design net → (stimulus : TheStimulus) (bytes : List ℕ) → IsTraceText texts design stimulus bytes → IsResumedText texts design stimulus None bytes }
{}

/// The lines of a run under a stimulus are those of its first cycles, and then those of a run under the others that goes on from the state that
/// was saved behind the first ones.
pub fn runs_come_in_two_parts()
    ensures resumed { (texts : Texts) (fitted : FittedCircuit) → IsWellFormed fitted → HasNoLoop (design_of fitted) → (ports : ThePorts) → ArePortsOf texts (design_of fitted) ports → (stimulus : TheStimulus) → IsFormed ports stimulus
        → (begin : Option (List ℕ)) (a : ℕ) → a ≤ stimulus.cycles → (whole front saved back : List ℕ) → IsResumedText texts (design_of fitted) stimulus begin whole
        → IsResumedText texts (design_of fitted) (first_part a stimulus) begin front → IsSavedText texts (design_of fitted) (first_part a stimulus) begin saved
        → IsResumedText texts (design_of fitted) (second_part a stimulus) (Some saved) back
        → (lines : List ℕ) × (back ≡ header_of (watched_names texts (design_of fitted)) ++ lines) × (whole ≡ front ++ lines) }
    ensures traces { (texts : Texts) (fitted : FittedCircuit) → IsWellFormed fitted → HasNoLoop (design_of fitted) → (ports : ThePorts) → ArePortsOf texts (design_of fitted) ports → (stimulus : TheStimulus) → IsFormed ports stimulus
        → (a : ℕ) → a ≤ stimulus.cycles → (whole front saved back : List ℕ) → IsTraceText texts (design_of fitted) stimulus whole
        → IsTraceText texts (design_of fitted) (first_part a stimulus) front → IsSavedText texts (design_of fitted) (first_part a stimulus) None saved
        → IsResumedText texts (design_of fitted) (second_part a stimulus) (Some saved) back
        → (lines : List ℕ) × (back ≡ header_of (watched_names texts (design_of fitted)) ++ lines) × (whole ≡ front ++ lines) }
{}
