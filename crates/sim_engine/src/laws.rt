//! Laws of the definitions that the contracts here name. The functions do nothing.

ghost use Rattle.std.specs.Prelude.{◌≡◌, ℕ, List};
ghost use Rattle.fir_tree.specs.declared.circuit.Circuit.{Circuit as ACircuit};
ghost use Rattle.fir_tree.specs.declared.scope.Fitted.{Fitted as AFitted};
ghost use Rattle.fir_layout.specs.declared.laid.Laid.{Laid as ALaid};
ghost use Rattle.fir_meaning.specs.Components.{design_of};
ghost use Rattle.circuit_laws.specs.WellFormed.{IsWellFormed};
ghost use Rattle.sim_engine.specs.Only.{IsOnly};
ghost use Rattle.sim_engine.specs.Stages.{IsLaid, IsFitted, IsAccepted, IsFirstFault};
ghost use Rattle.width_fit.specs.Fitting.{IsFittedCircuit};
ghost use Rattle.sim_engine.specs.declared.fault.CircuitFault.{CircuitFault as AFault};

/// A text has at most one first fault, and none where it passes all stages; it passes them with at most one circuit and one design,
/// and has at most one laid list.
pub fn a_text_is_settled()
    ensures fault { (text : List ℕ) (fault : AFault) → IsFirstFault text fault → IsOnly (IsFirstFault text) fault }
    ensures either { (text : List ℕ) (fault : AFault) (fitted : AFitted) → IsFirstFault text fault → ¬ (IsAccepted text fitted) }
    ensures accepted { (text : List ℕ) (fitted other : AFitted) → IsAccepted text fitted → IsAccepted text other → (fitted.checked.resolved ≡ other.checked.resolved) × (design_of fitted ≡ design_of other) }
    ensures laid { (text : List ℕ) (laid : List ALaid) → IsLaid text laid → IsOnly (IsLaid text) laid }
{}

/// A circuit's fitted types are one, and so are the modules that its main module reaches.
pub fn fitted_types_are_one()
    ensures declared { (circuit : ACircuit) (first second : AFitted) → IsFittedCircuit circuit first → IsFittedCircuit circuit second → first.declared ≡ second.declared }
    ensures nodes { (circuit : ACircuit) (first second : AFitted) → IsFittedCircuit circuit first → IsFittedCircuit circuit second → first.nodes ≡ second.nodes }
    ensures reached { (circuit : ACircuit) (first second : AFitted) → IsFittedCircuit circuit first → IsFittedCircuit circuit second
        → first.checked.scope.reached ≡ second.checked.scope.reached }
{}

/// The circuit of a text that passes the stages up to the widths is well formed, with the types that its least widths give.
pub fn accepted_circuits_are_well_formed()
    ensures { (text : List ℕ) (fitted : AFitted) → IsFitted text fitted → IsWellFormed fitted }
{}
