//! Laws of the rules of widths. The functions do nothing.

ghost use Rattle.std.specs.Prelude.{◌≡◌, ◌≤◌, ℕ, List, length, get_or};
ghost use Rattle.prim_ops.specs.declared.widths.Width.{Width as TheWidth};
ghost use Rattle.prim_ops.specs.declared.widths.Width.TheVariants.{Bits as bits_width};
ghost use Rattle.fir_tree.specs.declared.circuit.Circuit.{Circuit as ACircuit};
ghost use Rattle.width_rules.specs.declared.rule.Formula.{Formula as AFormula};
ghost use Rattle.width_rules.specs.declared.rule.Rule.{Rule as ARule};
ghost use Rattle.width_rules.specs.Formulas.{level, width_under};
ghost use Rattle.width_rules.specs.Solutions.{AreRules, IsWidth, AtOrBelow, IsLeast};
ghost use Rattle.width_rules.specs.Circuits.{rules_in};

/// The width of a formula is 0 to 128 bits or `Over`, where those of the variables are, and it grows with them.
pub fn formulas_are_monotone()
    ensures width { (widths : List TheWidth) → ((k : ℕ) → IsWidth (get_or widths k (bits_width 0))) → (formula : AFormula) → IsWidth (width_under formula widths) }
    ensures grows { (v w : List TheWidth) → ((k : ℕ) → IsWidth (get_or w k (bits_width 0))) → AtOrBelow v w → (formula : AFormula) → level (width_under formula v) ≤ level (width_under formula w) }
{}

/// Rules have one least assignment at most.
pub fn least_widths_are_one()
    ensures { (rules : List ARule) (count : ℕ) (first second : List TheWidth) → IsLeast rules count first → IsLeast rules count second → first ≡ second }
{}

/// Rules over finitely many variables have a least assignment, and so have those of every circuit: some widths of 0 to 128 bits or
/// `Over` meet all rules, and are at or below all others that do.
pub fn least_widths_exist()
    ensures rules { (count : ℕ) (rules : List ARule) → AreRules count rules → (widths : List TheWidth) × IsLeast rules count widths }
    ensures circuits { (circuit : ACircuit) → (widths : List TheWidth) × IsLeast (rules_in circuit).rules (length (rules_in circuit).places) widths }
{}
