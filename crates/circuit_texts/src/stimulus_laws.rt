//! Laws of stimuli in two parts. The functions do nothing.

ghost use Rattle.std.specs.Prelude.{◌≡◌, ℕ, ◌+◌, ◌-◌, ◌≤◌, List, ◌++◌, AllPairs, map};
ghost use Rattle.bit_words.specs.declared.value.Value.{Value};
ghost use Rattle.ground_net.specs.declared.net.Ports.{Ports};
ghost use Rattle.ground_net.specs.Watching.{AreValuesOf};
ghost use Rattle.stimulus.specs.declared.stimulus.Stimulus.{Stimulus};
ghost use Rattle.stimulus.specs.declared.stimulus.Setting.{Setting};
ghost use Rattle.stimulus.specs.Stimuli.{IsFormed};
ghost use Rattle.stimulus.specs.Rows.{zero_of};
ghost use Rattle.stimulus.specs.Rows as whole;
ghost use Rattle.circuit_texts.specs.StimulusParts.{row_from, rows_from, last_row, first_settings, second_settings, first_part, second_part};

/// The rows of a whole stimulus are those of its first cycles, and then those of its other cycles, where the inputs begin with the values that
/// they have after the first ones.
pub fn rows_come_in_two_parts()
    ensures { (a b : ℕ) (start : List Value) (settings : List Setting) → AllPairs (λ x y. x.cycle ≤ y.cycle) settings
        → rows_from start settings 0 (a + b) ≡ rows_from start (first_settings a settings) 0 a ++ rows_from (row_from start (first_settings a settings) (a - 1)) (second_settings a settings) 0 b }
{}

/// Both parts of a well formed stimulus are well formed, and after the first one there are values of the inputs again.
pub fn parts_are_formed()
    ensures first { (ports : Ports) (stimulus : Stimulus) (a : ℕ) → IsFormed ports stimulus → a ≤ stimulus.cycles → IsFormed ports (first_part a stimulus) }
    ensures second { (ports : Ports) (stimulus : Stimulus) (a : ℕ) → IsFormed ports stimulus → a ≤ stimulus.cycles → IsFormed ports (second_part a stimulus) }
    ensures values { (ports : Ports) (stimulus : Stimulus) (start : List Value) (cycle : ℕ) → IsFormed ports stimulus → AreValuesOf ports.inputs start → AreValuesOf ports.inputs (row_from start stimulus.settings cycle) }
{}

/// Rows that begin with zeros are those of the stimulus alone.
pub fn rows_begin_with_zeros()
    ensures { (ports : Ports) (settings : List Setting) (first count : ℕ) → rows_from (map zero_of ports.inputs) settings first count ≡ whole.rows_from ports settings first count }
{}
