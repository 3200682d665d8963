//! The script of a table, by a name in the types.

ghost use Rattle.phase_core.specs.declared.model.Script.{Script};
ghost use Rattle.register_table.specs.Idle.{idle_script};

use std::marker::Brand;

/// The name of a script. A program passes `Brand`, and the proof of the call picks the script there.
pub trait Plan {
    ghost script: { Script };
}

impl Plan for Brand {
    ghost script = { idle_script };
}
