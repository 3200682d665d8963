//! The rules that a walk has found.

ghost use Rattle.std.specs.Prelude.{◌≡◌, ◌++◌, ◌∷◌, [], OnOk};

use bit_words::List;
use std::alloc::{AllocError, Global};
use width_rules::Rule;
use width_rules::sizes::MOST_UNITS;

/// Rules as they are found, and what they take in units of 40 bytes.
#[derive(Drop)]
pub struct FoundRules {
    pub items: List<Rule>,
    units: usize,
}

impl FoundRules {
    /// No rules.
    pub fn new(alloc: Global) -> FoundRules
        ensures { result.items ≡ [] }
    {
        FoundRules {
            items: List::new(alloc),
            units: 0,
        }
    }

    /// Adds a rule, whose formula takes so many units besides itself. Too many are a want of memory.
    pub fn push(&mut self, rule: Rule, units: usize) -> Result<(), AllocError>
        ensures { OnOk result (self.new.items ≡ self.old.items ++ rule ∷ []) }
    {
        let units = self.units.saturating_add(units).saturating_add(1);
        if units > MOST_UNITS {
            return Err(AllocError);
        }
        self.units = units;
        self.items.push(rule)
    }
}
