//! References as keys.

ghost use Rattle.std.specs.Prelude.{◌≡◌, map, IfOk};
ghost use Rattle.width_rules.specs.Sources.{suffix_step};
ghost use Rattle.part_fits.specs.Seen.{step_to};

use fir_tree::Suffix;
use std::alloc::{AllocError, Global};

/// A step of a reference: to the field of this name, or to an element. All elements of a vector have the same type and widths.
#[derive(Clone, Copy, PartialEq, Eq, PartialOrd, Ord)]
pub enum Step {
    Field(u32),
    Element,
}

/// The name of a component, and the steps from there to a part of it.
#[derive(PartialEq, Eq, PartialOrd, Ord, Drop)]
pub struct Reference {
    pub name: u32,
    pub steps: Vec<Step>,
}

/// The key of a reference.
pub fn key_of(alloc: Global, name: u32, suffixes: &[Suffix]) -> Result<Reference, AllocError>
    ensures name { IfOk result (λ key. key.name ≡ name) }
    ensures steps { IfOk result (λ key. map step_to key.steps.items ≡ map suffix_step suffixes.now) }
{
    let mut steps = Vec::with_capacity(alloc, suffixes.len())?;
    for suffix in suffixes {
        steps.push(step_of(suffix))?;
    }
    Ok(Reference { name, steps })
}

fn step_of(suffix: &Suffix) -> Step
    ensures { step_to result ≡ suffix_step suffix.now }
{
    match suffix {
        Suffix::Field(name) => Step::Field(name.id),
        Suffix::At(_, _, _) | Suffix::Index(_, _) => Step::Element,
    }
}
