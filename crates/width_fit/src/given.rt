//! What is known of a whole circuit's widths.

ghost use Rattle.std.specs.Prelude.{◌≡◌, ℕ, nat_eq, ◌||◌, false, get_or, IfOk, OnOk};
ghost use Rattle.width_fit.specs.Judging.{is_unknown};
ghost use Rattle.width_rules.specs.Sources.{component};
ghost use Rattle.part_fits.specs.Fits.{Fits, AreFits, AreFits-prop};
ghost use Rattle.width_fit.specs.Marks.{Marks};

use crate::instances::fit_of_component;
use fir_tree::Names;
use indexmap::IndexMap;
use part_fits::fits::Fit;
use prim_ops::Width;
use std::alloc::{AllocError, Global};
use width_rules::Rule;
use width_rules::indexed::Indexed;
use width_rules::measuring::{look_up, no_component};
use width_rules::slot::Slot;

/// The components of the modules' instances, by the names of the modules, and their fitted types.
#[derive(Drop)]
pub struct Instances {
    pub components: IndexMap<u32, Indexed>,
    pub fits: IndexMap<u32, Fit>,
}

/// The names, the widths of the variables, the rules, and the instances of modules.
#[derive(Drop)]
pub struct Given<'a> {
    pub names: &'a Names,
    pub widths: &'a [Width],
    pub rules: &'a [Rule],
    pub instances: Instances,
    /// For each variable whether it is the target of a rule. It may be shorter than the widths.
    marks: Vec<bool>,
    ghost marked: { Marks rules.now marks.items },
    ghost fitted: { AreFits widths.now instances.components.entries instances.fits.entries } by { AreFits-prop widths.now instances.components.entries instances.fits.entries },
}

impl<'a> Given<'a> {
    /// Takes time and memory in proportion to the rules and the variables.
    pub fn new(
        alloc: Global,
        names: &'a Names,
        widths: &'a [Width],
        rules: &'a [Rule],
        instances: Instances,
    ) -> Result<Given<'a>, AllocError>
        requires { AreFits widths.now instances.components.entries instances.fits.entries }
        ensures widths { IfOk result (λ given. given.widths.now ≡ widths.now) }
        ensures rules { IfOk result (λ given. given.rules.now ≡ rules.now) }
        ensures instances { IfOk result (λ given. given.instances ≡ instances) }
    {
        let marks = marks_of(alloc, rules)?;
        Ok(Given {
            names,
            widths,
            rules,
            instances,
            marks,
        })
    }

    /// The fitted type of an instance of the module of this name, which all instances of the module share.
    pub fn fit_of_instance(&self, alloc: Global, target: u32) -> Result<Fit, AllocError>
        ensures { IfOk result (λ fit. Fits self.now.widths.now (component self.now.instances.components.entries target) fit.typ fit.is_over) }
    {
        if let Some(fit) = self.instances.fits.get(&target) {
            return fit.share();
        }
        let nothing = no_component(alloc)?;
        let component = look_up(&self.instances.components, target, &nothing);
        fit_of_component(alloc, self.widths, component)
    }

    /// Whether the place has a variable that no rule has as its target.
    pub fn is_unknown(&self, slot: Slot) -> bool
        ensures { result ≡ is_unknown self.now.rules.now slot }
    {
        match slot {
            Slot::Fixed(_) => false,
            Slot::Var(variable) => !is_marked(self.marks.as_slice(), variable),
        }
    }
}

fn is_marked(marks: &[bool], variable: u32) -> bool
    ensures { result ≡ get_or marks.now variable false }
{
    match marks.get(variable as usize) {
        Some(mark) => *mark,
        None => false,
    }
}

fn marks_of(alloc: Global, rules: &[Rule]) -> Result<Vec<bool>, AllocError>
    ensures { IfOk result (λ marks. Marks rules.now marks.items) }
{
    let mut marks = Vec::new(alloc);
    for rule in rules {
        mark(&mut marks, rule.target as usize)?;
    }
    Ok(marks)
}

/// Marks a variable.
fn mark(marks: &mut Vec<bool>, at: usize) -> Result<(), AllocError>
    ensures { OnOk result ((x : ℕ) → get_or marks.new.items x false ≡ (nat_eq at x || get_or marks.old.items x false)) }
{
    while marks.len() <= at {
        marks.push(false)?;
    }
    marks[at] = true;
    Ok(())
}
