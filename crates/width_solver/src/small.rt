//! Small rules: no formula has an operation inside another one.

ghost use Rattle.std.specs.Prelude.{◌≡◌, ◌<◌, ◌∷◌, [], length, All, IfOk};
ghost use Rattle.width_rules.specs.Formulas.{IsFormula};
ghost use Rattle.width_rules.specs.Solutions.{AreRules};
ghost use Rattle.width_solver.specs.Small.{AskTheSame, Replaces};

use bit_words::{List, Shared};
use std::alloc::{AllocError, Global};
use width_rules::{Formula, Rule};

/// Small rules over this many variables.
#[derive(Drop)]
pub struct Small {
    pub rules: Vec<Rule>,
    pub count: u32,
}

/// Whether each formula is small as it stands.
pub fn are_small(rules: &[Rule]) -> bool {
    for rule in rules {
        if !is_small(&rule.formula) {
            return false;
        }
    }
    true
}

fn is_small(formula: &Formula) -> bool {
    match formula {
        Formula::Fixed(_) | Formula::Var(_) => true,
        Formula::Op(_, _, parts, _) | Formula::Greatest(parts) => {
            parts.as_slice().iter().all(|part| is_leaf(part))
        }
    }
}

fn is_leaf(formula: &Formula) -> bool {
    match formula {
        Formula::Fixed(_) | Formula::Var(_) => true,
        Formula::Op(_, _, _, _) | Formula::Greatest(_) => false,
    }
}

/// Small rules that ask the same of the first variables: an operation inside another one has a variable of its own, and the
/// rule that the variable is at least its width.
///
/// Takes time and memory in proportion to the formulas. More variables than fit a `u32` are a want of memory.
pub fn small_rules(alloc: Global, rules: &[Rule], count: usize) -> Result<Small, AllocError>
    requires { AreRules count rules.now }
    ensures { IfOk result (λ small. AskTheSame count rules.now small.count small.rules.items) }
{
    let Ok(first) = u32::try_from(count) else {
        return Err(AllocError);
    };
    let mut small = Small {
        rules: Vec::new(alloc),
        count: first,
    };
    for rule in rules {
        let formula = small_formula(alloc, &mut small, &rule.formula)?;
        small.rules.push(Rule {
            target: rule.target,
            formula,
        })?;
    }
    Ok(small)
}

/// A formula over variables for the operations inside it.
#[cycle(small)]
fn small_formula(alloc: Global, small: &mut Small, formula: &Formula) -> Result<Formula, AllocError>
    requires fits { IsFormula small.old.count formula.now }
    ensures { IfOk result (λ whole. Replaces (formula.now ∷ []) small.old.count small.old.rules.items small.new.count small.new.rules.items (whole ∷ [])) }
{
    match formula {
        Formula::Fixed(bits) => Ok(Formula::Fixed(*bits)),
        Formula::Var(variable) => Ok(Formula::Var(*variable)),
        Formula::Op(prim, kinds, parts, params) => {
            let leaves = leaves_of(alloc, small, parts.as_slice())?;
            let kinds = kinds.share()?;
            let params = params.share()?;
            let operands = Shared::new(alloc, leaves)?;
            Ok(Formula::Op(*prim, kinds, operands, params))
        }
        Formula::Greatest(parts) => {
            let leaves = leaves_of(alloc, small, parts.as_slice())?;
            let operands = Shared::new(alloc, leaves)?;
            Ok(Formula::Greatest(operands))
        }
    }
}

/// Variables or numbers for the operands of an operation.
#[cycle(small)]
fn leaves_of(
    alloc: Global,
    small: &mut Small,
    parts: &[Formula],
) -> Result<List<Formula>, AllocError>
    requires fits { All (IsFormula small.old.count) parts.now }
    ensures { IfOk result (λ leaves. Replaces parts.now small.old.count small.old.rules.items small.new.count small.new.rules.items leaves) }
{
    let mut leaves = List::new(alloc);
    for part in parts {
        let whole = small_formula(alloc, small, part)?;
        let leaf = leaf_of(small, whole)?;
        leaves.push(leaf)?;
    }
    Ok(leaves)
}

/// A variable that is at least a formula, or the formula itself where it is a variable or a number.
fn leaf_of(small: &mut Small, formula: Formula) -> Result<Formula, AllocError>
    requires fits { IsFormula small.old.count formula }
    ensures { IfOk result (λ leaf. Replaces (formula ∷ []) small.old.count small.old.rules.items small.new.count small.new.rules.items (leaf ∷ [])) }
{
    if is_leaf(&formula) {
        return Ok(formula);
    }
    let target = small.count;
    let Some(count) = target.checked_add(1) else {
        return Err(AllocError);
    };
    small.count = count;
    small.rules.push(Rule { target, formula })?;
    Ok(Formula::Var(target))
}
