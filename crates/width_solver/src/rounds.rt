//! Rounds through the rules that wait.

ghost use Rattle.std.specs.Prelude.{◌≡◌, ◌++◌, ◌<◌, ◌∷◌, [], ◌⊎◌, ℕ, List, length, All, IfOk, OnOk};
ghost use Rattle.width_rules.specs.Solutions.{AreRules, IsRule};
ghost use Rattle.width_solver.specs.Readers.{AreReaders};
ghost use Rattle.width_solver.specs.Rounds.{total, Raises, Wakes, Stands, Rises};

use crate::formula::width_of_formula;
use bit_words::List;
use prim_ops::Width;
use std::alloc::{AllocError, Global};
use width_rules::Rule;
use width_rules::widths::level;

/// Looks at the rules that wait, and gives those that wait then.
pub fn go_round(
    alloc: Global,
    rules: &[Rule],
    readers: &[List<usize>],
    pending: &[usize],
    widths: &mut Vec<Width>,
    waits: &mut Vec<bool>,
) -> Result<Vec<usize>, AllocError>
    requires rules { AreRules (length readers.now) rules.now }
    requires readers { AreReaders rules.now (length readers.now) (length rules.now) readers.now }
    requires stands { Stands rules.now (length readers.now) pending.now widths.old.items waits.old.items }
    ensures stands { IfOk result (λ next. Stands rules.now (length readers.now) next.items widths.new.items waits.new.items) }
    ensures rises { IfOk result (λ next. Rises widths.old.items widths.new.items next.items) }
{
    let mut next = Vec::new(alloc);
    for number in pending {
        look(rules, readers, *number, widths, waits, &mut next)?;
    }
    Ok(next)
}

/// Looks at a rule, and lets those wait that read what it raised.
fn look(
    rules: &[Rule],
    readers: &[List<usize>],
    number: usize,
    widths: &mut Vec<Width>,
    waits: &mut Vec<bool>,
    next: &mut Vec<usize>,
) -> Result<(), AllocError>
    requires rules { AreRules (length readers.now) rules.now }
    requires readers { AreReaders rules.now (length readers.now) (length rules.now) readers.now }
    requires number { number < length rules.now }
    requires counted { length waits.old.items ≡ length rules.now }
    requires widths { length widths.old.items ≡ length readers.now }
    ensures stands { OnOk result ((rest : List ℕ) → Stands rules.now (length readers.now) (number ∷ rest ++ next.old.items) widths.old.items waits.old.items
        → Stands rules.now (length readers.now) (rest ++ next.new.items) widths.new.items waits.new.items) }
    ensures rises { OnOk result ((before : _) → Rises before widths.old.items next.old.items → Rises before widths.new.items next.new.items) }
{
    waits[number] = false;
    let rule = &rules[number];
    if raise(rule, widths) {
        wake(readers[rule.target as usize].as_slice(), waits, next)?;
    }
    Ok(())
}

/// Raises the variable of a rule, where the rule asks more of it, and says whether it did.
fn raise(rule: &Rule, widths: &mut Vec<Width>) -> bool
    requires rule { IsRule (length widths.old.items) rule.now }
    ensures { Raises rule.now widths.old.items widths.new.items result }
{
    let least = width_of_formula(&rule.formula, widths.as_slice());
    let target = rule.target as usize;
    if level(widths[target]) < level(least) {
        widths[target] = least;
        return true;
    }
    false
}

/// Lets rules wait.
fn wake(numbers: &[usize], waits: &mut Vec<bool>, next: &mut Vec<usize>) -> Result<(), AllocError>
    requires within { All (λ k. k < length waits.old.items) numbers.now }
    ensures { OnOk result (Wakes numbers.now waits.old.items next.old.items waits.new.items next.new.items) }
{
    for number in numbers {
        wake_one(*number, waits, next)?;
    }
    Ok(())
}

fn wake_one(number: usize, waits: &mut Vec<bool>, next: &mut Vec<usize>) -> Result<(), AllocError>
    requires within { number < length waits.old.items }
    ensures { OnOk result (Wakes (number ∷ []) waits.old.items next.old.items waits.new.items next.new.items) }
{
    if !waits[number] {
        waits[number] = true;
        next.push(number)?;
    }
    Ok(())
}
