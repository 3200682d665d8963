//! The rules that read a variable.

ghost use Rattle.std.specs.Prelude.{◌≡◌, ◌++◌, ◌<◌, ◌∷◌, [], ℕ, length, map, All, Contains, IfOk, OnOk};
ghost use Rattle.std.specs.List.{flat_map};
ghost use Rattle.width_rules.specs.Formulas.{IsFormula};
ghost use Rattle.width_rules.specs.Solutions.{AreRules};
ghost use Rattle.width_solver.specs.Readers.{variables, readers_at, AreReaders, Notes};

use bit_words::List;
use std::alloc::{AllocError, Global};
use width_rules::{Formula, Rule};

/// For each variable the numbers of the rules that read it.
pub fn readers_of(
    alloc: Global,
    rules: &[Rule],
    count: usize,
) -> Result<Vec<List<usize>>, AllocError>
    requires { AreRules count rules.now }
    ensures { IfOk result (λ readers. AreReaders rules.now count (length rules.now) readers.items) }
{
    let mut readers = no_readers(alloc, count)?;
    for number in 0..rules.len() {
        note(alloc, &rules[number].formula, number, &mut readers)?;
    }
    Ok(readers)
}

fn no_readers(alloc: Global, count: usize) -> Result<Vec<List<usize>>, AllocError>
    ensures counted { IfOk result (λ readers. length readers.items ≡ count) }
    ensures none { IfOk result (λ readers. (x : ℕ) → readers_at readers.items x ≡ []) }
{
    let mut readers = Vec::with_capacity(alloc, count)?;
    for _ in 0..count {
        readers.push(List::new(alloc))?;
    }
    Ok(readers)
}

/// Notes a rule's number with each variable of its formula.
fn note(
    alloc: Global,
    formula: &Formula,
    number: usize,
    readers: &mut Vec<List<usize>>,
) -> Result<(), AllocError>
    requires fits { IsFormula (length readers.old.items) formula.now }
    ensures { OnOk result (Notes (variables formula.now) number readers.old.items readers.new.items) }
{
    let mut read = Vec::new(alloc);
    push_variables(&mut read, formula)?;
    note_all(read.as_slice(), number, readers)
}

fn note_all(read: &[u32], number: usize, readers: &mut Vec<List<usize>>) -> Result<(), AllocError>
    requires within { All (λ x. x < length readers.old.items) read.now }
    ensures { OnOk result (Notes read.now number readers.old.items readers.new.items) }
{
    for variable in read {
        note_one(*variable, number, readers)?;
    }
    Ok(())
}

fn note_one(variable: u32, number: usize, readers: &mut Vec<List<usize>>) -> Result<(), AllocError>
    requires within { variable < length readers.old.items }
    ensures { OnOk result (Notes (variable ∷ []) number readers.old.items readers.new.items) }
{
    readers[variable as usize].push(number)?;
    Ok(())
}

/// Adds the variables of a formula.
#[cycle(variables)]
fn push_variables(read: &mut Vec<u32>, formula: &Formula) -> Result<(), AllocError>
    ensures { OnOk result (read.new.items ≡ read.old.items ++ variables formula.now) }
{
    match formula {
        Formula::Fixed(_) => Ok(()),
        Formula::Var(variable) => Ok(read.push(*variable)?),
        Formula::Op(_, _, parts, _) | Formula::Greatest(parts) => push_all(read, parts.as_slice()),
    }
}

#[cycle(variables)]
fn push_all(read: &mut Vec<u32>, parts: &[Formula]) -> Result<(), AllocError>
    ensures { OnOk result (read.new.items ≡ read.old.items ++ flat_map variables parts.now) }
{
    for part in parts {
        push_variables(read, part)?;
    }
    Ok(())
}
