//! What stands behind all instance paths of at most so many names, round by round: a module is summed once in a round, however
//! often it stands.

ghost use Rattle.std.specs.Prelude.{◌≡◌, ℕ, suc, map, flat_map, slice_get, length, Some, ◌<◌, IfOk};
ghost use Rattle.size_check.specs.Caps.{capped_total};
ghost use Rattle.size_check.specs.declared.sums.Total.{Total as ATotal};
ghost use Rattle.size_check.specs.Rounds.{owns_of, totals_at, deeper};
ghost use Rattle.size_check.specs.Standings.{measured, add, total_of, of_call, of_found, standings};
ghost use Rattle.size_check.specs.Typings.{named};
ghost use Rattle.fir_tree.specs.LeafNames.{Texts};

use crate::calls::{Call, calls_of};
use crate::owns::module_own;
use crate::sums::{Sums, Total};
use fir_tree::{Circuit, Module, Names, name_length};
use module_table::Modules;
use std::alloc::{AllocError, Global};

/// One more name than an instance path may have.
const ROUNDS: u32 = 33;

/// What stands at the instance paths of at most 33 names from the main module on.
pub fn measure(alloc: Global, circuit: &Circuit, modules: &Modules<'_>) -> Result<Total, AllocError>
    requires all { modules.now.all.now ≡ circuit.now.modules }
    requires names { modules.now.names.now ≡ circuit.now.names }
    ensures { IfOk result (λ total. total ≡ capped_total (measured circuit.now)) }
{
    let owns = owns_of(alloc, &circuit.names, modules)?;
    let totals = all_rounds(alloc, &circuit.names, modules, owns.as_slice())?;
    Ok(found(modules, totals.as_slice(), circuit.main.id))
}

/// What each module has of its own.
fn owns_of(alloc: Global, names: &Names, modules: &Modules<'_>) -> Result<Vec<Sums>, AllocError>
    requires { modules.now.names.now ≡ names.now }
    ensures { IfOk result (λ owns. owns.items ≡ owns_of names.now modules.now.all.now) }
{
    let mut owns = Vec::new(alloc);
    for number in 0..modules.all.len() {
        let own = module_own(alloc, names, modules, &modules.all[number])?;
        owns.push(own)?;
    }
    Ok(owns)
}

fn all_rounds(
    alloc: Global,
    names: &Names,
    modules: &Modules<'_>,
    owns: &[Sums],
) -> Result<Vec<Total>, AllocError>
    requires { owns.now ≡ owns_of names.now modules.now.all.now }
    ensures { IfOk result (λ totals. totals.items ≡ totals_at names.now modules.now.all.now 33) }
{
    let mut totals = first_round(alloc, owns)?;
    for _ in 0..ROUNDS {
        totals = next_round(alloc, names, modules, owns, totals.as_slice())?;
    }
    Ok(totals)
}

/// What stands at the path of no name, from each module on.
fn first_round(alloc: Global, owns: &[Sums]) -> Result<Vec<Total>, AllocError>
    ensures { IfOk result (λ totals. totals.items ≡ map (λ own. record { sums = own; depth = 0 }) owns.now) }
{
    let mut totals = Vec::new(alloc);
    for own in owns {
        totals.push(Total {
            sums: *own,
            depth: 0,
        })?;
    }
    Ok(totals)
}

/// What stands at the paths of at most one name more, from each module on.
fn next_round(
    alloc: Global,
    names: &Names,
    modules: &Modules<'_>,
    owns: &[Sums],
    totals: &[Total],
) -> Result<Vec<Total>, AllocError>
    requires { owns.now ≡ owns_of names.now modules.now.all.now }
    ensures { IfOk result (λ next. (d : ℕ) → totals.now ≡ totals_at names.now modules.now.all.now d → next.items ≡ totals_at names.now modules.now.all.now (suc d)) }
{
    let mut next = Vec::new(alloc);
    for number in 0..modules.all.len() {
        let calls = calls_of(alloc, &modules.all[number])?;
        let own = Total {
            sums: own_at(owns, number),
            depth: 0,
        };
        next.push(with_calls(names, modules, totals, calls.as_slice(), own))?;
    }
    Ok(next)
}

/// A total, and what stands behind these instances.
fn with_calls(
    names: &Names,
    modules: &Modules<'_>,
    totals: &[Total],
    calls: &[Call],
    own: Total,
) -> Total
    ensures { (d : ℕ) (before : ATotal) → own ≡ capped_total before → totals.now ≡ totals_at names.now modules.now.all.now d → result ≡ capped_total (add before (total_of names.now modules.now.all.now (flat_map (of_call modules.now.all.now (standings modules.now.all.now d)) calls.now))) }
{
    let mut total = own;
    for number in 0..calls.len() {
        total = total.plus(behind_call(names, modules, totals, &call_at(calls, number)));
    }
    total
}

/// What stands behind an instance.
fn behind_call(names: &Names, modules: &Modules<'_>, totals: &[Total], call: &Call) -> Total
    ensures { (d : ℕ) → totals.now ≡ totals_at names.now modules.now.all.now d → result ≡ capped_total (total_of names.now modules.now.all.now (of_call modules.now.all.now (standings modules.now.all.now d) call.now)) }
{
    let Some(number) = modules.number(call.target) else {
        return Total::none();
    };
    match total_at(totals, number) {
        Some(total) => deeper(total, name_length(names, call.name)),
        None => Total::none(),
    }
}

/// The total of the first module of a name.
fn found(modules: &Modules<'_>, totals: &[Total], name: u32) -> Total
    ensures { (texts : Texts) (d : ℕ) → totals.now ≡ totals_at texts modules.now.all.now d → result ≡ capped_total (total_of texts modules.now.all.now (of_found (standings modules.now.all.now d) (named modules.now.all.now name))) }
{
    let Some(number) = modules.number(name) else {
        return Total::none();
    };
    match total_at(totals, number) {
        Some(total) => total,
        None => Total::none(),
    }
}

fn call_at(calls: &[Call], number: usize) -> Call
    requires { number < length calls.now }
    ensures { slice_get calls.now number ≡ Some result }
{
    calls[number]
}

fn own_at(owns: &[Sums], number: usize) -> Sums
    requires { number < length owns.now }
    ensures { slice_get owns.now number ≡ Some result }
{
    owns[number]
}

fn total_at(totals: &[Total], number: usize) -> Option<Total>
    ensures { result ≡ slice_get totals.now number }
{
    totals.get(number).copied()
}

/// The same behind one more name, of so many bytes.
fn deeper(total: Total, length: u128) -> Total
    ensures { result ≡ capped_total (deeper total length) }
{
    let Total { sums, depth } = total;
    let more = sums.names.saturating_mul(length.saturating_add(1));
    Total {
        sums: Sums {
            size: sums.size,
            leaves: sums.leaves,
            names: sums.names,
            bytes: sums.bytes.saturating_add(more),
            words: sums.words,
        },
        depth: depth.saturating_add(1),
    }
}
