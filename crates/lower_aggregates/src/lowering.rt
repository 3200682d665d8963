//! Circuits as ground statements (FIRRTL specification 3.0, "Circuits and Modules").

ghost use Rattle.std.specs.Prelude.{◌≡◌, ◌<◌, ◌^◌, ◌↔◌, length, map, slice_get, nat_eq, is_some, true, All, Some, IfOk, OnOk};
ghost use Rattle.std.specs.Map.{lookup};
ghost use Rattle.circuit_laws.specs.WellFormed.{IsWellFormed};
ghost use Rattle.fir_meaning.specs.Components.{declarations_of as all_declarations};
ghost use Rattle.fir_names.specs.Scopes.{module_names};
ghost use Rattle.net_of_circuit.specs.Lowering.{IsGroundOf};
ghost use Rattle.lower_aggregates.specs.Circuits.{IsPlaced, with_new, StandsFrom, IsMadeAt, AreMade};

use crate::declarations::declarations_of;
use crate::ground_tables::pieces_are_components;
use crate::modules::lower_module;
use bit_words::List;
use circuit_laws::laws::{modules_are_named, reached_modules_stand_at_paths};
use fir_tree::{Fitted, Module};
use fir_types::FirType;
use ground_net::{GroundCircuit, GroundModule};
use indexmap::IndexMap;
use std::alloc::{AllocError, Global};

/// A circuit as ground statements, module by module in text order. Of a module that main doesn't reach nothing is made.
pub fn lower(alloc: Global, fitted: &Fitted) -> Result<GroundCircuit, AllocError>
    requires { IsWellFormed fitted.now }
    ensures lowered { IfOk result (λ lowered. IsGroundOf fitted.now lowered) }
    ensures numbered { IfOk result (λ lowered. All (λ m. length m.leaves < 2 ^ 32) lowered.modules) }
{
    let circuit = fitted.checked.resolved.get();
    let numbers = numbers_of(alloc, circuit.modules.as_slice())?;
    let main = number_of(&numbers, circuit.main.id);
    let modules = lower_modules(alloc, fitted, &numbers)?;
    Ok(GroundCircuit { modules, main })
}

/// The numbers of modules by their names, of each name the first.
pub fn numbers_of(alloc: Global, modules: &[Module]) -> Result<IndexMap<u32, u32>, AllocError>
    ensures { IfOk result (λ numbers. IsPlaced (map (λ m. m.name) modules.now) numbers.entries) }
{
    let mut numbers = IndexMap::new(alloc);
    for number in 0..modules.len() {
        insert_new(&mut numbers, modules[number].name.id, number)?;
    }
    Ok(numbers)
}

/// Notes the number of a name, unless there is one.
fn insert_new(numbers: &mut IndexMap<u32, u32>, id: u32, number: usize) -> Result<(), AllocError>
    ensures { OnOk result (numbers.new.entries ≡ with_new numbers.old.entries id number) }
{
    let place = as_number(number)?;
    if numbers.get(&id).is_none() {
        numbers.insert(id, place)?;
    }
    Ok(())
}

/// A number of a module; where a `u32` doesn't hold it, memory is wanted.
fn as_number(number: usize) -> Result<u32, AllocError>
    ensures { IfOk result (λ place. place ≡ number) }
{
    match u32::try_from(number) {
        Ok(place) => Ok(place),
        Err(_) => Err(AllocError),
    }
}

/// The number of a module.
pub fn number_of(numbers: &IndexMap<u32, u32>, name: u32) -> u32
    requires { is_some (lookup (nat_eq name) numbers.now.entries) ≡ true }
    ensures { lookup (nat_eq name) numbers.now.entries ≡ Some result }
{
    let Some(number) = numbers.get(&name) else {
        unreachable!();
    };
    *number
}

/// The modules as ground statements, where these are their numbers.
fn lower_modules(
    alloc: Global,
    fitted: &Fitted,
    numbers: &IndexMap<u32, u32>,
) -> Result<List<GroundModule>, AllocError>
    requires formed { IsWellFormed fitted.now }
    requires placed { IsPlaced (module_names fitted.now.checked.resolved) numbers.now.entries }
    ensures counted { IfOk result (λ modules. length modules ≡ length fitted.now.checked.resolved.modules) }
    ensures made { IfOk result (λ modules. AreMade fitted.now modules) }
{
    let holders = fitted.checked.resolved.get().modules.as_slice();
    let mut rest = fitted.declared.as_slice();
    let mut modules = List::new(alloc);
    for number in 0..holders.len() {
        let count = count_of(alloc, &holders[number])?;
        let module = lower_at(alloc, fitted, numbers, number, rest)?;
        modules.push(module)?;
        rest = rest.get(count..).unwrap_or(&[]);
    }
    Ok(modules)
}

/// How many declarations a module has.
pub fn count_of(alloc: Global, holder: &Module) -> Result<usize, AllocError>
    ensures { IfOk result (λ count. count ≡ length (all_declarations holder.now)) }
{
    pieces_are_components();
    let all = declarations_of(alloc, holder)?;
    Ok(all.len())
}

/// The module of a number, where these are the types of the modules from there on.
fn lower_at(
    alloc: Global,
    fitted: &Fitted,
    numbers: &IndexMap<u32, u32>,
    number: usize,
    types: &[FirType],
) -> Result<GroundModule, AllocError>
    requires formed { IsWellFormed fitted.now }
    requires placed { IsPlaced (module_names fitted.now.checked.resolved) numbers.now.entries }
    requires within { number < length fitted.now.checked.resolved.modules }
    requires stands { StandsFrom fitted.now number types.now }
    ensures { IfOk result (λ made. IsMadeAt fitted.now number made) }
{
    reached_modules_stand_at_paths();
    modules_are_named();
    pieces_are_components();
    if !is_reached(fitted.checked.scope.reached.as_slice(), number) {
        return Ok(empty_module(alloc));
    }
    let circuit = fitted.checked.resolved.get();
    let holder = &circuit.modules.as_slice()[number];
    let made = lower_module(alloc, &circuit.names, numbers, holder, types)?;
    check_count(made.leaves.len())?;
    Ok(made)
}

/// Whether main reaches the module of a number.
pub fn is_reached(reached: &[bool], number: usize) -> bool
    ensures { (result ≡ true) ↔ (slice_get reached.now number ≡ Some true) }
{
    match reached.get(number) {
        Some(flag) => *flag,
        None => false,
    }
}

/// A module without leaves.
fn empty_module(alloc: Global) -> GroundModule
    ensures { length result.leaves ≡ 0 }
{
    GroundModule {
        ports: 0,
        leaves: List::new(alloc),
        body: List::new(alloc),
        registers: List::new(alloc),
        memories: List::new(alloc),
        instances: List::new(alloc),
    }
}

/// Where a `u32` doesn't number so many leaves, memory is wanted.
fn check_count(count: usize) -> Result<(), AllocError>
    ensures { IfOk result (λ fits. count < 2 ^ 32) }
{
    if count < 4294967296 {
        Ok(())
    } else {
        Err(AllocError)
    }
}
