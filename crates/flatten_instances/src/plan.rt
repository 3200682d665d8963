//! Where the leaves and memories of a run stand, in flat order.

ghost use Rattle.std.specs.Prelude.{◌≡◌, [], ◌∷◌, ◌++◌, slice_get, slice_index, Some, IsSome, IfOk, if◌then◌else◌};

use bit_words::{List, Text};
use ground_net::{DrivenCircuit, DrivenModule, NewNumbers};
use std::alloc::{AllocError, Global};

/// A module at a path of instances.
#[derive(Drop)]
pub struct Level {
    pub module: u32,
    /// None for main.
    pub holder: Option<Holder>,
    /// The names of the instances on the path, each with a dot behind it.
    pub prefix: Text,
}

/// Where an instance stands: the level of its holder, its number there, and its first leaf there.
#[derive(Clone, Copy)]
pub struct Holder {
    pub level: u32,
    pub instance: u32,
    pub first: u32,
}

/// A leaf: its level, and its number in the module there.
#[derive(Clone, Copy)]
pub struct Site {
    pub level: u32,
    pub number: u32,
}

/// A memory: its level, its number in the module there, and how many leaves stand before it in flat order.
#[derive(Clone, Copy)]
pub struct MemorySite {
    pub level: u32,
    pub number: u32,
    pub before: u32,
}

/// The levels of a run, for each of them the flat numbers of its module's leaves, and the leaves and memories in flat order.
#[derive(Drop)]
pub struct Plan {
    pub levels: List<Level>,
    pub tables: List<NewNumbers>,
    pub leaves: List<Site>,
    pub memories: List<MemorySite>,
}

/// The number of something held in memory. More than fit a `u32` are a want of memory.
pub fn number_of(count: usize) -> Result<u32, AllocError>
    ensures { IfOk result (λ number. number ≡ count) }
{
    match u32::try_from(count) {
        Ok(number) => Ok(number),
        Err(_) => Err(AllocError),
    }
}

/// The module of a number.
pub fn module_of(driven: &DrivenCircuit, number: u32) -> &DrivenModule
    requires { IsSome (slice_get driven.now.modules number) }
    ensures { slice_get driven.now.modules number ≡ Some result.now }
{
    &driven.modules.as_slice()[number as usize]
}

/// Two texts one behind the other, and a dot behind them where it is wanted.
pub fn joined_text(
    alloc: Global,
    first: &[u8],
    second: &[u8],
    dotted: bool,
) -> Result<Text, AllocError>
    ensures { IfOk result (λ text. text ≡ first.now ++ (second.now ++ (if dotted then 46 ∷ [] else []))) }
{
    let mut text = Vec::new(alloc);
    text.extend_from_slice(first)?;
    text.extend_from_slice(second)?;
    if dotted {
        text.push(b'.')?;
    }
    Ok(List::from_vec(text))
}

/// The level of a number.
pub fn level_of(plan: &Plan, number: u32) -> &Level
    requires { IsSome (slice_get plan.now.levels number) }
    ensures { slice_get plan.now.levels number ≡ Some result.now }
{
    &plan.levels.as_slice()[number as usize]
}

/// The flat numbers of the leaves of a level's module.
pub fn table_of(plan: &Plan, number: u32) -> &NewNumbers
    requires { IsSome (slice_get plan.now.tables number) }
    ensures { slice_get plan.now.tables number ≡ Some result.now }
{
    &plan.tables.as_slice()[number as usize]
}

/// The flat number of a leaf; a leaf without one gets the number 0.
pub fn flat_number(numbers: &[u32], leaf: u32) -> u32
    ensures { result ≡ slice_index numbers.now leaf }
{
    match numbers.get(leaf as usize) {
        Some(number) => *number,
        None => 0,
    }
}
