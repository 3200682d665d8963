//! The walk along the instances of a run.

ghost use Rattle.std.specs.Prelude.{◌≡◌, ℕ, ◌<◌, [], ◌∷◌, ◌++◌, List as Listed, length, slice_get, slice_set, Some, None, IsTrue, ◌↔◌, IsSome, is_some, IfOk, OnOk};
ghost use Rattle.std.specs.List.{range_with_len};
ghost use Rattle.flatten_instances.specs.declared.plan.Level.{Level as ALevel};
ghost use Rattle.flatten_instances.specs.Instances.{HasInstances};
ghost use Rattle.flatten_instances.specs.Plans.{IsSound, Begins, IsLevel, Visits, GoesOn, IsGoing, IsLonger, SameWalk, IsPlan, left_of, instance_next, memory_next};

use crate::plan::{Holder, Level, MemorySite, Plan, Site, joined_text, module_of, number_of};
use bit_words::List;
use ground_net::{DrivenCircuit, DrivenModule, GroundInstance, NewNumbers};
use std::alloc::{AllocError, Global};

/// Where a walk through the module of a level stands: behind the leaves that have numbers, and so many memories and instances.
#[derive(Drop)]
pub struct Walk {
    pub level: u32,
    pub module: u32,
    /// How many levels the instances may lead down.
    pub left: usize,
    /// The flat numbers of the leaves so far.
    pub numbers: List<u32>,
    pub memory: usize,
    pub instance: usize,
}

/// The leaves and memories of a run in flat order.
pub fn plan_of(alloc: Global, driven: &DrivenCircuit) -> Result<Plan, AllocError>
    requires { HasInstances driven.now }
    ensures { IfOk result (λ plan. IsPlan driven.now plan) }
{
    let mut plan = Plan {
        levels: List::new(alloc),
        tables: List::new(alloc),
        leaves: List::new(alloc),
        memories: List::new(alloc),
    };
    let main = Level {
        module: driven.main,
        holder: None,
        prefix: List::new(alloc),
    };
    visit(alloc, driven, main, driven.modules.len(), &mut plan)?;
    Ok(plan)
}

/// Adds what stands in the module of a level, and below it.
#[cycle(visit)]
fn visit(
    alloc: Global,
    driven: &DrivenCircuit,
    level: Level,
    left: usize,
    plan: &mut Plan,
) -> Result<(), AllocError>
    requires sound { IsSound driven.now level.module left }
    requires counted { length plan.old.tables ≡ length plan.old.levels }
    ensures on { OnOk result ((path : Listed ℕ) → Begins driven.now plan.old.levels path level → Visits driven.now path level plan.old plan.new) }
    ensures kept { OnOk result (IsLonger plan.old plan.new) }
{
    let owner = module_of(driven, level.module);
    let mut walk = Walk {
        level: number_of(plan.levels.len())?,
        module: level.module,
        left,
        numbers: List::new(alloc),
        memory: 0,
        instance: 0,
    };
    begin(alloc, level, plan)?;
    'on: while !is_done(owner, &walk) {
        step(alloc, driven, owner, &mut walk, plan)?;
    }
    finish(alloc, walk, plan)?;
    Ok(())
}

/// Adds what stands next.
#[cycle(visit)]
fn step(
    alloc: Global,
    driven: &DrivenCircuit,
    owner: &DrivenModule,
    walk: &mut Walk,
    plan: &mut Plan,
) -> Result<(), AllocError>
    requires sound { IsSound driven.now walk.old.module walk.old.left }
    requires going { IsGoing driven.now owner.now walk.old plan.old }
    requires more { 0 < left_of owner.now walk.old }
    ensures on { OnOk result ((path : Listed ℕ) → IsLevel driven.now plan.old.levels walk.old.level path walk.old.module → GoesOn driven.now path owner.now walk.old walk.new plan.old plan.new) }
    ensures going { OnOk result (IsGoing driven.now owner.now walk.new plan.new) }
    ensures same { OnOk result (SameWalk walk.old walk.new) }
    ensures less { OnOk result (left_of owner.now walk.new < left_of owner.now walk.old) }
{
    if has_instance(owner, walk) {
        enter(alloc, driven, owner, walk, plan)
    } else if has_memory(owner, walk) {
        take_memory(driven, owner, walk, plan)
    } else {
        take_leaf(driven, owner, walk, plan)
    }
}

/// Goes through the instance that stands next.
#[cycle(visit)]
fn enter(
    alloc: Global,
    driven: &DrivenCircuit,
    owner: &DrivenModule,
    walk: &mut Walk,
    plan: &mut Plan,
) -> Result<(), AllocError>
    requires sound { IsSound driven.now walk.old.module walk.old.left }
    requires going { IsGoing driven.now owner.now walk.old plan.old }
    requires here { IsSome (instance_next owner.now walk.old) }
    ensures on { OnOk result ((path : Listed ℕ) → IsLevel driven.now plan.old.levels walk.old.level path walk.old.module → GoesOn driven.now path owner.now walk.old walk.new plan.old plan.new) }
    ensures going { OnOk result (IsGoing driven.now owner.now walk.new plan.new) }
    ensures same { OnOk result (SameWalk walk.old walk.new) }
    ensures less { OnOk result (left_of owner.now walk.new < left_of owner.now walk.old) }
{
    let instance = &owner.instances.as_slice()[walk.instance];
    let child = module_of(driven, instance.module);
    let base = number_of(plan.leaves.len())?;
    let level = level_in(alloc, plan.levels.as_slice(), walk, instance)?;
    visit(alloc, driven, level, walk.left - 1, plan)?;
    push_numbers(&mut walk.numbers, base, child.ports)?;
    walk.instance += 1;
    Ok(())
}

/// The level of an instance.
fn level_in(
    alloc: Global,
    levels: &[Level],
    walk: &Walk,
    instance: &GroundInstance,
) -> Result<Level, AllocError>
    requires { walk.now.level < length levels.now }
    ensures within { IfOk result (λ level. level.module ≡ instance.now.module) }
    ensures holder { IfOk result (λ level. level.holder ≡ Some (record { level = walk.now.level; instance = walk.now.instance; first = instance.now.first })) }
    ensures prefix { IfOk result (λ level. (outer : ALevel) → slice_get levels.now walk.now.level ≡ Some outer → level.prefix ≡ outer.prefix ++ (instance.now.name ++ 46 ∷ [])) }
{
    let holder = Holder {
        level: walk.level,
        instance: number_of(walk.instance)?,
        first: instance.first,
    };
    let outer = &levels[walk.level as usize];
    let prefix = joined_text(
        alloc,
        outer.prefix.as_slice(),
        instance.name.as_slice(),
        true,
    )?;
    Ok(Level {
        module: instance.module,
        holder: Some(holder),
        prefix,
    })
}

/// Begins a level.
fn begin(alloc: Global, level: Level, plan: &mut Plan) -> Result<(), AllocError>
    ensures { OnOk result (plan.new ≡ record plan.old { levels = plan.old.levels ++ level ∷ []; tables = plan.old.tables ++ [] ∷ [] }) }
{
    plan.levels.push(level)?;
    plan.tables.push(NewNumbers::new(alloc, List::new(alloc))?)?;
    Ok(())
}

/// Keeps the flat numbers of a level.
fn finish(alloc: Global, walk: Walk, plan: &mut Plan) -> Result<(), AllocError>
    requires { walk.level < length plan.old.tables }
    ensures { OnOk result (plan.new ≡ record plan.old { tables = slice_set plan.old.tables walk.level walk.numbers }) }
{
    let Walk { level, numbers, .. } = walk;
    plan.tables
        .set(level as usize, NewNumbers::new(alloc, numbers)?);
    Ok(())
}

/// Takes the memory that stands next.
fn take_memory(
    driven: &DrivenCircuit,
    owner: &DrivenModule,
    walk: &mut Walk,
    plan: &mut Plan,
) -> Result<(), AllocError>
    requires going { IsGoing driven.now owner.now walk.old plan.old }
    requires behind { instance_next owner.now walk.old ≡ None }
    requires here { IsSome (memory_next owner.now walk.old) }
    ensures on { OnOk result ((path : Listed ℕ) → IsLevel driven.now plan.old.levels walk.old.level path walk.old.module → GoesOn driven.now path owner.now walk.old walk.new plan.old plan.new) }
    ensures going { OnOk result (IsGoing driven.now owner.now walk.new plan.new) }
    ensures same { OnOk result (SameWalk walk.old walk.new) }
    ensures less { OnOk result (left_of owner.now walk.new < left_of owner.now walk.old) }
{
    let site = MemorySite {
        level: walk.level,
        number: number_of(walk.memory)?,
        before: number_of(plan.leaves.len())?,
    };
    plan.memories.push(site)?;
    walk.memory += 1;
    Ok(())
}

/// Takes the leaf that stands next.
fn take_leaf(
    driven: &DrivenCircuit,
    owner: &DrivenModule,
    walk: &mut Walk,
    plan: &mut Plan,
) -> Result<(), AllocError>
    requires going { IsGoing driven.now owner.now walk.old plan.old }
    requires behind { instance_next owner.now walk.old ≡ None }
    requires behind_too { memory_next owner.now walk.old ≡ None }
    requires more { 0 < left_of owner.now walk.old }
    ensures on { OnOk result ((path : Listed ℕ) → IsLevel driven.now plan.old.levels walk.old.level path walk.old.module → GoesOn driven.now path owner.now walk.old walk.new plan.old plan.new) }
    ensures going { OnOk result (IsGoing driven.now owner.now walk.new plan.new) }
    ensures same { OnOk result (SameWalk walk.old walk.new) }
    ensures less { OnOk result (left_of owner.now walk.new < left_of owner.now walk.old) }
{
    let number = number_of(plan.leaves.len())?;
    let site = Site {
        level: walk.level,
        number: number_of(walk.numbers.len())?,
    };
    plan.leaves.push(site)?;
    walk.numbers.push(number)?;
    Ok(())
}

/// Adds so many numbers from one on.
fn push_numbers(numbers: &mut List<u32>, base: u32, count: u32) -> Result<(), AllocError>
    ensures { OnOk result (numbers.new ≡ numbers.old ++ range_with_len base count) }
{
    for place in 0..count {
        let Ok(number) = u32::try_from(u64::from(base) + u64::from(place)) else {
            return Err(AllocError);
        };
        numbers.push(number)?;
    }
    Ok(())
}

/// Whether nothing of a module is left.
fn is_done(owner: &DrivenModule, walk: &Walk) -> bool
    ensures { IsTrue result ↔ (left_of owner.now walk.now ≡ 0) }
{
    owner.leaves.len() <= walk.numbers.len()
        && owner.memories.len() <= walk.memory
        && owner.instances.len() <= walk.instance
}

/// Whether an instance stands next.
fn has_instance(owner: &DrivenModule, walk: &Walk) -> bool
    ensures { result ≡ is_some (instance_next owner.now walk.now) }
{
    match owner.instances.get(walk.instance) {
        Some(instance) => {
            instance.first as usize == walk.numbers.len()
                && instance.memories as usize == walk.memory
        }
        None => false,
    }
}

/// Whether a memory stands next.
fn has_memory(owner: &DrivenModule, walk: &Walk) -> bool
    ensures { result ≡ is_some (memory_next owner.now walk.now) }
{
    match owner.memories.get(walk.memory) {
        Some(memory) => memory.first as usize == walk.numbers.len(),
        None => false,
    }
}
