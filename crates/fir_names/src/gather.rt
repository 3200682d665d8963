//! What the names of all modules mean.

ghost use Rattle.std.specs.Prelude.{◌≡◌, ◌++◌, ◌∷◌, [], take, map, not, IfOk, OnOk};
ghost use Rattle.std.specs.List.{flat_map};
ghost use Rattle.fir_names.specs.Namespaces.{twice};
ghost use Rattle.fir_names.specs.Walks.{kept_of};
ghost use Rattle.fir_names.specs.Finds.{numbered, twice_behind, fault_where, edge_in, Gathers};

use crate::fault::NameFault;
use crate::graph::Edge;
use crate::namespace::Namespace;
use crate::walk::{look_up, show, walk_module};
use bit_words::List;
use fir_tree::Module;
use fir_types::Name;
use indexmap::{IndexMap, IndexSet};
use std::alloc::{AllocError, Global};

/// What the names of some modules mean.
#[derive(Drop)]
pub struct Gathered {
    /// For each reference in text order the number of its declaration, and 0 where it has none.
    pub uses: Vec<u32>,
    /// For each instance in text order the number of its module, and 0 where it has none.
    pub targets: Vec<u32>,
    /// For each module the instances whose modules are known.
    pub graph: Vec<List<Edge>>,
    pub faults: Vec<NameFault>,
}

/// Adds what the names of modules mean, where the numbers of all modules are known.
pub fn gather(
    alloc: Global,
    known: &IndexMap<u32, u32>,
    gathered: &mut Gathered,
    modules: &[Module],
) -> Result<(), AllocError>
    ensures { OnOk result (Gathers known.now.entries modules.now gathered.old gathered.new) }
{
    for holder in modules {
        gather_one(alloc, known, gathered, holder)?;
    }
    Ok(())
}

fn gather_one(
    alloc: Global,
    known: &IndexMap<u32, u32>,
    gathered: &mut Gathered,
    holder: &Module,
) -> Result<(), AllocError>
    ensures { OnOk result (Gathers known.now.entries (holder.now ∷ []) gathered.old gathered.new) }
{
    let walk = walk_module(alloc, holder)?;
    gathered.uses.extend_from_slice(walk.uses.as_slice())?;
    push_twice(
        alloc,
        walk.declared.as_slice(),
        Namespace::OfModule,
        &mut gathered.faults,
    )?;
    gathered.faults.extend_from_slice(walk.faults.as_slice())?;
    let instances = walk.instances.as_slice();
    look_up(
        known,
        instances,
        Namespace::OfCircuit,
        &mut gathered.targets,
        &mut gathered.faults,
    )?;
    let edges = edges_of(alloc, known, instances)?;
    gathered.graph.push(List::from_vec(edges))?;
    Ok(())
}

/// The numbers of names, by their texts: of each text the first. More than fit a `u32` are a want of memory.
pub fn numbers_of(alloc: Global, names: &[Name]) -> Result<IndexMap<u32, u32>, AllocError>
    ensures { IfOk result (λ known. known.entries ≡ kept_of (numbered 0 names.now)) }
{
    let mut known = IndexMap::new(alloc);
    for index in 0..names.len() {
        let Ok(number) = u32::try_from(index) else {
            return Err(AllocError);
        };
        show(&mut known, names[index].id, number)?;
    }
    Ok(known)
}

/// Adds a fault for each name that one before it has as well.
pub fn push_twice(
    alloc: Global,
    names: &[Name],
    space: Namespace,
    faults: &mut Vec<NameFault>,
) -> Result<(), AllocError>
    ensures { OnOk result (faults.new.items ≡ faults.old.items ++ twice_behind (twice space) [] names.now) }
{
    let mut texts = IndexSet::new(alloc);
    for name in names {
        let (_index, added) = texts.insert_full(name.id)?;
        push_unless(added, space.twice(name.place), faults)?;
    }
    Ok(())
}

fn push_unless(fine: bool, fault: NameFault, faults: &mut Vec<NameFault>) -> Result<(), AllocError>
    ensures { OnOk result (faults.new.items ≡ faults.old.items ++ fault_where (not fine) fault) }
{
    if !fine {
        faults.push(fault)?;
    }
    Ok(())
}

/// The edges of instances, where their modules are known.
fn edges_of(
    alloc: Global,
    known: &IndexMap<u32, u32>,
    instances: &[Name],
) -> Result<Vec<Edge>, AllocError>
    ensures { IfOk result (λ edges. edges.items ≡ flat_map (edge_in known.now.entries) instances.now) }
{
    let mut edges = Vec::new(alloc);
    for target in instances {
        if let Some(to) = known.get(&target.id) {
            edges.push(Edge {
                to: *to,
                place: target.place,
            })?;
        }
    }
    Ok(edges)
}
