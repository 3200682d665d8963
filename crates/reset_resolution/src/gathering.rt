//! The feeds of a circuit.

ghost use Rattle.std.specs.Prelude.{◌≡◌, ◌+◌, ◌++◌, ◌∷◌, [], map, flat_map, IfOk, OnOk};
ghost use Rattle.reset_search.specs.Feeds.{feeds_in, ports_from, ports_count, modules_from, all_ports, instance_reach, known_ports, ports_asyncs, bodies_from};
ghost use Rattle.reset_resolution.specs.Walked.{listed, AreInstances, ported, WalksBodies, WalksBody};

use crate::component::Indexed;
use crate::grounds::grounds_of;
use crate::memories::Numbered;
use crate::ranges::{MOST_UNITS, places_of, push_asyncs, push_declared, push_spots};
use crate::walk::{Context, Found, note, walk_statements};
use bit_words::List;
use fir_tree::{Circuit, Module, Names};
use fir_types::{Port, copy, instance_type};
use indexmap::IndexMap;
use reset_search::{Feeds, Spot};
use std::alloc::{AllocError, Global};

/// A module with the places of its ports.
#[derive(Drop)]
pub struct Ported<'a> {
    pub holder: &'a Module,
    pub ports: List<List<Spot>>,
}

/// What feeds what in a circuit, and its AsyncReset leaves (FIRRTL specification 3.0, "Reset Type").
///
/// Takes time and memory in proportion to the circuit and its types, and for each connect and each node to its type. More than 16,000,000 feeds,
/// or places of the text or of nodes, are a want of memory.
pub fn feeds_of(alloc: Global, circuit: &Circuit) -> Result<Feeds, AllocError>
    ensures { IfOk result (λ feeds. feeds ≡ feeds_in circuit.now) }
{
    let mut cast = List::new(alloc);
    cast.push(Spot::Cast)?;
    let mut asyncs = List::new(alloc);
    asyncs.push(Spot::Cast)?;
    let mut found = Found {
        known: IndexMap::new(alloc),
        numbered: Numbered {
            next: 0,
            left: MOST_UNITS,
        },
        nodes: 0,
        feeds: List::new(alloc),
        asyncs,
    };
    let modules = with_ports(alloc, &mut found.numbered.next, circuit.modules.as_slice())?;
    let instances = instances_of(alloc, &circuit.names, modules.as_slice())?;
    let context = Context {
        names: &circuit.names,
        instances: &instances,
        cast: cast.as_slice(),
    };
    walk_bodies(alloc, context, &mut found, modules)?;
    let Found {
        known: _known,
        numbered: _numbered,
        nodes: _nodes,
        feeds,
        asyncs,
    } = found;
    Ok(Feeds { feeds, asyncs })
}

/// The modules with the places of their ports, which have the next numbers.
fn with_ports<'a>(
    alloc: Global,
    next: &mut usize,
    modules: &'a [Module],
) -> Result<Vec<Ported<'a>>, AllocError>
    ensures modules { IfOk result (λ all. map ported all.items ≡ modules_from next.old modules.now) }
    ensures next { OnOk result (next.new ≡ next.old + all_ports modules.now) }
{
    let mut all = Vec::new(alloc);
    for holder in modules {
        let ports = ports_of(alloc, next, holder.ports.as_slice())?;
        all.push(Ported { holder, ports })?;
    }
    Ok(all)
}

/// The places of ports, one port behind another.
fn ports_of(alloc: Global, next: &mut usize, ports: &[Port]) -> Result<List<List<Spot>>, AllocError>
    ensures spots { IfOk result (λ all. all ≡ ports_from next.old ports.now) }
    ensures next { OnOk result (next.new ≡ next.old + ports_count ports.now) }
{
    let mut all = List::new(alloc);
    for port in ports {
        let count = places_of(&port.typ)?;
        let mut own = List::new(alloc);
        push_declared(&mut own, next, count)?;
        all.push(own)?;
    }
    Ok(all)
}

/// The components of instances, by the names of their modules: of each name the first.
fn instances_of(
    alloc: Global,
    names: &Names,
    modules: &[Ported<'_>],
) -> Result<IndexMap<u32, Indexed>, AllocError>
    ensures { IfOk result (λ instances. AreInstances (map ported modules.now) instances.entries) }
{
    let mut instances = IndexMap::new(alloc);
    for held in modules {
        let component = instance_of(alloc, names, held)?;
        note(&mut instances, held.holder.name.id, component)?;
    }
    Ok(instances)
}

fn instance_of(alloc: Global, names: &Names, held: &Ported<'_>) -> Result<Indexed, AllocError>
    ensures { IfOk result (λ component. component ≡ instance_reach (ported held.now)) }
{
    let typ = instance_type(alloc, held.holder.ports.as_slice())?;
    let spots = joined(alloc, held.ports.as_slice())?;
    Indexed::new(alloc, names, typ, spots)
}

/// The places of all ports, one port behind another.
fn joined(alloc: Global, ports: &[List<Spot>]) -> Result<List<Spot>, AllocError>
    ensures { IfOk result (λ spots. spots ≡ flat_map (λ own. own) ports.now) }
{
    let mut spots = List::new(alloc);
    for own in ports {
        push_spots(&mut spots, own.as_slice())?;
    }
    Ok(spots)
}

/// The bodies of modules in order.
fn walk_bodies(
    alloc: Global,
    context: Context<'_>,
    found: &mut Found,
    modules: Vec<Ported<'_>>,
) -> Result<(), AllocError>
    ensures { OnOk result (WalksBodies (bodies_from (listed context.entry.instances.now.entries) found.old.numbered.next found.old.nodes (map ported modules.entry.items)) found.old found.new) }
{
    for held in modules {
        walk_body(alloc, context, found, held)?;
    }
    Ok(())
}

fn walk_body(
    alloc: Global,
    context: Context<'_>,
    found: &mut Found,
    held: Ported<'_>,
) -> Result<(), AllocError>
    ensures { OnOk result (WalksBody (listed context.entry.instances.now.entries) (ported held.entry) found.old found.new) }
{
    let ports = held.holder.ports.as_slice();
    push_port_asyncs(alloc, &mut found.asyncs, ports, held.ports.as_slice())?;
    found.known = IndexMap::new(alloc);
    note_ports(alloc, context.names, &mut found.known, ports, held.ports)?;
    walk_statements(alloc, context, found, held.holder.body.as_slice())
}

/// Adds the places of ports that the text calls AsyncReset.
fn push_port_asyncs(
    alloc: Global,
    asyncs: &mut List<Spot>,
    ports: &[Port],
    spots: &[List<Spot>],
) -> Result<(), AllocError>
    ensures { OnOk result (asyncs.new ≡ asyncs.old ++ ports_asyncs ports.now spots.now) }
{
    let mut rest = spots;
    for port in ports {
        let Some((own, more)) = rest.split_first() else {
            return Ok(());
        };
        let grounds = grounds_of(alloc, &port.typ)?;
        push_asyncs(asyncs, grounds.as_slice(), own.as_slice())?;
        rest = more;
    }
    Ok(())
}

/// Notes the ports of a module as components.
fn note_ports(
    alloc: Global,
    names: &Names,
    known: &mut IndexMap<u32, Indexed>,
    ports: &[Port],
    spots: List<List<Spot>>,
) -> Result<(), AllocError>
    ensures { OnOk result (known.new.entries ≡ known_ports ports.now spots known.old.entries) }
{
    let mut all = spots.into_vec().into_iter();
    for port in ports {
        let Some(own) = all.next() else {
            return Ok(());
        };
        let component = Indexed::new(alloc, names, copy(&port.typ)?, own)?;
        note(known, port.name.id, component)?;
    }
    Ok(())
}
