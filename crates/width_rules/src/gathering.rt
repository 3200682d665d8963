//! The widths of ports, and the components of instances.

ghost use Rattle.std.specs.Prelude.{◌≡◌, ◌++◌, map, flat_map, length, IfOk, OnOk};
ghost use Rattle.width_rules.specs.Circuits.{ports_from, port_places, modules_from, instance_component, known_ports};
ghost use Rattle.width_rules.specs.Walks.{AreInstances, ported};

use crate::indexed::Indexed;
use crate::pieces::push_all;
use crate::slot::Slot;
use crate::walk::{note, slots_of_type};
use bit_words::List;
use fir_tree::steps::{port_flow, source};
use fir_tree::{Module, Names, Part};
use fir_types::{Port, copy, instance_type};
use indexmap::IndexMap;
use place_text::Place;
use std::alloc::{AllocError, Global};

/// A module with the widths of its ports.
#[derive(Drop)]
pub struct Ported<'a> {
    pub holder: &'a Module,
    pub ports: List<List<Slot>>,
}

/// The modules with the widths of their ports, which have the first variables.
pub fn with_ports<'a>(
    alloc: Global,
    places: &mut Vec<Place>,
    modules: &'a [Module],
) -> Result<Vec<Ported<'a>>, AllocError>
    ensures modules { IfOk result (λ all. map ported all.items ≡ modules_from (length places.old.items) modules.now) }
    ensures places { OnOk result (places.new.items ≡ places.old.items ++ flat_map (λ m. flat_map port_places m.ports) modules.now) }
{
    let mut all = Vec::new(alloc);
    for holder in modules {
        let ports = ports_of(alloc, places, holder.ports.as_slice())?;
        all.push(Ported { holder, ports })?;
    }
    Ok(all)
}

/// The widths of ports, one port behind another.
fn ports_of(
    alloc: Global,
    places: &mut Vec<Place>,
    ports: &[Port],
) -> Result<List<List<Slot>>, AllocError>
    ensures slots { IfOk result (λ all. all ≡ ports_from (length places.old.items) ports.now) }
    ensures places { OnOk result (places.new.items ≡ places.old.items ++ flat_map port_places ports.now) }
{
    let mut all = List::new(alloc);
    for port in ports {
        all.push(slots_of_type(alloc, places, port.name.place, &port.typ)?)?;
    }
    Ok(all)
}

/// The components of instances, by the names of their modules: of each name the first.
pub fn instances_of(
    alloc: Global,
    names: &Names,
    modules: &[Ported<'_>],
) -> Result<IndexMap<u32, Indexed>, AllocError>
    ensures { IfOk result (λ instances. AreInstances (map ported modules.now) instances.entries) }
{
    let mut instances = IndexMap::new(alloc);
    for held in modules {
        let component = instance_of(alloc, names, held)?;
        note(&mut instances, held.holder.name.id, component)?;
    }
    Ok(instances)
}

fn instance_of(alloc: Global, names: &Names, held: &Ported<'_>) -> Result<Indexed, AllocError>
    ensures { IfOk result (λ component. component ≡ instance_component (ported held.now)) }
{
    let part = source(instance_type(alloc, held.holder.ports.as_slice())?);
    let slots = joined(alloc, held.ports.as_slice())?;
    Indexed::new(alloc, names, part, slots)
}

/// The widths of all ports, one port behind another.
fn joined(alloc: Global, ports: &[List<Slot>]) -> Result<List<Slot>, AllocError>
    ensures { IfOk result (λ slots. slots ≡ flat_map (λ own. own) ports.now) }
{
    let mut slots = List::new(alloc);
    for own in ports {
        push_all(&mut slots, own.as_slice())?;
    }
    Ok(slots)
}

/// Notes the ports of a module as components.
pub fn note_ports(
    alloc: Global,
    names: &Names,
    known: &mut IndexMap<u32, Indexed>,
    ports: &[Port],
    widths: List<List<Slot>>,
) -> Result<(), AllocError>
    ensures { OnOk result (known.new.entries ≡ known_ports ports.now widths known.old.entries) }
{
    let mut widths = widths.into_vec().into_iter();
    for port in ports {
        let Some(slots) = widths.next() else {
            return Ok(());
        };
        let part = Part {
            typ: copy(&port.typ)?,
            flow: port_flow(port),
        };
        let component = Indexed::new(alloc, names, part, slots)?;
        note(known, port.name.id, component)?;
    }
    Ok(())
}
