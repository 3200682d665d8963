//! What declarations come to.

ghost use Rattle.std.specs.Prelude.{◌≡◌, ◌++◌, length, OnOk, IfOk};
ghost use Rattle.fir_types.specs.Memories.{element_of};
ghost use Rattle.fir_tree.specs.declared.part.Flow.TheVariants.{Duplex};
ghost use Rattle.fir_tree.specs.Parts.{part_of};
ghost use Rattle.width_rules.specs.Places.{spots, slots_from, open_spots};
ghost use Rattle.width_rules.specs.Sources.{known_with};
ghost use Rattle.width_rules.specs.Circuits.{places_for};
ghost use Rattle.width_rules.specs.Walks.{memory_component};

use crate::indexed::Indexed;
use crate::memories::memory_of_slots;
use crate::sizes::push_slots;
use crate::slot::Slot;
use bit_words::List;
use fir_tree::steps::no_part;
use fir_tree::{Flow, Names, Part};
use fir_types::{FirType, Memory, copy, element_of};
use indexmap::IndexMap;
use place_text::Place;
use std::alloc::{AllocError, Global};

pub fn duplex(alloc: Global, typ: &FirType) -> Result<Part, AllocError>
    ensures { IfOk result (λ part. part ≡ part_of typ.now Duplex) }
{
    Ok(Part {
        typ: copy(typ)?,
        flow: Flow::Duplex,
    })
}

/// A memory, whose ports share the widths of its elements.
pub fn memory_component(
    alloc: Global,
    names: &Names,
    places: &mut Vec<Place>,
    memory: &Memory,
) -> Result<Indexed, AllocError>
    ensures component { IfOk result (λ component. component ≡ memory_component memory.now (length places.old.items)) }
    ensures places { OnOk result (places.new.items ≡ places.old.items ++ places_for memory.now.name.place (open_spots (spots (element_of memory.now)))) }
{
    let empty = no_part(alloc)?.typ;
    let element = element_of(memory.lines.as_slice(), &empty);
    let slots = slots_of_type(alloc, places, memory.name.place, element)?;
    memory_of_slots(alloc, names, memory, slots)
}

/// The widths of a declared type's places. Those without a width have the next variables.
pub fn slots_of_type(
    alloc: Global,
    places: &mut Vec<Place>,
    place: Place,
    typ: &FirType,
) -> Result<List<Slot>, AllocError>
    ensures slots { IfOk result (λ slots. slots ≡ slots_from (length places.old.items) (spots typ.now)) }
    ensures places { OnOk result (places.new.items ≡ places.old.items ++ places_for place (open_spots (spots typ.now))) }
{
    let mut slots = List::new(alloc);
    push_slots(&mut slots, places, place, typ)?;
    Ok(slots)
}

/// Notes a component by its name, where the name has none.
pub fn note(
    known: &mut IndexMap<u32, Indexed>,
    name: u32,
    component: Indexed,
) -> Result<(), AllocError>
    ensures { OnOk result (known.new.entries ≡ known_with known.old.entries name component) }
{
    if known.get(&name).is_none() {
        known.insert(name, component)?;
    }
    Ok(())
}
