//! The widths of the places of types.

ghost use Rattle.std.specs.Prelude.{◌≡◌, ◌≤◌, ℕ, ◌++◌, ◌∷◌, [], flat_map, length, OnOk, IfOk};
ghost use Rattle.fir_types.specs.declared.fir_type.FirType.{FirType as AType, size-FirType};
ghost use Rattle.fir_types.specs.declared.fir_type.Shape.TheVariants as shape;
ghost use Rattle.width_rules.specs.Places.{spots, one_spot, node_spots, node_slots, node_size};
ghost use Rattle.width_rules.specs.Layers.{field_spots, node_field_spots, mask_widths, mask_field_widths, Adds};
ghost use Rattle.width_rules.specs.Circuits.{places_for};

use crate::slot::{Slot, capped};
use bit_words::List;
use fir_types::{Field, FirType, Shape, inside_lengths};
use place_text::Place;
use std::alloc::{AllocError, Global};

/// The most places with variables that a circuit may have; more are a want of memory. Each takes 16 bytes, 8 for where it is
/// and 8 for its width in its component, and so many take 0.8 GB.
const MOST_PLACES: usize = 50_000_000;

/// The most that rules may take, in units of 40 bytes; more is a want of memory. A rule is one unit, and so many take 0.64 GB.
pub const MOST_UNITS: usize = 16_000_000;

/// What a choice takes besides the formulas that it is between.
pub const CHOICE_UNITS: usize = 4;

/// Adds the widths of a type's places. Each variable has the next number and this place.
#[cycle(slots)]
pub fn push_slots(
    slots: &mut List<Slot>,
    places: &mut Vec<Place>,
    place: Place,
    typ: &FirType,
) -> Result<(), AllocError>
    ensures { OnOk result (Adds place (spots typ.now) slots.old slots.new places.old.items places.new.items) }
{
    let inside = inside_lengths(typ);
    match &inside.shape {
        Shape::Unsigned(width) | Shape::Signed(width) => push_slot(slots, places, place, *width),
        Shape::Reset | Shape::AsyncReset => push_slot(slots, places, place, Some(1)),
        Shape::Clock => Ok(()),
        Shape::Bundle(fields) => push_field_slots(slots, places, place, fields.as_slice()),
        Shape::Vector(_, _) => unreachable!(),
    }
}

#[cycle(slots)]
fn push_field_slots(
    slots: &mut List<Slot>,
    places: &mut Vec<Place>,
    place: Place,
    fields: &[Field],
) -> Result<(), AllocError>
    ensures { OnOk result (Adds place (flat_map field_spots fields.now) slots.old slots.new places.old.items places.new.items) }
{
    for field in fields {
        push_slots(slots, places, place, &field.typ)?;
    }
    Ok(())
}

/// Adds one width, or a variable where there is none. Too many variables are a want of memory.
fn push_slot(
    slots: &mut List<Slot>,
    places: &mut Vec<Place>,
    place: Place,
    width: Option<u128>,
) -> Result<(), AllocError>
    ensures { OnOk result (Adds place (one_spot width) slots.old slots.new places.old.items places.new.items) }
{
    match width {
        Some(width) => slots.push(Slot::Fixed(capped(width))),
        None => push_variable(slots, places, place),
    }
}

fn push_variable(
    slots: &mut List<Slot>,
    places: &mut Vec<Place>,
    place: Place,
) -> Result<(), AllocError>
    ensures slots { OnOk result (slots.new ≡ slots.old ++ Slot.Var (length places.old.items) ∷ []) }
    ensures places { OnOk result (places.new.items ≡ places.old.items ++ place ∷ []) }
{
    let number = places.len();
    if number >= MOST_PLACES {
        return Err(AllocError);
    }
    slots.push(Slot::Var(number as u32))?;
    places.push(place)?;
    Ok(())
}

/// The widths of a node of this type: each place has a variable, but for an AsyncReset, which has width 1.
pub fn variables(
    alloc: Global,
    places: &mut Vec<Place>,
    place: Place,
    typ: &FirType,
) -> Result<List<Slot>, AllocError>
    ensures slots { IfOk result (λ slots. slots ≡ node_slots (length places.old.items) typ.now) }
    ensures places { OnOk result (places.new.items ≡ places.old.items ++ places_for place (node_size typ.now)) }
{
    let mut slots = List::new(alloc);
    push_node_slots(&mut slots, places, place, typ)?;
    Ok(slots)
}

#[cycle(node_slots)]
fn push_node_slots(
    slots: &mut List<Slot>,
    places: &mut Vec<Place>,
    place: Place,
    typ: &FirType,
) -> Result<(), AllocError>
    ensures { OnOk result (Adds place (node_spots typ.now) slots.old slots.new places.old.items places.new.items) }
{
    let inside = inside_node(typ);
    match &inside.shape {
        Shape::Unsigned(_) | Shape::Signed(_) | Shape::Reset => {
            push_slot(slots, places, place, None)
        }
        Shape::AsyncReset => push_slot(slots, places, place, Some(1)),
        Shape::Clock => Ok(()),
        Shape::Bundle(fields) => push_node_fields(slots, places, place, fields.as_slice()),
        Shape::Vector(_, _) => unreachable!(),
    }
}

#[cycle(node_slots)]
fn push_node_fields(
    slots: &mut List<Slot>,
    places: &mut Vec<Place>,
    place: Place,
    fields: &[Field],
) -> Result<(), AllocError>
    ensures { OnOk result (Adds place (flat_map node_field_spots fields.now) slots.old slots.new places.old.items places.new.items) }
{
    for field in fields {
        push_node_slots(slots, places, place, &field.typ)?;
    }
    Ok(())
}

/// What stands inside a type's vector lengths, whose node has the same places.
fn inside_node(typ: &FirType) -> &FirType
    ensures places { node_spots result.now ≡ node_spots typ.now }
    ensures falls { size-FirType result.now ≤ size-FirType typ.now }
    ensures flat { (element : AType) (length : ℕ) → result.now.shape ≡ shape.Vector element length → ⊥ }
{
    let mut inside = typ;
    while let Shape::Vector(element, _) = &inside.shape {
        inside = element.get();
    }
    inside
}

/// Adds the widths of a mask of this type, which are all 1.
#[cycle(mask)]
pub fn push_mask(slots: &mut List<Slot>, typ: &FirType) -> Result<(), AllocError>
    ensures { OnOk result (slots.new ≡ slots.old ++ mask_widths typ.now) }
{
    let inside = inside_lengths(typ);
    match &inside.shape {
        Shape::Unsigned(_) | Shape::Signed(_) | Shape::Reset | Shape::AsyncReset | Shape::Clock =>
            slots.push(Slot::Fixed(1)),
        Shape::Bundle(fields) => push_field_masks(slots, fields.as_slice()),
        Shape::Vector(_, _) => unreachable!(),
    }
}

#[cycle(mask)]
fn push_field_masks(slots: &mut List<Slot>, fields: &[Field]) -> Result<(), AllocError>
    ensures { OnOk result (slots.new ≡ slots.old ++ flat_map mask_field_widths fields.now) }
{
    for field in fields {
        push_mask(slots, &field.typ)?;
    }
    Ok(())
}
