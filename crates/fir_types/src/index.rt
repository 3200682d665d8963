//! The index of a bundle's fields.

ghost use Rattle.std.specs.Prelude.{◌≡◌, ◌==◌, ◌+◌, ℕ, List, find, get_or, option_map, IfOk, OnOk};
ghost use Rattle.std.specs.Option.{option_copied};
ghost use Rattle.fir_types.specs.declared.fir_type.Field.{Field as AField};
ghost use Rattle.fir_types.specs.Indexes.{ArePlaces, IsIndexOf, HasIndex, first_at, place_in, with_new};

use crate::fir_type::Field;
use indexmap::IndexMap;
use std::alloc::{AllocError, Global};

/// Where a field stands among those of its bundle, and what the fields before it weigh together.
#[derive(Clone, Copy)]
pub struct FieldPlace {
    pub position: usize,
    pub before: usize,
}

/// The places of a bundle's fields, by the numbers of their names: of each name the first.
#[derive(Drop)]
pub struct FieldIndex {
    places: IndexMap<u32, FieldPlace>,
}

impl FieldIndex {
    /// The index of these fields with these weights, where a field without one weighs nothing. Takes time and memory in
    /// proportion to the number of fields. Where a sum doesn't fit, memory is said to be wanted.
    pub fn new(alloc: Global, fields: &[Field], weights: &[usize]) -> Result<FieldIndex, AllocError>
        ensures { IfOk result (λ index. IsIndexOf index fields.now weights.now) }
    {
        let places = places_of(alloc, fields, weights)?;
        Ok(FieldIndex { places })
    }

    /// The place of the first field that has the name with this number. Takes constant time and no memory.
    pub fn place(&self, id: u32) -> Option<FieldPlace>
        ensures { (fields : List AField) (weights : List ℕ) → IsIndexOf self.now fields weights → result ≡ option_map (place_in weights) (first_at fields id) }
    {
        self.places.get(&id).copied()
    }

    /// The first of these fields that has the name with this number. Takes constant time and no memory.
    pub fn field<'a>(&self, fields: &'a [Field], id: u32) -> Option<&'a Field>
        requires { HasIndex self.now fields.now }
        ensures { option_copied result ≡ find (λ field. field.name.id == id) fields.now }
    {
        match self.place(id) {
            Some(place) => fields.get(place.position),
            None => None,
        }
    }
}

/// The places of fields.
fn places_of(
    alloc: Global,
    fields: &[Field],
    weights: &[usize],
) -> Result<IndexMap<u32, FieldPlace>, AllocError>
    ensures { IfOk result (λ places. ArePlaces places.entries fields.now weights.now) }
{
    let mut places = IndexMap::new(alloc);
    let mut before = 0;
    for position in 0..fields.len() {
        let place = FieldPlace { position, before };
        insert_new(&mut places, fields[position].name.id, place)?;
        before = with_weight(before, weights, position)?;
    }
    Ok(places)
}

/// A sum with one more weight, which is nothing where there is none.
fn with_weight(before: usize, weights: &[usize], position: usize) -> Result<usize, AllocError>
    ensures { IfOk result (λ sum. sum ≡ before + get_or weights.now position 0) }
{
    match weights.get(position) {
        Some(weight) => before.checked_add(*weight).ok_or(AllocError),
        None => Ok(before),
    }
}

/// Inserts a place, unless there is one of its name.
fn insert_new(
    places: &mut IndexMap<u32, FieldPlace>,
    name: u32,
    place: FieldPlace,
) -> Result<(), AllocError>
    ensures { OnOk result (places.new.entries ≡ with_new places.old.entries name place) }
{
    if places.get(&name).is_none() {
        places.insert(name, place)?;
    }
    Ok(())
}
